use futures::task::{Doorbell, Queue};
use share_model::NoMemory;
use std::alloc::Global;
use std::io;
use std::random::RandomSource;

// A source of bytes that gives this number, the name of a queue.
#[derive(Clone, Copy)]
struct Named {
    number: u64,
}

impl RandomSource for Named {
    fn fill_bytes(&self, buf: &mut [u8]) -> io::Result<()> {
        let name = self.number.to_ne_bytes();
        for (into, byte) in buf.iter_mut().zip(name.iter()) {
            *into = *byte;
        }
        Ok(())
    }
}

/// The queue of a wait, which is its one task and is to be polled at once. A waker finds its queue by the number, so no two
/// queues that are in use at a time may have the same: a wake could be lost.
pub fn make_queue(alloc: Global, number: u64) -> Result<Queue, NoMemory> {
    let Ok(queue) = Queue::new(&(Named { number }, alloc), Doorbell::parking()) else {
        return Err(NoMemory);
    };
    match queue.add() {
        Ok(vacancy) => vacancy.schedule(),
        Err(_) => return Err(NoMemory),
    }
    Ok(queue)
}
