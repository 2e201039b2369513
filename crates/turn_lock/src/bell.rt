//! What wakes the threads that wait to be answered.
use share_model::NoMemory;
use std::alloc::Global;
use std::sync::{Condvar, Mutex, Wait};

/// How often it rang, and how many threads sleep until it rings again.
#[derive(Drop)]
struct Rings {
    count: u64,
    asleep: u32,
}

/// A bell that threads listen to. It says nothing of the shard: who hears it looks at the lock itself.
#[derive(Drop)]
pub struct Bell {
    rings: Mutex<Rings>,
    rang: Condvar,
}

impl Bell {
    pub fn new() -> Bell {
        Bell {
            rings: Mutex::new(Rings {
                count: 0,
                asleep: 0,
            }),
            rang: Condvar::new(),
        }
    }

    /// Wakes all who sleep.
    pub fn ring<R: Wait>(&self, rt: &R) {
        let mut rings = self.rings.lock(rt);
        rings.count = rings.count.wrapping_add(1);
        if rings.asleep > 0 {
            self.rang.notify_all();
        }
    }

    /// How often it rang until now.
    pub fn rings<R: Wait>(&self, rt: &R) -> u64 {
        self.rings.lock(rt).count
    }

    /// Sleeps until it has rung since it had rung so often, and answers how often it rang.
    pub fn sleep_past<R: Wait>(&self, rt: &R, heard: u64) -> u64 {
        let mut rings = self.rings.lock(rt);
        rings.asleep = rings.asleep.saturating_add(1);
        let mut rings = self
            .rang
            .wait_while(rt, rings, |rings| rings.count == heard);
        rings.asleep = rings.asleep.saturating_sub(1);
        rings.count
    }
}

/// A bell for each seat.
#[derive(Drop)]
pub struct Bells {
    first: Bell,
    others: Vec<Bell>,
}

impl Bells {
    pub fn for_seats(alloc: Global, seats: u32) -> Result<Bells, NoMemory> {
        let mut others = Vec::new(alloc);
        for _ in 1..seats {
            others.push(Bell::new())?;
        }
        Ok(Bells {
            first: Bell::new(),
            others,
        })
    }

    /// The bell of the seat whose box has this word: the first one's is 1.
    pub fn for_word(&self, word: usize) -> &Bell {
        match self.others.get(word.wrapping_sub(2)) {
            Some(bell) => bell,
            None => &self.first,
        }
    }
}
