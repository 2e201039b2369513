// A share consumer over TCP: it calls the broker at an address.
ghost use Rattle.std.specs.Prelude.{◌≡◌, List, ℕ, false};
ghost use Rattle.edge_mem.specs.Bays.{out_at};

use crate::ending::{Faults, NO_MEMORY, NO_SCRIPT, tell_status};
use edge_mem::MemBay;
use edge_real::{NoNotices, ReaderSource, SystemClock, TcpCalls, ThreadSpawner, WriterSink};
use share_top::{Address, run};
use std::io::{Read, Write};
use std::net::{Net, TcpListener, TcpStream};
use std::sync::Wait;
use std::thread::Threads;
use std::time::{Clock, Duration};

// How long a broker may be silent that owes a reply, in milliseconds. Behind that its link is lost.
const SILENCE_MS: u64 = 30_000;

/// A fresh bay. No disk of it is out.
pub fn memory_bay(rt: &HostRuntime) -> MemBay
    ensures { (name : List ℕ) → out_at result name ≡ false }
{
    MemBay::new(rt.alloc(), Vec::new(rt.alloc()))
}

/// Consumes over TCP what the words say, tells what is to be told of the status, and gives it. The words are read as
/// those of a share consumer, with this address.
pub fn consume_over_tcp<
    H: Net<Listener = TcpListener, Stream = TcpStream>
        + Threads
        + Wait
        + Clock
        + Clone
        + Copy
        + Drop
        + Send
        + Sync
        + 'static,
    R: Read,
    W: Write,
>(
    handle: &H,
    rt: &HostRuntime,
    words: &[String],
    connect: &Address,
    input: &mut ReaderSource<R>,
    output: &mut WriterSink<W>,
) -> u8 {
    let Ok(host) = String::from_str(rt.alloc(), connect.host.as_str()) else {
        return tell_status(rt, NO_MEMORY, NO_SCRIPT, Faults::of(input, output, None));
    };
    let silence = Some(Duration::from_millis(SILENCE_MS));
    let mut bay = memory_bay(rt);
    let mut listener = TcpCalls::new(*handle, host, connect.port, silence, NoNotices);
    let mut clock = SystemClock::new(*handle, NoNotices);
    let mut spawner = ThreadSpawner::new(*handle);
    let status = run(
        handle,
        rt.alloc(),
        words,
        input,
        output,
        &mut bay,
        &mut clock,
        &mut listener,
        &mut spawner,
    );
    let faults = Faults::of(input, output, None)
        .with_listener(connect, listener.last_fault())
        .with_spawner(spawner.last_fault());
    tell_status(rt, status, NO_SCRIPT, faults)
}
