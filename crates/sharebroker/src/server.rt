// A server over TCP: threads, the system's clock, and the files of a folder.
ghost use Rattle.std.specs.Prelude.{◌≡◌, List, ℕ, false};
ghost use Rattle.edge_real.specs.Folders.{out_at};

use crate::ending::{Faults, NO_MEMORY, NO_SEGMENT, tell_status};
use crate::files::ToldFolders;
use crate::looking::look;
use crate::notices::{Pace, Teller};
use edge_real::{
    FolderBay, ReaderSource, SystemClock, SystemFolders, TcpLinks, ThreadSpawner, WriterSink,
};
use share_top::{Address, ServeWords, run};
use std::alloc::AllocError;
use std::io::{Read, Write};
use std::net::{Net, TcpListener, TcpStream};
use std::sync::{Arc, Wait};
use std::thread::Threads;
use std::time::{Clock, Duration};

// How many partitions a server has.
fn partitions(words: &ServeWords) -> u32 {
    let mut all: u32 = 0;
    for topic in words.conf.topics() {
        all = all.saturating_add(topic.parts);
    }
    all
}

// How long a connection may be silent in milliseconds, which is at least as long as a lock lasts. 0 is for ever.
fn idle_time(idle_ms: u32, lock_ms: u32) -> Option<Duration> {
    if idle_ms == 0 {
        return None;
    }
    Some(Duration::from_millis(u64::from(idle_ms.max(lock_ms))))
}

// Tells of a server's connections and files.
fn teller(rt: &HostRuntime, words: &ServeWords) -> Result<Teller, AllocError> {
    let pace = Arc::new(rt.alloc(), Pace::new())?;
    Ok(Teller::new(*rt, Some(pace), partitions(words), words.workers))
}

// What takes memory: who tells, and the texts of the folder and of the host.
fn prepared(
    rt: &HostRuntime,
    listen: &Address,
    served: &ServeWords,
    folder: &str,
) -> Result<(Teller, String, String), AllocError> {
    let teller = teller(rt, served)?;
    let folder = String::from_str(rt.alloc(), folder)?;
    let host = String::from_str(rt.alloc(), listen.host.as_str())?;
    Ok((teller, folder, host))
}

// The disks of a folder. None is out.
fn folder_bay<'a>(rt: &'a HostRuntime, folder: String, teller: Teller) -> FolderBay<ToldFolders<'a>>
    ensures { (name : List ℕ) → out_at result name ≡ false }
{
    let system = SystemFolders { rt };
    FolderBay::over(rt.alloc(), ToldFolders { system, teller }, folder)
}

/// Serves over TCP what the words say, tells what is to be told of the status, and gives it. The words are read as
/// those of a server, with this address and this folder.
pub fn serve_over_tcp<
    H: Net<Listener = TcpListener, Stream = TcpStream>
        + Threads
        + Wait
        + Clock
        + Clone
        + Copy
        + Drop
        + Send
        + Sync
        + 'static,
    R: Read,
    W: Write,
>(
    handle: &H,
    rt: &HostRuntime,
    words: &[String],
    listen: &Address,
    served: &ServeWords,
    folder: &str,
    input: &mut ReaderSource<R>,
    output: &mut WriterSink<W>,
) -> u8 {
    let Ok((teller, folder, host)) = prepared(rt, listen, served, folder) else {
        return tell_status(rt, NO_MEMORY, NO_SEGMENT, Faults::of(input, output, None));
    };
    if let Some(status) = look(rt, words, folder.as_str(), input, output) {
        return status;
    }
    let mut bay = folder_bay(rt, folder, teller.again());
    let idle = idle_time(served.idle_ms, served.conf.lock_ms());
    let mut listener = TcpLinks::new(*handle, host, listen.port, idle, teller.again());
    let mut clock = SystemClock::new(*handle, teller.again());
    let mut spawner = ThreadSpawner::new(*handle);
    let status = run(
        handle,
        rt.alloc(),
        words,
        input,
        output,
        &mut bay,
        &mut clock,
        &mut listener,
        &mut spawner,
    );
    teller.tell_left_out();
    let faults = Faults::of(input, output, bay.last_fault())
        .with_listener(listen, listener.last_fault())
        .with_spawner(spawner.last_fault());
    tell_status(rt, status, NO_SEGMENT, faults)
}
