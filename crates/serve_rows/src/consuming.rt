// Share consumers: over links in memory, whose peers play the broker, and over TCP sockets, against a server beside them.
use crate::board::Board;
use crate::case::Case;
use crate::edges::{Jobs, StepClock};
use crate::serving::{listener_of, status_over};
use crate::socket::{PORT, Ports, client, lines_of};
use edge_io::{Listener, start};
use edge_mem::{MemBay, MemSink, MemSource};
use edge_real::{NoNotices, TcpCalls, TcpLinks, ThreadSpawner};
use share_top::run;
use std::alloc::Global;
use std::io;
use std::net::{Net, TcpListener, TcpStream};
use std::sync::{Arc, Wait};
use std::thread::Threads;
use std::time::Clock;

/// The signal that a server beside a consumer has ended: its status, and one.
const ENDED: usize = 6;

// Runs the top call over a listener, and gives its status and the lines of its output, each with a `;` behind it.
fn told_over<H: Threads + Wait + Clone + Copy + Drop + Send + Sync + 'static, L: Listener>(
    handle: &H,
    rt: HostRuntime,
    words: &[String],
    listener: &mut L,
    jobs: &mut Jobs<H>,
) -> io::Result<String>
where
    L::L: Drop + Send + 'static,
{
    let alloc = rt.alloc();
    let mut bay = MemBay::new(alloc, Vec::new(alloc));
    let mut input = MemSource::new(Vec::new(alloc), Vec::new(alloc));
    let mut output = MemSink::new(alloc, Vec::new(alloc));
    let mut clock = StepClock::new(rt, 0);
    let status = run(
        handle,
        alloc,
        words,
        &mut input,
        &mut output,
        &mut bay,
        &mut clock,
        listener,
        jobs,
    );
    let mut told = format!(in alloc; "{status} ")?;
    for line in str::from_utf8(output.bytes()).unwrap_or("no text").lines() {
        told.push_str(line)?;
        told.push_str(";")?;
    }
    Ok(told)
}

/// Runs the consumer of the case's words over the case's links: its status and its lines.
pub fn consumed<H: Threads + Wait + Clone + Copy + Drop + Send + Sync + 'static>(
    handle: &H,
    rt: HostRuntime,
    case: &mut Case,
) -> io::Result<String> {
    let mut listener = listener_of(rt.alloc(), case)?;
    let mut jobs = Jobs::new(*handle, case.refused);
    told_over(handle, rt, &case.words, &mut listener, &mut jobs)
}

// Runs the server of a case over a socket, and sets the signal of its end.
fn serve_aside<
    H: Net<Listener = TcpListener, Stream = TcpStream>
        + Threads
        + Wait
        + Clock
        + Clone
        + Copy
        + Drop
        + Send
        + Sync
        + 'static,
>(handle: &H, rt: HostRuntime, case: &Case, board: &Arc<Board, Global>) -> io::Result<()> {
    let host = String::from_str(rt.alloc(), "127.0.0.1")?;
    let notices = Ports {
        board: Some(Arc::try_clone(board)?),
    };
    let mut listener = TcpLinks::new(*handle, host, 0, None, notices);
    let status = status_over(handle, rt, case, &mut listener)?;
    let number: u64 = status.parse().unwrap_or(98);
    board.put(ENDED, number.saturating_add(1));
    Ok(())
}

/// Runs the server of the case's words in a thread, a client of it with the lines of the one peer, and then a consumer
/// over sockets: its status and its lines, where the server ends with status 0.
pub fn beside<
    H: Net<Listener = TcpListener, Stream = TcpStream>
        + Threads
        + Wait
        + Clock
        + Clone
        + Copy
        + Drop
        + Send
        + Sync
        + 'static,
>(handle: &H, rt: HostRuntime, case: &mut Case) -> io::Result<String> {
    let alloc = rt.alloc();
    let (own, board) = (*handle, Arc::try_clone(&case.board)?);
    let lines = lines_of(alloc, case);
    let server = case.aside(rt)?;
    let started = start(&mut ThreadSpawner::new(*handle), move || {
        if serve_aside(&own, rt, &server, &board).is_err() {
            board.fail("the server failed");
        }
    });
    if started.is_err() {
        return Ok(String::from_str(alloc, "no thread for the server")?);
    }
    client(handle, &case.board, lines)?;
    let port = u16::try_from(case.board.wait(PORT)).unwrap_or(0);
    let host = String::from_str(alloc, "127.0.0.1")?;
    let mut listener = TcpCalls::new(*handle, host, port, None, NoNotices);
    let mut jobs = Jobs::new(*handle, None);
    let told = told_over(handle, rt, &case.consumer, &mut listener, &mut jobs)?;
    if case.board.wait(ENDED) != 1 {
        case.board.fail("the server has another status than 0");
    }
    Ok(told)
}
