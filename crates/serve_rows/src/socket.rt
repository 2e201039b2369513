// A server over a TCP socket of this program's own, and its client.
use crate::board::Board;
use crate::case::Case;
use crate::peer::{judge, parted};
use crate::serving::status_over;
use edge_io::{CloseReason, start};
use edge_real::{SocketNotices, SystemFault, TcpLinks, ThreadSpawner};
use row_text::bytes_of;
use std::alloc::Global;
use std::collections::VecDeque;
use std::io;
use std::io::{Read, Write};
use std::net::{Net, SocketAddr, TcpListener, TcpStream};
use std::sync::{Arc, Wait};
use std::thread::Threads;
use std::time::Clock;

/// The signal that has the port.
pub const PORT: usize = 7;

/// Tells the port of the socket that listens.
#[derive(Drop)]
pub struct Ports {
    pub board: Option<Arc<Board, Global>>,
}

impl SocketNotices for Ports {
    fn listening(&self, at: SocketAddr) {
        if let Some(board) = &self.board {
            board.put(PORT, u64::from(at.port()));
        }
    }

    fn waiting(&self, _fault: SystemFault) {}

    fn failed(&self, _peer: SocketAddr, _fault: SystemFault) {}

    fn idle(&self, _peer: SocketAddr) {}

    fn closed(&self, _peer: SocketAddr, _reason: Option<CloseReason>) {}

    fn for_link(&self) -> Ports {
        Ports { board: None }
    }

    fn begun(&self) {}

    fn for_clock(&self) -> Ports {
        Ports { board: None }
    }

    fn pausing(&self) {}
}

/// Takes a line of a client.
fn take<S: Read + Write>(board: &Board, stream: &mut S, line: &str) -> io::Result<()> {
    let (kind, text) = parted(line);
    let Some(mut bytes) = bytes_of(board.alloc(), text)? else {
        board.fail(line);
        return Ok(());
    };
    match kind {
        "send" => stream.write_all(&bytes),
        "gets" => {
            stream.read_exact(&mut bytes)?;
            judge(board, &bytes, text)
        }
        _ => {
            board.fail(line);
            Ok(())
        }
    }
}

/// Connects to the socket that listens, and takes the lines of a client.
pub fn client<H: Net<Stream = TcpStream>>(
    handle: &H,
    board: &Board,
    lines: VecDeque<String>,
) -> io::Result<()> {
    let port = u16::try_from(board.wait(PORT)).unwrap_or(0);
    let mut stream = TcpStream::connect(handle, ("127.0.0.1", port))?;
    for line in lines {
        take(board, &mut stream, line.as_str())?;
    }
    board.finish();
    Ok(())
}

/// The lines of the one peer.
pub fn lines_of(alloc: Global, case: &mut Case) -> VecDeque<String> {
    let (mut peers, _) = case.take_links();
    match peers.pop_front() {
        Some(peer) => peer.into_lines(),
        None => VecDeque::new(alloc),
    }
}

/// Runs a server over a socket for one client, and gives its status.
pub fn socket_status<
    H: Net<Listener = TcpListener, Stream = TcpStream>
        + Threads
        + Wait
        + Clock
        + Clone
        + Copy
        + Drop
        + Send
        + Sync
        + 'static,
>(handle: &H, rt: HostRuntime, case: &mut Case) -> io::Result<String> {
    let alloc = rt.alloc();
    let notices = Ports {
        board: Some(Arc::try_clone(&case.board)?),
    };
    let host = String::from_str(alloc, "127.0.0.1")?;
    let (board, own) = (Arc::try_clone(&case.board)?, *handle);
    let lines = lines_of(alloc, case);
    let started = start(&mut ThreadSpawner::new(*handle), move || {
        if client(&own, &board, lines).is_err() {
            board.fail("the socket of the client failed");
        }
    });
    if started.is_err() {
        return Ok(String::from_str(alloc, "no thread for the client")?);
    }
    let mut listener = TcpLinks::new(*handle, host, 0, None, notices);
    status_over(handle, rt, case, &mut listener)
}
