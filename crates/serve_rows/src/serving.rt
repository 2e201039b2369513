// Servers over links in memory.
use crate::board::HEARD;
use crate::case::Case;
use crate::disks::{MemFolders, bay_of};
use crate::edges::{AskedClock, HeldLink, HeldProduce, Jobs, LinkNumbers, StepClock};
use crate::peer::Peer;
use broker_run::{LinksEnd, Served};
use edge_io::{Clock, Gate, Listener};
use edge_mem::{MemListener, MemSink, MemSource};
use edge_real::{NoNotices, TcpLink};
use share_top::{run, serve_words};
use std::alloc::Global;
use std::collections::VecDeque;
use std::io;
use std::net::{IpAddr, Ipv4Addr, SocketAddr};
use std::sync::{Arc, Wait};
use std::thread::Threads;

/// A link whose peer is in memory.
pub type Link = TcpLink<Peer, NoNotices>;

/// The link of a peer.
pub fn link_of(peer: Peer) -> Link {
    let address = SocketAddr::new(IpAddr::V4(Ipv4Addr::LOCALHOST), 0);
    TcpLink::new(peer, address, NoNotices)
}

/// A listener of the links of a case.
pub fn listener_of(alloc: Global, case: &mut Case) -> io::Result<MemListener<Link>> {
    let (peers, failing) = case.take_links();
    let mut links = VecDeque::new(alloc);
    for peer in peers {
        links.push_back(link_of(peer))?;
    }
    Ok(MemListener::new(links, failing))
}

/// The folders of a case's disks, and the name of the one that they stand in.
pub fn folders_of(case: &Case) -> io::Result<(MemFolders, String)> {
    let folders = MemFolders {
        board: Arc::try_clone(&case.board)?,
        holds: case.holds,
    };
    Ok((folders, String::from_str(case.board.alloc(), "data")?))
}

/// Runs the top call over a listener, and gives its status.
pub fn status_over<H: Threads + Wait + Clone + Copy + Drop + Send + Sync + 'static, L: Listener>(
    handle: &H,
    rt: HostRuntime,
    case: &Case,
    listener: &mut L,
) -> io::Result<String>
where
    L::L: Drop + Send + 'static,
{
    let alloc = rt.alloc();
    let (folders, folder) = folders_of(case)?;
    let mut bay = bay_of(alloc, folders, folder);
    let mut input = MemSource::new(Vec::new(alloc), Vec::new(alloc));
    let mut output = MemSink::new(alloc, Vec::new(alloc));
    let mut clock = StepClock::new(rt, case.step);
    let mut jobs = Jobs::new(*handle, case.refused);
    let status = run(
        handle,
        alloc,
        &case.words,
        &mut input,
        &mut output,
        &mut bay,
        &mut clock,
        listener,
        &mut jobs,
    );
    Ok(format!(in alloc; "{status}")?)
}

/// The status of a server of the case's links.
pub fn links_status<H: Threads + Wait + Clone + Copy + Drop + Send + Sync + 'static>(
    handle: &H,
    rt: HostRuntime,
    case: &mut Case,
) -> io::Result<String> {
    let mut listener = listener_of(rt.alloc(), case)?;
    status_over(handle, rt, case, &mut listener)
}

/// What became of a server, as a word.
fn word_of(served: &Served) -> &'static str {
    match served {
        Served::Ended(LinksEnd::Served) => "served",
        Served::Ended(_) => "ended otherwise",
        Served::Refused(_) => "refused",
    }
}

/// Serves the case's links with a clock and a gate, and tells what became of the server.
fn past<
    H: Threads + Wait + Clone + Copy + Drop + Send + Sync + 'static,
    C: Clock + Drop + Send + 'static,
    G: Gate + Drop + Send + Sync + 'static,
>(handle: &H, rt: HostRuntime, case: &mut Case, clock: &C, gate: G) -> io::Result<String> {
    let alloc = rt.alloc();
    let (folders, folder) = folders_of(case)?;
    let mut listener = listener_of(alloc, case)?;
    let Ok(Some((_, words))) = serve_words(alloc, &case.words) else {
        return Ok(String::from_str(alloc, "no words of a server")?);
    };
    let mut bay = bay_of(alloc, folders, folder);
    let mut jobs = Jobs::new(*handle, case.refused);
    let served = broker_run::serve(
        handle,
        alloc,
        words.conf,
        words.workers.min(256),
        words.accept,
        &mut bay,
        clock,
        &mut listener,
        &mut jobs,
        gate,
    );
    Ok(String::from_str(alloc, word_of(&served))?)
}

/// Serves the case's links with a gate that holds link 0.
pub fn gated<H: Threads + Wait + Clone + Copy + Drop + Send + Sync + 'static>(
    handle: &H,
    rt: HostRuntime,
    case: &mut Case,
) -> io::Result<String> {
    let board = Arc::try_clone(&case.board)?;
    let clock = StepClock::new(rt, case.step);
    past(handle, rt, case, &clock, HeldLink { board })
}

/// Serves the case's links with clocks that count how often they are asked, and a gate that holds link 1.
pub fn woken<H: Threads + Wait + Clone + Copy + Drop + Send + Sync + 'static>(
    handle: &H,
    rt: HostRuntime,
    case: &mut Case,
) -> io::Result<String> {
    let board = Arc::try_clone(&case.board)?;
    let clock = AskedClock {
        board: Some(Arc::try_clone(&case.board)?),
    };
    past(handle, rt, case, &clock, HeldProduce { board })
}

/// Serves the case's links with a gate that hears their numbers, and tells how many replies there were.
pub fn numbered<H: Threads + Wait + Clone + Copy + Drop + Send + Sync + 'static>(
    handle: &H,
    rt: HostRuntime,
    case: &mut Case,
) -> io::Result<String> {
    let board = Arc::try_clone(&case.board)?;
    let clock = StepClock::new(rt, case.step);
    let became = past(handle, rt, case, &clock, LinkNumbers { board })?;
    Ok(format!(in rt.alloc(); "{became} {}", case.board.told(HEARD))?)
}
