// The cases of a file.
use crate::board::Board;
use crate::consuming::{beside, consumed};
use crate::locks::locks_told;
use crate::peer::{Peer, parted};
use crate::serving::{gated, links_status, numbered, woken};
use crate::socket::socket_status;
use crate::turns::turns;
use row_text::{compared, expanded};
use std::alloc::Global;
use std::collections::VecDeque;
use std::net::{Net, TcpListener, TcpStream};
use std::sync::{Arc, Wait};
use std::thread::Threads;
use std::time::Clock;
use std::{fs, io, mem};

/// How many cases were as they are wanted, and how many weren't.
#[derive(Clone, Copy)]
pub struct Tally {
    pub passed: u64,
    pub failed: u64,
}

/// A server as the lines describe it.
#[derive(Drop)]
pub struct Case {
    pub board: Arc<Board, Global>,
    pub words: Vec<String>,
    /// The words of a consumer beside a server.
    pub consumer: Vec<String>,
    pub step: u64,
    pub holds: bool,
    pub refused: Option<u64>,
    failing: Vec<u64>,
    peers: VecDeque<Peer>,
    name: String,
}

/// The words that stand between blanks.
fn words_of(alloc: Global, text: &str) -> io::Result<Vec<String>> {
    let mut words = Vec::new(alloc);
    for word in text.split(' ').filter(|word| !word.is_empty()) {
        words.push(String::from_str(alloc, word)?)?;
    }
    Ok(words)
}

impl Case {
    fn new(rt: HostRuntime, words: Vec<String>, name: &str) -> io::Result<Case> {
        let alloc = rt.alloc();
        Ok(Case {
            board: Board::new(rt)?,
            words,
            consumer: Vec::new(alloc),
            step: 0,
            holds: false,
            refused: None,
            failing: Vec::new(alloc),
            peers: VecDeque::new(alloc),
            name: String::from_str(alloc, name)?,
        })
    }

    /// The case behind this one, of the same words.
    fn next(self, rt: HostRuntime, name: &str) -> io::Result<Case> {
        Case::new(rt, self.words, name)
    }

    /// A case of the same words, of a server beside a consumer.
    pub fn aside(&self, rt: HostRuntime) -> io::Result<Case> {
        let mut words = Vec::new(rt.alloc());
        for word in &self.words {
            words.push(word.clone()?)?;
        }
        Case::new(rt, words, self.name.as_str())
    }

    /// How many peers take all their lines. A consumer reads nothing of a link that it doesn't need.
    fn players(&self, kind: &str) -> u64 {
        if kind == "consumed" {
            return self.peers.iter().filter(|peer| peer.has_lines()).count() as u64;
        }
        self.peers.len() as u64
    }

    /// The peers, and the calls for a link that fail.
    pub fn take_links(&mut self) -> (VecDeque<Peer>, Vec<u64>) {
        let alloc = self.board.alloc();
        let peers = mem::replace(&mut self.peers, VecDeque::new(alloc));
        (peers, mem::replace(&mut self.failing, Vec::new(alloc)))
    }

    /// Adds a line to the last peer.
    fn add(&mut self, line: &str) -> io::Result<()> {
        let line = expanded(self.board.alloc(), line)?;
        match self.peers.back_mut() {
            Some(peer) => peer.add(line),
            None => {
                self.board.fail(line.as_str());
                Ok(())
            }
        }
    }

    /// Takes a line that says nothing of what has to come.
    fn take(&mut self, line: &str) -> io::Result<()> {
        let (kind, text) = parted(line);
        match kind {
            "" | "#" => {}
            "words" => self.words = words_of(self.board.alloc(), text)?,
            "consumer" => self.consumer = words_of(self.board.alloc(), text)?,
            "step" => self.step = text.parse().unwrap_or(0),
            "link" => self.peers.push_back(Peer::new(&self.board)?)?,
            "hold-write" => self.holds = true,
            "refuse" => self.refused = text.parse().ok(),
            "listener-fails" => self.failing.push(text.parse().unwrap_or(0))?,
            _ => self.add(line)?,
        }
        Ok(())
    }
}

/// What came of the case, in the words of the line that says what has to come. `None` where there is no such line.
fn outcome<
    H: Net<Listener = TcpListener, Stream = TcpStream>
        + Threads
        + Wait
        + Clock
        + Clone
        + Copy
        + Drop
        + Send
        + Sync
        + 'static,
>(handle: &H, rt: HostRuntime, case: &mut Case, kind: &str) -> io::Result<Option<String>> {
    let told = match kind {
        "status" => links_status(handle, rt, case)?,
        "gated" => gated(handle, rt, case)?,
        "woken" => woken(handle, rt, case)?,
        "numbered" => numbered(handle, rt, case)?,
        "expiries" => turns(handle, rt, case)?,
        "socket" => socket_status(handle, rt, case)?,
        "consumed" => consumed(handle, rt, case)?,
        "beside" => beside(handle, rt, case)?,
        _ => return locks_told(handle, rt.alloc(), kind),
    };
    Ok(Some(told))
}

/// Counts a case of so many peers, and tells where it isn't as it is wanted.
fn count(
    rt: HostRuntime,
    tally: &mut Tally,
    case: &Case,
    peers: u64,
    why: Option<String>,
) -> io::Result<()> {
    if let Some(why) = &why {
        case.board.fail(why.as_str());
    }
    if case.board.is_well(peers) {
        tally.passed = tally.passed.saturating_add(1);
        return Ok(());
    }
    tally.failed = tally.failed.saturating_add(1);
    println!(rt; "{}: it isn't as it is wanted", case.name.as_str())
}

/// Runs the cases of a file, and counts them.
pub fn run_file<
    H: Net<Listener = TcpListener, Stream = TcpStream>
        + Threads
        + Wait
        + Clock
        + Clone
        + Copy
        + Drop
        + Send
        + Sync
        + 'static,
>(handle: &H, rt: HostRuntime, tally: &mut Tally, file: &str) -> io::Result<()> {
    let text = fs::read_to_string(&rt, file)?;
    let mut case = Case::new(rt, Vec::new(rt.alloc()), file)?;
    for line in text.as_str().lines() {
        let (kind, text) = parted(line);
        if kind == "case" {
            case = case.next(rt, text)?;
            continue;
        }
        let peers = case.players(kind);
        match outcome(handle, rt, &mut case, kind)? {
            Some(told) => {
                let why = compared(rt.alloc(), told.as_str(), text)?;
                count(rt, tally, &case, peers, why)?;
            }
            None => case.take(line)?,
        }
    }
    Ok(())
}
