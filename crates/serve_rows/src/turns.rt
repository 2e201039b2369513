// Turns of expiries behind links, with no threads.
ghost use Rattle.std.specs.Prelude.{[]};
ghost use Rattle.std.specs.List.{AllByRecursion};
ghost use Rattle.edge_real.specs.Seen.{folder_view};
ghost use Rattle.broker_hosts.specs.Bays.{AreOut};
ghost use Rattle.broker_locks.specs.Acting.{AreOf, HostsAll};
ghost use Rattle.broker_locks.specs.Rows.{IsAlone};

use crate::case::Case;
use crate::disks::{MemFile, MemFolders, bay_of};
use crate::edges::StepClock;
use crate::peer::Peer;
use crate::serving::{folders_of, link_of};
use broker_locks::{Passes, Shared, expiry_turn, open_shared};
use broker_run::serve_connection;
use edge_io::NoGate;
use edge_real::{FileDisk, FolderBay};
use share_top::serve_words;
use std::alloc::Global;
use std::collections::VecDeque;
use std::io;
use std::io::ErrorKind;
use std::sync::Wait;
use topic_conf::Config;

/// Serves a link to its end, and gives how many acts of the turn behind it failed.
fn turn_behind<R: Wait>(
    rt: &R,
    alloc: Global,
    shared: &Shared<FileDisk<MemFile>>,
    passes: &mut Passes<FileDisk<MemFile>>,
    peer: Peer,
    clock: &mut StepClock,
) -> u32
    requires of { AreOf shared.now passes.old }
    requires hosts { HostsAll shared.now.conf shared.now }
    ensures { AreOf shared.now passes.new }
{
    let mut link = link_of(peer);
    serve_connection(rt, alloc, shared, passes, 0, &mut link, clock, &NoGate);
    expiry_turn(rt, shared, passes, clock).faults
}

/// Serves links one after the other, with a turn behind each, and gives how many acts of each turn failed.
fn turns_behind<R: Wait>(
    rt: &R,
    alloc: Global,
    shared: &Shared<FileDisk<MemFile>>,
    passes: &mut Passes<FileDisk<MemFile>>,
    peers: VecDeque<Peer>,
    clock: &mut StepClock,
) -> io::Result<String>
    requires of { AreOf shared.now passes.old }
    requires hosts { HostsAll shared.now.conf shared.now }
{
    let mut told = String::new(alloc);
    for peer in peers {
        let faults = turn_behind(rt, alloc, shared, passes, peer, clock);
        let blank = if told.is_empty() { "" } else { " " };
        told.push_str(format!(in alloc; "{blank}{faults}")?.as_str())?;
    }
    Ok(told)
}

/// The same, through the last row of passes.
fn turns_of_row<R: Wait>(
    rt: &R,
    alloc: Global,
    shared: &Shared<FileDisk<MemFile>>,
    rows: Vec<Passes<FileDisk<MemFile>>>,
    peers: VecDeque<Peer>,
    clock: &mut StepClock,
) -> io::Result<String>
    requires hosts { HostsAll shared.now.conf shared.now }
    requires all { AllByRecursion (IsAlone shared.now) rows.items }
{
    let mut rows = rows;
    let Some(passes) = rows.pop() else {
        return Err(io::Error::from(ErrorKind::InvalidData));
    };
    let mut passes = passes;
    turns_behind(rt, alloc, shared, &mut passes, peers, clock)
}

/// The same, over the disks of a bay.
fn turns_over<R: Wait>(
    rt: &R,
    alloc: Global,
    bay: &mut FolderBay<MemFolders>,
    conf: Config,
    peers: VecDeque<Peer>,
    clock: &mut StepClock,
) -> io::Result<String>
    requires { AreOut folder_view [] bay.old }
{
    let (shared, rows) = match open_shared(alloc, bay, conf, 1) {
        Ok(opened) => opened,
        Err(_) => return Err(io::Error::from(ErrorKind::InvalidData)),
    };
    turns_of_row(rt, alloc, &shared, rows, peers, clock)
}

/// Serves the case's links one after the other, with a turn of expiries behind each.
pub fn turns<R: Wait>(handle: &R, rt: HostRuntime, case: &mut Case) -> io::Result<String> {
    let alloc = rt.alloc();
    let (folders, folder) = folders_of(case)?;
    let (peers, _) = case.take_links();
    let Ok(Some((_, words))) = serve_words(alloc, &case.words) else {
        return Ok(String::from_str(alloc, "no words of a server")?);
    };
    let mut bay = bay_of(alloc, folders, folder);
    let mut clock = StepClock::new(rt, case.step);
    turns_over(handle, alloc, &mut bay, words.conf, peers, &mut clock)
}
