// What a request asks for, by its epoch.
ghost use Rattle.std.specs.Prelude.{◌≡◌, IfOk, OnOk};
ghost use Rattle.std.specs.Option.{option_copied};
ghost use Rattle.share_session.specs.Sessions.{next_epoch};
ghost use Rattle.share_session.specs.Plans.{plan_of, visit_list, fetch_visits, without_shards, partitions_of, session_after};
ghost use Rattle.share_session.specs.Plans.{opening, fetching, acknowledging, closing, fetch_by_epoch, ack_by_epoch};

use crate::change::SessionChange;
use crate::planned::Planned;
use crate::session::Session;
use crate::step::{Caller, Purpose, VisitPlan};
use crate::visits::{fetch_visits, other_releases, releases, visits_of};
use indexmap::{IndexMap, IndexSet};
use share_model::{AckList, NoMemory};
use std::alloc::Global;

/// The epoch behind this one: 1 follows 2147483647.
pub fn next_epoch(epoch: i32) -> i32
    ensures { result ≡ next_epoch epoch }
{
    if epoch < i32::MAX { epoch + 1 } else { 1 }
}

// The partitions of a session, none where it isn't there.
fn partitions_of(session: Option<&Session>) -> &[u32]
    ensures { result.now ≡ partitions_of (option_copied session.entry) }
{
    match session {
        Some(session) => session.partitions(),
        None => &[],
    }
}

// A copy of them.
fn copied_partitions(alloc: Global, session: Option<&Session>) -> Result<IndexSet<u32>, NoMemory>
    ensures { IfOk result (λ list. list.keys ≡ partitions_of (option_copied session.entry)) }
{
    match session {
        Some(session) => session.copied_partitions(),
        None => Ok(IndexSet::new(alloc)),
    }
}

// The partitions of the request join the list.
fn join(list: &mut IndexSet<u32>, wanted: &IndexMap<u32, AckList>) -> Result<(), NoMemory>
    ensures { OnOk result (list.new.keys ≡ visit_list list.old.keys wanted.now.entries) }
{
    for (shard, _) in wanted {
        list.insert(*shard)?;
    }
    Ok(())
}

// The forgotten partitions leave the list.
fn leave(list: &mut IndexSet<u32>, forgotten: &IndexSet<u32>)
    ensures { list.new.keys ≡ without_shards forgotten.now.keys list.old.keys }
{
    list.retain(|shard| !forgotten.contains(shard));
}

// The session behind this epoch.
fn session_after(caller: &Caller, epoch: i32, list: IndexSet<u32>) -> Session
    ensures { result ≡ session_after caller.now epoch list.keys }
{
    Session::new(caller.group, caller.member, next_epoch(epoch), list)
}

// The visits of a fetch in a session that had this list, and the session after it.
fn visited(
    alloc: Global,
    caller: &Caller,
    epoch: i32,
    list: IndexSet<u32>,
    wanted: IndexMap<u32, AckList>,
    forgotten: &IndexSet<u32>,
) -> Result<(VisitPlan, Session), NoMemory>
    ensures told { IfOk result (λ r. r.0.items
        ≡ fetch_visits caller.now epoch wanted.entries forgotten.now.keys (visit_list list.keys wanted.entries)) }
    ensures session { IfOk result (λ r. r.1
        ≡ session_after caller.now epoch (without_shards forgotten.now.keys (visit_list list.keys wanted.entries))) }
{
    let mut list = list;
    join(&mut list, &wanted)?;
    let told = fetch_visits(alloc, caller, epoch, wanted, forgotten, list.as_slice())?;
    leave(&mut list, forgotten);
    Ok((told, session_after(caller, epoch, list)))
}

// A fetch that opens a session.
fn opening(
    alloc: Global,
    caller: &Caller,
    session: Option<&Session>,
    wanted: IndexMap<u32, AckList>,
    forgotten: &IndexSet<u32>,
) -> Result<Planned, NoMemory>
    ensures { IfOk result (λ plan. plan_of plan ≡ opening caller.now (option_copied session.entry) wanted.entries forgotten.now.keys) }
{
    let released = releases(alloc, caller, partitions_of(session))?;
    let (told, after) = visited(alloc, caller, 0, IndexSet::new(alloc), wanted, forgotten)?;
    Ok(Planned {
        released,
        told,
        closed: Vec::new(alloc),
        change: SessionChange::Open(after),
    })
}

// A fetch of an epoch above 0.
fn fetching(
    alloc: Global,
    caller: &Caller,
    session: Option<&Session>,
    epoch: i32,
    wanted: IndexMap<u32, AckList>,
    forgotten: &IndexSet<u32>,
) -> Result<Planned, NoMemory>
    ensures { IfOk result (λ plan. plan_of plan ≡ fetching caller.now (option_copied session.entry) epoch wanted.entries forgotten.now.keys) }
{
    let list = copied_partitions(alloc, session)?;
    let (told, after) = visited(alloc, caller, epoch, list, wanted, forgotten)?;
    Ok(Planned {
        released: Vec::new(alloc),
        told,
        closed: Vec::new(alloc),
        change: SessionChange::Put(after),
    })
}

// An acknowledgement of an epoch above 0.
fn acknowledging(
    alloc: Global,
    caller: &Caller,
    session: Option<&Session>,
    epoch: i32,
    wanted: IndexMap<u32, AckList>,
) -> Result<Planned, NoMemory>
    ensures { IfOk result (λ plan. plan_of plan ≡ acknowledging caller.now (option_copied session.entry) epoch wanted.entries) }
{
    let told = visits_of(alloc, caller, Purpose::Nothing, wanted)?;
    let list = copied_partitions(alloc, session)?;
    Ok(Planned {
        released: Vec::new(alloc),
        told,
        closed: Vec::new(alloc),
        change: SessionChange::Put(session_after(caller, epoch, list)),
    })
}

// A request of epoch -1.
fn closing(
    alloc: Global,
    caller: &Caller,
    session: Option<&Session>,
    wanted: IndexMap<u32, AckList>,
) -> Result<Planned, NoMemory>
    ensures { IfOk result (λ plan. plan_of plan ≡ closing caller.now (option_copied session.entry) wanted.entries) }
{
    let closed = other_releases(alloc, caller, partitions_of(session), &wanted)?;
    let told = visits_of(alloc, caller, Purpose::Release, wanted)?;
    Ok(Planned {
        released: Vec::new(alloc),
        told,
        closed,
        change: SessionChange::Leave {
            group: caller.group,
            member: caller.member,
        },
    })
}

/// What a fetch asks for that isn't refused.
pub fn fetch_by_epoch(
    alloc: Global,
    caller: &Caller,
    session: Option<&Session>,
    epoch: i32,
    wanted: IndexMap<u32, AckList>,
    forgotten: &IndexSet<u32>,
) -> Result<Planned, NoMemory>
    ensures { IfOk result (λ plan. plan_of plan ≡ fetch_by_epoch caller.now (option_copied session.entry) epoch wanted.entries forgotten.now.keys) }
{
    match epoch {
        -1 => closing(alloc, caller, session, wanted),
        0 => opening(alloc, caller, session, wanted, forgotten),
        _ => fetching(alloc, caller, session, epoch, wanted, forgotten),
    }
}

/// What an acknowledgement asks for that isn't refused.
pub fn ack_by_epoch(
    alloc: Global,
    caller: &Caller,
    session: Option<&Session>,
    epoch: i32,
    wanted: IndexMap<u32, AckList>,
) -> Result<Planned, NoMemory>
    ensures { IfOk result (λ plan. plan_of plan ≡ ack_by_epoch caller.now (option_copied session.entry) epoch wanted.entries) }
{
    match epoch {
        -1 => closing(alloc, caller, session, wanted),
        _ => acknowledging(alloc, caller, session, epoch, wanted),
    }
}
