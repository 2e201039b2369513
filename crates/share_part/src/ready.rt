// A fetch that is planned before the acknowledgements before it are stored, and takes no memory behind them.
ghost use Rattle.std.specs.Prelude.{◌≡◌, ◌≤◌, ◌+◌, ◌^◌, ◌<◌, ℕ, List, IfOk, IfSome, IsSome, length, unwrap_or};
ghost use Rattle.std.specs.BTreeMap.{is_at};
ghost use Rattle.std.specs.Cmp.Lexicographic.{slice_cmp};
ghost use Rattle.std.specs.List.{AllByRecursion};
ghost use Rattle.std.specs.Map.{lookup};
ghost use Rattle.std.specs.Ordering.{nat_cmp};
ghost use Rattle.part_log.specs.Logs.{IsStoredLog, log_in};
ghost use Rattle.share_coord.specs.States.{states_of};
ghost use Rattle.share_model.specs.ForeignRules.{share_state_at};
ghost use Rattle.share_part.specs.Collecting.{IsPlanOf};
ghost use Rattle.share_model.specs.Logs.{Batch};
ghost use Rattle.share_part.specs.Foreseeing.{HasSpare, IsPrepared, IsReady, IsTold, JudgesAcks, MovesBy};
ghost use Rattle.share_part.specs.Hosting.{AreHosted, HoldsWell, key_of};
ghost use Rattle.share_part.specs.Making.{state_for};
ghost use Rattle.share_part.specs.Shards.{held_in, with_held};
ghost use Rattle.share_part.specs.Tables.{table_of, with_holds};
ghost use Rattle.share_part.specs.Walks.{IsSmallGrant, Walk, written_out};
ghost use Rattle.topic_conf.specs.Configs.{IsLimit};

use crate::acks::Acks;
use crate::conf::PartConf;
use crate::fetch::{planned, planned_behind};
use crate::limits::Limits;
use crate::plan::{Plan, Ready};
use crate::windows::{add_window, hold, set_aside};
use edge_io::Disk;
use flex_fields::Items;
use lock_index::Window;
use offset_runs::Runs;
use part_log::PartLog;
use share_coord::Coord;
use share_model::{AckOutcome, Name, NoMemory, Room, ThenOutcome, Visit, VisitAnswer};
use std::alloc::Global;
use std::collections::BTreeMap;

// What a fetch will take behind the acknowledgements, where these change something.
fn planned_moves<D: Disk, W: Window>(
    alloc: Global,
    conf: &PartConf,
    log: &PartLog<D>,
    states: &Coord<D>,
    windows: &BTreeMap<Name, W>,
    visit: &Visit,
    acks: &Acks,
    rows: &Runs,
    limits: Limits,
) -> Result<Option<Plan>, NoMemory>
    requires there { IsSome (lookup (is_at (slice_cmp nat_cmp visit.now.group)) windows.now.entries) }
    requires sound { IsStoredLog log.now.batches }
    requires limit { IsLimit conf.now.limit }
    requires hosted { AreHosted conf.now (log_in log.now) (states_of states.now.entries) }
    requires well { HoldsWell log.now.batches
        (share_state_at (states_of states.now.entries) (key_of conf.now visit.now.group))
        (held_in W.held windows.now.entries visit.now.group) }
    requires judged { JudgesAcks conf.now.limit log.now.start visit.now log.now.batches
        (held_in W.held windows.now.entries visit.now.group)
        (share_state_at (states_of states.now.entries) (key_of conf.now visit.now.group)) rows.now.list acks.now }
    ensures moves { IfOk result (MovesBy conf.now.limit log.now.start visit.now log.now.batches
        (table_of (state_for conf.now (log_in log.now) states.now.entries visit.now.group)
        (held_in W.held windows.now.entries visit.now.group))
        limits rows.now.list acks.now) }
    ensures told { IfOk result (λ moves. IfSome moves IsTold) }
{
    let moved = match acks {
        Acks::Malformed(_) => return Ok(None),
        Acks::Empty => return Ok(None),
        Acks::NotHeld(_) => return Ok(None),
        Acks::Changes(moved) => moved,
    };
    let plan = planned_behind(
        alloc, conf, log, states, windows, visit, moved, rows, limits,
    )?;
    Ok(Some(plan))
}

// How many holds and bytes two plans take at most.
fn larger(stays: &Plan, moves: &Option<Plan>) -> (u32, u32)
    ensures holds { stays.now.count ≤ result.0 }
    ensures bytes { stays.now.size ≤ result.1 }
    ensures behind { IfSome moves.now (λ plan. (plan.count ≤ result.0) × (plan.size ≤ result.1)) }
{
    match moves {
        Some(plan) => (stays.count.max(plan.count), stays.size.max(plan.size)),
        None => (stays.count, stays.size),
    }
}

/// Plans a fetch of a group that has a table, whatever becomes of the write of the acknowledgements before it, and sets
/// aside all the memory that it takes.
pub fn ready<D: Disk, W: Window>(
    alloc: Global,
    conf: &PartConf,
    log: &PartLog<D>,
    states: &Coord<D>,
    windows: &mut BTreeMap<Name, W>,
    visit: &Visit,
    acks: &Acks,
    rows: &Runs,
    limits: Limits,
) -> Result<Ready, NoMemory>
    requires sound { IsStoredLog log.now.batches }
    requires limit { IsLimit conf.now.limit }
    requires hosted { AreHosted conf.now (log_in log.now) (states_of states.now.entries) }
    requires well { HoldsWell log.now.batches
        (share_state_at (states_of states.now.entries) (key_of conf.now visit.now.group))
        (held_in W.held windows.old.entries visit.now.group) }
    requires judged { JudgesAcks conf.now.limit log.now.start visit.now log.now.batches
        (held_in W.held windows.old.entries visit.now.group)
        (share_state_at (states_of states.now.entries) (key_of conf.now visit.now.group)) rows.now.list acks.now }
    ensures held { (other : List ℕ) →
        held_in W.held windows.new.entries other ≡ held_in W.held windows.old.entries other }
    ensures ready { IfOk result (IsReady W.spare windows.new.entries conf.now.limit log.now.start visit.now
        log.now.batches (table_of (state_for conf.now (log_in log.now) states.now.entries visit.now.group)
        (held_in W.held windows.old.entries visit.now.group))
        rows.now.list acks.now limits) }
{
    let group = &visit.group;
    add_window(alloc, windows, group)?;
    let stays = planned(alloc, conf, log, states, windows, group, limits)?;
    let moves = planned_moves(alloc, conf, log, states, windows, visit, acks, rows, limits)?;
    let (count, size) = larger(&stays, &moves);
    set_aside(windows, group, count)?;
    let mut out = Room::new(alloc);
    out.reserve(size)?;
    Ok(Ready { stays, moves, out })
}

/// Plans a fetch of a group, by its table or the one that it would get, and sets aside all the memory that it takes.
pub fn prepared<D: Disk, W: Window>(
    alloc: Global,
    conf: &PartConf,
    log: &PartLog<D>,
    states: &Coord<D>,
    windows: &mut BTreeMap<Name, W>,
    group: &Name,
    limits: Limits,
) -> Result<(Plan, Room), NoMemory>
    requires sound { IsStoredLog log.now.batches }
    requires hosted { AreHosted conf.now (log_in log.now) (states_of states.now.entries) }
    requires well { HoldsWell log.now.batches
        (share_state_at (states_of states.now.entries) (key_of conf.now group.now))
        (held_in W.held windows.old.entries group.now) }
    ensures held { (other : List ℕ) →
        held_in W.held windows.new.entries other ≡ held_in W.held windows.old.entries other }
    ensures prepared { IfOk result (λ x. IsPrepared W.spare windows.new.entries group.now log.now.batches
        (table_of (state_for conf.now (log_in log.now) states.now.entries group.now)
        (held_in W.held windows.old.entries group.now))
        limits x.0 x.1) }
{
    add_window(alloc, windows, group)?;
    let plan = planned(alloc, conf, log, states, windows, group, limits)?;
    set_aside(windows, group, plan.count)?;
    let mut out = Room::new(alloc);
    out.reserve(plan.size)?;
    Ok((plan, out))
}

/// Which plan a fetch goes by, once the acknowledgements before it are answered.
pub fn chosen(ready: Ready, ack: AckOutcome) -> (Plan, Room)
    ensures out { result.1 ≡ ready.out }
    ensures done { ack ≡ AckOutcome.Done → result.0 ≡ unwrap_or ready.moves ready.stays }
    ensures others { (ack ≡ AckOutcome.Done → ⊥) → result.0 ≡ ready.stays }
{
    let Ready { stays, moves, out } = ready;
    match ack {
        AckOutcome::Done => (moves.unwrap_or(stays), out),
        AckOutcome::Malformed(_) => (stays, out),
        AckOutcome::NotHeld { .. } => (stays, out),
        AckOutcome::Store(_) => (stays, out),
    }
}

/// Answers a fetch by its plan and the bytes of its batches, and holds the offsets until the clock plus the lock
/// duration. It takes no memory.
pub fn hand_out<W: Window>(
    conf: &PartConf,
    windows: &mut BTreeMap<Name, W>,
    clock: u64,
    visit: &Visit,
    plan: Plan,
    batches: Room,
) -> VisitAnswer
    requires clock { clock ≤ 2 ^ 62 }
    requires plan { (log : List Batch) × (walk : Walk) × IsPlanOf log plan walk }
    requires told { IsTold plan }
    requires room { HasSpare W.spare windows.old.entries visit.now.group plan.count }
    ensures ack { result.ack ≡ AckOutcome.Done }
    ensures outcome { result.then ≡ ThenOutcome.Done }
    ensures grants { result.grants ≡ plan.grants.items }
    ensures batches { result.batches ≡ batches.bytes }
    ensures held { (other : List ℕ) → held_in W.held windows.new.entries other ≡ with_held (held_in W.held windows.old.entries) visit.now.group
        (with_holds visit.now.member (clock + conf.now.lock_ms) (written_out plan.grants.items)
        (held_in W.held windows.old.entries visit.now.group)) other }
    ensures ranges { AllByRecursion IsSmallGrant result.grants }
{
    let end = clock + u64::from(conf.lock_ms());
    hold(windows, &visit.group, &visit.member, end, &plan.grants);
    VisitAnswer {
        ack: AckOutcome::Done,
        then: ThenOutcome::Done,
        grants: Items::new(plan.grants),
        batches: batches.into_blob(),
    }
}
