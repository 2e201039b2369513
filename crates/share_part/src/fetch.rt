// The pieces of a fetch.
ghost use Rattle.std.specs.Prelude.{◌≡◌, ◌≢◌, ◌≤◌, ◌<◌, ◌+◌, ◌^◌, ◌++◌, pos, ◌≤ℤ◌, List, [], None, Ok, true, false, IsErr, IsSome, IfOk, OnOk, length, vec_len};
ghost use Rattle.std.specs.BTreeMap.{is_at};
ghost use Rattle.std.specs.Cmp.Lexicographic.{slice_cmp};
ghost use Rattle.std.specs.List.{AllByRecursion};
ghost use Rattle.std.specs.Map.{lookup};
ghost use Rattle.std.specs.Ordering.{nat_cmp};
ghost use Rattle.edge_io.specs.Disk.{IsTold};
ghost use Rattle.coord_checkpoint.specs.Disks.{HasFailed};
ghost use Rattle.share_model.specs.ForeignRules.{share_state_at, size_of};
ghost use Rattle.share_model.specs.declared.fault.BatchRead.{BatchRead};
ghost use Rattle.part_log.specs.Logs.{IsStoredLog, log_in};
ghost use Rattle.share_coord.specs.Calls.{IsInitialised};
ghost use Rattle.share_coord.specs.Stored.{kept_at};
ghost use Rattle.topic_conf.specs.Configs.{IsLimit};
ghost use Rattle.share_part.specs.Collecting.{IsPlanOf};
ghost use Rattle.share_part.specs.Foreseeing.{HasChange, IsPlanBehind};
ghost use Rattle.share_part.specs.Settling.{change_of};
ghost use Rattle.share_part.specs.Hosting.{AreHosted, HoldsWell, key_of};
ghost use Rattle.share_coord.specs.States.{states_of};
ghost use Rattle.share_part.specs.Named.{named_from};
ghost use Rattle.share_part.specs.Making.{IsTableRecord, MakesOnce, MakesTableOnce, numbered_bytes, state_for};
ghost use Rattle.share_part.specs.Once.{ReadsBatches};
ghost use Rattle.share_part.specs.Shards.{first_start, held_in};
ghost use Rattle.share_part.specs.Tables.{table_of};
ghost use Rattle.share_part.specs.Walks.{acquired};
ghost use Rattle.share_part.specs.Failures.{RunOnBoth};

use crate::conf::PartConf;
use crate::limits::Limits;
use crate::plan::Plan;
use crate::settle::Moved;
use crate::walk::{plan, plan_laid};
use edge_io::{Disk, Failed};
use lock_index::Window;
use offset_runs::Runs;
use part_log::{BatchRead, PartLog};
use share_coord::{Coord, CoordFault, StateView};
use share_model::{Key, Name, NoMemory, Reset, Room, ThenOutcome, Visit};
use std::alloc::Global;
use std::collections::BTreeMap;

/// The offset that a state's start is.
pub fn start_of(view: &StateView) -> u64
    ensures { result ≡ size_of view.now.state.start }
{
    if view.start < 0 { 0 } else { view.start as u64 }
}

// Where a new group begins in a log.
fn first_start<D: Disk>(reset: Reset, log: &PartLog<D>) -> u64
    ensures start { result ≡ first_start reset (log_in log.now) }
    ensures above { log.now.start ≤ result }
    ensures below { result ≤ 2 ^ 62 }
{
    let start = log.start();
    let end = log.end();
    match reset {
        Reset::Latest => end,
        Reset::Earliest => start,
    }
}

/// What a fetch will take of the table that a group has, or that it would get. It costs the runs and the batches that
/// it walks.
pub fn planned<D: Disk, W: Window>(
    alloc: Global,
    conf: &PartConf,
    log: &PartLog<D>,
    states: &Coord<D>,
    windows: &BTreeMap<Name, W>,
    group: &Name,
    limits: Limits,
) -> Result<Plan, NoMemory>
    requires there { IsSome (lookup (is_at (slice_cmp nat_cmp group.now)) windows.now.entries) }
    requires sound { IsStoredLog log.now.batches }
    requires hosted { AreHosted conf.now (log_in log.now) (states_of states.now.entries) }
    requires well { HoldsWell log.now.batches (share_state_at (states_of states.now.entries) (key_of conf.now group.now))
        (held_in W.held windows.now.entries group.now) }
    ensures is { IfOk result (λ plan. IsPlanOf log.now.batches plan (acquired log.now.batches
        (table_of (state_for conf.now (log_in log.now) states.now.entries group.now) (held_in W.held windows.now.entries group.now)) limits)) }
    ensures grants { IfOk result (λ plan. vec_len plan.grants ≤ 2001) }
{
    let Some(window) = windows.get(group) else {
        unreachable!()
    };
    match states.look(&conf.key(group)) {
        Some(view) => plan(alloc, log, start_of(view), &view.runs, window, limits),
        None => {
            let rows = Runs::new(alloc);
            plan(
                alloc,
                log,
                first_start(conf.reset(), log),
                &rows,
                window,
                limits,
            )
        }
    }
}

/// Whether a group has a table.
pub fn has_table<D: Disk>(conf: &PartConf, states: &Coord<D>, group: &Name) -> bool
    ensures there { result ≡ true → IsSome (share_state_at (states_of states.now.entries) (key_of conf.now group.now)) }
    ensures none { result ≡ false → share_state_at (states_of states.now.entries) (key_of conf.now group.now) ≡ None }
{
    match states.look(&conf.key(group)) {
        Some(_) => true,
        None => false,
    }
}

/// What a fetch will take of the table that a group has, once acknowledgements change these rows of it. It costs the
/// runs and the batches that it walks.
pub fn planned_behind<D: Disk, W: Window>(
    alloc: Global,
    conf: &PartConf,
    log: &PartLog<D>,
    states: &Coord<D>,
    windows: &BTreeMap<Name, W>,
    visit: &Visit,
    moved: &Moved,
    rows: &Runs,
    limits: Limits,
) -> Result<Plan, NoMemory>
    requires there { IsSome (lookup (is_at (slice_cmp nat_cmp visit.now.group)) windows.now.entries) }
    requires sound { IsStoredLog log.now.batches }
    requires limit { IsLimit conf.now.limit }
    requires hosted { AreHosted conf.now (log_in log.now) (states_of states.now.entries) }
    requires well { HoldsWell log.now.batches
        (share_state_at (states_of states.now.entries) (key_of conf.now visit.now.group))
        (held_in W.held windows.now.entries visit.now.group) }
    requires change { HasChange conf.now.limit (named_from log.now.start visit.now.acks) log.now.batches
        (held_in W.held windows.now.entries visit.now.group)
        (share_state_at (states_of states.now.entries) (key_of conf.now visit.now.group))
        (change_of moved.now rows.now.list) }
    ensures is { IfOk result (IsPlanBehind conf.now.limit (named_from log.now.start visit.now.acks) log.now.batches
        (table_of (state_for conf.now (log_in log.now) states.now.entries visit.now.group)
        (held_in W.held windows.now.entries visit.now.group))
        (change_of moved.now rows.now.list) limits) }
    ensures grants { IfOk result (λ plan. vec_len plan.grants ≤ 2001) }
{
    let Some(window) = windows.get(&visit.group) else {
        unreachable!()
    };
    let Some(view) = states.look(&conf.key(&visit.group)) else {
        unreachable!()
    };
    let start = moved.start.unwrap_or(start_of(view));
    plan_laid(alloc, log, start, rows.list(), &view.runs, window, limits)
}

// Stores a key's state that has none, with this start.
fn store_state<D: Disk>(
    states: &mut Coord<D>,
    key: &Key,
    start: u64,
) -> Result<ThenOutcome, NoMemory>
    requires { start ≤ 2 ^ 62 }
    ensures there { IsSome (kept_at states.old.entries key.now) → (states.new ≡ states.old) × (result ≡ Ok ThenOutcome.Done) }
    ensures absent { kept_at states.old.entries key.now ≡ None → MakesOnce D.seen
        (HasFailed D.seen) (IsInitialised states.old.entries key.now (pos 0) (pos start))
        (IsTableRecord states.old.entries key.now start) states.old states.new result }
    ensures room { states.new.room ≡ states.old.room }
    ensures runs { RunOnBoth D.seen states.old states.new }
{
    if states.look(key).is_some() {
        return Ok(ThenOutcome::Done);
    }
    match states.init(key, 0, start as i64) {
        Ok(()) => Ok(ThenOutcome::Done),
        Err(CoordFault::Store(fault)) => Ok(ThenOutcome::Store(fault)),
        Err(CoordFault::NoMemory) => Err(NoMemory),
        Err(_) => unreachable!(),
    }
}

/// Stores the table of a group that has none.
pub fn make_table<D: Disk>(
    states: &mut Coord<D>,
    conf: &PartConf,
    group: &Name,
    log: &PartLog<D>,
) -> Result<ThenOutcome, NoMemory>
    ensures made { MakesTableOnce D.seen (HasFailed D.seen)
        conf.now group.now (log_in log.now) states.old states.new result }
    ensures room { states.new.room ≡ states.old.room }
    ensures runs { RunOnBoth D.seen states.old states.new }
{
    let key = conf.key(group);
    store_state(states, &key, first_start(conf.reset(), log))
}

// Why a batch couldn't be read, where there was memory for it.
fn read_fault(fault: BatchRead) -> Failed
    requires { fault ≡ BatchRead.Device }
{
    match fault {
        BatchRead::Device => Failed,
        BatchRead::NoMemory => unreachable!(),
    }
}

/// Appends the bytes of the batches with these numbers, in order, to a room that has memory set aside for them. The
/// first that the disk of the log fails to give ends it.
pub fn append_batches<D: Disk>(
    log: &mut PartLog<D>,
    numbers: &[u64],
    out: &mut Room,
) -> Result<(), Failed>
    requires numbers { AllByRecursion (λ n. n < length log.old.batches) numbers.now }
    requires spare { length (numbered_bytes log.old.batches numbers.now) ≤ out.old.spare }
    ensures bytes { OnOk result (IsTold (D.seen log.old.journal.disk).content →
        out.new.bytes ≡ out.old.bytes ++ numbered_bytes log.old.batches numbers.now) }
    ensures size { OnOk result (length out.new.bytes ≤
        length out.old.bytes + length (numbered_bytes log.old.batches numbers.now)) }
    ensures log { ReadsBatches D.seen (IsErr result) log.old log.new }
    ensures some { IsErr result → numbers.now ≢ [] }
{
    for number in numbers {
        if let Err(fault) = log.batch_bytes(*number, out) {
            return Err(read_fault(fault));
        }
    }
    Ok(())
}
