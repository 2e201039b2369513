// How far a group has come.
ghost use Rattle.std.specs.Prelude.{◌≡◌, ◌≤◌, ◌<◌, ◌^◌};
ghost use Rattle.std.specs.Option.{option_map};
ghost use Rattle.lock_index.specs.Runs.{IsCanonical as AreHeldRuns, held_of};
ghost use Rattle.part_log.specs.Logs.{IsStoredLog, log_in};
ghost use Rattle.share_coord.specs.States.{states_of};
ghost use Rattle.share_model.specs.ForeignRules.{share_state_at, size_of};
ghost use Rattle.share_model.specs.Logs.{end_of};
ghost use Rattle.share_model.specs.declared.row.RowState.TheVariants.{Acknowledged};
ghost use Rattle.share_part.specs.Describing.{earlier, first_end, is_stored_as, summary_of};
ghost use Rattle.share_part.specs.Hosting.{AreHosted, key_of};
ghost use Rattle.share_part.specs.Shards.{held_in};
ghost use Rattle.share_part.specs.Tables.{table_of};
ghost use Rattle.share_part.specs.Tallying.{LieBetween, count_run, count_runs};

use crate::conf::PartConf;
use crate::fetch::start_of;
use crate::offering::window_of;
use edge_io::Disk;
use lock_index::{HoldRun, Window};
use part_log::PartLog;
use share_coord::{Coord, StateView};
use share_model::{Name, RowState, Run, TableSummary};
use std::alloc::Global;
use std::collections::BTreeMap;

// How many records of a run are acknowledged.
fn acknowledged_in(run: Run) -> u64
    requires order { run.first ≤ run.last }
    requires below { run.last < 2 ^ 63 }
    ensures { result ≡ count_run (is_stored_as Acknowledged) run }
{
    match run.state {
        RowState::Acknowledged => run.last + 1 - run.first,
        RowState::Available => 0,
        RowState::Archived => 0,
    }
}

// How many records of runs are acknowledged, which lie below an end. It costs the runs.
fn acknowledged(runs: &[Run], start: u64, end: u64) -> u64
    requires runs { LieBetween runs.now start end }
    requires below { end ≤ 2 ^ 62 }
    ensures { result ≡ count_runs (is_stored_as Acknowledged) runs.now }
{
    let mut count = 0;
    let mut rest = runs;
    while let Some((run, others)) = rest.split_first() {
        count += acknowledged_in(*run);
        rest = others;
    }
    count
}

// The earlier of two moments, of which the first may be missing.
fn earlier(first: Option<u64>, end: u64) -> u64
    ensures { result ≡ earlier first end }
{
    match first {
        Some(first) => first.min(end),
        None => end,
    }
}

// The end of the lock that ends first. It costs the runs.
fn first_lock_end(runs: &[HoldRun]) -> Option<u64>
    requires { AreHeldRuns runs.now }
    ensures { result ≡ first_end (held_of runs.now) }
{
    let mut first = None;
    let mut rest = runs;
    while let Some((run, others)) = rest.split_first() {
        first = Some(earlier(first, run.hold.end));
        rest = others;
    }
    first
}

// How far a group has come whose table has this state, in a log that ends there.
fn summary<D: Disk, W: Window>(log: &PartLog<D>, view: &StateView, window: &W) -> TableSummary
    requires runs { LieBetween view.now.state.runs (size_of view.now.state.start) (end_of log.now.batches) }
    requires order { size_of view.now.state.start ≤ end_of log.now.batches }
    ensures { result ≡ summary_of log.now.batches (table_of view.now.state (W.held window.now)) }
{
    let start = start_of(view);
    let end = log.end();
    let acknowledged = acknowledged(view.runs.list(), start, end);
    let complete = view.complete();
    TableSummary {
        start,
        end,
        lag: end - start - complete,
        held: window.count(),
        first_lock_end: first_lock_end(window.list()),
        acknowledged,
        archived: complete - acknowledged,
    }
}

/// How far a group has come on a partition. `None` where it has no table. It costs the runs of the table and of what is
/// held.
pub fn describe<D: Disk, W: Window>(
    alloc: Global,
    conf: &PartConf,
    log: &PartLog<D>,
    states: &Coord<D>,
    windows: &BTreeMap<Name, W>,
    group: &Name,
) -> Option<TableSummary>
    requires sound { IsStoredLog log.now.batches }
    requires hosted { AreHosted conf.now (log_in log.now) (states_of states.now.entries) }
    ensures { result ≡ option_map (λ state. summary_of log.now.batches
        (table_of state (held_in W.held windows.now.entries group.now)))
        (share_state_at (states_of states.now.entries) (key_of conf.now group.now)) }
{
    let Some(view) = states.look(&conf.key(group)) else {
        return None;
    };
    let empty = W::new(alloc);
    let window = window_of(windows, &empty, group);
    Some(summary(log, view, window))
}
