// The rules on the states that a hosted partition may have.
ghost use Rattle.std.specs.Prelude.{◌≡◌, ◌↔◌, ◌≤◌, ◌^◌, ℕ, pos, true};
ghost use Rattle.share_model.specs.Logs.{IsSlot};
ghost use Rattle.share_model.specs.Runs.{IsCanonical, row_of};
ghost use Rattle.part_log.specs.Logs.{IsStoredLog, log_in};
ghost use Rattle.share_part.specs.Hosting.{AreHosted, IsHosted, IsHostedRow};
ghost use Rattle.share_coord.specs.States.{states_of};
ghost use Rattle.share_part.specs.Judging.{AllIn, IsBefore, MayBeStored, RowsMayStand, slot_behind};

use crate::conf::PartConf;
use crate::fetch::start_of;
use crate::walk::{WINDOW_SLOTS, next_slot};
use edge_io::Disk;
use part_log::PartLog;
use share_coord::{Coord, StateView};
use share_model::{Key, Row, RowState, Run};

// The slot behind the first slots from a start.
fn slot_behind<D: Disk>(log: &PartLog<D>, start: u64) -> Option<u64>
    requires sound { IsStoredLog log.now.batches }
    requires above { log.now.start ≤ start }
    ensures { result ≡ slot_behind 2000 log.now.batches start }
{
    let mut from = start;
    for _ in 0..WINDOW_SLOTS {
        let Some(slot) = next_slot(log, from) else {
            return None;
        };
        from = slot + 1;
    }
    next_slot(log, from)
}

// Whether an offset lies before a slot, if there is that one.
fn is_before(offset: u64, slot: Option<u64>) -> bool
    ensures { (result ≡ true) ↔ IsBefore offset slot }
{
    match slot {
        Some(slot) => offset < slot,
        None => true,
    }
}

// Whether all offsets of a run are slots.
fn are_slots<D: Disk>(log: &PartLog<D>, run: &Run) -> bool
    requires sound { IsStoredLog log.now.batches }
    requires above { log.now.start ≤ run.now.first }
    ensures { (result ≡ true) ↔ AllIn run.now (IsSlot log.now.batches) }
{
    let last = run.last;
    let mut from = run.first;
    while from <= last {
        let Some(place) = log.batch_of(from) else {
            return false;
        };
        if place.last >= last {
            return true;
        }
        from = place.last + 1;
    }
    true
}

// Whether a row has counts that are stored.
fn may_be_stored(row: Row) -> bool
    ensures { (result ≡ true) ↔ MayBeStored row }
{
    match row.state {
        RowState::Available => 1 <= row.count && row.count <= 9,
        RowState::Acknowledged => 1 <= row.count && row.count <= 10,
        RowState::Archived => 1 <= row.count && row.count <= 10,
    }
}

// Whether the rows of a run may stand in the log.
fn may_stand<D: Disk>(log: &PartLog<D>, start: u64, behind: Option<u64>, run: &Run) -> bool
    requires sound { IsStoredLog log.now.batches }
    requires above { log.now.start ≤ start }
    requires behind { behind ≡ slot_behind 2000 log.now.batches start }
    requires order { run.now.first ≤ run.now.last }
    ensures { (result ≡ true) ↔ AllIn run.now (λ offset. IsHostedRow log.now.batches start offset (row_of run.now)) }
{
    if !may_be_stored(run.row()) {
        return false;
    }
    if run.first < start {
        return false;
    }
    if !is_before(run.last, behind) {
        return false;
    }
    are_slots(log, run)
}

// Whether the rows of canonical runs may stand in the log.
fn rows_may_stand<D: Disk>(log: &PartLog<D>, start: u64, runs: &[Run]) -> bool
    requires sound { IsStoredLog log.now.batches }
    requires above { log.now.start ≤ start }
    requires canonical { IsCanonical runs.now }
    ensures { (result ≡ true) ↔ RowsMayStand log.now.batches start runs.now }
{
    if runs.is_empty() {
        return true;
    }
    let behind = slot_behind(log, start);
    for run in runs {
        if !may_stand(log, start, behind, run) {
            return false;
        }
    }
    true
}

// Whether the start is an offset from the log's start on and up to its end.
fn starts_within(view: &StateView, first: u64, end: u64) -> bool
    requires { end ≤ 2 ^ 62 }
    ensures { (result ≡ true) ↔ ((offset : ℕ) × (view.now.state.start ≡ pos offset) × (first ≤ offset) × (offset ≤ end)) }
{
    if view.start < 0 {
        return false;
    }
    (first..=end).contains(&start_of(view))
}

// Whether both epochs are 0.
fn has_no_epochs(view: &StateView) -> bool
    ensures { (result ≡ true) ↔ ((view.now.state.state_epoch ≡ pos 0) × (view.now.state.leader_epoch ≡ pos 0)) }
{
    view.state_epoch == 0 && view.leader_epoch == 0
}

// Whether a state is one that the partition may have.
fn is_hosted<D: Disk>(conf: &PartConf, log: &PartLog<D>, key: &Key, view: &StateView) -> bool
    requires { IsStoredLog log.now.batches }
    ensures { (result ≡ true) ↔ IsHosted conf.now (log_in log.now) key.now view.now.state }
{
    if !conf.has_key(key) {
        return false;
    }
    if !has_no_epochs(view) {
        return false;
    }
    if !starts_within(view, log.start(), log.end()) {
        return false;
    }
    rows_may_stand(log, start_of(view), view.runs.list())
}

/// Whether all states are ones that the partition may have. It costs the rows, and for each key a walk over its first
/// slots.
pub fn are_hosted<D: Disk>(conf: &PartConf, log: &PartLog<D>, states: &Coord<D>) -> bool
    requires sound { IsStoredLog log.now.batches }
    ensures { (result ≡ true) ↔ AreHosted conf.now (log_in log.now) (states_of states.now.entries) }
{
    for (key, view) in states.states() {
        if !is_hosted(conf, log, key, view) {
            return false;
        }
    }
    true
}
