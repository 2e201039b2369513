// Where the start of a table goes.
ghost use Rattle.std.specs.Prelude.{◌≡◌, ◌≤◌, ◌<◌, ◌^◌, ℕ, IfSome, IfNone, length, false, true, Some, nat_le, None, if◌then◌else◌};
ghost use Rattle.offset_runs.specs.Parts.{end_count};
ghost use Rattle.part_log.specs.Logs.{IsStoredLog};
ghost use Rattle.share_model.specs.Logs.{IsNextSlot};
ghost use Rattle.share_model.specs.Runs.{IsCanonical, row_at, row_of};
ghost use Rattle.share_part.specs.Acting.{laid};
ghost use Rattle.share_part.specs.Settling.{IsNextStart, is_closed, is_closed_state};

use edge_io::Disk;
use part_log::PartLog;
use share_model::{RowState, Run};

// Whether a record in this state isn't delivered again.
fn is_closed(state: RowState) -> bool
    ensures { result ≡ is_closed_state state }
{
    match state {
        RowState::Available => false,
        RowState::Acknowledged => true,
        RowState::Archived => true,
    }
}

// How many runs end below an offset.
fn count_ended(runs: &[Run], offset: u64) -> usize
    requires { IsCanonical runs.now }
    ensures count { result ≡ end_count runs.now offset }
    ensures within { result ≤ length runs.now }
{
    runs.partition_point(|run| run.last < offset)
}

/// The first run that ends at an offset or behind it.
pub fn run_from(runs: &[Run], offset: u64) -> Option<Run>
    requires { IsCanonical runs.now }
    ensures ends { IfSome result (λ run. offset ≤ run.last) }
    ensures order { IfSome result (λ run. run.first ≤ run.last) }
    ensures some { IfSome result (λ run. (other : ℕ) → offset ≤ other → other ≤ run.last →
        row_at runs.now other ≡ (if nat_le run.first other then Some (row_of run) else None)) }
    ensures none { IfNone result (row_at runs.now offset ≡ None) }
    ensures behind { IfNone result ((other : ℕ) → offset ≤ other → row_at runs.now other ≡ None) }
{
    let place = count_ended(runs, offset);
    if place == runs.len() {
        return None;
    }
    Some(runs[place])
}

// The last offset of a run that covers an offset, where it is closed.
fn last_closed(run: Run) -> Option<u64>
    ensures some { IfSome result (λ last. (last ≡ run.last) × (is_closed_state run.state ≡ true)) }
    ensures none { IfNone result (is_closed_state run.state ≡ false) }
{
    if is_closed(run.state) {
        return Some(run.last);
    }
    None
}

// How far rows are closed from an offset on. `None` where that of the offset isn't.
fn closed_to(runs: &[Run], offset: u64) -> Option<u64>
    requires { IsCanonical runs.now }
    ensures some { IfSome result (λ last. offset ≤ last) }
    ensures closed { IfSome result (λ last. (other : ℕ) → offset ≤ other → other ≤ last → is_closed (row_at runs.now other) ≡ true) }
    ensures none { IfNone result (is_closed (row_at runs.now offset) ≡ false) }
{
    let Some(run) = run_from(runs, offset) else {
        return None;
    };
    if run.first <= offset {
        return last_closed(run);
    }
    None
}

// The same of rows that are laid over others.
fn laid_closed_to(rows: &[Run], stored: &[Run], offset: u64) -> Option<u64>
    requires rows { IsCanonical rows.now }
    requires stored { IsCanonical stored.now }
    ensures some { IfSome result (λ last. offset ≤ last) }
    ensures closed { IfSome result (λ last. (other : ℕ) → offset ≤ other → other ≤ last → is_closed (laid rows.now stored.now other) ≡ true) }
    ensures none { IfNone result (is_closed (laid rows.now stored.now offset) ≡ false) }
{
    let Some(run) = run_from(rows, offset) else {
        return closed_to(stored, offset);
    };
    if run.first <= offset {
        return last_closed(run);
    }
    let Some(last) = closed_to(stored, offset) else {
        return None;
    };
    Some(last.min(run.first - 1))
}

// The next slot of a log. It lies below 2^62.
fn slot_from<D: Disk>(log: &PartLog<D>, from: u64) -> Option<u64>
    requires sound { IsStoredLog log.now.batches }
    requires above { log.now.start ≤ from }
    ensures next { IsNextSlot log.now.batches from result }
    ensures below { IfSome result (λ slot. slot < 2 ^ 62) }
{
    log.next_slot(from)
}

/// Where a table's start goes once rows are laid over those that are stored. It costs the runs that it passes.
pub fn advance<D: Disk>(log: &PartLog<D>, start: u64, rows: &[Run], stored: &[Run]) -> u64
    requires sound { IsStoredLog log.now.batches }
    requires above { log.now.start ≤ start }
    requires rows { IsCanonical rows.now }
    requires stored { IsCanonical stored.now }
    ensures { IsNextStart log.now.batches (laid rows.now stored.now) start result }
{
    let mut from = start;
    while let Some(slot) = slot_from(log, from) {
        let Some(last) = laid_closed_to(rows, stored, slot) else {
            return slot;
        };
        from = last.saturating_add(1);
    }
    log.end()
}
