// How many rows are complete, which is acknowledged or archived.
ghost use Rattle.std.specs.Prelude.{◌≡◌, ◌≤◌, ◌<◌, ◌+◌, ◌^◌, ℕ, List};
ghost use Rattle.offset_runs.specs.Complete.{complete_between, complete_rows, complete_under, complete_within, count_complete, is_complete};
ghost use Rattle.offset_runs.specs.Parts.{EndsBelow};
ghost use Rattle.share_model.specs.Runs.{IsCanonical};
ghost use Rattle.share_model.specs.declared.run.Run.{Run};

use crate::search::count_ended;
use share_model::{RowState, Run};

/// The rows of runs are counted by their offsets: so many as offsets have a complete row.
pub fn complete_rows_are_counted_by_offsets()
    ensures { (runs : List Run) (end : ℕ) → IsCanonical runs → EndsBelow runs end → complete_rows runs ≡ count_complete runs end }
{}

fn is_complete(state: RowState) -> bool
    ensures { result ≡ is_complete state }
{
    match state {
        RowState::Available => false,
        RowState::Acknowledged => true,
        RowState::Archived => true,
    }
}

// Those of a run from an offset on and below another.
fn complete_within(run: Run, from: u64, to: u64) -> u64
    requires { run.last < 2 ^ 63 }
    ensures { result ≡ complete_within run from to }
{
    if !is_complete(run.state) {
        return 0;
    }
    (run.last + 1).min(to).saturating_sub(run.first.max(from))
}

// Those of runs, of which the first that begins behind the range is the last that is looked at.
fn complete_front(runs: &[Run], from: u64, to: u64) -> u64
    requires canonical { IsCanonical runs.now }
    requires low { EndsBelow runs.now (2 ^ 63) }
    ensures count { result ≡ complete_between runs.now from to }
    ensures fits { result ≤ 2 ^ 63 }
{
    let mut count = 0;
    let mut rest = runs;
    while let Some((run, others)) = rest.split_first() {
        if run.first >= to {
            return count;
        }
        count += complete_within(*run, from, to);
        rest = others;
    }
    count
}

// Those of canonical runs. It finds the first one in the logarithm of the number of runs.
pub(crate) fn complete_between(runs: &[Run], from: u64, to: u64) -> u64
    requires canonical { IsCanonical runs.now }
    requires low { EndsBelow runs.now (2 ^ 63) }
    ensures count { result ≡ complete_between runs.now from to }
    ensures fits { result ≤ 2 ^ 63 }
{
    let (_, rest) = runs.split_at(count_ended(runs, from));
    complete_front(rest, from, to)
}

// Those from an offset on that others cover.
fn complete_under(under: &[Run], over: &[Run], start: u64) -> u64
    requires under { IsCanonical under.now }
    requires low { EndsBelow under.now (2 ^ 63) }
    requires over { IsCanonical over.now }
    requires low_over { EndsBelow over.now (2 ^ 63) }
    ensures count { result ≡ complete_under under.now over.now start }
    ensures fits { result ≤ 2 ^ 63 }
{
    let mut count = 0;
    let mut rest = over;
    while let Some((run, others)) = rest.split_first() {
        count += complete_between(under, run.first.max(start), run.last + 1);
        rest = others;
    }
    count
}

// How many rows are complete once others are laid over so many, and those below an offset go.
pub(crate) fn complete_laid(under: &[Run], complete: u64, over: &[Run], start: u64) -> u64
    requires now { complete ≡ complete_rows under.now }
    requires under { IsCanonical under.now }
    requires low { EndsBelow under.now (2 ^ 63) }
    requires over { IsCanonical over.now }
    requires low_over { EndsBelow over.now (2 ^ 63) }
    ensures { result + (complete_between under.now 0 start + complete_under under.now over.now start)
        ≡ complete + complete_between over.now start (2 ^ 63) }
{
    let gone = complete_between(under, 0, start) + complete_under(under, over, start);
    complete - gone + complete_between(over, start, 1 << 63)
}
