ghost use Rattle.std.specs.Prelude.{◌≡◌, ◌<◌, ◌≤◌, ◌+◌, ◌-◌, ◌++◌, length, take, drop, IfNone};
ghost use Rattle.offset_runs.specs.Parts.{before, from_on, begin_count, end_count, maybe_run, run_before, run_from};
ghost use Rattle.share_model.specs.Runs.{IsCanonical};

use crate::search::{count_begun, count_ended_by};
use share_model::Run;

// The part of a run below an offset.
pub(crate) fn run_before(run: Run, offset: u64) -> Run
    requires { run.first < offset }
    ensures { result ≡ run_before run offset }
{
    Run {
        last: run.last.min(offset - 1),
        ..run
    }
}

// The part of a run behind an offset.
pub(crate) fn run_behind(run: Run, offset: u64) -> Run
    requires { offset < run.last }
    ensures { result ≡ run_from run (offset + 1) }
{
    Run {
        first: run.first.max(offset + 1),
        ..run
    }
}

// The runs below an offset: how many stay as they are, and the last one, cut at the offset.
pub(crate) fn part_before(runs: &[Run], offset: u64) -> (usize, Option<Run>)
    requires { IsCanonical runs.now }
    ensures place { result.0 ≡ begin_count runs.now offset - 1 }
    ensures parts { before runs.now offset ≡ take result.0 runs.now ++ maybe_run result.1 }
    ensures none { IfNone result.1 (result.0 ≡ 0) }
    ensures within { result.0 ≤ length runs.now }
{
    let count = count_begun(runs, offset);
    if count == 0 {
        return (0, None);
    }
    (count - 1, Some(run_before(runs[count - 1], offset)))
}

// The runs behind an offset: the first one, cut at the offset, and the place of those that stay as they are.
pub(crate) fn part_behind(runs: &[Run], offset: u64) -> (Option<Run>, usize)
    requires { IsCanonical runs.now }
    ensures place { end_count runs.now (offset + 1) + length (maybe_run result.0) ≤ result.1 }
    ensures parts { from_on runs.now (offset + 1) ≡ maybe_run result.0 ++ drop result.1 runs.now }
    ensures none { IfNone result.0 (result.1 ≡ length runs.now) }
    ensures within { result.1 ≤ length runs.now }
{
    let count = count_ended_by(runs, offset);
    if count == runs.len() {
        return (None, count);
    }
    (Some(run_behind(runs[count], offset)), count + 1)
}
