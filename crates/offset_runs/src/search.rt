ghost use Rattle.std.specs.Prelude.{◌≡◌, ◌≤◌, ◌+◌, length};
ghost use Rattle.offset_runs.specs.Parts.{begin_count, end_count};
ghost use Rattle.share_model.specs.Runs.{IsCanonical, row_at};

use share_model::{Row, Run};

// How many runs begin below an offset.
pub(crate) fn count_begun(runs: &[Run], offset: u64) -> usize
    requires { IsCanonical runs.now }
    ensures count { result ≡ begin_count runs.now offset }
    ensures within { result ≤ length runs.now }
{
    runs.partition_point(|run| run.first < offset)
}

// How many runs end below an offset.
pub(crate) fn count_ended(runs: &[Run], offset: u64) -> usize
    requires { IsCanonical runs.now }
    ensures count { result ≡ end_count runs.now offset }
    ensures within { result ≤ length runs.now }
{
    runs.partition_point(|run| run.last < offset)
}

// How many runs end at an offset or below it.
pub(crate) fn count_ended_by(runs: &[Run], offset: u64) -> usize
    requires { IsCanonical runs.now }
    ensures count { result ≡ end_count runs.now (offset + 1) }
    ensures within { result ≤ length runs.now }
{
    runs.partition_point(|run| run.last <= offset)
}

// The row at an offset.
pub(crate) fn find_row(runs: &[Run], offset: u64) -> Option<Row>
    requires { IsCanonical runs.now }
    ensures { result ≡ row_at runs.now offset }
{
    let place = count_ended(runs, offset);
    if place == runs.len() {
        return None;
    }
    let run = runs[place];
    if run.first <= offset {
        Some(run.row())
    } else {
        None
    }
}
