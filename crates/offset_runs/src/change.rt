ghost use Rattle.std.specs.Prelude.{◌≡◌, ◌≤◌, ◌+◌, ◌-◌, ◌++◌, ◌∷◌, length, take, drop, vec_len, vec_capacity};
ghost use Rattle.offset_runs.specs.Parts.{from_on, maybe_run, put_over};
ghost use Rattle.share_model.specs.Runs.{IsCanonical};

use crate::joining::{join_before, join_behind};
use crate::parts::{part_before, part_behind};
use crate::search::count_ended;
use crate::shift::{remove_between, replace};
use share_model::Run;

// Puts a run in the place of others, with the one before it and the one behind it, where there are such.
fn replace_by(
    runs: &mut Vec<Run>,
    start: usize,
    end: usize,
    left: Option<Run>,
    middle: Run,
    right: Option<Run>,
)
    requires order { start ≤ end }
    requires within { end ≤ vec_len runs.old }
    requires room { vec_len runs.old + (length (maybe_run left) + (1 + length (maybe_run right)))
        ≤ vec_capacity runs.old + (end - start) }
    ensures runs { runs.new.items
        ≡ take start runs.old.items ++ ((maybe_run left ++ middle ∷ maybe_run right) ++ drop end runs.old.items) }
    ensures len { vec_len runs.new + (end - start)
        ≡ vec_len runs.old + (length (maybe_run left) + (1 + length (maybe_run right))) }
    ensures capacity { vec_capacity runs.old ≤ vec_capacity runs.new }
{
    match left {
        Some(x) => match right {
            Some(y) => replace(runs, start, end, &[x, middle, y]),
            None => replace(runs, start, end, &[x, middle]),
        },
        None => match right {
            Some(y) => replace(runs, start, end, &[middle, y]),
            None => replace(runs, start, end, &[middle]),
        },
    }
}

// Puts a run over others, where there is room for two more. It takes no memory.
pub(crate) fn put_over(runs: &mut Vec<Run>, middle: Run)
    requires canonical { IsCanonical runs.old.items }
    requires order { middle.first ≤ middle.last }
    requires room { vec_len runs.old + 2 ≤ vec_capacity runs.old }
    ensures runs { runs.new.items ≡ put_over runs.old.items middle }
    ensures len { vec_len runs.new ≤ vec_len runs.old + 2 }
    ensures capacity { vec_capacity runs.old ≤ vec_capacity runs.new }
{
    let (start, left) = part_before(runs, middle.first);
    let (right, end) = part_behind(runs, middle.last);
    let (left, joined) = join_behind(left, middle);
    let (joined, right) = join_before(joined, right);
    replace_by(runs, start, end, left, joined, right);
}

// Takes away what lies below an offset. It takes no memory.
pub(crate) fn cut_front(runs: &mut Vec<Run>, offset: u64)
    requires { IsCanonical runs.old.items }
    ensures runs { runs.new.items ≡ from_on runs.old.items offset }
    ensures len { vec_len runs.new ≤ vec_len runs.old }
    ensures capacity { vec_capacity runs.new ≡ vec_capacity runs.old }
{
    let gone = count_ended(runs, offset);
    remove_between(runs, 0, gone);
    if !runs.is_empty() {
        runs[0].first = runs[0].first.max(offset);
    }
}
