ghost use Rattle.std.specs.Prelude.{◌≡◌, ◌≤◌, ◌+◌, ◌-◌, ◌++◌, length, take, drop, vec_len, vec_capacity};

use share_model::Run;

// Takes the runs between two places away, and moves each of those behind them once.
pub(crate) fn remove_between(runs: &mut Vec<Run>, start: usize, end: usize)
    requires order { start ≤ end }
    requires within { end ≤ vec_len runs.old }
    ensures runs { runs.new.items ≡ take start runs.old.items ++ drop end runs.old.items }
    ensures len { vec_len runs.new + (end - start) ≡ vec_len runs.old }
    ensures capacity { vec_capacity runs.new ≡ vec_capacity runs.old }
{
    if start == end {
        return;
    }
    let kept = runs.len() - (end - start);
    runs.copy_within(end.., start);
    runs.truncate(kept);
}

// Puts runs in the place of others, where there is room. Those behind them are moved once for each run more, or once
// where there are fewer.
pub(crate) fn replace(runs: &mut Vec<Run>, start: usize, end: usize, pieces: &[Run])
    requires order { start ≤ end }
    requires within { end ≤ vec_len runs.old }
    requires room { vec_len runs.old + length pieces.now ≤ vec_capacity runs.old + (end - start) }
    ensures runs { runs.new.items ≡ take start runs.old.items ++ (pieces.now ++ drop end runs.old.items) }
    ensures len { vec_len runs.new + (end - start) ≡ vec_len runs.old + length pieces.now }
    ensures capacity { vec_capacity runs.old ≤ vec_capacity runs.new }
{
    let Some((first, rest)) = pieces.split_first() else {
        remove_between(runs, start, end);
        return;
    };
    if start < end {
        runs[start] = *first;
        replace(runs, start + 1, end, rest);
        return;
    }
    if let Err(_) = runs.insert(start, *first) {
        unreachable!()
    }
    replace(runs, start + 1, end + 1, rest);
}
