ghost use Rattle.std.specs.Prelude.{◌≡◌, ◌<◌, ◌≤◌, ◌+◌, ◌*◌, ◌++◌, [], ◌∷◌, length, vec_len, vec_capacity, IfNone};
ghost use Rattle.offset_runs.specs.Changes.{Overlays};
ghost use Rattle.offset_runs.specs.Parts.{before, join, maybe_run};
ghost use Rattle.share_model.specs.Runs.{IsCanonical};

use crate::joining::push_joined;
use crate::parts::{run_before, run_behind};
use share_model::Run;

// The first run, and the others.
fn first_and_rest(runs: &[Run]) -> (Option<Run>, &[Run])
    ensures parts { maybe_run result.0 ++ result.1.now ≡ runs.now }
    ensures none { IfNone result.0 (result.1.now ≡ []) }
{
    match runs.split_first() {
        Some((first, rest)) => (Some(*first), rest),
        None => (None, runs),
    }
}

// Writes the part of a run below an offset.
fn push_before(out: &mut Vec<Run>, run: Run, offset: u64)
    requires { vec_len out.old < vec_capacity out.old }
    ensures runs { out.new.items ≡ join out.old.items (before (run ∷ []) offset) }
    ensures len { vec_len out.new ≤ vec_len out.old + 1 }
    ensures capacity { vec_capacity out.old ≤ vec_capacity out.new }
{
    if run.first < offset {
        push_joined(out, run_before(run, offset));
    }
}

// Writes runs that can't be joined to what stands there.
fn push_apart(out: &mut Vec<Run>, runs: &[Run])
    requires { vec_len out.old + length runs.now ≤ vec_capacity out.old }
    ensures runs { out.new.items ≡ out.old.items ++ runs.now }
    ensures len { vec_len out.new ≡ vec_len out.old + length runs.now }
    ensures capacity { vec_capacity out.old ≤ vec_capacity out.new }
{
    if let Err(_) = out.extend_from_slice(runs) {
        unreachable!()
    }
}

// Writes runs behind the others.
fn push_all(out: &mut Vec<Run>, runs: &[Run])
    requires { vec_len out.old + length runs.now ≤ vec_capacity out.old }
    ensures runs { out.new.items ≡ join out.old.items runs.now }
    ensures len { vec_len out.new ≤ vec_len out.old + length runs.now }
    ensures capacity { vec_capacity out.old ≤ vec_capacity out.new }
{
    if let Some((first, rest)) = runs.split_first() {
        push_joined(out, *first);
        push_apart(out, rest);
    }
}

// The rows of `theirs` where it has one, and else those of `mine`, in one pass over both. A run of theirs may part one
// of mine in two, so there is room for two. It takes no memory.
pub(crate) fn overlay(out: &mut Vec<Run>, mine: &[Run], mut theirs: &[Run])
    requires mine { IsCanonical mine.now }
    requires theirs { IsCanonical theirs.now }
    requires empty { out.old.items ≡ [] }
    requires room { length mine.now + 2 * length theirs.now ≤ vec_capacity out.old }
    ensures canonical { IsCanonical out.new.items }
    ensures rows { Overlays mine.now out.new.items theirs.entry.now }
    ensures few { vec_len out.new ≤ length mine.now + 2 * length theirs.entry.now }
    ensures capacity { vec_capacity out.old ≤ vec_capacity out.new }
{
    let (mut head, mut rest) = first_and_rest(mine);
    loop {
        let Some(x) = head else {
            push_all(out, theirs);
            return;
        };
        let Some((y, others)) = theirs.split_first() else {
            push_joined(out, x);
            push_apart(out, rest);
            return;
        };
        push_before(out, x, y.first);
        if x.last <= y.last {
            (head, rest) = first_and_rest(rest);
        } else {
            push_joined(out, *y);
            head = Some(run_behind(x, y.last));
            theirs = others;
        }
    }
}
