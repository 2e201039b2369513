ghost use Rattle.std.specs.Prelude.{◌≡◌, ◌<◌, ◌≤◌, ◌+◌, [], ◌∷◌, ◌++◌, length, vec_len, vec_capacity};
ghost use Rattle.offset_runs.specs.Parts.{touches, join, maybe_run};

use share_model::Run;

/// Whether the second run begins right behind the first, with the same row, so that the two could be
/// one.
#[tactic(auto, unfolding(crate::specs::Parts::touches))]
pub fn touches(x: &Run, y: &Run) -> bool
    ensures { result ≡ touches x.now y.now }
{
    x.last < y.first
        && y.first - x.last == 1
        && x.state.number() == y.state.number()
        && x.count == y.count
}

// Puts a run behind the others, where there is room for it, and joins it to the last of them where they touch.
pub(crate) fn push_joined(runs: &mut Vec<Run>, run: Run)
    requires { vec_len runs.old < vec_capacity runs.old }
    ensures runs { runs.new.items ≡ join runs.old.items (run ∷ []) }
    ensures len { vec_len runs.new ≤ vec_len runs.old + 1 }
    ensures capacity { vec_capacity runs.old ≤ vec_capacity runs.new }
{
    let count = runs.len();
    if count > 0 && touches(&runs[count - 1], &run) {
        runs[count - 1].last = run.last;
        return;
    }
    if let Err(_) = runs.push(run) {
        unreachable!()
    }
}

// A run behind another one, with which it is one run where the two touch.
pub(crate) fn join_behind(left: Option<Run>, run: Run) -> (Option<Run>, Run)
    ensures joined { maybe_run result.0 ++ result.1 ∷ [] ≡ join (maybe_run left) (run ∷ []) }
{
    let Some(x) = left else {
        return (None, run);
    };
    if touches(&x, &run) {
        return (
            None,
            Run {
                last: run.last,
                ..x
            },
        );
    }
    (left, run)
}

// A run before another one, with which it is one run where the two touch.
pub(crate) fn join_before(run: Run, right: Option<Run>) -> (Run, Option<Run>)
    ensures joined { result.0 ∷ maybe_run result.1 ≡ join (run ∷ []) (maybe_run right) }
    ensures fewer { length (maybe_run result.1) ≤ length (maybe_run right) }
{
    let Some(y) = right else {
        return (run, None);
    };
    if touches(&run, &y) {
        return (
            Run {
                last: y.last,
                ..run
            },
            None,
        );
    }
    (run, right)
}
