// Finds runs by offset.
ghost use Rattle.std.specs.Prelude.{◌≡◌, ◌<◌, ◌≤◌, ℕ, length, Some};
ghost use Rattle.std.specs.List.{slice_get};
ghost use Rattle.std.specs.Option.{option_copied};
ghost use Rattle.share_model.specs.Held.{hold_at};
ghost use Rattle.lock_index.specs.Runs.{IsCanonical, held_of};
ghost use Rattle.lock_index.specs.Windows.{IsRunFrom};
ghost use Rattle.lock_index.specs.declared.run.HoldRun.{HoldRun};

use lock_index::HoldRun;
use share_model::Hold;

// How many runs end below an offset.
pub(crate) fn count_ended(runs: &[HoldRun], offset: u64) -> usize
    requires { IsCanonical runs.now }
    ensures ended { (place : ℕ) (run : HoldRun) → slice_get runs.now place ≡ Some run → place < result → run.last < offset }
    ensures others { (place : ℕ) (run : HoldRun) → slice_get runs.now place ≡ Some run → result ≤ place → offset ≤ run.last }
    ensures within { result ≤ length runs.now }
{
    runs.partition_point(|run| run.last < offset)
}

// How many runs begin at an offset or below it.
pub(crate) fn count_begun(runs: &[HoldRun], offset: u64) -> usize
    requires { IsCanonical runs.now }
    ensures begun { (place : ℕ) (run : HoldRun) → slice_get runs.now place ≡ Some run → place < result → run.first ≤ offset }
    ensures others { (place : ℕ) (run : HoldRun) → slice_get runs.now place ≡ Some run → result ≤ place → offset < run.first }
    ensures within { result ≤ length runs.now }
{
    runs.partition_point(|run| run.first <= offset)
}

// The first run that doesn't end below an offset.
pub(crate) fn find_run(runs: &[HoldRun], offset: u64) -> Option<&HoldRun>
    requires { IsCanonical runs.now }
    ensures { IsRunFrom (held_of runs.now) offset (option_copied result) }
{
    let place = count_ended(runs, offset);
    if place == runs.len() {
        return None;
    }
    Some(&runs[place])
}

// The hold of an offset.
pub(crate) fn find_at(runs: &[HoldRun], offset: u64) -> Option<&Hold>
    requires { IsCanonical runs.now }
    ensures { option_copied result ≡ hold_at (held_of runs.now) offset }
{
    match find_run(runs, offset) {
        Some(run) => {
            if run.first <= offset {
                Some(&run.hold)
            } else {
                None
            }
        }
        None => None,
    }
}
