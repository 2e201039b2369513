ghost use Rattle.std.specs.Prelude.{◌≡◌, List};
ghost use Rattle.share_model.specs.Held.{Held};
ghost use Rattle.lock_index.specs.Runs.{IsRunList};
ghost use Rattle.lock_index.specs.declared.run.HoldRun.{HoldRun};

use share_model::Hold;

/// Consecutive offsets, `first` and `last` with them, that are held in one way: by one member, until one moment, and
/// with one delivery count.
#[derive(Clone, Copy)]
pub struct HoldRun {
    pub first: u64,
    pub last: u64,
    pub hold: Hold,
}

/// What is held has one run list: two of them are equal.
pub fn run_lists_are_unique()
    ensures { (held : Held) (xs ys : List HoldRun) → IsRunList held xs → IsRunList held ys → xs ≡ ys }
{}
