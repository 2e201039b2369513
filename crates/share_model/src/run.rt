ghost use Rattle.std.specs.Prelude.{◌≡◌, List, ℕ};
ghost use Rattle.share_model.specs.Runs.{IsCanonical, row_at};
ghost use Rattle.share_model.specs.declared.run.Run.{Run};

use crate::row::{Row, RowState};

/// Consecutive offsets, `first` and `last` with them, that have one row.
#[derive(Clone, Copy, Debug)]
pub struct Run {
    pub first: u64,
    pub last: u64,
    pub state: RowState,
    pub count: u16,
}

impl Run {
    ghost use Rattle.share_model.specs.Runs.{row_of};

    /// The row of each of its offsets.
    pub fn row(&self) -> Row
        ensures { result ≡ row_of self.now }
    {
        Row {
            state: self.state,
            count: self.count,
        }
    }
}

/// A look-up has one canonical list of runs: two of them with the same look-up are equal.
pub fn canonical_runs_are_unique()
    ensures { (xs ys : List Run) → IsCanonical xs → IsCanonical ys → ((offset : ℕ) → row_at xs offset ≡ row_at ys offset) → xs ≡ ys }
{}
