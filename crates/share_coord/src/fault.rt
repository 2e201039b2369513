ghost use Rattle.std.specs.Prelude.{◌≡◌};
ghost use Rattle.share_coord.specs.declared.fault.CoordFault.TheVariants.{NoMemory as no_memory};

use share_model::StoreFault;
use std::alloc::AllocError;
use thiserror::Error;

/// Why a call on a store of states was refused. The refusals by numbers come in this order, the first that applies.
#[derive(Clone, Copy, Debug, Error)]
pub enum CoordFault {
    /// An epoch is below 0, the start is below -1, or a run isn't one: its offsets aren't in order or don't fit an
    /// `i64`, or its count doesn't fit an `i16`.
    #[error("a number is out of range")]
    Invalid,
    /// The key isn't there.
    #[error("the key is unknown")]
    Unknown,
    /// The known leader epoch is greater.
    #[error("leader epoch {known} is known")]
    FencedLeader { known: i32 },
    /// The known state epoch is greater.
    #[error("state epoch {known} is known")]
    FencedState { known: i32 },
    /// The rows that are written, or those that the key would have, are so many runs, which is more than 1000000.
    #[error("{runs} runs are too many")]
    TooMany { runs: u64 },
    /// The record of the call couldn't be stored.
    #[error("the record was not stored")]
    Store(StoreFault),
    /// There was no memory.
    #[error("out of memory")]
    NoMemory,
}

impl From<AllocError> for CoordFault {
    ghost from_gives = { λ _ e. e ≡ no_memory };

    fn from(_: AllocError) -> Self {
        CoordFault::NoMemory
    }
}
