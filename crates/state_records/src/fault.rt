ghost use Rattle.std.specs.Prelude.{◌≡◌};
ghost use Rattle.state_records.specs.declared.fault.RecordFault.TheVariants.{NoMemory as no_memory};

use std::alloc::{AllocError, AllocFailed};
use thiserror::Error;

/// Why bytes couldn't be read as a state record.
#[derive(Clone, Copy, Debug, Error)]
pub enum RecordFault {
    /// They aren't one. The place is that of the first byte of the field that can't be read or is out
    /// of range, or of bytes that follow the record.
    #[error("the state record is wrong at byte {place}")]
    BadState { place: u64 },
    /// No memory was found for the record.
    #[error("out of memory")]
    NoMemory,
}

impl From<AllocError> for RecordFault {
    ghost from_gives = { λ _ e. e ≡ no_memory };

    fn from(_: AllocError) -> Self {
        RecordFault::NoMemory
    }
}

impl<T: Drop> From<AllocFailed<T>> for RecordFault {
    ghost from_gives = { λ _ e. e ≡ no_memory };

    fn from(_: AllocFailed<T>) -> Self {
        RecordFault::NoMemory
    }
}
