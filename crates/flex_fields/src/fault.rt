ghost use Rattle.std.specs.Prelude.{◌≡◌};
ghost use Rattle.flex_fields.specs.declared.fault.WireFault.{WireFault};
ghost use Rattle.flex_fields.specs.declared.fault.WireFault.TheVariants.{NoMemory as no_memory};

use std::alloc::{AllocError, AllocFailed};
use thiserror::Error;

/// No memory was found.
#[derive(Clone, Copy, Debug, Error)]
#[error("out of memory")]
pub struct NoMemory;

impl From<AllocError> for NoMemory {
    fn from(_: AllocError) -> Self {
        NoMemory
    }
}

impl<T: Drop> From<AllocFailed<T>> for NoMemory {
    fn from(_: AllocFailed<T>) -> Self {
        NoMemory
    }
}

/// Why a field could not be read, and the place of the byte where that field begins.
#[derive(Clone, Copy, Debug, Error)]
pub enum WireFault {
    /// The bytes end within the field.
    #[error("the bytes end within the field at byte {place}")]
    Short { place: u64 },
    /// A variable-length number is too large for its type.
    #[error("the number at byte {place} is too large")]
    BadVarint { place: u64 },
    /// A length can't be: null where a value has to stand, or more elements than there are bytes.
    #[error("the length at byte {place} can't be")]
    BadLength { place: u64 },
    /// A string isn't UTF-8.
    #[error("the string at byte {place} is not UTF-8")]
    NotUtf8 { place: u64 },
    /// Bytes follow the message.
    #[error("bytes follow the message at byte {place}")]
    Trailing { place: u64 },
    /// No memory was found for what was read.
    #[error("out of memory")]
    NoMemory,
}

impl From<AllocError> for WireFault {
    ghost from_gives = { λ _ e. e ≡ no_memory };

    fn from(_: AllocError) -> Self {
        WireFault::NoMemory
    }
}

impl<T: Drop> From<AllocFailed<T>> for WireFault {
    ghost from_gives = { λ _ e. e ≡ no_memory };

    fn from(_: AllocFailed<T>) -> Self {
        WireFault::NoMemory
    }
}
