ghost use Rattle.std.specs.Prelude.{◌≡◌};
ghost use Rattle.text_pieces.specs.declared.fault.GenFault.TheVariants.{NoMemory as no_memory};

use flex_fields::NoMemory;
use std::alloc::AllocError;
use thiserror::Error;

/// Why a text was not written whole. The sink has taken a front of it.
#[derive(Clone, Copy, Debug, Error)]
pub enum GenFault {
    /// The sink failed.
    #[error("the text could not be written")]
    Write,
    /// No memory was found.
    #[error("out of memory")]
    NoMemory,
}

impl From<AllocError> for GenFault {
    ghost from_gives = { λ _ e. e ≡ no_memory };

    fn from(_: AllocError) -> GenFault {
        GenFault::NoMemory
    }
}

impl From<NoMemory> for GenFault {
    ghost from_gives = { λ _ e. e ≡ no_memory };

    fn from(_: NoMemory) -> GenFault {
        GenFault::NoMemory
    }
}
