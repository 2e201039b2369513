// What the frames of a journal say of it, one after another.
ghost use Rattle.std.specs.Prelude.{◌≡◌, [], ◌∷◌, ◌++◌, List, ℕ, IfOk};
ghost use Rattle.checkpoint_journal.specs.Standings.{IsKnown, StandsSo, known_behind};

use crate::mark::{Mark, mark_frame};
use share_model::NoMemory;
use std::alloc::Global;

/// Whether a journal is sealed, and its generation.
#[derive(Clone, Copy)]
pub struct Standing {
    pub sealed: bool,
    pub generation: u64,
}

/// What is known of a journal by its first frames.
#[derive(Clone, Copy)]
pub enum Known {
    /// There is none.
    Nothing,
    /// A head of this generation, and snapshots behind it or nothing.
    Begun { generation: u64 },
    /// How it stands, whatever frames follow.
    Settled { standing: Standing },
}

// A journal without a head.
const HEADLESS: Standing = Standing {
    sealed: true,
    generation: 0,
};

// What is known with one frame more.
fn known_behind(known: Known, mark: Mark) -> Known
    ensures { result ≡ known_behind known mark }
{
    match known {
        Known::Nothing => match mark {
            Mark::Head { generation } => Known::Begun { generation },
            _ => Known::Settled { standing: HEADLESS },
        },
        Known::Begun { generation } => match mark {
            Mark::Snapshot => known,
            _ => Known::Settled {
                standing: Standing {
                    sealed: matches!(mark, Mark::Seal),
                    generation,
                },
            },
        },
        Known::Settled { .. } => known,
    }
}

impl Known {
    /// What is known with one frame more. It reads the frame, and takes memory for it, where that may change something:
    /// the first one, and behind a head those up to the seal.
    pub fn with_frame(self, alloc: Global, frame: &[u8]) -> Result<Known, NoMemory>
        ensures { IfOk result (λ known. (frames : List (List ℕ)) → IsKnown frames self → IsKnown (frames ++ frame.now ∷ []) known) }
    {
        if let Known::Settled { .. } = self {
            return Ok(self);
        }
        Ok(known_behind(self, mark_frame(alloc, frame)?))
    }

    /// How a journal of these frames stands.
    pub fn standing(self) -> Standing
        ensures { (frames : List (List ℕ)) → IsKnown frames self → StandsSo frames result }
    {
        match self {
            Known::Nothing => HEADLESS,
            Known::Begun { generation } => Standing {
                sealed: false,
                generation,
            },
            Known::Settled { standing } => standing,
        }
    }
}
