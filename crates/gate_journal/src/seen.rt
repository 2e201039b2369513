// The frames of a journal, for clauses alone.
ghost use Rattle.std.specs.Prelude.{◌≡◌, ℕ, List, [], ◌∷◌, ◌++◌};
ghost use Rattle.std.specs.Borrow.{ftrue};

use std::marker::{Model, Send};

/// Frames, each with the place of its gate, that only clauses read. It takes no memory, and its calls do nothing at
/// run time: with it a value that keeps no frame in memory can say which frames it was made of.
#[derive(Drop)]
pub struct SeenFrames {
    pub ghost frames: { List (ℕ × List ℕ) },
}

impl Model for SeenFrames {
    ghost also_owns = { λ _. ftrue };
}

// It owns nothing.
unsafe impl Send for SeenFrames {}

impl SeenFrames {
    /// No frames.
    pub fn new() -> SeenFrames
        ensures { result.frames ≡ [] }
    {
        SeenFrames {}
    }

    /// These frames, and behind them one whose gate stands at `place`.
    pub fn with(&self, place: &u64, bytes: &[u8]) -> SeenFrames
        ensures { result.frames ≡ self.now.frames ++ (place.now, bytes.now) ∷ [] }
    {
        SeenFrames {}
    }
}
