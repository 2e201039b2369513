// Hands the frames of a disk over, and notes what they say of its journal.
ghost use Rattle.std.specs.Prelude.{◌≡◌, ◌++◌, [], ◌∷◌, List, ℕ, OnOk, OnErr};
ghost use Rattle.checkpoint_journal.specs.Standings.{StandsSo};
ghost use Rattle.coord_checkpoint.specs.Openings.{frames_in};

use checkpoint_journal::{Known, Standing};
use gate_journal::FrameVisit;
use share_model::NoMemory;
use std::alloc::Global;
use std::marker::Model;

/// Whom the frames of a disk are handed to when its store is opened, in order.
pub trait StateVisit {
    /// The frames that were handed over, each with the place of its gate.
    ghost seen: { Self → List (ℕ × List ℕ) };

    /// Takes a frame, whose gate stands at `place`. At an `Err` it wasn't handed over.
    fn frame(&mut self, place: u64, bytes: &[u8]) -> Result<(), NoMemory>
        ensures ok { OnOk result (seen self.new ≡ seen self.old ++ (place, bytes.now) ∷ []) }
        ensures err { OnErr result (seen self.new ≡ seen self.old) };
}

/// Hands each frame on, and knows what those so far say of the journal. A contract sees whom it hands them to.
#[derive(Drop)]
pub struct Noting<V: StateVisit> {
    alloc: Global,
    visit: V,
    known: Known,
}

impl<V: StateVisit> Model for Noting<V> {
    ghost use Rattle.checkpoint_journal.specs.Standings.{IsKnown};
    ghost use Rattle.coord_checkpoint.specs.Openings.{frames_in};

    ghost Value = { V };

    ghost view = { λ n. n.visit };

    ghost invariant = { λ n. IsKnown (frames_in (V.seen n.visit)) n.known };
}

impl<V: StateVisit> Noting<V> {
    /// Nothing was handed over yet.
    pub fn new(alloc: Global, visit: V) -> Noting<V>
        requires { V.seen visit ≡ [] }
        ensures { result ≡ visit }
    {
        Noting {
            alloc,
            visit,
            known: Known::Nothing,
        }
    }

    /// Whom the frames were handed to, and how a journal of them stands.
    pub fn finish(self) -> (V, Standing)
        ensures visit { result.0 ≡ self }
        ensures stands { StandsSo (frames_in (V.seen self)) result.1 }
    {
        let Noting { visit, known, .. } = self;
        (visit, known.standing())
    }
}

impl<V: StateVisit> FrameVisit for Noting<V> {
    ghost seen = { λ (visit : V). V.seen visit };

    fn frame(&mut self, place: u64, bytes: &[u8]) -> Result<(), NoMemory> {
        let known = self.known.with_frame(self.alloc, bytes)?;
        self.visit.frame(place, bytes)?;
        self.known = known;
        Ok(())
    }
}
