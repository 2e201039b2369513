// Hands frames over, one by one.
ghost use Rattle.std.specs.Prelude.{◌≡◌, ◌+◌, ◌<◌, ◌^◌, ◌++◌, [], ◌∷◌, List, ℕ, length, IfOk, OnOk};
ghost use Rattle.gate_journal.specs.Visits.{HandsOver};

use crate::text::next_frame;
use share_model::NoMemory;

/// Whom the frames of a journal are handed to when it is opened, in order.
pub trait FrameVisit {
    /// The frames that were handed over, each with the place of its gate.
    ghost seen: { Self → List (ℕ × List ℕ) };

    /// Takes a frame, whose gate stands at `place`.
    fn frame(&mut self, place: u64, bytes: &[u8]) -> Result<(), NoMemory>
        ensures { OnOk result (seen self.new ≡ seen self.old ++ (place, bytes.now) ∷ []) };
}

/// What was handed over.
#[derive(Clone, Copy)]
pub struct Handed {
    /// So many bytes.
    pub used: usize,
    /// So many frames.
    pub count: u64,
    /// A closed gate follows.
    pub closed: bool,
}

/// Hands over the whole frames at the front of some bytes, of which the first stands at a place.
pub fn hand_over<V: FrameVisit>(visit: &mut V, place: u64, bytes: &[u8]) -> Result<Handed, NoMemory>
    requires some { 0 < length bytes.now }
    requires fits { place + length bytes.now < 2 ^ 64 }
    ensures { IfOk result (λ h. HandsOver place bytes.now (V.seen visit.old) (V.seen visit.new) h.used h.count h.closed) }
{
    let mut used = 0;
    let mut count = 0;
    let mut rest = bytes;
    while let Some((gate, behind)) = rest.split_first() {
        if *gate != 1 {
            return Ok(Handed {
                used,
                count,
                closed: true,
            });
        }
        let Some((frame, after)) = next_frame(behind) else {
            return Ok(Handed {
                used,
                count,
                closed: false,
            });
        };
        visit.frame(place + used as u64, frame)?;
        used += 5 + frame.len();
        count += 1;
        rest = after;
    }
    unreachable!()
}
