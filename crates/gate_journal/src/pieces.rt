// Reads the content of a disk in pieces, and hands its frames over.
ghost use Rattle.std.specs.Prelude.{◌≡◌, ◌≢◌, ◌+◌, ◌-◌, ◌<◌, ◌≤◌, ◌^◌, ◌++◌, [], ◌∷◌, List, ℕ, length, drop, IfOk, IfErr, Err};
ghost use Rattle.std.specs.Prelude.{vec_len};
ghost use Rattle.edge_io.specs.Disk.{WhereTold};
ghost use Rattle.gate_journal.specs.Frames.{IsDamaged};
ghost use Rattle.gate_journal.specs.Visits.{LooksFor, VisitsAll};

use crate::opening::StartFault;
use crate::reading::append_at;
use crate::visit::{FrameVisit, Handed, hand_over};
use edge_io::Disk;
use share_model::BatchRead;
use std::alloc::Global;

const PIECE: u64 = 65536;

// A gate, the length, the longest frame and the next gate.
const MOST: usize = 33554438;

// Cuts so many bytes off the front.
fn cut_front(held: &mut Vec<u8>, used: usize)
    requires { used ≤ length held.old.items }
    ensures { held.new.items ≡ drop used held.old.items }
{
    if used == 0 {
        return;
    }
    let rest = held.len() - used;
    held.copy_within(used.., 0);
    held.truncate(rest);
}

/// Reads journal text to its last gate and hands its frames over, and answers the place behind that gate and the
/// number of frames.
pub fn visit_frames<D: Disk, V: FrameVisit>(
    alloc: Global,
    disk: &mut D,
    visit: &mut V,
) -> Result<(u64, u64), StartFault>
    ensures ok { IfOk result (λ x. VisitsAll (D.seen disk.old).content (D.seen disk.old).size (V.seen visit.old) (V.seen visit.new) x.0 x.1) }
    ensures damaged { (place : ℕ) → result ≡ Err (StartFault.Damaged place) → WhereTold (D.seen disk.old).content (λ c. IsDamaged c place) }
    ensures looks { LooksFor D.seen disk.old disk.new (result ≡ Err StartFault.Device) }
{
    let size = disk.len();
    if size <= 1 {
        return Ok((1, 0));
    }
    let mut held = Vec::new(alloc);
    let mut place = 0;
    let mut count = 0;
    while place + (held.len() as u64) < size {
        let read = place + held.len() as u64;
        let piece = PIECE.min(size - read) as usize;
        match append_at(disk, read, piece, &mut held) {
            Ok(()) => {}
            Err(BatchRead::Device) => return Err(StartFault::Device),
            Err(BatchRead::NoMemory) => return Err(StartFault::NoMemory),
        }
        let Ok(
            Handed {
                used,
                count: more,
                closed,
            },
        ) = hand_over(visit, place, &held)
        else {
            return Err(StartFault::NoMemory);
        };
        place += used as u64;
        count += more;
        if closed {
            return Ok((place + 1, count));
        }
        cut_front(&mut held, used);
        if held.len() >= MOST {
            return Err(StartFault::Damaged { place });
        }
    }
    Err(StartFault::Damaged { place })
}
