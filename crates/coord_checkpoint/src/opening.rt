// Opens a store.
ghost use Rattle.std.specs.Prelude.{◌≡◌, ◌≢◌, ◌<◌, ◌^◌, ◌⊎◌, [], List, ℕ, Bool, true, false, length, Some, None, IfOk, IfErr, MatchResult, if◌then◌else◌};
ghost use Rattle.gate_journal.specs.Frames.{IsDamaged, StandsFor};
ghost use Rattle.gate_journal.specs.Visits.{placed};
ghost use Rattle.checkpoint_journal.specs.Generations.{IsListed, IsLiveOn, IsUnlisted};
ghost use Rattle.coord_checkpoint.specs.Disks.{HasFailed, IsReopened, RunsBoth};
ghost use Rattle.coord_checkpoint.specs.Openings.{IsRead, frames_in};
ghost use Rattle.coord_checkpoint.specs.Stores.{Keeps};

use crate::fault::CoordOpen;
use crate::journal::StateJournal;
use crate::step::turn_of;
use crate::visit::{Noting, StateVisit};
use checkpoint_journal::Standing;
use edge_io::Disk;
use gate_journal::{Journal, StartFault, start_each};
use std::alloc::Global;

// A disk was not opened.
fn fault_of(second: bool, fault: StartFault) -> CoordOpen
    ensures damaged { (on_second : Bool) (place : ℕ) → result ≡ CoordOpen.Damaged on_second place →
        (on_second ≡ second) × (fault ≡ StartFault.Damaged place) }
    ensures device { (on_second : Bool) → result ≡ CoordOpen.Device on_second → (on_second ≡ second) × (fault ≡ StartFault.Device) }
{
    match fault {
        StartFault::Damaged { place } => CoordOpen::Damaged { second, place },
        StartFault::Device => CoordOpen::Device { second },
        StartFault::NoMemory => CoordOpen::NoMemory,
    }
}

// Opens the journal of one disk, and hands its frames over.
fn open_disk<D: Disk, V: StateVisit + Drop>(
    alloc: Global,
    disk: D,
    visit: V,
) -> Result<(Journal<D>, V, Standing), (D, StartFault)>
    requires { V.seen visit ≡ [] }
    ensures ok { IfOk result (λ x. IsRead D.seen disk x.0 (V.seen x.1) x.2) }
    ensures recovers { IfErr result (λ e. (c : List ℕ) (frames : List (List ℕ)) (place : ℕ) → (D.seen disk).content ≡ Some c → StandsFor c frames →
        e.1 ≢ StartFault.Damaged place) }
    ensures damaged { IfErr result (λ e. (c : List ℕ) (place : ℕ) → (D.seen disk).content ≡ Some c → e.1 ≡ StartFault.Damaged place → IsDamaged c place) }
    ensures device { IfErr result (λ e. e.1 ≡ StartFault.Device → HasFailed D.seen disk e.0) }
    ensures reopened { MatchResult result (λ x. IsReopened D.seen disk x.0.disk) (λ e. IsReopened D.seen disk e.0) }
{
    let mut noting = Noting::new(alloc, visit);
    match start_each(alloc, disk, &mut noting) {
        Ok(journal) => {
            let _gate = journal.last_gate(); // so there are fewer than 2^63 frames
            let (visit, standing) = noting.finish();
            Ok((journal, visit, standing))
        }
        Err(refused) => Err(refused),
    }
}

// The second of two or the first.
fn pick<V: Drop>(on_second: bool, one: V, two: V) -> V
    ensures { result ≡ (if on_second then two else one) }
{
    if on_second { two } else { one }
}

/// Opens a store: hands the frames of each disk to a visitor, and gives back that of the live one.
///
/// Each disk is synced before it is read, and the end of its journal is repaired, as `start_each` of a journal does it:
/// so it takes the memory of one frame, and what the two visitors keep. At an `Err` both disks come back, and some of
/// the frames may have been handed over. A disk that is no journal text is named, the first one before the second;
/// where neither journal is sealed, it is the first byte of the first.
pub fn open<D: Disk, V: StateVisit + Drop>(
    alloc: Global,
    first: D,
    second: D,
    ones: V,
    twos: V,
) -> Result<(StateJournal<D>, V), (D, D, CoordOpen)>
    requires unused { (V.seen ones ≡ []) × (V.seen twos ≡ []) }

    // The frames that were handed over are those that the contents keep, each with its place; each image keeps them from
    // now on, no seal may land and nothing is pending.
    ensures places { IfOk result (λ x. V.seen x.1 ≡ placed 0 (frames_in (V.seen x.1))) }
    ensures few { IfOk result (λ x. length (V.seen x.1) < 2 ^ 63) }
    ensures kept { IfOk result (λ x. Keeps D.seen x.0 (frames_in (V.seen x.1)) None None) }
    ensures live { IfOk result (λ x. (a b : List ℕ) → (D.seen first).content ≡ Some a → (D.seen second).content ≡ Some b →
        IsLiveOn a b x.0.on_second (frames_in (V.seen x.1))) }
    ensures opens { IfOk result (λ x. (a b : List ℕ) → (D.seen first).content ≡ Some a → (D.seen second).content ≡ Some b →
        IsListed a b (frames_in (V.seen x.1))) }

    // Contents that keep frames are never damaged, and these frames are handed over.
    ensures recovers { (a b : List ℕ) (frames : List (List ℕ)) → (D.seen first).content ≡ Some a → (D.seen second).content ≡ Some b → IsListed a b frames →
        MatchResult result (λ x. V.seen x.1 ≡ placed 0 frames) (λ e. (on_second : Bool) (place : ℕ) → e.2 ≢ CoordOpen.Damaged on_second place) }

    // Each refusal has its cause.
    ensures damaged { IfErr result (λ e. (on_second : Bool) (place : ℕ) → e.2 ≡ CoordOpen.Damaged on_second place →
        (a b : List ℕ) → (D.seen first).content ≡ Some a → (D.seen second).content ≡ Some b → IsUnlisted a b on_second place) }
    ensures device { IfErr result (λ e. e.2 ≡ CoordOpen.Device false → HasFailed D.seen first e.0) }
    ensures second_device { IfErr result (λ e. e.2 ≡ CoordOpen.Device true → HasFailed D.seen second e.1) }

    // Where the first disk fails or is no journal text, no call was made on the second: it comes back as it was handed
    // in.
    ensures untouched { IfErr result (λ e. e.2 ≡ CoordOpen.Device false → e.1 ≡ second) }
    ensures unread { IfErr result (λ e. (a : List ℕ) (place : ℕ) → (D.seen first).content ≡ Some a → IsDamaged a place → e.2 ≡ CoordOpen.Damaged false place →
        e.1 ≡ second) }
    ensures both { MatchResult result
        (λ x. RunsBoth D.seen first second x.0.first.disk x.0.second.disk)
        (λ e. RunsBoth D.seen first second e.0 e.1) }
{
    let (one, ones, here) = match open_disk(alloc, first, ones) {
        Ok(read) => read,
        Err((first, fault)) => return Err((first, second, fault_of(false, fault))),
    };
    let (two, twos, there) = match open_disk(alloc, second, twos) {
        Ok(read) => read,
        Err((second, fault)) => return Err((one.into_disk(), second, fault_of(true, fault))),
    };
    match turn_of(here, there) {
        Some(turn) => {
            let live = pick(turn.on_second, ones, twos);
            Ok((StateJournal::opened(one, two, turn), live))
        }
        None => Err((
            one.into_disk(),
            two.into_disk(),
            CoordOpen::Damaged {
                second: false,
                place: 0,
            },
        )),
    }
}
