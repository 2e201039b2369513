// Opens a journal and hands its frames over.
ghost use Rattle.std.specs.Prelude.{◌≡◌, ◌≢◌, ◌+◌, ◌<◌, ◌≤◌, ◌++◌, List, ℕ, length, Some, IfOk, IfErr, OnOk, MatchResult, Err};
ghost use Rattle.std.specs.List.{AllByRecursion};
ghost use Rattle.edge_io.specs.Disk.{SameContent, Synced, WhereTold, Within};
ghost use Rattle.edge_io.specs.Moments.{LeavesOnly};
ghost use Rattle.gate_journal.specs.Frames.{IsDamaged, IsRest, StandsAs, StandsFor, blocks, repaired};
ghost use Rattle.gate_journal.specs.Journals.{IsDeviceFault, KeepsContent};
ghost use Rattle.gate_journal.specs.Visits.{CallsFor, IsRecovered, OpensEach, VisitsAll, disk_behind, placed};

use crate::journal::Journal;
use crate::opening::StartFault;
use crate::pieces::visit_frames;
use crate::repair::repair;
use crate::visit::FrameVisit;
use edge_io::Disk;
use std::alloc::Global;

// Syncs, and hands over the frames; the place behind the last gate and the number of frames.
fn visit_synced<D: Disk, V: FrameVisit>(
    alloc: Global,
    disk: &mut D,
    visit: &mut V,
) -> Result<(u64, u64), StartFault>
    ensures ok { IfOk result (λ x. VisitsAll (D.seen disk.old).content (D.seen disk.old).size (V.seen visit.old) (V.seen visit.new) x.0 x.1) }
    ensures damaged { (place : ℕ) → result ≡ Err (StartFault.Damaged place) → WhereTold (D.seen disk.old).content (λ c. IsDamaged c place) }
    ensures synced { OnOk result (Synced (D.seen disk.new).content (D.seen disk.new).image) }
    ensures stays { SameContent (D.seen disk.old) (D.seen disk.new) }
    ensures images { Within (D.seen disk.old).image (D.seen disk.new).image }
    ensures any_moment { LeavesOnly D.seen disk.old disk.new (D.seen disk.old).image }
    ensures calls { CallsFor D.seen disk.old disk.new (result ≡ Err StartFault.Device) }
{
    if let Err(_) = disk.sync() {
        return Err(StartFault::Device);
    }
    visit_frames(alloc, disk, visit)
}

// Hands over the frames, and repairs the end.
fn recover_each<D: Disk, V: FrameVisit>(
    alloc: Global,
    disk: &mut D,
    visit: &mut V,
) -> Result<(u64, u64), StartFault>
    ensures ok { IfOk result (λ x. IsRecovered (D.seen disk.old).content (D.seen disk.new).image (D.seen disk.new).size
        (V.seen visit.old) (V.seen visit.new) x.0 x.1) }
    ensures damaged { (place : ℕ) → result ≡ Err (StartFault.Damaged place) → WhereTold (D.seen disk.old).content (λ c. IsDamaged c place) }
    ensures any_moment { LeavesOnly D.seen disk.old disk.new (StandsAs (D.seen disk.old).image) }
    ensures calls { CallsFor D.seen disk.old disk.new (result ≡ Err StartFault.Device) }
    ensures stays { IfErr result (λ e. e ≢ StartFault.Device → SameContent (D.seen disk.old) (D.seen disk.new)) }
{
    let (end, count) = visit_synced(alloc, disk, visit)?;
    if let Err(_) = repair(disk, end) {
        return Err(StartFault::Device);
    }
    Ok((end, count))
}

/// Opens the journal of a disk as `start` does, and hands over its frames one by one, each with the place of its
/// gate, in place of a list of all.
///
/// The content is read in pieces of 65536 bytes, of which those are kept that aren't handed over yet: with a frame
/// longer than that, the frame. So the memory that it takes is a frame, a piece and what the visitor keeps. At an
/// `Err` the disk comes back, and some of the frames may have been handed over.
pub fn start_each<D: Disk, V: FrameVisit>(
    alloc: Global,
    mut disk: D,
    visit: &mut V,
) -> Result<Journal<D>, (D, StartFault)>
    // The frames that were handed over are those that the content stands for, each image stands for them from now on,
    // and nothing is pending.
    ensures ok { IfOk result (λ j. OpensEach D.seen disk j (V.seen visit.old) (V.seen visit.new)) }

    // A content that stands for frames is never damaged, and hands these frames over.
    ensures recovers { (c : List ℕ) (frames : List (List ℕ)) → (D.seen disk).content ≡ Some c → StandsFor c frames →
        MatchResult result (λ _. V.seen visit.new ≡ V.seen visit.old ++ placed 0 frames) (λ e. (place : ℕ) → e.1 ≢ StartFault.Damaged place) }

    // Each refusal has its cause. Unless the disk failed, the content is as it was.
    ensures damaged { IfErr result (λ e. (place : ℕ) → e.1 ≡ StartFault.Damaged place → WhereTold (D.seen disk).content (λ c. IsDamaged c place)) }
    ensures stays { IfErr result (λ e. e.1 ≢ StartFault.Device → KeepsContent D.seen disk e.0) }

    // At each moment since the call began each image is one from before it, or stands for the frames of one.
    ensures any_moment { LeavesOnly D.seen disk (disk_behind result) (StandsAs (D.seen disk).image) }
    ensures calls { CallsFor D.seen disk (disk_behind result) (IsDeviceFault result) }
{
    match recover_each(alloc, &mut disk, visit) {
        Ok((end, count)) => Ok(Journal::opened(disk, end, count)),
        Err(fault) => Err((disk, fault)),
    }
}
