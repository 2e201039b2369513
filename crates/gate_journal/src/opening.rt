// Opens a journal.
ghost use Rattle.std.specs.Prelude.{◌≡◌, ◌≢◌, ◌+◌, ◌<◌, ◌≤◌, List, ℕ, length, Some, None, IfOk, IfErr, OnOk, MatchResult, Err};
ghost use Rattle.std.specs.List.{AllByRecursion};
ghost use Rattle.edge_io.specs.Armed.{RunsOn, StarvesUnarmed};
ghost use Rattle.edge_io.specs.Causes.{Rose};
ghost use Rattle.edge_io.specs.Counting.{DoesCalls, DoesUpTo, FailsInCalls, MakesUpTo};
ghost use Rattle.edge_io.specs.Disk.{Within, Synced, IsTold, WhereTold, SameContent};
ghost use Rattle.edge_io.specs.Moments.{LeavesOnly};
ghost use Rattle.gate_journal.specs.Frames.{IsRead, IsRest, IsFrame, blocks, IsDamaged, StandsFor, StandsAs, repaired};
ghost use Rattle.gate_journal.specs.Journals.{EndsWithGate, IsDeviceFault, KeepsContent, LooksOnly, Opens, disk_after};

use crate::journal::Journal;
use crate::repair::repair;
use crate::text::read_text;
use edge_io::Disk;
use share_model::Blob;
use std::alloc::Global;
use thiserror::Error;

/// Why a journal was not opened.
#[derive(Clone, Copy, Debug, Error)]
pub enum StartFault {
    /// The content is no journal text: at this place stands an open gate that no frame and gate follow.
    #[error("the journal is damaged at byte {place}")]
    Damaged { place: u64 },
    /// The disk failed.
    #[error("the disk failed")]
    Device,
    /// There was no memory for the content.
    #[error("out of memory")]
    NoMemory,
}

// The whole content.
fn read_whole<D: Disk>(alloc: Global, disk: &mut D) -> Result<Vec<u8>, StartFault>
    ensures bytes { IfOk result (λ v. WhereTold (D.seen disk.old).content (λ c. v.items ≡ c)) }
    ensures len { IfOk result (λ v. length v.items ≡ (D.seen disk.old).size) }
    ensures stays { SameContent (D.seen disk.old) (D.seen disk.new) }
    ensures images { Within (D.seen disk.old).image (D.seen disk.new).image }
    ensures any_moment { LeavesOnly D.seen disk.old disk.new (D.seen disk.old).image }
    ensures runs { RunsOn D.seen disk.old disk.new }
    ensures later { (D.seen disk.old).faults ≤ (D.seen disk.new).faults }
    ensures device { result ≡ Err StartFault.Device → Rose (D.seen disk.old).faults (D.seen disk.new).faults }
    ensures one { OnOk result (DoesCalls D.seen 1 disk.old disk.new) }
    ensures calls { result ≢ Err StartFault.Device → DoesUpTo D.seen 1 disk.old disk.new }
    ensures fails { result ≡ Err StartFault.Device → FailsInCalls D.seen 1 disk.old disk.new }
    ensures memory { result ≡ Err StartFault.Device → StarvesUnarmed D.seen disk.old disk.new }
    ensures whole { (place : ℕ) → result ≢ Err (StartFault.Damaged place) }
    ensures quiet { result ≢ Err StartFault.Device → IsTold (D.seen disk.old).content → (D.seen disk.new).faults ≡ (D.seen disk.old).faults }
{
    let len = disk.len() as usize;
    let mut bytes = Vec::new(alloc);
    if let Err(_) = bytes.resize(len, 0) {
        return Err(StartFault::NoMemory);
    }
    if let Err(_) = disk.read_at(0, &mut bytes) {
        return Err(StartFault::Device);
    }
    Ok(bytes)
}

// Syncs, and reads the frames and the place behind the last gate.
fn read_synced<D: Disk>(alloc: Global, disk: &mut D) -> Result<(Vec<Blob>, u64), StartFault>
    ensures text { IfOk result (λ x. WhereTold (D.seen disk.old).content (IsRead x.0.items (D.seen disk.old).size x.1)) }
    ensures fit { IfOk result (λ x. AllByRecursion IsFrame x.0.items) }
    ensures end { IfOk result (λ x. x.1 ≡ length (blocks x.0.items) + 1) }
    ensures some { IfOk result (λ x. 0 < x.1) }
    ensures fits { IfOk result (λ x. (D.seen disk.old).size ≤ 1 → x.1 ≡ 1) }
    ensures within { IfOk result (λ x. 1 < (D.seen disk.old).size → x.1 ≤ (D.seen disk.old).size) }
    ensures synced { OnOk result (Synced (D.seen disk.new).content (D.seen disk.new).image) }
    ensures stays { SameContent (D.seen disk.old) (D.seen disk.new) }
    ensures images { Within (D.seen disk.old).image (D.seen disk.new).image }
    ensures any_moment { LeavesOnly D.seen disk.old disk.new (D.seen disk.old).image }
    ensures runs { RunsOn D.seen disk.old disk.new }
    ensures later { (D.seen disk.old).faults ≤ (D.seen disk.new).faults }
    ensures damaged { (place : ℕ) → result ≡ Err (StartFault.Damaged place) → WhereTold (D.seen disk.old).content (λ c. IsDamaged c place) }
    ensures device { result ≡ Err StartFault.Device → Rose (D.seen disk.old).faults (D.seen disk.new).faults }
    ensures two { OnOk result (DoesCalls D.seen 2 disk.old disk.new) }
    ensures calls { result ≢ Err StartFault.Device → DoesUpTo D.seen 2 disk.old disk.new }
    ensures fails { result ≡ Err StartFault.Device → FailsInCalls D.seen 2 disk.old disk.new }
    ensures memory { result ≡ Err StartFault.Device → StarvesUnarmed D.seen disk.old disk.new }
    ensures quiet { result ≢ Err StartFault.Device → IsTold (D.seen disk.old).content → (D.seen disk.new).faults ≡ (D.seen disk.old).faults }
{
    if let Err(_) = disk.sync() {
        return Err(StartFault::Device);
    }
    let bytes = read_whole(alloc, disk)?;
    match read_text(alloc, &bytes) {
        Ok((frames, end)) => Ok((frames, end)),
        Err(fault) => Err(fault),
    }
}

// Reads the frames, and repairs the end.
fn recover<D: Disk>(alloc: Global, disk: &mut D) -> Result<(Vec<Blob>, u64), StartFault>
    ensures text { IfOk result (λ x. WhereTold (D.seen disk.old).content (λ c. StandsFor c x.0.items)) }
    ensures rest { IfOk result (λ x. (c : List ℕ) → (D.seen disk.new).image c → IsRest x.0.items c) }
    ensures bytes { IfOk result (λ x. WhereTold (D.seen disk.old).content (λ c. (d : List ℕ) → (D.seen disk.new).image d → d ≡ repaired x.1 c)) }
    ensures fit { IfOk result (λ x. AllByRecursion IsFrame x.0.items) }
    ensures end { IfOk result (λ x. x.1 ≡ length (blocks x.0.items) + 1) }
    ensures some { IfOk result (λ x. (0 < x.1) × (x.1 ≤ (D.seen disk.new).size)) }
    ensures any_moment { LeavesOnly D.seen disk.old disk.new (StandsAs (D.seen disk.old).image) }
    ensures runs { RunsOn D.seen disk.old disk.new }
    ensures later { (D.seen disk.old).faults ≤ (D.seen disk.new).faults }
    ensures damaged { (place : ℕ) → result ≡ Err (StartFault.Damaged place) → WhereTold (D.seen disk.old).content (λ c. IsDamaged c place) }
    ensures device { result ≡ Err StartFault.Device → Rose (D.seen disk.old).faults (D.seen disk.new).faults }
    ensures calls { result ≢ Err StartFault.Device → DoesUpTo D.seen 4 disk.old disk.new }
    ensures fails { result ≡ Err StartFault.Device → FailsInCalls D.seen 4 disk.old disk.new }
    ensures memory { result ≡ Err StartFault.Device → StarvesUnarmed D.seen disk.old disk.new }
    ensures quiet { IfErr result (λ e. e ≢ StartFault.Device → IsTold (D.seen disk.old).content →
        (D.seen disk.new).faults ≡ (D.seen disk.old).faults) }
    ensures stays { IfErr result (λ e. e ≢ StartFault.Device →
        SameContent (D.seen disk.old) (D.seen disk.new)) }
    ensures whole { WhereTold (D.seen disk.old).content (λ c. EndsWithGate c →
        SameContent (D.seen disk.old) (D.seen disk.new)) }
    ensures whole_done { OnOk result (WhereTold (D.seen disk.old).content (λ c. EndsWithGate c →
        DoesCalls D.seen 2 disk.old disk.new)) }
    ensures whole_fails { result ≡ Err StartFault.Device →
        WhereTold (D.seen disk.old).content (λ c. EndsWithGate c → FailsInCalls D.seen 2 disk.old disk.new) }
{
    let (frames, end) = read_synced(alloc, disk)?;
    if let Err(_) = repair(disk, end) {
        return Err(StartFault::Device);
    }
    Ok((frames, end))
}

/// Opens the journal of a disk: reads the frames that its content stands for, and repairs its end.
///
/// It syncs first, so that what it reads is what a crash would leave. Then it writes a closed gate to an empty disk,
/// or cuts off what stands behind the last gate, and syncs again: two device calls where there is nothing to repair,
/// and four where there is. The first that fails is the last. At an `Err` the disk comes back, at `Damaged` and
/// `NoMemory` with the content that it had. It reads the content into memory once, and copies each frame.
pub fn start<D: Disk>(
    alloc: Global,
    mut disk: D,
) -> Result<(Journal<D>, Vec<Blob>), (D, StartFault)>
    // The frames are those that the content stands for, each image stands for them from now on, and nothing is pending.
    ensures ok { IfOk result (λ x. Opens D.seen disk x.0 x.1.items) }

    // A content that stands for frames is never damaged, and gives these frames.
    ensures recovers { (c : List ℕ) (frames : List (List ℕ)) → (D.seen disk).content ≡ Some c → StandsFor c frames →
        MatchResult result (λ x. x.1.items ≡ frames) (λ e. (place : ℕ) → e.1 ≢ StartFault.Damaged place) }

    // Each refusal has its cause. Unless the disk failed, the content is as it was.
    ensures damaged { IfErr result (λ e. (place : ℕ) → e.1 ≡ StartFault.Damaged place → WhereTold (D.seen disk).content (λ c. IsDamaged c place)) }
    ensures stays { IfErr result (λ e. e.1 ≢ StartFault.Device → KeepsContent D.seen disk e.0) }

    // At each moment since the call began each image is one from before it, or stands for the frames of one.
    ensures any_moment { LeavesOnly D.seen disk (disk_after result) (StandsAs (D.seen disk).image) }
    ensures disk { MakesUpTo D.seen 4 disk (disk_after result) (IsDeviceFault result) }

    // A content that ends with its last gate stays as it is, and takes two calls.
    ensures whole { WhereTold (D.seen disk).content (λ c. EndsWithGate c →
        LooksOnly D.seen disk (disk_after result) (IsDeviceFault result) result) }
{
    match recover(alloc, &mut disk) {
        Ok((frames, end)) => {
            let count = frames.len() as u64;
            Ok((Journal::opened(disk, end, count), frames))
        }
        Err(fault) => Err((disk, fault)),
    }
}
