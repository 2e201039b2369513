// Writes a checkpoint to the disk that isn't live.
ghost use Rattle.std.specs.Prelude.{◌≡◌, ◌⊎◌, ◌<◌, ◌^◌, ◌++◌, [], ◌∷◌, List, ℕ, Bool, Some, None, Err, IfErr, OnOk, OnErr};
ghost use Rattle.std.specs.declared.option.Option.{Option};
ghost use Rattle.edge_io.specs.Armed.{RunsOn};
ghost use Rattle.edge_io.specs.Causes.{Rose};
ghost use Rattle.edge_io.specs.Counting.{DoesCalls};
ghost use Rattle.edge_io.specs.Moments.{LeavesOnly};
ghost use Rattle.gate_journal.specs.Frames.{IsBeforeOrAfter, IsFrame, frame_in};
ghost use Rattle.gate_journal.specs.Journals.{IsAtRest, IsQuiet, Stands};
ghost use Rattle.gate_journal.specs.Spares.{HasFrames, IsSpare};
ghost use Rattle.checkpoint_journal.specs.Checkpoints.{AreSnapshots, IsUnfinished};
ghost use Rattle.checkpoint_journal.specs.Generations.{checkpoint_of, head_frame, seal_frame};
ghost use Rattle.checkpoint_journal.specs.Making.{DoesSome, FailsOrFull, Halts, HasStopped, IsMaking, IsUnmade, SealFails};
ghost use Rattle.checkpoint_journal.specs.Spares.{IsBeside, IsIdle};

use crate::head::{head_buffer, seal_buffer};
use crate::snapshots::Snapshots;
use edge_io::Disk;
use gate_journal::Journal;
use share_model::StoreFault;
use std::alloc::Global;

/// How far a checkpoint came that wasn't made.
#[derive(Clone, Copy)]
pub enum CheckpointFault {
    /// The disk has what it had: if the seal of an earlier checkpoint may still land there, it still may.
    Uncleared,
    /// What the disk had is gone, and no seal may land.
    Unsealed,
    /// The append of the seal failed, and it may still land.
    Sealing,
}

// A frame wasn't written, or there was no memory for it.
#[derive(Clone, Copy)]
struct NotMade;

// Takes the frames away from the disk that isn't live: four device calls.
fn erase<D: Disk>(idle: &mut Journal<D>) -> Result<(), NotMade>
    ensures ok { OnOk result ((on_second : Bool) (live : ℕ) (sealing : Option (List (List ℕ))) →
        IsBeside D.seen idle.old on_second live sealing → IsAtRest D.seen idle.new []) }
    ensures kept { OnErr result ((on_second : Bool) (live : ℕ) (sealing : Option (List (List ℕ))) →
        IsBeside D.seen idle.old on_second live sealing → IsBeside D.seen idle.new on_second live sealing) }
    ensures any_moment { (on_second : Bool) (live : ℕ) (sealing : Option (List (List ℕ))) → IsBeside D.seen idle.old on_second live sealing →
        LeavesOnly D.seen idle.old.disk idle.new.disk (HasFrames (IsIdle on_second live sealing)) }
    ensures runs { RunsOn D.seen idle.old.disk idle.new.disk }
    ensures calls { OnOk result ((n : ℕ) × (0 < n) × DoesCalls D.seen n idle.old.disk idle.new.disk) }
    ensures rose { OnErr result (Rose (D.seen idle.old.disk).faults (D.seen idle.new.disk).faults) }
{
    match idle.clear() {
        Ok(()) => Ok(()),
        Err(_) => Err(NotMade),
    }
}

// Adds one frame: four device calls.
fn put_frame<D: Disk>(idle: &mut Journal<D>, buffer: &mut [u8]) -> Result<(), NotMade>
    requires { IsFrame (frame_in buffer.old) }
    ensures ok { OnOk result ((frames : List (List ℕ)) → IsAtRest D.seen idle.old frames → IsAtRest D.seen idle.new (frames ++ frame_in buffer.old ∷ [])) }
    ensures failed { OnErr result ((frames : List (List ℕ)) → IsAtRest D.seen idle.old frames →
        Stands D.seen idle.new frames None ⊎ Stands D.seen idle.new frames (Some (frame_in buffer.old))) }
    ensures any_moment { (frames : List (List ℕ)) → IsAtRest D.seen idle.old frames →
        LeavesOnly D.seen idle.old.disk idle.new.disk (IsBeforeOrAfter frames (frame_in buffer.old)) }
    ensures runs { RunsOn D.seen idle.old.disk idle.new.disk }
    ensures calls { OnOk result (DoesSome D.seen idle.old.disk idle.new.disk) }
    ensures stops { OnErr result (FailsOrFull D.seen idle.old idle.new) }
{
    match idle.append(buffer) {
        Ok(_) => Ok(()),
        Err(_) => Err(NotMade),
    }
}

// The head, of this generation.
fn write_head<D: Disk>(idle: &mut Journal<D>, generation: u64) -> Result<(), NotMade>
    ensures ok { OnOk result (IsAtRest D.seen idle.old [] → IsAtRest D.seen idle.new (head_frame generation ∷ [])) }
    ensures failed { OnErr result (IsAtRest D.seen idle.old [] → IsSpare D.seen idle.new IsUnfinished) }
    ensures any_moment { IsAtRest D.seen idle.old [] → LeavesOnly D.seen idle.old.disk idle.new.disk (HasFrames IsUnfinished) }
    ensures runs { RunsOn D.seen idle.old.disk idle.new.disk }
    ensures calls { OnOk result (DoesSome D.seen idle.old.disk idle.new.disk) }
    ensures stops { OnErr result (FailsOrFull D.seen idle.old idle.new) }
{
    let mut buffer = head_buffer(generation);
    match put_frame(idle, &mut buffer) {
        Ok(()) => Ok(()),
        Err(_) => Err(NotMade),
    }
}

// The snapshots, behind the head. One buffer has each of them in turn.
fn write_snapshots<D: Disk, S: Snapshots>(
    alloc: Global,
    idle: &mut Journal<D>,
    snapshots: &mut S,
) -> Result<(), NotMade>
    ensures ok { OnOk result ((n : ℕ) → n < 2 ^ 64 → IsAtRest D.seen idle.old (head_frame n ∷ []) →
        IsAtRest D.seen idle.new (head_frame n ∷ S.rest snapshots.old)) }
    ensures all { OnOk result (AreSnapshots (S.rest snapshots.old)) }
    ensures failed { OnErr result ((n : ℕ) → n < 2 ^ 64 → IsAtRest D.seen idle.old (head_frame n ∷ []) → IsSpare D.seen idle.new IsUnfinished) }
    ensures any_moment { (n : ℕ) → n < 2 ^ 64 → IsAtRest D.seen idle.old (head_frame n ∷ []) →
        LeavesOnly D.seen idle.old.disk idle.new.disk (HasFrames IsUnfinished) }
    ensures runs { RunsOn D.seen idle.old.disk idle.new.disk }
    ensures calls { OnOk result (DoesSome D.seen idle.old.disk idle.new.disk) }
    ensures stops { OnErr result ((n : ℕ) → n < 2 ^ 64 → IsAtRest D.seen idle.old (head_frame n ∷ []) → Halts D.seen idle.old idle.new n) }
{
    let mut buffer = Vec::new(alloc);
    let count = snapshots.count();
    for _ in 0..count {
        if let Err(_) = snapshots.next(&mut buffer) {
            return Err(NotMade);
        }
        if let Err(_) = put_frame(idle, &mut buffer) {
            return Err(NotMade);
        }
    }
    Ok(())
}

// The head and the snapshots.
fn write_unsealed<D: Disk, S: Snapshots>(
    alloc: Global,
    idle: &mut Journal<D>,
    generation: u64,
    snapshots: &mut S,
) -> Result<(), NotMade>
    ensures ok { OnOk result (IsAtRest D.seen idle.old [] → IsAtRest D.seen idle.new (head_frame generation ∷ S.rest snapshots.old)) }
    ensures all { OnOk result (AreSnapshots (S.rest snapshots.old)) }
    ensures failed { OnErr result (IsAtRest D.seen idle.old [] → IsSpare D.seen idle.new IsUnfinished) }
    ensures any_moment { IsAtRest D.seen idle.old [] → LeavesOnly D.seen idle.old.disk idle.new.disk (HasFrames IsUnfinished) }
    ensures runs { RunsOn D.seen idle.old.disk idle.new.disk }
    ensures calls { OnOk result (DoesSome D.seen idle.old.disk idle.new.disk) }
    ensures stops { OnErr result (IsAtRest D.seen idle.old [] → Halts D.seen idle.old idle.new generation) }
{
    if let Err(_) = write_head(idle, generation) {
        return Err(NotMade);
    }
    match write_snapshots(alloc, idle, snapshots) {
        Ok(()) => Ok(()),
        Err(_) => Err(NotMade),
    }
}

// The seal: four device calls. Where it has no room it isn't written.
fn write_seal<D: Disk>(idle: &mut Journal<D>) -> Result<(), CheckpointFault>
    ensures ok { OnOk result ((frames : List (List ℕ)) → IsAtRest D.seen idle.old frames → IsAtRest D.seen idle.new (frames ++ seal_frame ∷ [])) }
    ensures failed { IfErr result (λ e. SealFails D.seen idle.old idle.new e) }
    ensures any_moment { (frames : List (List ℕ)) → IsAtRest D.seen idle.old frames →
        LeavesOnly D.seen idle.old.disk idle.new.disk (IsBeforeOrAfter frames seal_frame) }
    ensures runs { RunsOn D.seen idle.old.disk idle.new.disk }
    ensures calls { OnOk result (DoesSome D.seen idle.old.disk idle.new.disk) }
{
    let mut buffer = seal_buffer();
    match idle.append(&mut buffer) {
        Ok(_) => Ok(()),
        Err(StoreFault::Device) => Err(CheckpointFault::Sealing),
        Err(StoreFault::Full { .. }) => Err(CheckpointFault::Unsealed),
    }
}

/// Writes a checkpoint of this generation to the disk that isn't live: what stands there is taken away, and then a head,
/// the snapshots and a seal are appended, each with its own syncs. The first device call that fails is the last.
///
/// On an empty journal these are four calls and then four for each frame. It takes memory for one snapshot at a time.
pub fn write_checkpoint<D: Disk, S: Snapshots>(
    alloc: Global,
    idle: &mut Journal<D>,
    generation: u64,
    snapshots: &mut S,
) -> Result<(), CheckpointFault>
    // At Ok it is all that the disk has, and each crash leaves it.
    ensures made { OnOk result ((on_second : Bool) (live : ℕ) (sealing : Option (List (List ℕ))) → IsBeside D.seen idle.old on_second live sealing →
        IsAtRest D.seen idle.new (checkpoint_of generation (S.rest snapshots.old))) }
    ensures all { OnOk result (AreSnapshots (S.rest snapshots.old)) }

    // At Err it may land only where its seal was appended.
    ensures failed { IfErr result (λ e. (on_second : Bool) (live : ℕ) (sealing : Option (List (List ℕ))) → IsBeside D.seen idle.old on_second live sealing →
        IsUnmade D.seen idle.new on_second live sealing generation (S.rest snapshots.old) e) }

    // At each moment a crash leaves frames that are not live, or the checkpoint.
    ensures any_moment { (on_second : Bool) (live : ℕ) (sealing : Option (List (List ℕ))) → IsBeside D.seen idle.old on_second live sealing →
        LeavesOnly D.seen idle.old.disk idle.new.disk (HasFrames (IsMaking on_second live sealing generation (S.rest snapshots.old))) }
    ensures runs { RunsOn D.seen idle.old.disk idle.new.disk }

    // At Ok no call of the disk failed. At Err one did, or what the disk had is gone; where the seal may land, one did.
    ensures quiet { OnOk result (IsQuiet D.seen idle.old.disk idle.new.disk) }
    ensures stops { OnErr result ((on_second : Bool) (live : ℕ) (sealing : Option (List (List ℕ))) → IsBeside D.seen idle.old on_second live sealing →
        HasStopped D.seen idle.old idle.new generation) }
    ensures seals { result ≡ Err CheckpointFault.Sealing → Rose (D.seen idle.old.disk).faults (D.seen idle.new.disk).faults }
{
    if let Err(_) = erase(idle) {
        return Err(CheckpointFault::Uncleared);
    }
    if let Err(_) = write_unsealed(alloc, idle, generation, snapshots) {
        return Err(CheckpointFault::Unsealed);
    }
    match write_seal(idle) {
        Ok(()) => Ok(()),
        Err(fault) => Err(fault),
    }
}
