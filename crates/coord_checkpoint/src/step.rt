// One write to a store, with the checkpoint that is tried before it.
ghost use Rattle.std.specs.Prelude.{◌≡◌, ◌≢◌, ◌⊎◌, ◌↔◌, ◌+◌, ◌*◌, ◌<◌, ◌≤◌, ◌^◌, ◌&&◌, ◌||◌, not, nat_lt, [], List, ℕ, true, false, length, Some, None, IfOk, OnErr, Ok, IsOk, MatchOption};
ghost use Rattle.std.specs.declared.option.Option.{Option};
ghost use Rattle.edge_io.specs.Armed.{RunsOn};
ghost use Rattle.edge_io.specs.Causes.{Rose};
ghost use Rattle.edge_io.specs.Moments.{LeavesOnly};
ghost use Rattle.gate_journal.specs.Frames.{IsFrame, frame_in};
ghost use Rattle.gate_journal.specs.Journals.{IsQuiet};
ghost use Rattle.gate_journal.specs.Spares.{HasFrames};
ghost use Rattle.checkpoint_journal.specs.Generations.{IsBeaten, IsPlain, live_of, mark_of};
ghost use Rattle.checkpoint_journal.specs.Spares.{IsIdle};
ghost use Rattle.checkpoint_journal.specs.Standings.{StandsSo};
ghost use Rattle.coord_checkpoint.specs.Disks.{HasFailed, RoseTwice};
ghost use Rattle.coord_checkpoint.specs.Steps.{HasCheckpoint, HasTried, IsDueAt, IsNextTurn, IsPreparing, IsReady, IsSameTurn, IsTurn, StaysReady, placed};
ghost use Rattle.coord_checkpoint.specs.Writes.{StaysOn, Tries, Writes};

use checkpoint_journal::{CheckpointFault, Snapshots, Standing, close_idle, write_checkpoint};
use edge_io::{Disk, Failed};
use gate_journal::Journal;
use share_model::StoreFault;
use std::alloc::Global;

const MAX_END: u64 = 1 << 62;

// The buffer of the largest frame.
const MAX_BUFFER: usize = 33_554_437;

const MAX_GENERATION: u64 = 1 << 62;

// A checkpoint of fewer keys, and a frame behind it, end at 2^62 bytes or below.
const MAX_KEYS: u64 = 1 << 35;

/// Which disk is live.
#[derive(Clone, Copy)]
pub struct Turn {
    pub on_second: bool,
    /// That of the live journal.
    pub generation: u64,
    /// A seal may still land on the other disk.
    pub sealing: bool,
}

// Whether the second of two journals is live.
fn second_leads(first: Standing, second: Standing) -> bool
    ensures { result ≡ (second.sealed && (not first.sealed || nat_lt first.generation second.generation)) }
{
    second.sealed && (!first.sealed || first.generation < second.generation)
}

// Which of two journals is live. None where neither is sealed.
pub(crate) fn turn_of(first: Standing, second: Standing) -> Option<Turn>
    ensures { (ones twos : List (List ℕ)) → StandsSo ones first → StandsSo twos second →
        MatchOption result (live_of ones twos ≡ None) (IsTurn ones twos) }
{
    if second_leads(first, second) {
        return Some(Turn {
            on_second: true,
            generation: second.generation,
            sealing: false,
        });
    }
    if first.sealed {
        return Some(Turn {
            on_second: false,
            generation: first.generation,
            sealing: false,
        });
    }
    None
}

// Whether there are so many more frames than keys that a checkpoint is due.
pub(crate) fn is_due(frames: u64, keys: u64) -> bool
    ensures { (result ≡ true) ↔ ((4096 + 2 * keys ≤ frames) × (keys < 2 ^ 35)) }
{
    frames >= 4096 && keys <= (frames - 4096) / 2 && keys < MAX_KEYS
}

// Whether the disk that isn't live can be cleared, and there is a next generation.
pub(crate) fn may_make(turn: Turn) -> bool
    ensures exact { (result ≡ true) ↔ ((turn.generation < 2 ^ 62) × (turn.on_second ≡ true → 0 < turn.generation)) }
    ensures next { result ≡ true → turn.generation < 2 ^ 62 }
    ensures clears { result ≡ true → IsBeaten turn.on_second turn.generation [] }
{
    turn.generation < MAX_GENERATION && (!turn.on_second || turn.generation > 0)
}

// Whether a checkpoint of so many keys is due behind so many frames, and can be made.
fn is_timely(turn: Turn, frames: u64, keys: u64) -> bool
    ensures exact { (result ≡ true) ↔ IsDueAt turn frames keys }
    ensures clears { result ≡ true → IsBeaten turn.on_second turn.generation [] }
{
    is_due(frames, keys) && may_make(turn)
}

// Tries a checkpoint where one is due, of a live journal with so many frames. True where it was made.
fn try_checkpoint<D: Disk, S: Snapshots>(
    alloc: Global,
    frames: u64,
    idle: &mut Journal<D>,
    turn: &mut Turn,
    snapshots: &mut S,
) -> bool
    ensures made { result ≡ true → IsNextTurn turn.old turn.new × ((sealing : Option (List (List ℕ))) → IsReady D.seen idle.old turn.old sealing →
        HasCheckpoint D.seen idle.new (turn.old.generation + 1) (S.rest snapshots.old)) }
    ensures kept { result ≡ false → IsSameTurn turn.old turn.new × ((sealing : Option (List (List ℕ))) → IsReady D.seen idle.old turn.old sealing →
        StaysReady D.seen idle.new turn.old turn.new sealing (S.rest snapshots.old) ⊥) }
    ensures any_moment { (sealing : Option (List (List ℕ))) → IsReady D.seen idle.old turn.old sealing →
        LeavesOnly D.seen idle.old.disk idle.new.disk (HasFrames (IsPreparing turn.old sealing (S.rest snapshots.old))) }
    ensures due { ((result ≡ false) × (idle.new ≡ idle.old) × (turn.new ≡ turn.old)) ⊎ (4096 + 2 * length (S.rest snapshots.old) ≤ frames) }
    ensures few { result ≡ true → length (S.rest snapshots.old) < 2 ^ 35 }
    ensures may { result ≡ true → IsDueAt turn.old frames (length (S.rest snapshots.old)) }
    ensures quiet { result ≡ true → IsQuiet D.seen idle.old.disk idle.new.disk }
    ensures sealing { turn.new.sealing ≡ true → turn.old.sealing ≡ false → Rose (D.seen idle.old.disk).faults (D.seen idle.new.disk).faults }
    ensures tried { result ≡ false → HasTried D.seen idle.old idle.new turn.old turn.new frames (length (S.rest snapshots.old)) }
    ensures runs { RunsOn D.seen idle.old.disk idle.new.disk }
{
    if !is_timely(*turn, frames, snapshots.count()) {
        return false;
    }
    let next = turn.generation + 1;
    match write_checkpoint(alloc, idle, next, snapshots) {
        Ok(()) => {
            *turn = Turn {
                on_second: !turn.on_second,
                generation: next,
                sealing: false,
            };
            true
        }
        Err(CheckpointFault::Uncleared) => false,
        Err(CheckpointFault::Unsealed) => {
            turn.sealing = false;
            false
        }
        Err(CheckpointFault::Sealing) => {
            turn.sealing = true;
            false
        }
    }
}

// Closes the first gate of the disk that isn't live, where a seal may still land there and a frame is to be written.
fn close_before<D: Disk>(writes: bool, idle: &mut Journal<D>, turn: &mut Turn) -> Result<(), Failed>
    ensures turn { IsSameTurn turn.old turn.new }
    ensures ready { (sealing : Option (List (List ℕ))) → IsReady D.seen idle.old turn.old sealing →
        (seals : Option (List (List ℕ))) × IsReady D.seen idle.new turn.new seals × ((seals ≡ None) ⊎ (seals ≡ sealing))
        × (IsOk result → writes ≡ true → seals ≡ None) }
    ensures failed { OnErr result ((turn.new.sealing ≡ true) × (writes ≡ true)) }
    ensures any_moment { (sealing : Option (List (List ℕ))) → IsReady D.seen idle.old turn.old sealing →
        LeavesOnly D.seen idle.old.disk idle.new.disk (HasFrames (IsIdle turn.old.on_second turn.old.generation sealing)) }
    ensures same { ((idle.new ≡ idle.old) × (turn.new ≡ turn.old)) ⊎ ((turn.old.sealing ≡ true) × (writes ≡ true)) }
    ensures runs { RunsOn D.seen idle.old.disk idle.new.disk }
    ensures cause { OnErr result (HasFailed D.seen idle.old.disk idle.new.disk) }
    ensures sealing { OnErr result (turn.old.sealing ≡ true) }
{
    if turn.sealing && writes {
        close_idle(idle)?;
        turn.sealing = false;
    }
    Ok(())
}

// Makes the two disks ready for a frame. True where a checkpoint was made, behind which it is to be written.
fn prepare<D: Disk, S: Snapshots>(
    alloc: Global,
    frames: u64,
    writes: bool,
    idle: &mut Journal<D>,
    turn: &mut Turn,
    snapshots: &mut S,
) -> Result<bool, Failed>
    ensures made { result ≡ Ok true → IsNextTurn turn.old turn.new × ((sealing : Option (List (List ℕ))) → IsReady D.seen idle.old turn.old sealing →
        HasCheckpoint D.seen idle.new (turn.old.generation + 1) (S.rest snapshots.old)) }
    ensures due { result ≡ Ok true → 4096 + 2 * length (S.rest snapshots.old) ≤ frames }
    ensures few { result ≡ Ok true → (length (S.rest snapshots.old) < 2 ^ 35) × (writes ≡ true) }
    ensures quiet { result ≡ Ok true → IsQuiet D.seen idle.old.disk idle.new.disk }
    ensures beside { result ≢ Ok true → IsSameTurn turn.old turn.new × ((sealing : Option (List (List ℕ))) → IsReady D.seen idle.old turn.old sealing →
        StaysReady D.seen idle.new turn.old turn.new sealing (S.rest snapshots.old) (IsOk result × (writes ≡ true))) }
    ensures failed { OnErr result (HasFailed D.seen idle.old.disk idle.new.disk × (turn.new.sealing ≡ true) × (writes ≡ true)) }
    ensures closes { OnErr result (turn.old.sealing ≡ false → RoseTwice (D.seen idle.old.disk).faults (D.seen idle.new.disk).faults) }
    ensures any_moment { (sealing : Option (List (List ℕ))) → IsReady D.seen idle.old turn.old sealing →
        LeavesOnly D.seen idle.old.disk idle.new.disk (HasFrames (IsPreparing turn.old sealing (S.rest snapshots.old))) }
    ensures same { ((idle.new ≡ idle.old) × (turn.new ≡ turn.old))
        ⊎ (((4096 + 2 * length (S.rest snapshots.old) ≤ frames) ⊎ (turn.old.sealing ≡ true)) × (writes ≡ true)) }
    ensures runs { RunsOn D.seen idle.old.disk idle.new.disk }
{
    if !writes {
        return Ok(false);
    }
    if try_checkpoint(alloc, frames, idle, turn, snapshots) {
        return Ok(true);
    }
    close_before(writes, idle, turn)?;
    Ok(false)
}

// Whether a frame, in a buffer of so many bytes, ends at 2^62 bytes or below behind a last gate at this place.
fn has_room(gate: u64, len: usize) -> bool
    ensures { (result ≡ true) ↔ (gate + 1 + len ≤ 2 ^ 62) }
{
    gate < MAX_END && (len as u64) < MAX_END - gate
}

/// How an append ended, and whether a checkpoint was completed before it.
#[derive(Drop)]
pub struct Appended {
    pub checkpointed: bool,
    pub result: Result<u64, StoreFault>,
}

// Tries a checkpoint, and writes a frame to the journal that is live then: the fresh one behind a checkpoint.
pub(crate) fn step<D: Disk, S: Snapshots>(
    alloc: Global,
    live: &mut Journal<D>,
    idle: &mut Journal<D>,
    turn: &mut Turn,
    buffer: &mut [u8],
    fresh: &mut [u8],
    snapshots: &mut S,
) -> Appended
    requires frame { IsFrame (frame_in buffer.old) × IsPlain (mark_of (frame_in buffer.old)) }
    requires fresh { IsFrame (frame_in fresh.old) × IsPlain (mark_of (frame_in fresh.old)) }
    ensures { Writes D.seen (frame_in buffer.old) (frame_in fresh.old) (S.rest snapshots.old) (length buffer.old)
        (placed turn.old.on_second live.old idle.old turn.old) (placed turn.old.on_second live.new idle.new turn.new) result.checkpointed result.result }
{
    let writes = has_room(live.last_gate(), buffer.len());
    match prepare(alloc, live.count(), writes, idle, turn, snapshots) {
        Ok(true) => Appended {
            checkpointed: true,
            result: idle.append(fresh),
        },
        Ok(false) => Appended {
            checkpointed: false,
            result: live.append(buffer),
        },
        Err(_) => Appended {
            checkpointed: false,
            result: Err(StoreFault::Device),
        },
    }
}

// Writes a frame to the live journal, and tries no checkpoint.
pub(crate) fn step_plain<D: Disk>(
    live: &mut Journal<D>,
    idle: &mut Journal<D>,
    turn: &mut Turn,
    buffer: &mut [u8],
) -> Result<u64, StoreFault>
    requires frame { IsFrame (frame_in buffer.old) × IsPlain (mark_of (frame_in buffer.old)) }
    ensures writes { (fresh : List ℕ) (snapshots : List (List ℕ)) → Writes D.seen (frame_in buffer.old) fresh snapshots (length buffer.old)
        (placed turn.old.on_second live.old idle.old turn.old) (placed turn.old.on_second live.new idle.new turn.new) false result }
    ensures alone { StaysOn D.seen (placed turn.old.on_second live.old idle.old turn.old) (placed turn.old.on_second live.new idle.new turn.new) result }
{
    let writes = has_room(live.last_gate(), buffer.len());
    if let Err(_) = close_before(writes, idle, turn) {
        return Err(StoreFault::Device);
    }
    live.append(buffer)
}

// Tries a checkpoint where one is due, and where any frame has room behind the live journal. True where it was made.
pub(crate) fn step_checkpoint<D: Disk, S: Snapshots>(
    alloc: Global,
    live: &Journal<D>,
    idle: &mut Journal<D>,
    turn: &mut Turn,
    snapshots: &mut S,
) -> bool
    ensures { Tries D.seen (S.rest snapshots.old) (placed turn.old.on_second live.now idle.old turn.old)
        (placed turn.old.on_second live.now idle.new turn.new) result }
{
    if !has_room(live.last_gate(), MAX_BUFFER) {
        return false;
    }
    try_checkpoint(alloc, live.count(), idle, turn, snapshots)
}
