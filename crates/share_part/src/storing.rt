// Stores what acts change.
ghost use Rattle.std.specs.Prelude.{◌≡◌, ◌≤◌, ◌^◌, pos, IfSome, None, false, true};
ghost use Rattle.coord_checkpoint.specs.Disks.{HasFailed};
ghost use Rattle.coord_checkpoint.specs.Writes.{StaysOn};
ghost use Rattle.share_coord.specs.Calls.{write_refusal};
ghost use Rattle.share_coord.specs.Stored.{kept_at};
ghost use Rattle.share_part.specs.Acknowledging.{IsRecordOf, start_number};
ghost use Rattle.share_part.specs.Storing.{IsReserved, IsStored, StoresOnce, WritesWithin, answer_of};
ghost use Rattle.share_part.specs.Failures.{RunOnBoth};

use edge_io::Disk;
use share_coord::Coord;
use share_model::{Key, Run, StoreFault};

// A start as a write carries it: -1 where it doesn't move.
fn start_number(start: Option<u64>) -> i64
    requires { IfSome start (λ start. start ≤ 2 ^ 62) }
    ensures { result ≡ start_number start }
{
    match start {
        Some(start) => start as i64,
        None => -1,
    }
}

// Stores them by one write, with no checkpoint before it.
fn store_alone<D: Disk>(
    states: &mut Coord<D>,
    key: &Key,
    start: Option<u64>,
    runs: &[Run],
) -> Option<StoreFault>
    requires start { IfSome start (λ start. start ≤ 2 ^ 62) }
    requires granted { write_refusal (kept_at states.old.entries key.now) (pos 0) (pos 0) (start_number start) runs.now ≡ None }
    requires reserved { IsReserved states.old.entries key.now runs.now states.old.room }
    ensures once { StoresOnce D.seen (HasFailed D.seen)
        (IsStored states.old.entries key.now start runs.now) (IsRecordOf states.old.entries key.now start runs.now)
        false states.old states.new result }
    ensures moments { WritesWithin D.seen (IsStored states.old.entries key.now start runs.now) states.old states.new }
    ensures alone { StaysOn D.seen states.old.journal states.new.journal (answer_of result) }
    ensures room { states.new.room ≡ states.old.room }
    ensures runs { RunOnBoth D.seen states.old states.new }
{
    match states.write_reserved(key, start_number(start), runs) {
        Ok(()) => None,
        Err(fault) => Some(fault),
    }
}

// Stores them by one write, behind a checkpoint where one is due.
fn store_tidied<D: Disk>(
    states: &mut Coord<D>,
    key: &Key,
    start: Option<u64>,
    runs: &[Run],
) -> Option<StoreFault>
    requires start { IfSome start (λ start. start ≤ 2 ^ 62) }
    requires granted { write_refusal (kept_at states.old.entries key.now) (pos 0) (pos 0) (start_number start) runs.now ≡ None }
    requires reserved { IsReserved states.old.entries key.now runs.now states.old.room }
    ensures once { StoresOnce D.seen (HasFailed D.seen)
        (IsStored states.old.entries key.now start runs.now) (IsRecordOf states.old.entries key.now start runs.now)
        true states.old states.new result }
    ensures room { states.new.room ≡ states.old.room }
    ensures runs { RunOnBoth D.seen states.old states.new }
{
    states.known();
    states.tidy();
    match states.write_reserved(key, start_number(start), runs) {
        Ok(()) => None,
        Err(fault) => Some(fault),
    }
}

/// Stores a new start, where it moves, and rows of a group's table by one write, in memory that is set aside. The fault,
/// where they couldn't be stored. Where it `tidies`, a checkpoint is tried before it, if one is due.
pub fn store_change<D: Disk>(
    states: &mut Coord<D>,
    key: &Key,
    start: Option<u64>,
    runs: &[Run],
    tidies: bool,
) -> Option<StoreFault>
    requires start { IfSome start (λ start. start ≤ 2 ^ 62) }
    requires granted { write_refusal (kept_at states.old.entries key.now) (pos 0) (pos 0) (start_number start) runs.now ≡ None }
    requires reserved { IsReserved states.old.entries key.now runs.now states.old.room }
    ensures once { StoresOnce D.seen (HasFailed D.seen)
        (IsStored states.old.entries key.now start runs.now) (IsRecordOf states.old.entries key.now start runs.now)
        tidies states.old states.new result }
    ensures moments { tidies ≡ false →
        WritesWithin D.seen (IsStored states.old.entries key.now start runs.now) states.old states.new }
    ensures alone { tidies ≡ false → StaysOn D.seen states.old.journal states.new.journal (answer_of result) }
    ensures room { states.new.room ≡ states.old.room }
    ensures runs { RunOnBoth D.seen states.old states.new }
{
    if tidies {
        return store_tidied(states, key, start, runs);
    }
    store_alone(states, key, start, runs)
}
