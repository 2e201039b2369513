// One record more in the journal.
ghost use Rattle.std.specs.Prelude.{◌≡◌, ◌+◌, ℕ, List, length, false, Some, None, IfOk, OnOk};
ghost use Rattle.state_records.specs.declared.record.StateRecord.{StateRecord};
ghost use Rattle.checkpoint_journal.specs.Generations.{IsPlain, mark_of};
ghost use Rattle.coord_checkpoint.specs.Writes.{StaysOn};
ghost use Rattle.gate_journal.specs.Frames.{IsFrame, frame_in};
ghost use Rattle.state_records.specs.Spelling.{IsRecord, record_bytes};
ghost use Rattle.share_coord.specs.Putting.{FitFrames, Puts, stored_as, told_as};
ghost use Rattle.share_coord.specs.Stored.{snapshot_frames};

use crate::fault::CoordFault;
use crate::snapshots::KeySnapshots;
use coord_checkpoint::{Appended, StateJournal};
use edge_io::Disk;
use gate_journal::buffer_of;
use share_model::{NoMemory, StoreFault};
use state_records::{StateRecord, write_record};
use std::alloc::Global;

/// What a record that was to be put left: whether a checkpoint was completed before it, and how it ended.
#[derive(Drop)]
pub(crate) struct Put {
    pub checkpointed: bool,
    pub result: Result<(), CoordFault>,
}

// The buffer of an append of a record.
pub(crate) fn buffer_for(alloc: Global, written: &StateRecord) -> Result<Vec<u8>, NoMemory>
    ensures frame { IfOk result (λ b. frame_in b.items ≡ record_bytes written.now) }
    ensures len { IfOk result (λ b. length b.items ≡ length (record_bytes written.now) + 5) }
    ensures valid { OnOk result (IsRecord written.now) }
{
    let bytes = write_record(alloc, written)?;
    let buffer = buffer_of(alloc, bytes.as_slice())?;
    Ok(buffer)
}

fn told(appended: Result<u64, StoreFault>) -> Result<(), CoordFault>
    ensures { result ≡ told_as appended }
{
    match appended {
        Ok(_) => Ok(()),
        Err(fault) => Err(CoordFault::Store(fault)),
    }
}

// Puts a record whose frame stands in a buffer into the journal, and tries no checkpoint. It takes no memory.
pub(crate) fn put_framed<D: Disk>(
    journal: &mut StateJournal<D>,
    buffer: &mut [u8],
) -> Result<(), StoreFault>
    requires { IsFrame (frame_in buffer.old) × IsPlain (mark_of (frame_in buffer.old)) }
    ensures alone { StaysOn D.seen journal.old journal.new result }
    ensures puts { (written : StateRecord) → IsRecord written → frame_in buffer.old ≡ record_bytes written → length buffer.old ≡ length (record_bytes written) + 5
        → (snapshots : List (List ℕ)) → Puts D.seen snapshots written None journal.old journal.new false (stored_as result) }
{
    match journal.append(buffer) {
        Ok(_) => Ok(()),
        Err(fault) => Err(fault),
    }
}

// Puts a record into the journal, and tries no checkpoint.
pub(crate) fn put_record<D: Disk>(
    alloc: Global,
    journal: &mut StateJournal<D>,
    written: &StateRecord,
) -> Put
    requires { FitFrames written.now None }
    ensures { (snapshots : List (List ℕ)) → Puts D.seen snapshots written.now None journal.old journal.new result.checkpointed result.result }
{
    let Ok(mut buffer) = buffer_for(alloc, written) else {
        return Put {
            checkpointed: false,
            result: Err(CoordFault::NoMemory),
        };
    };
    let appended = journal.append(&mut buffer);
    Put {
        checkpointed: false,
        result: told(appended),
    }
}

// Puts a record into the journal, and tries a checkpoint before it; `fresh` is the record behind one. None is tried
// where there is no memory for that.
pub(crate) fn put_behind<D: Disk>(
    alloc: Global,
    journal: &mut StateJournal<D>,
    written: &StateRecord,
    fresh: &StateRecord,
    mut snapshots: KeySnapshots<'_>,
) -> Put
    requires { FitFrames written.now (Some fresh.now) }
    ensures { Puts D.seen (snapshot_frames snapshots.entry) written.now (Some fresh.now) journal.old journal.new result.checkpointed result.result }
{
    let Ok(mut behind) = buffer_for(alloc, fresh) else {
        return put_record(alloc, journal, written);
    };
    let Ok(mut buffer) = buffer_for(alloc, written) else {
        return Put {
            checkpointed: false,
            result: Err(CoordFault::NoMemory),
        };
    };
    let Appended {
        checkpointed,
        result,
    } = journal.append_behind(alloc, &mut buffer, &mut behind, &mut snapshots);
    Put {
        checkpointed,
        result: told(result),
    }
}
