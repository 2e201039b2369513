// What a frame is to the generation of its journal.
ghost use Rattle.std.specs.Prelude.{◌≡◌, IfOk};
ghost use Rattle.checkpoint_journal.specs.Generations.{mark_of};

use share_model::NoMemory;
use state_records::{RecordFault, StateRecord, read_record};
use std::alloc::Global;

/// What a frame is to the generation of its journal.
#[derive(Clone, Copy)]
pub enum Mark {
    Head { generation: u64 },
    Snapshot,
    Seal,
    Other,
}

/// What a frame is. It takes memory for the record.
pub fn mark_frame(alloc: Global, frame: &[u8]) -> Result<Mark, NoMemory>
    ensures { IfOk result (λ m. m ≡ mark_of frame.now) }
{
    match read_record(alloc, frame) {
        Ok(StateRecord::Snapshot(_)) => Ok(Mark::Snapshot),
        Ok(StateRecord::Head { generation }) => Ok(Mark::Head { generation }),
        Ok(StateRecord::Seal) => Ok(Mark::Seal),
        Ok(_) => Ok(Mark::Other),
        Err(RecordFault::BadState { .. }) => Ok(Mark::Other),
        Err(RecordFault::NoMemory) => Err(NoMemory),
    }
}
