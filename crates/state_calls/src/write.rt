// WriteShareGroupState.
ghost use Rattle.std.specs.Prelude.{◌≡◌};
ghost use Rattle.state_calls.specs.Write.{write_means};

use crate::hosting::Hosting;
use crate::state::StateCall;
use crate::told::{batches_in, code_row};
use flex_fields::Items;
use msgs_state::{PartitionResult, StateBatch, WritePartition};
use share_model::{Code, ForeignAnswer, ForeignOp, Key, NoMemory};
use std::alloc::Global;

/// WriteShareGroupState: the state changes.
#[derive(Clone, Copy)]
pub struct Write;

/// What it asks of one partition.
#[derive(Drop)]
pub struct Writing {
    pub state_epoch: i32,
    pub leader_epoch: i32,
    pub start: i64,
    pub batches: Items<StateBatch>,
}

impl StateCall for Write {
    type Partition = WritePartition;

    type Wish = Writing;

    type Row = PartitionResult;

    ghost means = { write_means };

    fn wish(partition: WritePartition) -> (i32, Writing) {
        let wish = Writing {
            state_epoch: partition.state_epoch,
            leader_epoch: partition.leader_epoch,
            start: partition.start_offset,
            batches: partition.state_batches,
        };
        (partition.partition, wish)
    }

    fn hosted() -> Hosting {
        Hosting::Refuses(Code::INVALID_REQUEST)
    }

    fn op(alloc: Global, key: Key, wish: &Writing) -> Result<ForeignOp, NoMemory> {
        let batches = batches_in(alloc, &wish.batches)?;
        Ok(ForeignOp::Write {
            key,
            state_epoch: wish.state_epoch,
            leader_epoch: wish.leader_epoch,
            start: wish.start,
            batches,
        })
    }

    fn row(_: Global, partition: i32, answer: ForeignAnswer) -> Result<PartitionResult, NoMemory> {
        Ok(code_row(partition, answer.code))
    }
}
