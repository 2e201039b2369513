// ReadShareGroupState.
ghost use Rattle.std.specs.Prelude.{◌≡◌};
ghost use Rattle.state_calls.specs.Read.{read_means};

use crate::hosting::Hosting;
use crate::state::StateCall;
use crate::told::batches_of;
use msgs_state::{ReadPartition, ReadPartitionResult};
use share_model::{ForeignAnswer, ForeignOp, Key, NoMemory};
use std::alloc::Global;

/// ReadShareGroupState: the state is told.
#[derive(Clone, Copy)]
pub struct Read;

/// What it asks of one partition.
#[derive(Clone, Copy)]
pub struct Reading {
    pub leader_epoch: i32,
}

impl StateCall for Read {
    type Partition = ReadPartition;

    type Wish = Reading;

    type Row = ReadPartitionResult;

    ghost means = { read_means };

    fn wish(partition: ReadPartition) -> (i32, Reading) {
        let wish = Reading {
            leader_epoch: partition.leader_epoch,
        };
        (partition.partition, wish)
    }

    fn hosted() -> Hosting {
        Hosting::Looks
    }

    fn op(_: Global, key: Key, wish: &Reading) -> Result<ForeignOp, NoMemory> {
        Ok(ForeignOp::Read {
            key,
            leader_epoch: wish.leader_epoch,
        })
    }

    fn row(
        alloc: Global,
        partition: i32,
        answer: ForeignAnswer,
    ) -> Result<ReadPartitionResult, NoMemory> {
        let state_batches = batches_of(alloc, &answer.runs)?;
        Ok(ReadPartitionResult {
            partition,
            error_code: answer.code.0,
            error_message: None,
            state_epoch: answer.state_epoch,
            start_offset: answer.start,
            state_batches,
        })
    }
}
