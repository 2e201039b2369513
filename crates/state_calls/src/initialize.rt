// InitializeShareGroupState.
ghost use Rattle.std.specs.Prelude.{◌≡◌};
ghost use Rattle.state_calls.specs.Initialize.{initialize_means};

use crate::hosting::Hosting;
use crate::state::StateCall;
use crate::told::code_row;
use msgs_state::{InitializePartition, PartitionResult};
use share_model::{Code, ForeignAnswer, ForeignOp, Key, NoMemory};
use std::alloc::Global;

/// InitializeShareGroupState: the state begins anew.
#[derive(Clone, Copy)]
pub struct Initialize;

/// What it asks of one partition.
#[derive(Clone, Copy)]
pub struct Beginning {
    pub state_epoch: i32,
    pub start: i64,
}

impl StateCall for Initialize {
    type Partition = InitializePartition;

    type Wish = Beginning;

    type Row = PartitionResult;

    ghost means = { initialize_means };

    fn wish(partition: InitializePartition) -> (i32, Beginning) {
        let wish = Beginning {
            state_epoch: partition.state_epoch,
            start: partition.start_offset,
        };
        (partition.partition, wish)
    }

    fn hosted() -> Hosting {
        Hosting::Refuses(Code::INVALID_REQUEST)
    }

    fn op(_: Global, key: Key, wish: &Beginning) -> Result<ForeignOp, NoMemory> {
        Ok(ForeignOp::Init {
            key,
            state_epoch: wish.state_epoch,
            start: wish.start,
        })
    }

    fn row(_: Global, partition: i32, answer: ForeignAnswer) -> Result<PartitionResult, NoMemory> {
        Ok(code_row(partition, answer.code))
    }
}
