// DeleteShareGroupState.
ghost use Rattle.std.specs.Prelude.{◌≡◌};
ghost use Rattle.state_calls.specs.Delete.{delete_means};

use crate::hosting::Hosting;
use crate::state::StateCall;
use crate::told::code_row;
use msgs_state::{DeletePartition, PartitionResult};
use share_model::{Code, ForeignAnswer, ForeignOp, Key, NoMemory};
use std::alloc::Global;

/// DeleteShareGroupState: the state goes.
#[derive(Clone, Copy)]
pub struct Delete;

/// What it asks of one partition: nothing but that.
#[derive(Clone, Copy)]
pub struct Deleting;

impl StateCall for Delete {
    type Partition = DeletePartition;

    type Wish = Deleting;

    type Row = PartitionResult;

    ghost means = { delete_means };

    fn wish(partition: DeletePartition) -> (i32, Deleting) {
        (partition.partition, Deleting)
    }

    fn hosted() -> Hosting {
        Hosting::Refuses(Code::INVALID_REQUEST)
    }

    fn op(_: Global, key: Key, _: &Deleting) -> Result<ForeignOp, NoMemory> {
        Ok(ForeignOp::Delete { key })
    }

    fn row(_: Global, partition: i32, answer: ForeignAnswer) -> Result<PartitionResult, NoMemory> {
        Ok(code_row(partition, answer.code))
    }
}
