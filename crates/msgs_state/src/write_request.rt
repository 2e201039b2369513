ghost use Rattle.std.specs.Prelude.{IfOk};
ghost use Rattle.flex_fields.specs.Formats.{ReadsWhole, IsSpelling};
ghost use Rattle.msgs_state.specs.WriteRequest.{write_partition, write_share_group_state_request};

use crate::state_batch::StateBatch;
use crate::state_message::StateRequest;
use flex_fields::{
    Bytes, Cursor, Items, NoMemory, Out, Wire, WireFault, put_structure, read_whole,
    take_structure, write_whole,
};
use std::alloc::Global;

/// What the state of one partition becomes. A start offset of -1 leaves it.
#[derive(Debug, Drop)]
pub struct WritePartition {
    pub partition: i32,
    pub state_epoch: i32,
    pub leader_epoch: i32,
    pub start_offset: i64,
    pub state_batches: Items<StateBatch>,
}

/// Changes the state of share partitions.
pub type WriteShareGroupStateRequest = StateRequest<WritePartition>;

impl Wire for WritePartition {
    ghost format = { write_partition };

    #[tactic(auto, unfolding(crate::specs::WriteRequest::write_partition))]
    fn take(alloc: Global, cursor: &mut Cursor<'_>) -> Result<Self, WireFault> {
        take_structure!(
            alloc,
            cursor,
            WritePartition {
                partition,
                state_epoch,
                leader_epoch,
                start_offset,
                state_batches
            }
        )
    }

    fn put(&self, out: &mut Out) -> Result<(), NoMemory> {
        put_structure!(
            out,
            self,
            [
                partition,
                state_epoch,
                leader_epoch,
                start_offset,
                state_batches
            ]
        )
    }
}

/// Reads the body of a WriteShareGroupState request. Places count from its first byte.
pub fn read_write_share_group_state_request(
    alloc: Global,
    bytes: &[u8],
) -> Result<WriteShareGroupStateRequest, WireFault>
    ensures { ReadsWhole write_share_group_state_request bytes.now result }
{
    read_whole(alloc, bytes)
}

/// Writes the body of a WriteShareGroupState request.
pub fn write_write_share_group_state_request(
    alloc: Global,
    message: &WriteShareGroupStateRequest,
) -> Result<Bytes, NoMemory>
    ensures { IfOk result (IsSpelling write_share_group_state_request message.now) }
{
    write_whole(alloc, message)
}
