ghost use Rattle.std.specs.Prelude.{IfOk};
ghost use Rattle.flex_fields.specs.Formats.{ReadsWhole, IsSpelling};
ghost use Rattle.msgs_state.specs.ReadRequest.{read_partition, read_share_group_state_request};

use crate::state_message::StateRequest;
use flex_fields::{
    Bytes, Cursor, NoMemory, Out, Wire, WireFault, put_structure, read_whole, take_structure,
    write_whole,
};
use std::alloc::Global;

/// A partition whose state is asked for.
#[derive(Clone, Copy, Debug)]
pub struct ReadPartition {
    pub partition: i32,
    pub leader_epoch: i32,
}

/// Asks for the state of share partitions.
pub type ReadShareGroupStateRequest = StateRequest<ReadPartition>;

impl Wire for ReadPartition {
    ghost format = { read_partition };

    #[tactic(auto, unfolding(crate::specs::ReadRequest::read_partition))]
    fn take(alloc: Global, cursor: &mut Cursor<'_>) -> Result<Self, WireFault> {
        take_structure!(
            alloc,
            cursor,
            ReadPartition {
                partition,
                leader_epoch
            }
        )
    }

    fn put(&self, out: &mut Out) -> Result<(), NoMemory> {
        put_structure!(out, self, [partition, leader_epoch])
    }
}

/// Reads the body of a ReadShareGroupState request. Places count from its first byte.
pub fn read_read_share_group_state_request(
    alloc: Global,
    bytes: &[u8],
) -> Result<ReadShareGroupStateRequest, WireFault>
    ensures { ReadsWhole read_share_group_state_request bytes.now result }
{
    read_whole(alloc, bytes)
}

/// Writes the body of a ReadShareGroupState request.
pub fn write_read_share_group_state_request(
    alloc: Global,
    message: &ReadShareGroupStateRequest,
) -> Result<Bytes, NoMemory>
    ensures { IfOk result (IsSpelling read_share_group_state_request message.now) }
{
    write_whole(alloc, message)
}
