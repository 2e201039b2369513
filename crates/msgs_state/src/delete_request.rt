ghost use Rattle.std.specs.Prelude.{IfOk};
ghost use Rattle.flex_fields.specs.Formats.{ReadsWhole, IsSpelling};
ghost use Rattle.msgs_state.specs.DeleteRequest.{delete_partition, delete_share_group_state_request};

use crate::state_message::StateRequest;
use flex_fields::{
    Bytes, Cursor, NoMemory, Out, Wire, WireFault, put_structure, read_whole, take_structure,
    write_whole,
};
use std::alloc::Global;

/// A partition whose state goes.
#[derive(Clone, Copy, Debug)]
pub struct DeletePartition {
    pub partition: i32,
}

/// Deletes the state of share partitions.
pub type DeleteShareGroupStateRequest = StateRequest<DeletePartition>;

impl Wire for DeletePartition {
    ghost format = { delete_partition };

    #[tactic(auto, unfolding(crate::specs::DeleteRequest::delete_partition))]
    fn take(alloc: Global, cursor: &mut Cursor<'_>) -> Result<Self, WireFault> {
        take_structure!(alloc, cursor, DeletePartition { partition })
    }

    fn put(&self, out: &mut Out) -> Result<(), NoMemory> {
        put_structure!(out, self, [partition])
    }
}

/// Reads the body of a DeleteShareGroupState request. Places count from its first byte.
pub fn read_delete_share_group_state_request(
    alloc: Global,
    bytes: &[u8],
) -> Result<DeleteShareGroupStateRequest, WireFault>
    ensures { ReadsWhole delete_share_group_state_request bytes.now result }
{
    read_whole(alloc, bytes)
}

/// Writes the body of a DeleteShareGroupState request.
pub fn write_delete_share_group_state_request(
    alloc: Global,
    message: &DeleteShareGroupStateRequest,
) -> Result<Bytes, NoMemory>
    ensures { IfOk result (IsSpelling delete_share_group_state_request message.now) }
{
    write_whole(alloc, message)
}
