ghost use Rattle.std.specs.Prelude.{IfOk};
ghost use Rattle.flex_fields.specs.Formats.{ReadsWhole, IsSpelling};
ghost use Rattle.msgs_state.specs.InitializeRequest.{initialize_partition, initialize_share_group_state_request};

use crate::state_message::StateRequest;
use flex_fields::{
    Bytes, Cursor, NoMemory, Out, Wire, WireFault, put_structure, read_whole, take_structure,
    write_whole,
};
use std::alloc::Global;

/// What the state of one partition begins with.
#[derive(Clone, Copy, Debug)]
pub struct InitializePartition {
    pub partition: i32,
    pub state_epoch: i32,
    pub start_offset: i64,
}

/// Begins the state of share partitions anew.
pub type InitializeShareGroupStateRequest = StateRequest<InitializePartition>;

impl Wire for InitializePartition {
    ghost format = { initialize_partition };

    #[tactic(auto, unfolding(crate::specs::InitializeRequest::initialize_partition))]
    fn take(alloc: Global, cursor: &mut Cursor<'_>) -> Result<Self, WireFault> {
        take_structure!(
            alloc,
            cursor,
            InitializePartition {
                partition,
                state_epoch,
                start_offset
            }
        )
    }

    fn put(&self, out: &mut Out) -> Result<(), NoMemory> {
        put_structure!(out, self, [partition, state_epoch, start_offset])
    }
}

/// Reads the body of an InitializeShareGroupState request. Places count from its first byte.
pub fn read_initialize_share_group_state_request(
    alloc: Global,
    bytes: &[u8],
) -> Result<InitializeShareGroupStateRequest, WireFault>
    ensures { ReadsWhole initialize_share_group_state_request bytes.now result }
{
    read_whole(alloc, bytes)
}

/// Writes the body of an InitializeShareGroupState request.
pub fn write_initialize_share_group_state_request(
    alloc: Global,
    message: &InitializeShareGroupStateRequest,
) -> Result<Bytes, NoMemory>
    ensures { IfOk result (IsSpelling initialize_share_group_state_request message.now) }
{
    write_whole(alloc, message)
}
