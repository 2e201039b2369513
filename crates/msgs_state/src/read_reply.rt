ghost use Rattle.std.specs.Prelude.{IfOk};
ghost use Rattle.flex_fields.specs.Formats.{ReadsWhole, IsSpelling};
ghost use Rattle.msgs_state.specs.ReadReply.{read_partition_result, read_share_group_state_reply};

use crate::state_batch::StateBatch;
use crate::state_message::StateReply;
use flex_fields::{
    Bytes, Cursor, Items, NoMemory, Out, Text, Wire, WireFault, put_structure, read_whole,
    take_structure, write_whole,
};
use std::alloc::Global;

/// The state of one partition, or an error.
#[derive(Debug, Drop)]
pub struct ReadPartitionResult {
    pub partition: i32,
    pub error_code: i16,
    pub error_message: Option<Text>,
    pub state_epoch: i32,
    pub start_offset: i64,
    pub state_batches: Items<StateBatch>,
}

/// The states that were asked for.
pub type ReadShareGroupStateReply = StateReply<ReadPartitionResult>;

impl Wire for ReadPartitionResult {
    ghost format = { read_partition_result };

    #[tactic(auto, unfolding(crate::specs::ReadReply::read_partition_result))]
    fn take(alloc: Global, cursor: &mut Cursor<'_>) -> Result<Self, WireFault> {
        take_structure!(
            alloc,
            cursor,
            ReadPartitionResult {
                partition,
                error_code,
                error_message,
                state_epoch,
                start_offset,
                state_batches
            }
        )
    }

    fn put(&self, out: &mut Out) -> Result<(), NoMemory> {
        put_structure!(
            out,
            self,
            [
                partition,
                error_code,
                error_message,
                state_epoch,
                start_offset,
                state_batches
            ]
        )
    }
}

/// Reads the body of the reply to ReadShareGroupState. Places count from its first byte.
pub fn read_read_share_group_state_reply(
    alloc: Global,
    bytes: &[u8],
) -> Result<ReadShareGroupStateReply, WireFault>
    ensures { ReadsWhole read_share_group_state_reply bytes.now result }
{
    read_whole(alloc, bytes)
}

/// Writes the body of the reply to ReadShareGroupState.
pub fn write_read_share_group_state_reply(
    alloc: Global,
    message: &ReadShareGroupStateReply,
) -> Result<Bytes, NoMemory>
    ensures { IfOk result (IsSpelling read_share_group_state_reply message.now) }
{
    write_whole(alloc, message)
}
