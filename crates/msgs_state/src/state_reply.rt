ghost use Rattle.std.specs.Prelude.{IfOk};
ghost use Rattle.flex_fields.specs.Formats.{ReadsWhole, IsSpelling};
ghost use Rattle.msgs_state.specs.StateReply.{partition_result, share_group_state_reply};

use crate::state_message::StateReply;
use flex_fields::{
    Bytes, Cursor, NoMemory, Out, Text, Wire, WireFault, put_structure, read_whole, take_structure,
    write_whole,
};
use std::alloc::Global;

/// What became of one partition: 0 and null, or an error.
#[derive(Debug, Drop)]
pub struct PartitionResult {
    pub partition: i32,
    pub error_code: i16,
    pub error_message: Option<Text>,
}

/// The one form of the replies to Initialize, Write and Delete.
pub type ShareGroupStateReply = StateReply<PartitionResult>;

impl Wire for PartitionResult {
    ghost format = { partition_result };

    #[tactic(auto, unfolding(crate::specs::StateReply::partition_result))]
    fn take(alloc: Global, cursor: &mut Cursor<'_>) -> Result<Self, WireFault> {
        take_structure!(
            alloc,
            cursor,
            PartitionResult {
                partition,
                error_code,
                error_message
            }
        )
    }

    fn put(&self, out: &mut Out) -> Result<(), NoMemory> {
        put_structure!(out, self, [partition, error_code, error_message])
    }
}

/// Reads the body of the reply to Initialize, Write or Delete. Places count from its first byte.
pub fn read_share_group_state_reply(
    alloc: Global,
    bytes: &[u8],
) -> Result<ShareGroupStateReply, WireFault>
    ensures { ReadsWhole share_group_state_reply bytes.now result }
{
    read_whole(alloc, bytes)
}

/// Writes the body of the reply to Initialize, Write or Delete.
pub fn write_share_group_state_reply(
    alloc: Global,
    message: &ShareGroupStateReply,
) -> Result<Bytes, NoMemory>
    ensures { IfOk result (IsSpelling share_group_state_reply message.now) }
{
    write_whole(alloc, message)
}
