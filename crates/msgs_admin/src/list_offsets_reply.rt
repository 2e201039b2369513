ghost use Rattle.std.specs.Prelude.{IfOk};
ghost use Rattle.flex_fields.specs.Formats.{ReadsWhole, IsSpelling};
ghost use Rattle.msgs_admin.specs.ListOffsetsReply.{found_offset, list_offsets_reply};

use crate::named_topic::NamedTopic;
use flex_fields::{
    Bytes, Cursor, Items, NoMemory, Out, Wire, WireFault, put_structure, read_whole,
    take_structure, write_whole,
};
use std::alloc::Global;

/// An offset of a partition, or an error.
#[derive(Clone, Copy, Debug)]
pub struct FoundOffset {
    pub partition_index: i32,
    pub error_code: i16,
    pub timestamp: i64,
    pub offset: i64,
    pub leader_epoch: i32,
}

/// The offsets that were asked for.
#[derive(Debug, Drop)]
pub struct ListOffsetsReply {
    pub throttle_time_ms: i32,
    pub topics: Items<NamedTopic<FoundOffset>>,
}

impl Wire for FoundOffset {
    ghost format = { found_offset };

    #[tactic(auto, unfolding(crate::specs::ListOffsetsReply::found_offset))]
    fn take(alloc: Global, cursor: &mut Cursor<'_>) -> Result<Self, WireFault> {
        take_structure!(
            alloc,
            cursor,
            FoundOffset {
                partition_index,
                error_code,
                timestamp,
                offset,
                leader_epoch
            }
        )
    }

    fn put(&self, out: &mut Out) -> Result<(), NoMemory> {
        put_structure!(
            out,
            self,
            [partition_index, error_code, timestamp, offset, leader_epoch]
        )
    }
}

impl Wire for ListOffsetsReply {
    ghost format = { list_offsets_reply };

    #[tactic(auto, unfolding(crate::specs::ListOffsetsReply::list_offsets_reply))]
    fn take(alloc: Global, cursor: &mut Cursor<'_>) -> Result<Self, WireFault> {
        take_structure!(
            alloc,
            cursor,
            ListOffsetsReply {
                throttle_time_ms,
                topics
            }
        )
    }

    fn put(&self, out: &mut Out) -> Result<(), NoMemory> {
        put_structure!(out, self, [throttle_time_ms, topics])
    }
}

/// Reads the body of the reply to ListOffsets. Places count from its first byte.
pub fn read_list_offsets_reply(alloc: Global, bytes: &[u8]) -> Result<ListOffsetsReply, WireFault>
    ensures { ReadsWhole list_offsets_reply bytes.now result }
{
    read_whole(alloc, bytes)
}

/// Writes the body of the reply to ListOffsets.
pub fn write_list_offsets_reply(
    alloc: Global,
    message: &ListOffsetsReply,
) -> Result<Bytes, NoMemory>
    ensures { IfOk result (IsSpelling list_offsets_reply message.now) }
{
    write_whole(alloc, message)
}
