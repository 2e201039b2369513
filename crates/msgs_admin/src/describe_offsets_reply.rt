ghost use Rattle.std.specs.Prelude.{IfOk};
ghost use Rattle.flex_fields.specs.Formats.{ReadsWhole, IsSpelling};
ghost use Rattle.msgs_admin.specs.DescribeOffsetsReply.{described_topic, described_offsets, describe_offsets_reply};

use crate::described_partition::DescribedPartition;
use flex_fields::{
    Bytes, Cursor, Items, NoMemory, Out, Text, Wire, WireFault, put_structure, read_whole,
    take_structure, write_whole,
};
use std::alloc::Global;
use uuid::Uuid;

/// How far a group has come in the partitions of one topic.
#[derive(Debug, Drop)]
pub struct DescribedTopic {
    pub topic_name: Text,
    pub topic_id: Uuid,
    pub partitions: Items<DescribedPartition>,
}

/// How far a group has come, or an error.
#[derive(Debug, Drop)]
pub struct DescribedOffsets {
    pub group_id: Text,
    pub topics: Items<DescribedTopic>,
    pub error_code: i16,
    pub error_message: Option<Text>,
}

/// How far the groups have come that were asked for.
#[derive(Debug, Drop)]
pub struct DescribeOffsetsReply {
    pub throttle_time_ms: i32,
    pub groups: Items<DescribedOffsets>,
}

impl Wire for DescribedTopic {
    ghost format = { described_topic };

    #[tactic(auto, unfolding(crate::specs::DescribeOffsetsReply::described_topic))]
    fn take(alloc: Global, cursor: &mut Cursor<'_>) -> Result<Self, WireFault> {
        take_structure!(
            alloc,
            cursor,
            DescribedTopic {
                topic_name,
                topic_id,
                partitions
            }
        )
    }

    fn put(&self, out: &mut Out) -> Result<(), NoMemory> {
        put_structure!(out, self, [topic_name, topic_id, partitions])
    }
}

impl Wire for DescribedOffsets {
    ghost format = { described_offsets };

    #[tactic(auto, unfolding(crate::specs::DescribeOffsetsReply::described_offsets))]
    fn take(alloc: Global, cursor: &mut Cursor<'_>) -> Result<Self, WireFault> {
        take_structure!(
            alloc,
            cursor,
            DescribedOffsets {
                group_id,
                topics,
                error_code,
                error_message
            }
        )
    }

    fn put(&self, out: &mut Out) -> Result<(), NoMemory> {
        put_structure!(out, self, [group_id, topics, error_code, error_message])
    }
}

impl Wire for DescribeOffsetsReply {
    ghost format = { describe_offsets_reply };

    #[tactic(auto, unfolding(crate::specs::DescribeOffsetsReply::describe_offsets_reply))]
    fn take(alloc: Global, cursor: &mut Cursor<'_>) -> Result<Self, WireFault> {
        take_structure!(
            alloc,
            cursor,
            DescribeOffsetsReply {
                throttle_time_ms,
                groups
            }
        )
    }

    fn put(&self, out: &mut Out) -> Result<(), NoMemory> {
        put_structure!(out, self, [throttle_time_ms, groups])
    }
}

/// Reads the body of the reply to DescribeShareGroupOffsets. Places count from its first byte.
pub fn read_describe_offsets_reply(
    alloc: Global,
    bytes: &[u8],
) -> Result<DescribeOffsetsReply, WireFault>
    ensures { ReadsWhole describe_offsets_reply bytes.now result }
{
    read_whole(alloc, bytes)
}

/// Writes the body of the reply to DescribeShareGroupOffsets.
pub fn write_describe_offsets_reply(
    alloc: Global,
    message: &DescribeOffsetsReply,
) -> Result<Bytes, NoMemory>
    ensures { IfOk result (IsSpelling describe_offsets_reply message.now) }
{
    write_whole(alloc, message)
}
