ghost use Rattle.std.specs.Prelude.{IfOk};
ghost use Rattle.flex_fields.specs.Formats.{ReadsWhole, IsSpelling};
ghost use Rattle.msgs_base.specs.DeleteRecordsReply.{delete_records_partition_result, delete_records_topic_result, delete_records_reply};

use flex_fields::{
    Bytes, Cursor, Items, NoMemory, Out, Text, Wire, WireFault, put_structure, read_whole,
    take_structure, write_whole,
};
use std::alloc::Global;

/// Where the log of one partition starts now, or an error.
#[derive(Clone, Copy, Debug)]
pub struct DeleteRecordsPartitionResult {
    pub partition_index: i32,
    pub low_watermark: i64,
    pub error_code: i16,
}

/// What became of partitions of one topic.
#[derive(Debug, Drop)]
pub struct DeleteRecordsTopicResult {
    pub name: Text,
    pub partitions: Items<DeleteRecordsPartitionResult>,
}

/// What became of the partitions.
#[derive(Debug, Drop)]
pub struct DeleteRecordsReply {
    pub throttle_time_ms: i32,
    pub topics: Items<DeleteRecordsTopicResult>,
}

impl Wire for DeleteRecordsPartitionResult {
    ghost format = { delete_records_partition_result };

    #[tactic(auto, unfolding(crate::specs::DeleteRecordsReply::delete_records_partition_result))]
    fn take(alloc: Global, cursor: &mut Cursor<'_>) -> Result<Self, WireFault> {
        take_structure!(
            alloc,
            cursor,
            DeleteRecordsPartitionResult {
                partition_index,
                low_watermark,
                error_code
            }
        )
    }

    fn put(&self, out: &mut Out) -> Result<(), NoMemory> {
        put_structure!(out, self, [partition_index, low_watermark, error_code])
    }
}

impl Wire for DeleteRecordsTopicResult {
    ghost format = { delete_records_topic_result };

    #[tactic(auto, unfolding(crate::specs::DeleteRecordsReply::delete_records_topic_result))]
    fn take(alloc: Global, cursor: &mut Cursor<'_>) -> Result<Self, WireFault> {
        take_structure!(alloc, cursor, DeleteRecordsTopicResult { name, partitions })
    }

    fn put(&self, out: &mut Out) -> Result<(), NoMemory> {
        put_structure!(out, self, [name, partitions])
    }
}

impl Wire for DeleteRecordsReply {
    ghost format = { delete_records_reply };

    #[tactic(auto, unfolding(crate::specs::DeleteRecordsReply::delete_records_reply))]
    fn take(alloc: Global, cursor: &mut Cursor<'_>) -> Result<Self, WireFault> {
        take_structure!(
            alloc,
            cursor,
            DeleteRecordsReply {
                throttle_time_ms,
                topics
            }
        )
    }

    fn put(&self, out: &mut Out) -> Result<(), NoMemory> {
        put_structure!(out, self, [throttle_time_ms, topics])
    }
}

/// Reads the body of the reply to DeleteRecords. Places count from its first byte.
pub fn read_delete_records_reply(
    alloc: Global,
    bytes: &[u8],
) -> Result<DeleteRecordsReply, WireFault>
    ensures { ReadsWhole delete_records_reply bytes.now result }
{
    read_whole(alloc, bytes)
}

/// Writes the body of the reply to DeleteRecords.
pub fn write_delete_records_reply(
    alloc: Global,
    message: &DeleteRecordsReply,
) -> Result<Bytes, NoMemory>
    ensures { IfOk result (IsSpelling delete_records_reply message.now) }
{
    write_whole(alloc, message)
}
