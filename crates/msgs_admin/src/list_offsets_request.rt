ghost use Rattle.std.specs.Prelude.{IfOk};
ghost use Rattle.flex_fields.specs.Formats.{ReadsWhole, IsSpelling};
ghost use Rattle.msgs_admin.specs.ListOffsetsRequest.{list_offsets_partition, list_offsets_request};

use crate::named_topic::NamedTopic;
use flex_fields::{
    Bytes, Cursor, Items, NoMemory, Out, Wire, WireFault, put_structure, read_whole,
    take_structure, write_whole,
};
use std::alloc::Global;

/// A partition, and which of its offsets is asked for.
#[derive(Clone, Copy, Debug)]
pub struct ListOffsetsPartition {
    pub partition_index: i32,
    pub current_leader_epoch: i32,
    pub timestamp: i64,
}

/// Asks for offsets of partitions by timestamps: -2 is the earliest, and -1 the latest.
#[derive(Debug, Drop)]
pub struct ListOffsetsRequest {
    pub replica_id: i32,
    pub isolation_level: i8,
    pub topics: Items<NamedTopic<ListOffsetsPartition>>,
    pub timeout_ms: i32,
}

impl Wire for ListOffsetsPartition {
    ghost format = { list_offsets_partition };

    #[tactic(auto, unfolding(crate::specs::ListOffsetsRequest::list_offsets_partition))]
    fn take(alloc: Global, cursor: &mut Cursor<'_>) -> Result<Self, WireFault> {
        take_structure!(
            alloc,
            cursor,
            ListOffsetsPartition {
                partition_index,
                current_leader_epoch,
                timestamp
            }
        )
    }

    fn put(&self, out: &mut Out) -> Result<(), NoMemory> {
        put_structure!(
            out,
            self,
            [partition_index, current_leader_epoch, timestamp]
        )
    }
}

impl Wire for ListOffsetsRequest {
    ghost format = { list_offsets_request };

    #[tactic(auto, unfolding(crate::specs::ListOffsetsRequest::list_offsets_request))]
    fn take(alloc: Global, cursor: &mut Cursor<'_>) -> Result<Self, WireFault> {
        take_structure!(
            alloc,
            cursor,
            ListOffsetsRequest {
                replica_id,
                isolation_level,
                topics,
                timeout_ms
            }
        )
    }

    fn put(&self, out: &mut Out) -> Result<(), NoMemory> {
        put_structure!(out, self, [replica_id, isolation_level, topics, timeout_ms])
    }
}

/// Reads the body of a ListOffsets request. Places count from its first byte.
pub fn read_list_offsets_request(
    alloc: Global,
    bytes: &[u8],
) -> Result<ListOffsetsRequest, WireFault>
    ensures { ReadsWhole list_offsets_request bytes.now result }
{
    read_whole(alloc, bytes)
}

/// Writes the body of a ListOffsets request.
pub fn write_list_offsets_request(
    alloc: Global,
    message: &ListOffsetsRequest,
) -> Result<Bytes, NoMemory>
    ensures { IfOk result (IsSpelling list_offsets_request message.now) }
{
    write_whole(alloc, message)
}
