ghost use Rattle.std.specs.Prelude.{IfOk};
ghost use Rattle.flex_fields.specs.Formats.{ReadsWhole, IsSpelling};
ghost use Rattle.msgs_base.specs.DeleteRecordsRequest.{delete_records_partition, delete_records_topic, delete_records_request};

use flex_fields::{
    Bytes, Cursor, Items, NoMemory, Out, Text, Wire, WireFault, put_structure, read_whole,
    take_structure, write_whole,
};
use std::alloc::Global;

/// A partition whose records below an offset are deleted. The offset -1 stands for the end of its log.
#[derive(Clone, Copy, Debug)]
pub struct DeleteRecordsPartition {
    pub partition_index: i32,
    pub offset: i64,
}

/// Partitions of one topic.
#[derive(Debug, Drop)]
pub struct DeleteRecordsTopic {
    pub name: Text,
    pub partitions: Items<DeleteRecordsPartition>,
}

/// Deletes the records of partitions below offsets.
#[derive(Debug, Drop)]
pub struct DeleteRecordsRequest {
    pub topics: Items<DeleteRecordsTopic>,
    pub timeout_ms: i32,
}

impl Wire for DeleteRecordsPartition {
    ghost format = { delete_records_partition };

    #[tactic(auto, unfolding(crate::specs::DeleteRecordsRequest::delete_records_partition))]
    fn take(alloc: Global, cursor: &mut Cursor<'_>) -> Result<Self, WireFault> {
        take_structure!(
            alloc,
            cursor,
            DeleteRecordsPartition {
                partition_index,
                offset
            }
        )
    }

    fn put(&self, out: &mut Out) -> Result<(), NoMemory> {
        put_structure!(out, self, [partition_index, offset])
    }
}

impl Wire for DeleteRecordsTopic {
    ghost format = { delete_records_topic };

    #[tactic(auto, unfolding(crate::specs::DeleteRecordsRequest::delete_records_topic))]
    fn take(alloc: Global, cursor: &mut Cursor<'_>) -> Result<Self, WireFault> {
        take_structure!(alloc, cursor, DeleteRecordsTopic { name, partitions })
    }

    fn put(&self, out: &mut Out) -> Result<(), NoMemory> {
        put_structure!(out, self, [name, partitions])
    }
}

impl Wire for DeleteRecordsRequest {
    ghost format = { delete_records_request };

    #[tactic(auto, unfolding(crate::specs::DeleteRecordsRequest::delete_records_request))]
    fn take(alloc: Global, cursor: &mut Cursor<'_>) -> Result<Self, WireFault> {
        take_structure!(alloc, cursor, DeleteRecordsRequest { topics, timeout_ms })
    }

    fn put(&self, out: &mut Out) -> Result<(), NoMemory> {
        put_structure!(out, self, [topics, timeout_ms])
    }
}

/// Reads the body of a DeleteRecords request. Places count from its first byte.
pub fn read_delete_records_request(
    alloc: Global,
    bytes: &[u8],
) -> Result<DeleteRecordsRequest, WireFault>
    ensures { ReadsWhole delete_records_request bytes.now result }
{
    read_whole(alloc, bytes)
}

/// Writes the body of a DeleteRecords request.
pub fn write_delete_records_request(
    alloc: Global,
    message: &DeleteRecordsRequest,
) -> Result<Bytes, NoMemory>
    ensures { IfOk result (IsSpelling delete_records_request message.now) }
{
    write_whole(alloc, message)
}
