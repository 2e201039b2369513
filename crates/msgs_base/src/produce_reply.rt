ghost use Rattle.std.specs.Prelude.{IfOk};
ghost use Rattle.flex_fields.specs.Formats.{ReadsWhole};
ghost use Rattle.flex_fields.specs.Versions.{IsTold};
ghost use Rattle.msgs_base.specs.ProduceReply.{produce_record_error, produce_partition_reply, produce_topic_reply, produce_reply};

use crate::fields::{Always, Since, take_fields_at, take_structure_at};
use crate::lent::{PutSince, pairs, put_fields_at};
use flex_fields::{
    Bytes, Cursor, Items, NoMemory, Out, Text, Version, Versioned, WireFault, read_whole_at,
    write_whole_at,
};
use std::alloc::Global;

/// A record that made its batch be refused.
#[derive(Debug, Drop)]
pub struct ProduceRecordError {
    pub batch_index: i32,
    pub batch_index_error_message: Option<Text>,
}

/// Where the batch of one partition begins, or an error.
#[derive(Debug, Drop)]
pub struct ProducePartitionReply {
    pub index: i32,
    pub error_code: i16,
    pub base_offset: i64,
    pub log_append_time_ms: i64,
    pub log_start_offset: i64,
    pub record_errors: Items<ProduceRecordError>,
    pub error_message: Option<Text>,
}

/// What became of the batches of one topic.
#[derive(Debug, Drop)]
pub struct ProduceTopicReply {
    pub name: Text,
    pub partition_responses: Items<ProducePartitionReply>,
}

/// What became of the batches.
#[derive(Debug, Drop)]
pub struct ProduceReply {
    pub responses: Items<ProduceTopicReply>,
    pub throttle_time_ms: i32,
}

impl Versioned for ProduceRecordError {
    ghost schema = { produce_record_error };

    #[tactic(auto, unfolding(crate::specs::ProduceReply::produce_record_error))]
    fn take_at(
        alloc: Global,
        version: Version,
        cursor: &mut Cursor<'_>,
    ) -> Result<Self, WireFault> {
        take_structure_at!(
            alloc,
            version,
            cursor,
            ProduceRecordError {
                batch_index: Always,
                batch_index_error_message: Always,
            }
        )
    }

    fn put_at(&self, version: Version, out: &mut Out) -> Result<(), NoMemory> {
        put_fields_at(
            version,
            out,
            pairs!(&self.batch_index, &self.batch_index_error_message,),
        )
    }
}

impl Versioned for ProducePartitionReply {
    ghost schema = { produce_partition_reply };

    #[tactic(auto, unfolding(crate::specs::ProduceReply::produce_partition_reply))]
    fn take_at(
        alloc: Global,
        version: Version,
        cursor: &mut Cursor<'_>,
    ) -> Result<Self, WireFault> {
        take_structure_at!(
            alloc,
            version,
            cursor,
            ProducePartitionReply {
                index: Always,
                error_code: Always,
                base_offset: Always,
                log_append_time_ms: Always,
                log_start_offset: Since(5, -1),
                record_errors: Since(8, Items::new(Vec::new(alloc))),
                error_message: Since(8, None),
            }
        )
    }

    fn put_at(&self, version: Version, out: &mut Out) -> Result<(), NoMemory> {
        put_fields_at(
            version,
            out,
            pairs!(
                &self.index,
                &self.error_code,
                &self.base_offset,
                &self.log_append_time_ms,
                PutSince(5, &self.log_start_offset),
                PutSince(8, &self.record_errors),
                PutSince(8, &self.error_message),
            ),
        )
    }
}

impl Versioned for ProduceTopicReply {
    ghost schema = { produce_topic_reply };

    #[tactic(auto, unfolding(crate::specs::ProduceReply::produce_topic_reply))]
    fn take_at(
        alloc: Global,
        version: Version,
        cursor: &mut Cursor<'_>,
    ) -> Result<Self, WireFault> {
        take_structure_at!(
            alloc,
            version,
            cursor,
            ProduceTopicReply {
                name: Always,
                partition_responses: Always,
            }
        )
    }

    fn put_at(&self, version: Version, out: &mut Out) -> Result<(), NoMemory> {
        put_fields_at(version, out, pairs!(&self.name, &self.partition_responses,))
    }
}

impl Versioned for ProduceReply {
    ghost schema = { produce_reply };

    #[tactic(auto, unfolding(crate::specs::ProduceReply::produce_reply))]
    fn take_at(
        alloc: Global,
        version: Version,
        cursor: &mut Cursor<'_>,
    ) -> Result<Self, WireFault> {
        take_structure_at!(
            alloc,
            version,
            cursor,
            ProduceReply {
                responses: Always,
                throttle_time_ms: Always,
            }
        )
    }

    fn put_at(&self, version: Version, out: &mut Out) -> Result<(), NoMemory> {
        put_fields_at(
            version,
            out,
            pairs!(&self.responses, &self.throttle_time_ms,),
        )
    }
}

/// Reads the body of the reply to Produce of this version. Places count from its first byte.
pub fn read_produce_reply(
    alloc: Global,
    version: Version,
    bytes: &[u8],
) -> Result<ProduceReply, WireFault>
    ensures { ReadsWhole (produce_reply version).format bytes.now result }
{
    read_whole_at(alloc, version, bytes)
}

/// Writes the body of the reply to Produce in this version. A text or an array that is too long for the length
/// that it has there is answered as want of memory.
pub fn write_produce_reply(
    alloc: Global,
    version: Version,
    message: &ProduceReply,
) -> Result<Bytes, NoMemory>
    ensures { IfOk result (IsTold (produce_reply version) message.now) }
{
    write_whole_at(alloc, version, message)
}
