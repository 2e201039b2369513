ghost use Rattle.std.specs.Prelude.{IfOk};
ghost use Rattle.flex_fields.specs.Formats.{ReadsWhole};
ghost use Rattle.flex_fields.specs.Versions.{IsTold};
ghost use Rattle.msgs_base.specs.ProduceRequest.{produce_partition, produce_topic, produce_request};

use crate::fields::{Always, take_fields_at, take_structure_at};
use crate::lent::{pairs, put_fields_at};
use flex_fields::{
    Bytes, Cursor, Items, NoMemory, Out, Text, Version, Versioned, WireFault, read_whole_at,
    write_whole_at,
};
use std::alloc::Global;

/// The record batches for one partition, as bytes that aren't judged yet.
#[derive(Debug, Drop)]
pub struct ProducePartition {
    pub index: i32,
    pub records: Option<Bytes>,
}

/// What the partitions of one topic get.
#[derive(Debug, Drop)]
pub struct ProduceTopic {
    pub name: Text,
    pub partition_data: Items<ProducePartition>,
}

/// Appends record batches to partitions. `acks` is 0 where no reply is wanted, and else 1 or -1.
#[derive(Debug, Drop)]
pub struct ProduceRequest {
    pub transactional_id: Option<Text>,
    pub acks: i16,
    pub timeout_ms: i32,
    pub topic_data: Items<ProduceTopic>,
}

impl Versioned for ProducePartition {
    ghost schema = { produce_partition };

    #[tactic(auto, unfolding(crate::specs::ProduceRequest::produce_partition))]
    fn take_at(
        alloc: Global,
        version: Version,
        cursor: &mut Cursor<'_>,
    ) -> Result<Self, WireFault> {
        take_structure_at!(
            alloc,
            version,
            cursor,
            ProducePartition {
                index: Always,
                records: Always,
            }
        )
    }

    fn put_at(&self, version: Version, out: &mut Out) -> Result<(), NoMemory> {
        put_fields_at(version, out, pairs!(&self.index, &self.records))
    }
}

impl Versioned for ProduceTopic {
    ghost schema = { produce_topic };

    #[tactic(auto, unfolding(crate::specs::ProduceRequest::produce_topic))]
    fn take_at(
        alloc: Global,
        version: Version,
        cursor: &mut Cursor<'_>,
    ) -> Result<Self, WireFault> {
        take_structure_at!(
            alloc,
            version,
            cursor,
            ProduceTopic {
                name: Always,
                partition_data: Always,
            }
        )
    }

    fn put_at(&self, version: Version, out: &mut Out) -> Result<(), NoMemory> {
        put_fields_at(version, out, pairs!(&self.name, &self.partition_data,))
    }
}

impl Versioned for ProduceRequest {
    ghost schema = { produce_request };

    #[tactic(auto, unfolding(crate::specs::ProduceRequest::produce_request))]
    fn take_at(
        alloc: Global,
        version: Version,
        cursor: &mut Cursor<'_>,
    ) -> Result<Self, WireFault> {
        take_structure_at!(
            alloc,
            version,
            cursor,
            ProduceRequest {
                transactional_id: Always,
                acks: Always,
                timeout_ms: Always,
                topic_data: Always,
            }
        )
    }

    fn put_at(&self, version: Version, out: &mut Out) -> Result<(), NoMemory> {
        put_fields_at(
            version,
            out,
            pairs!(
                &self.transactional_id,
                &self.acks,
                &self.timeout_ms,
                &self.topic_data,
            ),
        )
    }
}

/// Reads the body of a Produce request of this version; the records of each partition are copied once. Places count
/// from its first byte.
pub fn read_produce_request(
    alloc: Global,
    version: Version,
    bytes: &[u8],
) -> Result<ProduceRequest, WireFault>
    ensures { ReadsWhole (produce_request version).format bytes.now result }
{
    read_whole_at(alloc, version, bytes)
}

/// Writes the body of a Produce request in this version. A text, an array or records that are too long for the length
/// that they have there, and records of 2^31 bytes and more, are answered as want of memory.
pub fn write_produce_request(
    alloc: Global,
    version: Version,
    message: &ProduceRequest,
) -> Result<Bytes, NoMemory>
    ensures { IfOk result (IsTold (produce_request version) message.now) }
{
    write_whole_at(alloc, version, message)
}
