ghost use Rattle.std.specs.Prelude.{IfOk};
ghost use Rattle.flex_fields.specs.Formats.{ReadsWhole};
ghost use Rattle.flex_fields.specs.Versions.{IsTold};
ghost use Rattle.msgs_base.specs.MetadataReply.{metadata_broker, metadata_partition, metadata_topic, metadata_reply};

use crate::fields::{Always, Between, NullSince, Since, take_fields_at, take_structure_at};
use crate::lent::{PutBetween, PutNullSince, PutSince, pairs, put_fields_at};
use flex_fields::{
    Bytes, Cursor, Items, NoMemory, Out, Text, Version, Versioned, WireFault, read_whole_at,
    write_whole_at,
};
use std::alloc::Global;
use uuid::Uuid;

/// A broker and where it is reached.
#[derive(Debug, Drop)]
pub struct MetadataBroker {
    pub node_id: i32,
    pub host: Text,
    pub port: i32,
    pub rack: Option<Text>,
}

/// A partition, its leader and its replicas.
#[derive(Debug, Drop)]
pub struct MetadataPartition {
    pub error_code: i16,
    pub partition_index: i32,
    pub leader_id: i32,
    pub leader_epoch: i32,
    pub replica_nodes: Items<i32>,
    pub isr_nodes: Items<i32>,
    pub offline_replicas: Items<i32>,
}

/// A topic and its partitions, or an error.
#[derive(Debug, Drop)]
pub struct MetadataTopic {
    pub error_code: i16,
    pub name: Option<Text>,
    pub topic_id: Uuid,
    pub is_internal: bool,
    pub partitions: Items<MetadataPartition>,
    pub topic_authorized_operations: i32,
}

/// The brokers and the topics that were asked for.
#[derive(Debug, Drop)]
pub struct MetadataReply {
    pub throttle_time_ms: i32,
    pub brokers: Items<MetadataBroker>,
    pub cluster_id: Option<Text>,
    pub controller_id: i32,
    pub topics: Items<MetadataTopic>,
    pub cluster_authorized_operations: i32,
}

/// Operations that aren't told.
const NO_OPERATIONS: i32 = i32::MIN;

impl Versioned for MetadataBroker {
    ghost schema = { metadata_broker };

    #[tactic(auto, unfolding(crate::specs::MetadataReply::metadata_broker))]
    fn take_at(
        alloc: Global,
        version: Version,
        cursor: &mut Cursor<'_>,
    ) -> Result<Self, WireFault> {
        take_structure_at!(
            alloc,
            version,
            cursor,
            MetadataBroker {
                node_id: Always,
                host: Always,
                port: Always,
                rack: Since(1, None),
            }
        )
    }

    fn put_at(&self, version: Version, out: &mut Out) -> Result<(), NoMemory> {
        put_fields_at(
            version,
            out,
            pairs!(
                &self.node_id,
                &self.host,
                &self.port,
                PutSince(1, &self.rack),
            ),
        )
    }
}

impl Versioned for MetadataPartition {
    ghost schema = { metadata_partition };

    #[tactic(auto, unfolding(crate::specs::MetadataReply::metadata_partition))]
    fn take_at(
        alloc: Global,
        version: Version,
        cursor: &mut Cursor<'_>,
    ) -> Result<Self, WireFault> {
        take_structure_at!(
            alloc,
            version,
            cursor,
            MetadataPartition {
                error_code: Always,
                partition_index: Always,
                leader_id: Always,
                leader_epoch: Since(7, -1),
                replica_nodes: Always,
                isr_nodes: Always,
                offline_replicas: Since(5, Items::new(Vec::new(alloc))),
            }
        )
    }

    fn put_at(&self, version: Version, out: &mut Out) -> Result<(), NoMemory> {
        put_fields_at(
            version,
            out,
            pairs!(
                &self.error_code,
                &self.partition_index,
                &self.leader_id,
                PutSince(7, &self.leader_epoch),
                &self.replica_nodes,
                &self.isr_nodes,
                PutSince(5, &self.offline_replicas),
            ),
        )
    }
}

impl Versioned for MetadataTopic {
    ghost schema = { metadata_topic };

    #[tactic(auto, unfolding(crate::specs::MetadataReply::metadata_topic))]
    fn take_at(
        alloc: Global,
        version: Version,
        cursor: &mut Cursor<'_>,
    ) -> Result<Self, WireFault> {
        take_structure_at!(
            alloc,
            version,
            cursor,
            MetadataTopic {
                error_code: Always,
                name: NullSince(12),
                topic_id: Since(10, Uuid::nil()),
                is_internal: Since(1, false),
                partitions: Always,
                topic_authorized_operations: Since(8, NO_OPERATIONS),
            }
        )
    }

    fn put_at(&self, version: Version, out: &mut Out) -> Result<(), NoMemory> {
        put_fields_at(
            version,
            out,
            pairs!(
                &self.error_code,
                PutNullSince(12, &self.name),
                PutSince(10, &self.topic_id),
                PutSince(1, &self.is_internal),
                &self.partitions,
                PutSince(8, &self.topic_authorized_operations),
            ),
        )
    }
}

impl Versioned for MetadataReply {
    ghost schema = { metadata_reply };

    #[tactic(auto, unfolding(crate::specs::MetadataReply::metadata_reply))]
    fn take_at(
        alloc: Global,
        version: Version,
        cursor: &mut Cursor<'_>,
    ) -> Result<Self, WireFault> {
        take_structure_at!(
            alloc,
            version,
            cursor,
            MetadataReply {
                throttle_time_ms: Since(3, 0),
                brokers: Always,
                cluster_id: Since(2, None),
                controller_id: Since(1, -1),
                topics: Always,
                cluster_authorized_operations: Between(8, 10, NO_OPERATIONS),
            }
        )
    }

    fn put_at(&self, version: Version, out: &mut Out) -> Result<(), NoMemory> {
        put_fields_at(
            version,
            out,
            pairs!(
                PutSince(3, &self.throttle_time_ms),
                &self.brokers,
                PutSince(2, &self.cluster_id),
                PutSince(1, &self.controller_id),
                &self.topics,
                PutBetween(8, 10, &self.cluster_authorized_operations),
            ),
        )
    }
}

/// Reads the body of the reply to Metadata of this version. Places count from its first byte.
pub fn read_metadata_reply(
    alloc: Global,
    version: Version,
    bytes: &[u8],
) -> Result<MetadataReply, WireFault>
    ensures { ReadsWhole (metadata_reply version).format bytes.now result }
{
    read_whole_at(alloc, version, bytes)
}

/// Writes the body of the reply to Metadata in this version. A text or an array that is too long for the length
/// that it has there is answered as want of memory.
pub fn write_metadata_reply(
    alloc: Global,
    version: Version,
    message: &MetadataReply,
) -> Result<Bytes, NoMemory>
    ensures { IfOk result (IsTold (metadata_reply version) message.now) }
{
    write_whole_at(alloc, version, message)
}
