ghost use Rattle.std.specs.Prelude.{IfOk};
ghost use Rattle.flex_fields.specs.Formats.{ReadsWhole};
ghost use Rattle.flex_fields.specs.Versions.{IsTold};
ghost use Rattle.msgs_base.specs.MetadataRequest.{metadata_request_topic, metadata_request};

use crate::fields::{Between, NullSince, Since, take_fields_at, take_structure_at};
use crate::lent::{PutBetween, PutNullSince, PutSince, pairs, put_fields_at};
use flex_fields::{
    Bytes, Cursor, Items, NoMemory, Out, Text, Version, Versioned, WireFault, read_whole_at,
    write_whole_at,
};
use std::alloc::Global;
use uuid::Uuid;

/// A topic that is asked for, by name or by id.
#[derive(Debug, Drop)]
pub struct MetadataRequestTopic {
    pub topic_id: Uuid,
    pub name: Option<Text>,
}

/// Asks for topics, or for all of them where they are null.
#[derive(Debug, Drop)]
pub struct MetadataRequest {
    pub topics: Option<Items<MetadataRequestTopic>>,
    pub allow_auto_topic_creation: bool,
    pub include_cluster_authorized_operations: bool,
    pub include_topic_authorized_operations: bool,
}

impl Versioned for MetadataRequestTopic {
    ghost schema = { metadata_request_topic };

    #[tactic(auto, unfolding(crate::specs::MetadataRequest::metadata_request_topic))]
    fn take_at(
        alloc: Global,
        version: Version,
        cursor: &mut Cursor<'_>,
    ) -> Result<Self, WireFault> {
        take_structure_at!(
            alloc,
            version,
            cursor,
            MetadataRequestTopic {
                topic_id: Since(10, Uuid::nil()),
                name: NullSince(10),
            }
        )
    }

    fn put_at(&self, version: Version, out: &mut Out) -> Result<(), NoMemory> {
        put_fields_at(
            version,
            out,
            pairs!(PutSince(10, &self.topic_id), PutNullSince(10, &self.name),),
        )
    }
}

impl Versioned for MetadataRequest {
    ghost schema = { metadata_request };

    #[tactic(auto, unfolding(crate::specs::MetadataRequest::metadata_request))]
    fn take_at(
        alloc: Global,
        version: Version,
        cursor: &mut Cursor<'_>,
    ) -> Result<Self, WireFault> {
        take_structure_at!(
            alloc,
            version,
            cursor,
            MetadataRequest {
                topics: NullSince(1),
                allow_auto_topic_creation: Since(4, true),
                include_cluster_authorized_operations: Between(8, 10, false),
                include_topic_authorized_operations: Since(8, false),
            }
        )
    }

    fn put_at(&self, version: Version, out: &mut Out) -> Result<(), NoMemory> {
        put_fields_at(
            version,
            out,
            pairs!(
                PutNullSince(1, &self.topics),
                PutSince(4, &self.allow_auto_topic_creation),
                PutBetween(8, 10, &self.include_cluster_authorized_operations),
                PutSince(8, &self.include_topic_authorized_operations),
            ),
        )
    }
}

/// Reads the body of a Metadata request of this version. Places count from its first byte.
pub fn read_metadata_request(
    alloc: Global,
    version: Version,
    bytes: &[u8],
) -> Result<MetadataRequest, WireFault>
    ensures { ReadsWhole (metadata_request version).format bytes.now result }
{
    read_whole_at(alloc, version, bytes)
}

/// Writes the body of a Metadata request in this version. A text or an array that is too long for the length
/// that it has there is answered as want of memory.
pub fn write_metadata_request(
    alloc: Global,
    version: Version,
    message: &MetadataRequest,
) -> Result<Bytes, NoMemory>
    ensures { IfOk result (IsTold (metadata_request version) message.now) }
{
    write_whole_at(alloc, version, message)
}
