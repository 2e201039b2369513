//! The calls that a Kafka client makes first, ApiVersions, Metadata and FindCoordinator; a producer's call, Produce;
//! and an operator's, DeleteRecords.
//!
//! Each message is a struct, its schema in `specs/`, and two calls that read and write its body. Where it has several
//! versions, its schema and both calls take the version.
#![tactic(auto)]

mod api_versions_reply;
mod api_versions_request;
mod coordinator_of_all;
mod delete_records_reply;
mod delete_records_request;
mod fields;
mod find_coordinator_reply;
mod find_coordinator_request;
mod lent;
mod metadata_reply;
mod metadata_request;
mod produce_reply;
mod produce_request;
mod texts;
mod versions;

pub use api_versions_reply::{
    ApiVersion, ApiVersionsReply, read_api_versions_reply, write_api_versions_reply,
};
pub use api_versions_request::{
    ApiVersionsRequest, read_api_versions_request, write_api_versions_request,
};
pub use coordinator_of_all::{CoordinatorOfAll, write_coordinator_of_all};
pub use delete_records_reply::{
    DeleteRecordsPartitionResult, DeleteRecordsReply, DeleteRecordsTopicResult,
    read_delete_records_reply, write_delete_records_reply,
};
pub use delete_records_request::{
    DeleteRecordsPartition, DeleteRecordsRequest, DeleteRecordsTopic, read_delete_records_request,
    write_delete_records_request,
};
pub use find_coordinator_reply::{
    Coordinator, FindCoordinatorReply, read_find_coordinator_reply, write_find_coordinator_reply,
};
pub use find_coordinator_request::{
    FindCoordinatorRequest, read_find_coordinator_request, write_find_coordinator_request,
};
pub use metadata_reply::{
    MetadataBroker, MetadataPartition, MetadataReply, MetadataTopic, read_metadata_reply,
    write_metadata_reply,
};
pub use metadata_request::{
    MetadataRequest, MetadataRequestTopic, read_metadata_request, write_metadata_request,
};
pub use produce_reply::{
    ProducePartitionReply, ProduceRecordError, ProduceReply, ProduceTopicReply, read_produce_reply,
    write_produce_reply,
};
pub use produce_request::{
    ProducePartition, ProduceRequest, ProduceTopic, read_produce_request, write_produce_request,
};
pub use texts::Texts;
pub use versions::{api_versions_version, metadata_version, produce_version};
