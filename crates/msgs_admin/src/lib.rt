//! The messages of the calls that tell how a queue is, and of the one that gives a group's place up: ListOffsets of
//! version 10, ListGroups of version 5, ShareGroupDescribe and DescribeShareGroupOffsets of version 1, and
//! DeleteShareGroupOffsets of version 0.
//!
//! Each message is a struct, its schema in `specs/`, and two calls that read and write its body.
#![tactic(auto)]

mod delete_offsets_reply;
mod delete_offsets_request;
mod describe_offsets_reply;
mod describe_offsets_request;
mod described_partition;
mod group_describe_reply;
mod group_describe_request;
mod held_records;
mod list_groups_reply;
mod list_groups_request;
mod list_offsets_reply;
mod list_offsets_request;
mod named_topic;

pub use delete_offsets_reply::{
    DeleteOffsetsReply, DeletedTopic, read_delete_offsets_reply, write_delete_offsets_reply,
};
pub use delete_offsets_request::{
    DeleteOffsetsRequest, TopicToDelete, read_delete_offsets_request, write_delete_offsets_request,
};
pub use describe_offsets_reply::{
    DescribeOffsetsReply, DescribedOffsets, DescribedTopic, read_describe_offsets_reply,
    write_describe_offsets_reply,
};
pub use describe_offsets_request::{
    AskedGroup, DescribeOffsetsRequest, read_describe_offsets_request,
    write_describe_offsets_request,
};
pub use described_partition::{DescribedPartition, other_clients_read_the_fields};
pub use group_describe_reply::{
    DescribedGroup, GroupDescribeReply, GroupMember, MemberAssignment, MemberTopic,
    read_group_describe_reply, write_group_describe_reply,
};
pub use group_describe_request::{
    GroupDescribeRequest, read_group_describe_request, write_group_describe_request,
};
pub use held_records::HeldRecords;
pub use list_groups_reply::{
    ListGroupsReply, ListedGroup, read_list_groups_reply, write_list_groups_reply,
};
pub use list_groups_request::{
    ListGroupsRequest, read_list_groups_request, write_list_groups_request,
};
pub use list_offsets_reply::{
    FoundOffset, ListOffsetsReply, read_list_offsets_reply, write_list_offsets_reply,
};
pub use list_offsets_request::{
    ListOffsetsPartition, ListOffsetsRequest, read_list_offsets_request, write_list_offsets_request,
};
pub use named_topic::NamedTopic;
