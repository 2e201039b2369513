ghost use Rattle.std.specs.Prelude.{IfOk};
ghost use Rattle.flex_fields.specs.Formats.{ReadsWhole, IsSpelling};
ghost use Rattle.msgs_admin.specs.GroupDescribeReply.{member_topic, member_assignment, group_member, described_group, group_describe_reply};

use flex_fields::{
    Bytes, Cursor, Items, NoMemory, Out, Text, Wire, WireFault, put_structure, read_whole,
    take_structure, write_whole,
};
use std::alloc::Global;
use uuid::Uuid;

/// The partitions of one topic that a member reads.
#[derive(Debug, Drop)]
pub struct MemberTopic {
    pub topic_id: Uuid,
    pub topic_name: Text,
    pub partitions: Items<i32>,
}

/// All that a member reads.
#[derive(Debug, Drop)]
pub struct MemberAssignment {
    pub topic_partitions: Items<MemberTopic>,
}

/// A member of a group, and what it reads.
#[derive(Debug, Drop)]
pub struct GroupMember {
    pub member_id: Text,
    pub rack_id: Option<Text>,
    pub member_epoch: i32,
    pub client_id: Text,
    pub client_host: Text,
    pub subscribed_topic_names: Items<Text>,
    pub assignment: MemberAssignment,
}

/// A group with its members, or an error.
#[derive(Debug, Drop)]
pub struct DescribedGroup {
    pub error_code: i16,
    pub error_message: Option<Text>,
    pub group_id: Text,
    pub group_state: Text,
    pub group_epoch: i32,
    pub assignment_epoch: i32,
    pub assignor_name: Text,
    pub members: Items<GroupMember>,
    pub authorized_operations: i32,
}

/// The groups that were asked for.
#[derive(Debug, Drop)]
pub struct GroupDescribeReply {
    pub throttle_time_ms: i32,
    pub groups: Items<DescribedGroup>,
}

impl Wire for MemberTopic {
    ghost format = { member_topic };

    #[tactic(auto, unfolding(crate::specs::GroupDescribeReply::member_topic))]
    fn take(alloc: Global, cursor: &mut Cursor<'_>) -> Result<Self, WireFault> {
        take_structure!(
            alloc,
            cursor,
            MemberTopic {
                topic_id,
                topic_name,
                partitions
            }
        )
    }

    fn put(&self, out: &mut Out) -> Result<(), NoMemory> {
        put_structure!(out, self, [topic_id, topic_name, partitions])
    }
}

impl Wire for MemberAssignment {
    ghost format = { member_assignment };

    #[tactic(auto, unfolding(crate::specs::GroupDescribeReply::member_assignment))]
    fn take(alloc: Global, cursor: &mut Cursor<'_>) -> Result<Self, WireFault> {
        take_structure!(alloc, cursor, MemberAssignment { topic_partitions })
    }

    fn put(&self, out: &mut Out) -> Result<(), NoMemory> {
        put_structure!(out, self, [topic_partitions])
    }
}

impl Wire for GroupMember {
    ghost format = { group_member };

    #[tactic(auto, unfolding(crate::specs::GroupDescribeReply::group_member))]
    fn take(alloc: Global, cursor: &mut Cursor<'_>) -> Result<Self, WireFault> {
        take_structure!(
            alloc,
            cursor,
            GroupMember {
                member_id,
                rack_id,
                member_epoch,
                client_id,
                client_host,
                subscribed_topic_names,
                assignment
            }
        )
    }

    fn put(&self, out: &mut Out) -> Result<(), NoMemory> {
        put_structure!(
            out,
            self,
            [
                member_id,
                rack_id,
                member_epoch,
                client_id,
                client_host,
                subscribed_topic_names,
                assignment
            ]
        )
    }
}

impl Wire for DescribedGroup {
    ghost format = { described_group };

    #[tactic(auto, unfolding(crate::specs::GroupDescribeReply::described_group))]
    fn take(alloc: Global, cursor: &mut Cursor<'_>) -> Result<Self, WireFault> {
        take_structure!(
            alloc,
            cursor,
            DescribedGroup {
                error_code,
                error_message,
                group_id,
                group_state,
                group_epoch,
                assignment_epoch,
                assignor_name,
                members,
                authorized_operations
            }
        )
    }

    fn put(&self, out: &mut Out) -> Result<(), NoMemory> {
        put_structure!(
            out,
            self,
            [
                error_code,
                error_message,
                group_id,
                group_state,
                group_epoch,
                assignment_epoch,
                assignor_name,
                members,
                authorized_operations
            ]
        )
    }
}

impl Wire for GroupDescribeReply {
    ghost format = { group_describe_reply };

    #[tactic(auto, unfolding(crate::specs::GroupDescribeReply::group_describe_reply))]
    fn take(alloc: Global, cursor: &mut Cursor<'_>) -> Result<Self, WireFault> {
        take_structure!(
            alloc,
            cursor,
            GroupDescribeReply {
                throttle_time_ms,
                groups
            }
        )
    }

    fn put(&self, out: &mut Out) -> Result<(), NoMemory> {
        put_structure!(out, self, [throttle_time_ms, groups])
    }
}

/// Reads the body of the reply to ShareGroupDescribe. Places count from its first byte.
pub fn read_group_describe_reply(
    alloc: Global,
    bytes: &[u8],
) -> Result<GroupDescribeReply, WireFault>
    ensures { ReadsWhole group_describe_reply bytes.now result }
{
    read_whole(alloc, bytes)
}

/// Writes the body of the reply to ShareGroupDescribe.
pub fn write_group_describe_reply(
    alloc: Global,
    message: &GroupDescribeReply,
) -> Result<Bytes, NoMemory>
    ensures { IfOk result (IsSpelling group_describe_reply message.now) }
{
    write_whole(alloc, message)
}
