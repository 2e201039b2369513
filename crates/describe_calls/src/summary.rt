use flex_fields::Items;
use share_model::Name;
use uuid::Uuid;

/// The partitions of one topic that a member reads.
#[derive(Drop)]
pub struct AssignedPartitions {
    pub id: Uuid,
    pub topic: Name,
    pub partitions: Items<i32>,
}

/// A member of a group: its epoch, the topics that it subscribes to, and what it reads.
#[derive(Drop)]
pub struct MemberSummary {
    pub id: Name,
    pub epoch: i32,
    pub topics: Items<Name>,
    pub assigned: Items<AssignedPartitions>,
}

/// A group that has members, as the members' shard tells it: its epoch, and who is in it.
#[derive(Drop)]
pub struct GroupSummary {
    pub epoch: i32,
    pub members: Items<MemberSummary>,
}
