//! How far queues have come: ListOffsets and DescribeShareGroupOffsets, each as a plan over its request, a row for each
//! answer of a shard, and the body of its reply. What shards tell of a group is shared with the calls that tell who is
//! in it.
//!
//! Nothing here changes a shard: each question is a look.
#![tactic(auto)]

mod group_offsets;
mod hosted;
mod law;
mod looks;
mod offsets;
mod summary;

pub use group_offsets::{
    AskedOffsets, AskedPartition, AskedTopic, GroupOffsetsPlan, group_offsets_body,
    plan_group_offsets,
};
pub use law::{each_partition_is_told_by_its_own_log, each_table_is_told_by_its_own_shard};
pub use looks::{
    GROUP_ID_NOT_FOUND, GroupAsk, GroupRow, TableRow, is_there, plan_group, shards_of, table_row,
};
pub use offsets::{End, LogEnds, OffsetAsk, OffsetsPlan, offset_row, offsets_body, plan_offsets};
pub use summary::{AssignedPartitions, GroupSummary, MemberSummary};
