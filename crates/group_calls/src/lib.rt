//! Which share groups there are, and who is in them: ListGroups and ShareGroupDescribe, each as a plan over its request,
//! a row for each answer of a shard, and the body of its reply.
//!
//! Nothing here changes a shard: each question is a look.
#![tactic(auto)]

mod law;
mod listing;
mod members;

pub use law::each_group_is_told_by_its_own_shards;
pub use listing::{GroupState, GroupsAsk, GroupsPlan, GroupsRow, Wanted, groups_body, plan_groups};
pub use members::{MembersPlan, members_body, plan_members};
