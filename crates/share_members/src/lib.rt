//! The members of share groups (KIP-932): their epochs, what they subscribe to and which partitions each is to read.
//!
//! Memberships live in memory alone: a crash empties them. Nothing here touches an acquisition lock.
#![tactic(auto)]

mod assignment;
mod group;
mod heartbeat;
mod law;
mod member;
mod places;
mod plan;
mod refusal;
mod reply;
mod shard;
mod subscription;

pub use law::{
    behind_the_greatest_epoch_comes_1, memberships_stay_whole, partitions_are_shared_evenly,
};
pub use member::Member;
pub use places::Places;
pub use shard::GroupShard;
