//! What a broker is configured with: the topics that it hosts, and a few numbers.
//!
//! It finds a topic by name or by id, the shard of a partition, and the partition of a shard.
#![tactic(auto)]

mod config;
mod laws;
mod places;
mod topic;
mod versions;

pub use config::Config;
pub use laws::{
    each_partition_has_disks, each_shard_has_its_partition, each_shard_is_of_one_partition,
};
pub use topic::{Topic, TopicList};
pub use versions::Versions;
