//! The shard of foreign state: the share-group state calls on partitions that this broker doesn't host.
#![tactic(auto)]

mod batches;
mod codes;
mod shard;

pub use shard::ForeignShard;
