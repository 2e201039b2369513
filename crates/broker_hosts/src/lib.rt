//! The shards that a broker hosts, as they are opened on the disks of a bay, and how these are put back.
#![tactic(auto)]

mod bay;
mod fault;
mod hosts;
mod names;
mod open;
mod part;
mod shard;
mod slot;

pub use bay::{put_foreign_back, put_part_back};
pub use fault::{CoreOpen, fault_of_call};
pub use hosts::Hosts;
pub use names::disk_name;
pub use open::{open_hosts, put_hosts_back};
pub use part::open_part;
pub use shard::open_foreign;
pub use slot::{ForeignSlot, PartSlot, PartState};
