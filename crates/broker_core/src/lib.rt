//! The broker: who is connected, the shards that keep state on disks, and what each recorded event makes of both.
#![tactic(auto)]

mod arms;
mod broker;
mod calls;
mod client;
mod fault;
mod hosts;
mod part;
mod power;
mod shard;
mod timers;
mod told;

pub use broker::Core;
pub use fault::CoreFault;
