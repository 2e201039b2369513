//! The shard of a hosted partition: its log, and the share groups that read it.
#![tactic(auto)]

mod acks;
mod advance;
mod budget;
mod collector;
mod conf;
mod crash;
mod delete;
mod describing;
mod ending;
mod fetch;
mod judge;
mod laws;
mod limits;
mod named;
mod offering;
mod opening;
mod plan;
mod ready;
mod release;
mod settle;
mod shard;
mod storing;
mod walk;
mod windows;

pub use conf::PartConf;
pub use crash::a_crash_leaves_the_shard;
pub use laws::{
    a_fetch_takes_what_is_offered, acts_in_order_are_acts_at_once, releases_keep_counts,
    rows_of_slots_have_few_runs, settled_tables_stay_hosted,
};
pub use limits::Limits;
pub use opening::{PartFault, PartOpen};
pub use shard::{PartFaultCounts, PartShard};
