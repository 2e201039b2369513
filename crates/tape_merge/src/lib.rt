//! Merging the tapes of a server's run into one session: the events after which each link has its replies again, and
//! each shard its state.
#![tactic(auto)]

mod apart;
mod fault;
mod law;
mod matching;
mod merging;
mod moves;
mod place;
mod progress;
mod ready;
mod run;
mod tangle;
mod tapes;
mod tell;

pub use apart::are_apart;
pub use fault::MergeFault;
pub use law::{each_merge_keeps_the_orders, no_merge_has_a_cycle};
pub use merging::merge;
pub use moves::Move;
pub use place::Place;
