//! The locks around a broker's shards as several threads go through them: a lock around each shard, and passes of all
//! locks for each thread; the parts of connections and the turns in which locks expire, each an act of a pass; and who
//! waits until a partition changes.
#![tactic(auto)]

mod close;
mod expiry;
mod open;
mod parts;
mod rows;
mod shared;
mod waiters;
mod waiting;

pub use close::close_shared;
pub use expiry::{TurnAnswer, expiry_turn};
pub use open::open_shared;
pub use parts::do_part;
pub use shared::{Passes, Shared};
pub use waiting::wait_for;
