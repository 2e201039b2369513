//! A lock with a history in turns. Each thread acts on a shard with a pass of its own. Who finds the shard free leads:
//! it takes the events of those that asked, does them and its own in one turn, and answers each. Each pass has seen a
//! beginning of one list of all acts, the history, which can be cut into turns that lead on from the shard as the lock
//! was made.
//!
//! No memory holds the history: it stands in contracts alone. Nothing is claimed of progress or of fairness.
#![tactic(auto)]

mod acting;
mod bell;
mod board;
mod leading;
mod lock;
mod shard;
mod steps;

pub use lock::{Pass, TurnLock};
pub use shard::Shard;
pub use shard_lock::Entry;
