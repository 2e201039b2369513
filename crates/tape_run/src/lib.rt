//! What the session is that the tapes of a server's run give: a run of the broker, in which each link has its replies
//! again, and each shard its state.
#![tactic(auto)]

mod law;

pub use law::each_merge_is_a_session;
