//! The calls of share consumers in hand (KIP-932): ShareFetch and ShareAcknowledge, with the visits that each asks of
//! the hosted partitions, those of a fetch with the limits that the visits before left; ShareGroupHeartbeat; and the
//! replies that their answers make.
#![tactic(auto)]

mod ack_entries;
mod ack_rows;
mod acknowledge;
mod codes;
mod fetch;
mod fetch_rows;
mod fetched_row;
mod groups;
mod heartbeat;
mod kept_step;
mod law;
mod partition;
mod visiting;
mod wish;

pub use ack_rows::TopicShape;
pub use acknowledge::{AckHand, AckStage, ack_call};
pub use fetch::{FetchHand, FetchStage, fetch_call};
pub use fetch_rows::FetchRow;
pub use fetched_row::FetchedRow;
pub use heartbeat::{HeartbeatHand, HeartbeatStage, heartbeat_call};
pub use kept_step::KeptStep;
pub use law::{
    a_fetch_acquires_in_what_is_told, a_heartbeat_is_told_by_its_own_answer,
    each_acknowledged_partition_is_told_by_its_own_visit,
    each_fetched_partition_is_told_by_its_own_visit, each_shard_is_told_by_its_partition,
    each_topic_has_one_element,
};
pub use partition::PartitionId;
pub use visiting::Visiting;
pub use wish::{ShardList, WaitWish};
