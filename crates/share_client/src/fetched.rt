// The reply to ShareFetch, as it is read with places.
ghost use Rattle.msgs_share.specs.Nodes.{current_leader, node_endpoint};
ghost use Rattle.msgs_share.specs.ShareFetchReply.{acquired_records};
ghost use Rattle.share_client.specs.Locating.{located_fetch_at, partition_at, topic_at};

use crate::located::{Locate, Located, LocatedRecords, locate_fields};
use flex_fields::{Cursor, Items, Text, Wire, WireFault};
use msgs_share::{AcquiredRecords, CurrentLeader, NodeEndpoint, Records, ShareTopic};
use std::alloc::Global;

/// What became of one partition, with the places of its batches and of its acquired records.
#[derive(Drop)]
pub struct LocatedPartition {
    pub partition_index: i32,
    pub error_code: i16,
    pub error_message: Option<Text>,
    pub acknowledge_error_code: i16,
    pub acknowledge_error_message: Option<Text>,
    pub current_leader: CurrentLeader,
    pub records: Option<Located<Records>>,
    pub acquired_records: Items<Located<AcquiredRecords>>,
}

/// What a ShareFetch gave, or an error, with the place of each partition.
#[derive(Drop)]
pub struct LocatedFetch {
    pub throttle_time_ms: i32,
    pub error_code: i16,
    pub error_message: Option<Text>,
    pub acquisition_lock_timeout_ms: i32,
    pub responses: Items<ShareTopic<Located<LocatedPartition>>>,
    pub node_endpoints: Items<NodeEndpoint>,
}

impl Locate for CurrentLeader {
    ghost reading = { current_leader.read };

    fn locate(alloc: Global, cursor: &mut Cursor<'_>) -> Result<Self, WireFault> {
        Wire::take(alloc, cursor)
    }
}

impl Locate for AcquiredRecords {
    ghost reading = { acquired_records.read };

    fn locate(alloc: Global, cursor: &mut Cursor<'_>) -> Result<Self, WireFault> {
        Wire::take(alloc, cursor)
    }
}

impl Locate for NodeEndpoint {
    ghost reading = { node_endpoint.read };

    fn locate(alloc: Global, cursor: &mut Cursor<'_>) -> Result<Self, WireFault> {
        Wire::take(alloc, cursor)
    }
}

impl Locate for LocatedPartition {
    ghost reading = { partition_at };

    #[tactic(auto, unfolding(crate::specs::Locating::partition_at))]
    fn locate(alloc: Global, cursor: &mut Cursor<'_>) -> Result<Self, WireFault> {
        let (partition_index, (error_code, (error_message, acknowledged))) = locate_fields(
            alloc, cursor,
        )?;
        let (acknowledge_error_code, (acknowledge_error_message, fetched)) = acknowledged;
        let (current_leader, (LocatedRecords { records }, acquired_records)) = fetched;
        Ok(LocatedPartition {
            partition_index,
            error_code,
            error_message,
            acknowledge_error_code,
            acknowledge_error_message,
            current_leader,
            records,
            acquired_records,
        })
    }
}

impl Locate for ShareTopic<Located<LocatedPartition>> {
    ghost reading = { topic_at };

    #[tactic(auto, unfolding(crate::specs::Locating::topic_at))]
    fn locate(alloc: Global, cursor: &mut Cursor<'_>) -> Result<Self, WireFault> {
        let (topic_id, partitions) = locate_fields(alloc, cursor)?;
        Ok(ShareTopic {
            topic_id,
            partitions,
        })
    }
}

impl Locate for LocatedFetch {
    ghost reading = { located_fetch_at };

    #[tactic(auto, unfolding(crate::specs::Locating::located_fetch_at))]
    fn locate(alloc: Global, cursor: &mut Cursor<'_>) -> Result<Self, WireFault> {
        let (throttle_time_ms, (error_code, (error_message, fetched))) = locate_fields(
            alloc, cursor,
        )?;
        let (acquisition_lock_timeout_ms, (responses, node_endpoints)) = fetched;
        Ok(LocatedFetch {
            throttle_time_ms,
            error_code,
            error_message,
            acquisition_lock_timeout_ms,
            responses,
            node_endpoints,
        })
    }
}
