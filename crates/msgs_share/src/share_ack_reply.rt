ghost use Rattle.std.specs.Prelude.{IfOk};
ghost use Rattle.flex_fields.specs.Formats.{ReadsWhole, IsSpelling};
ghost use Rattle.msgs_share.specs.ShareAckReply.{acknowledged_partition, share_ack_reply};

use crate::nodes::{CurrentLeader, NodeEndpoint};
use crate::share_topic::ShareTopic;
use flex_fields::{
    Bytes, Cursor, Items, NoMemory, Out, Text, Wire, WireFault, put_structure, read_whole,
    take_structure, write_whole,
};
use std::alloc::Global;

/// What became of the acknowledgements for one partition.
#[derive(Debug, Drop)]
pub struct AcknowledgedPartition {
    pub partition_index: i32,
    pub error_code: i16,
    pub error_message: Option<Text>,
    pub current_leader: CurrentLeader,
}

/// What became of the acknowledgements, or an error.
#[derive(Debug, Drop)]
pub struct ShareAckReply {
    pub throttle_time_ms: i32,
    pub error_code: i16,
    pub error_message: Option<Text>,
    pub responses: Items<ShareTopic<AcknowledgedPartition>>,
    pub node_endpoints: Items<NodeEndpoint>,
}

impl Wire for AcknowledgedPartition {
    ghost format = { acknowledged_partition };

    #[tactic(auto, unfolding(crate::specs::ShareAckReply::acknowledged_partition))]
    fn take(alloc: Global, cursor: &mut Cursor<'_>) -> Result<Self, WireFault> {
        take_structure!(
            alloc,
            cursor,
            AcknowledgedPartition {
                partition_index,
                error_code,
                error_message,
                current_leader
            }
        )
    }

    fn put(&self, out: &mut Out) -> Result<(), NoMemory> {
        put_structure!(
            out,
            self,
            [partition_index, error_code, error_message, current_leader]
        )
    }
}

impl Wire for ShareAckReply {
    ghost format = { share_ack_reply };

    #[tactic(auto, unfolding(crate::specs::ShareAckReply::share_ack_reply))]
    fn take(alloc: Global, cursor: &mut Cursor<'_>) -> Result<Self, WireFault> {
        take_structure!(
            alloc,
            cursor,
            ShareAckReply {
                throttle_time_ms,
                error_code,
                error_message,
                responses,
                node_endpoints
            }
        )
    }

    fn put(&self, out: &mut Out) -> Result<(), NoMemory> {
        put_structure!(
            out,
            self,
            [
                throttle_time_ms,
                error_code,
                error_message,
                responses,
                node_endpoints
            ]
        )
    }
}

/// Reads the body of the reply to ShareAcknowledge. Places count from its first byte.
pub fn read_share_ack_reply(alloc: Global, bytes: &[u8]) -> Result<ShareAckReply, WireFault>
    ensures { ReadsWhole share_ack_reply bytes.now result }
{
    read_whole(alloc, bytes)
}

/// Writes the body of the reply to ShareAcknowledge.
pub fn write_share_ack_reply(alloc: Global, message: &ShareAckReply) -> Result<Bytes, NoMemory>
    ensures { IfOk result (IsSpelling share_ack_reply message.now) }
{
    write_whole(alloc, message)
}
