ghost use Rattle.std.specs.Prelude.{IfOk};
ghost use Rattle.flex_fields.specs.Formats.{ReadsWhole, IsSpelling};
ghost use Rattle.msgs_group.specs.HeartbeatRequest.{heartbeat_request};

use flex_fields::{
    Bytes, Cursor, Items, NoMemory, Out, Text, Wire, WireFault, put_structure, read_whole,
    take_structure, write_whole,
};
use std::alloc::Global;

/// A member of a share group joins (epoch 0), stays (its epoch) or leaves (epoch -1). Null names leave its
/// subscription as it is.
#[derive(Debug, Drop)]
pub struct HeartbeatRequest {
    pub group_id: Text,
    pub member_id: Text,
    pub member_epoch: i32,
    pub rack_id: Option<Text>,
    pub subscribed_topic_names: Option<Items<Text>>,
}

impl Wire for HeartbeatRequest {
    ghost format = { heartbeat_request };

    #[tactic(auto, unfolding(crate::specs::HeartbeatRequest::heartbeat_request))]
    fn take(alloc: Global, cursor: &mut Cursor<'_>) -> Result<Self, WireFault> {
        take_structure!(
            alloc,
            cursor,
            HeartbeatRequest {
                group_id,
                member_id,
                member_epoch,
                rack_id,
                subscribed_topic_names
            }
        )
    }

    fn put(&self, out: &mut Out) -> Result<(), NoMemory> {
        put_structure!(
            out,
            self,
            [
                group_id,
                member_id,
                member_epoch,
                rack_id,
                subscribed_topic_names
            ]
        )
    }
}

/// Reads the body of a ShareGroupHeartbeat request. Places count from its first byte.
pub fn read_heartbeat_request(alloc: Global, bytes: &[u8]) -> Result<HeartbeatRequest, WireFault>
    ensures { ReadsWhole heartbeat_request bytes.now result }
{
    read_whole(alloc, bytes)
}

/// Writes the body of a ShareGroupHeartbeat request.
pub fn write_heartbeat_request(alloc: Global, message: &HeartbeatRequest) -> Result<Bytes, NoMemory>
    ensures { IfOk result (IsSpelling heartbeat_request message.now) }
{
    write_whole(alloc, message)
}
