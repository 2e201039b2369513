ghost use Rattle.std.specs.Prelude.{IfOk};
ghost use Rattle.flex_fields.specs.Formats.{ReadsWhole, IsSpelling};
ghost use Rattle.msgs_share.specs.ShareAckRequest.{share_ack_request};

use crate::share_topic::{SharePartition, ShareTopic};
use flex_fields::{
    Bytes, Cursor, Items, NoMemory, Out, Text, Wire, WireFault, put_structure, read_whole,
    take_structure, write_whole,
};
use std::alloc::Global;

/// Acknowledges records, in a share session.
#[derive(Debug, Drop)]
pub struct ShareAckRequest {
    pub group_id: Option<Text>,
    pub member_id: Option<Text>,
    pub share_session_epoch: i32,
    pub topics: Items<ShareTopic<SharePartition>>,
}

impl Wire for ShareAckRequest {
    ghost format = { share_ack_request };

    #[tactic(auto, unfolding(crate::specs::ShareAckRequest::share_ack_request))]
    fn take(alloc: Global, cursor: &mut Cursor<'_>) -> Result<Self, WireFault> {
        take_structure!(
            alloc,
            cursor,
            ShareAckRequest {
                group_id,
                member_id,
                share_session_epoch,
                topics
            }
        )
    }

    fn put(&self, out: &mut Out) -> Result<(), NoMemory> {
        put_structure!(
            out,
            self,
            [group_id, member_id, share_session_epoch, topics]
        )
    }
}

/// Reads the body of a ShareAcknowledge request. Places count from its first byte.
pub fn read_share_ack_request(alloc: Global, bytes: &[u8]) -> Result<ShareAckRequest, WireFault>
    ensures { ReadsWhole share_ack_request bytes.now result }
{
    read_whole(alloc, bytes)
}

/// Writes the body of a ShareAcknowledge request.
pub fn write_share_ack_request(alloc: Global, message: &ShareAckRequest) -> Result<Bytes, NoMemory>
    ensures { IfOk result (IsSpelling share_ack_request message.now) }
{
    write_whole(alloc, message)
}
