ghost use Rattle.std.specs.Prelude.{IfOk};
ghost use Rattle.flex_fields.specs.Formats.{ReadsWhole, IsSpelling};
ghost use Rattle.msgs_share.specs.ShareFetchRequest.{share_fetch_request};

use crate::share_topic::{SharePartition, ShareTopic};
use flex_fields::{
    Bytes, Cursor, Items, NoMemory, Out, Text, Wire, WireFault, put_structure, read_whole,
    take_structure, write_whole,
};
use std::alloc::Global;

/// Acknowledges records and asks for more, in a share session.
#[derive(Debug, Drop)]
pub struct ShareFetchRequest {
    pub group_id: Option<Text>,
    pub member_id: Option<Text>,
    pub share_session_epoch: i32,
    pub max_wait_ms: i32,
    pub min_bytes: i32,
    pub max_bytes: i32,
    pub max_records: i32,
    pub batch_size: i32,
    pub topics: Items<ShareTopic<SharePartition>>,
    pub forgotten_topics_data: Items<ShareTopic<i32>>,
}

impl Wire for ShareFetchRequest {
    ghost format = { share_fetch_request };

    #[tactic(auto, unfolding(crate::specs::ShareFetchRequest::share_fetch_request, crate::specs::ShareFetchRequest::share_fetch_request_fields))]
    fn take(alloc: Global, cursor: &mut Cursor<'_>) -> Result<Self, WireFault> {
        take_structure!(
            alloc,
            cursor,
            ShareFetchRequest {
                group_id,
                member_id,
                share_session_epoch,
                max_wait_ms,
                min_bytes,
                max_bytes,
                max_records,
                batch_size,
                topics,
                forgotten_topics_data
            }
        )
    }

    fn put(&self, out: &mut Out) -> Result<(), NoMemory> {
        put_structure!(
            out,
            self,
            [
                group_id,
                member_id,
                share_session_epoch,
                max_wait_ms,
                min_bytes,
                max_bytes,
                max_records,
                batch_size,
                topics,
                forgotten_topics_data
            ]
        )
    }
}

/// Reads the body of a ShareFetch request. Places count from its first byte.
pub fn read_share_fetch_request(alloc: Global, bytes: &[u8]) -> Result<ShareFetchRequest, WireFault>
    ensures { ReadsWhole share_fetch_request bytes.now result }
{
    read_whole(alloc, bytes)
}

/// Writes the body of a ShareFetch request.
pub fn write_share_fetch_request(
    alloc: Global,
    message: &ShareFetchRequest,
) -> Result<Bytes, NoMemory>
    ensures { IfOk result (IsSpelling share_fetch_request message.now) }
{
    write_whole(alloc, message)
}
