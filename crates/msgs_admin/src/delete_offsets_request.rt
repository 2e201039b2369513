ghost use Rattle.std.specs.Prelude.{IfOk};
ghost use Rattle.flex_fields.specs.Formats.{ReadsWhole, IsSpelling};
ghost use Rattle.msgs_admin.specs.DeleteOffsetsRequest.{topic_to_delete, delete_offsets_request};

use flex_fields::{
    Bytes, Cursor, Items, NoMemory, Out, Text, Wire, WireFault, put_structure, read_whole,
    take_structure, write_whole,
};
use std::alloc::Global;

/// A topic of which a group is to forget how far it has come.
#[derive(Debug, Drop)]
pub struct TopicToDelete {
    pub topic_name: Text,
}

/// Asks that a share group forgets how far it has come in topics.
#[derive(Debug, Drop)]
pub struct DeleteOffsetsRequest {
    pub group_id: Text,
    pub topics: Items<TopicToDelete>,
}

impl Wire for TopicToDelete {
    ghost format = { topic_to_delete };

    #[tactic(auto, unfolding(crate::specs::DeleteOffsetsRequest::topic_to_delete))]
    fn take(alloc: Global, cursor: &mut Cursor<'_>) -> Result<Self, WireFault> {
        take_structure!(alloc, cursor, TopicToDelete { topic_name })
    }

    fn put(&self, out: &mut Out) -> Result<(), NoMemory> {
        put_structure!(out, self, [topic_name])
    }
}

impl Wire for DeleteOffsetsRequest {
    ghost format = { delete_offsets_request };

    #[tactic(auto, unfolding(crate::specs::DeleteOffsetsRequest::delete_offsets_request))]
    fn take(alloc: Global, cursor: &mut Cursor<'_>) -> Result<Self, WireFault> {
        take_structure!(alloc, cursor, DeleteOffsetsRequest { group_id, topics })
    }

    fn put(&self, out: &mut Out) -> Result<(), NoMemory> {
        put_structure!(out, self, [group_id, topics])
    }
}

/// Reads the body of a DeleteShareGroupOffsets request. Places count from its first byte.
pub fn read_delete_offsets_request(
    alloc: Global,
    bytes: &[u8],
) -> Result<DeleteOffsetsRequest, WireFault>
    ensures { ReadsWhole delete_offsets_request bytes.now result }
{
    read_whole(alloc, bytes)
}

/// Writes the body of a DeleteShareGroupOffsets request.
pub fn write_delete_offsets_request(
    alloc: Global,
    message: &DeleteOffsetsRequest,
) -> Result<Bytes, NoMemory>
    ensures { IfOk result (IsSpelling delete_offsets_request message.now) }
{
    write_whole(alloc, message)
}
