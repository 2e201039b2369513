ghost use Rattle.std.specs.Prelude.{IfOk};
ghost use Rattle.flex_fields.specs.Formats.{ReadsWhole, IsSpelling};
ghost use Rattle.msgs_admin.specs.DeleteOffsetsReply.{deleted_topic, delete_offsets_reply};

use flex_fields::{
    Bytes, Cursor, Items, NoMemory, Out, Text, Wire, WireFault, put_structure, read_whole,
    take_structure, write_whole,
};
use std::alloc::Global;
use uuid::Uuid;

/// A topic of which a group has forgotten how far it had come, or an error.
#[derive(Debug, Drop)]
pub struct DeletedTopic {
    pub topic_name: Text,
    pub topic_id: Uuid,
    pub error_code: i16,
    pub error_message: Option<Text>,
}

/// The topics that a group has forgotten, or an error.
#[derive(Debug, Drop)]
pub struct DeleteOffsetsReply {
    pub throttle_time_ms: i32,
    pub error_code: i16,
    pub error_message: Option<Text>,
    pub responses: Items<DeletedTopic>,
}

impl Wire for DeletedTopic {
    ghost format = { deleted_topic };

    #[tactic(auto, unfolding(crate::specs::DeleteOffsetsReply::deleted_topic))]
    fn take(alloc: Global, cursor: &mut Cursor<'_>) -> Result<Self, WireFault> {
        take_structure!(
            alloc,
            cursor,
            DeletedTopic {
                topic_name,
                topic_id,
                error_code,
                error_message
            }
        )
    }

    fn put(&self, out: &mut Out) -> Result<(), NoMemory> {
        put_structure!(out, self, [topic_name, topic_id, error_code, error_message])
    }
}

impl Wire for DeleteOffsetsReply {
    ghost format = { delete_offsets_reply };

    #[tactic(auto, unfolding(crate::specs::DeleteOffsetsReply::delete_offsets_reply))]
    fn take(alloc: Global, cursor: &mut Cursor<'_>) -> Result<Self, WireFault> {
        take_structure!(
            alloc,
            cursor,
            DeleteOffsetsReply {
                throttle_time_ms,
                error_code,
                error_message,
                responses
            }
        )
    }

    fn put(&self, out: &mut Out) -> Result<(), NoMemory> {
        put_structure!(
            out,
            self,
            [throttle_time_ms, error_code, error_message, responses]
        )
    }
}

/// Reads the body of the reply to DeleteShareGroupOffsets. Places count from its first byte.
pub fn read_delete_offsets_reply(
    alloc: Global,
    bytes: &[u8],
) -> Result<DeleteOffsetsReply, WireFault>
    ensures { ReadsWhole delete_offsets_reply bytes.now result }
{
    read_whole(alloc, bytes)
}

/// Writes the body of the reply to DeleteShareGroupOffsets.
pub fn write_delete_offsets_reply(
    alloc: Global,
    message: &DeleteOffsetsReply,
) -> Result<Bytes, NoMemory>
    ensures { IfOk result (IsSpelling delete_offsets_reply message.now) }
{
    write_whole(alloc, message)
}
