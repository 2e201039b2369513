ghost use Rattle.std.specs.Prelude.{IfOk};
ghost use Rattle.flex_fields.specs.Formats.{ReadsWhole, IsSpelling};
ghost use Rattle.msgs_admin.specs.ListGroupsReply.{listed_group, list_groups_reply};

use flex_fields::{
    Bytes, Cursor, Items, NoMemory, Out, Text, Wire, WireFault, put_structure, read_whole,
    take_structure, write_whole,
};
use std::alloc::Global;

/// A group, its state and its type.
#[derive(Debug, Drop)]
pub struct ListedGroup {
    pub group_id: Text,
    pub protocol_type: Text,
    pub group_state: Text,
    pub group_type: Text,
}

/// The groups that were asked for, or an error.
#[derive(Debug, Drop)]
pub struct ListGroupsReply {
    pub throttle_time_ms: i32,
    pub error_code: i16,
    pub groups: Items<ListedGroup>,
}

impl Wire for ListedGroup {
    ghost format = { listed_group };

    #[tactic(auto, unfolding(crate::specs::ListGroupsReply::listed_group))]
    fn take(alloc: Global, cursor: &mut Cursor<'_>) -> Result<Self, WireFault> {
        take_structure!(
            alloc,
            cursor,
            ListedGroup {
                group_id,
                protocol_type,
                group_state,
                group_type
            }
        )
    }

    fn put(&self, out: &mut Out) -> Result<(), NoMemory> {
        put_structure!(
            out,
            self,
            [group_id, protocol_type, group_state, group_type]
        )
    }
}

impl Wire for ListGroupsReply {
    ghost format = { list_groups_reply };

    #[tactic(auto, unfolding(crate::specs::ListGroupsReply::list_groups_reply))]
    fn take(alloc: Global, cursor: &mut Cursor<'_>) -> Result<Self, WireFault> {
        take_structure!(
            alloc,
            cursor,
            ListGroupsReply {
                throttle_time_ms,
                error_code,
                groups
            }
        )
    }

    fn put(&self, out: &mut Out) -> Result<(), NoMemory> {
        put_structure!(out, self, [throttle_time_ms, error_code, groups])
    }
}

/// Reads the body of the reply to ListGroups. Places count from its first byte.
pub fn read_list_groups_reply(alloc: Global, bytes: &[u8]) -> Result<ListGroupsReply, WireFault>
    ensures { ReadsWhole list_groups_reply bytes.now result }
{
    read_whole(alloc, bytes)
}

/// Writes the body of the reply to ListGroups.
pub fn write_list_groups_reply(alloc: Global, message: &ListGroupsReply) -> Result<Bytes, NoMemory>
    ensures { IfOk result (IsSpelling list_groups_reply message.now) }
{
    write_whole(alloc, message)
}
