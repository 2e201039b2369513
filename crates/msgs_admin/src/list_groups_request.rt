ghost use Rattle.std.specs.Prelude.{IfOk};
ghost use Rattle.flex_fields.specs.Formats.{ReadsWhole, IsSpelling};
ghost use Rattle.msgs_admin.specs.ListGroupsRequest.{list_groups_request};

use flex_fields::{
    Bytes, Cursor, Items, NoMemory, Out, Text, Wire, WireFault, put_structure, read_whole,
    take_structure, write_whole,
};
use std::alloc::Global;

/// Asks for the groups of these states and of these types. No state stands for each state, and no type for each type.
#[derive(Debug, Drop)]
pub struct ListGroupsRequest {
    pub states_filter: Items<Text>,
    pub types_filter: Items<Text>,
}

impl Wire for ListGroupsRequest {
    ghost format = { list_groups_request };

    #[tactic(auto, unfolding(crate::specs::ListGroupsRequest::list_groups_request))]
    fn take(alloc: Global, cursor: &mut Cursor<'_>) -> Result<Self, WireFault> {
        take_structure!(
            alloc,
            cursor,
            ListGroupsRequest {
                states_filter,
                types_filter
            }
        )
    }

    fn put(&self, out: &mut Out) -> Result<(), NoMemory> {
        put_structure!(out, self, [states_filter, types_filter])
    }
}

/// Reads the body of a ListGroups request. Places count from its first byte.
pub fn read_list_groups_request(alloc: Global, bytes: &[u8]) -> Result<ListGroupsRequest, WireFault>
    ensures { ReadsWhole list_groups_request bytes.now result }
{
    read_whole(alloc, bytes)
}

/// Writes the body of a ListGroups request.
pub fn write_list_groups_request(
    alloc: Global,
    message: &ListGroupsRequest,
) -> Result<Bytes, NoMemory>
    ensures { IfOk result (IsSpelling list_groups_request message.now) }
{
    write_whole(alloc, message)
}
