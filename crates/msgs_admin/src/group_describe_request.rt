ghost use Rattle.std.specs.Prelude.{IfOk};
ghost use Rattle.flex_fields.specs.Formats.{ReadsWhole, IsSpelling};
ghost use Rattle.msgs_admin.specs.GroupDescribeRequest.{group_describe_request};

use flex_fields::{
    Bytes, Cursor, Items, NoMemory, Out, Text, Wire, WireFault, put_structure, read_whole,
    take_structure, write_whole,
};
use std::alloc::Global;

/// Asks who is a member of share groups.
#[derive(Debug, Drop)]
pub struct GroupDescribeRequest {
    pub group_ids: Items<Text>,
    pub include_authorized_operations: bool,
}

impl Wire for GroupDescribeRequest {
    ghost format = { group_describe_request };

    #[tactic(auto, unfolding(crate::specs::GroupDescribeRequest::group_describe_request))]
    fn take(alloc: Global, cursor: &mut Cursor<'_>) -> Result<Self, WireFault> {
        take_structure!(
            alloc,
            cursor,
            GroupDescribeRequest {
                group_ids,
                include_authorized_operations
            }
        )
    }

    fn put(&self, out: &mut Out) -> Result<(), NoMemory> {
        put_structure!(out, self, [group_ids, include_authorized_operations])
    }
}

/// Reads the body of a ShareGroupDescribe request. Places count from its first byte.
pub fn read_group_describe_request(
    alloc: Global,
    bytes: &[u8],
) -> Result<GroupDescribeRequest, WireFault>
    ensures { ReadsWhole group_describe_request bytes.now result }
{
    read_whole(alloc, bytes)
}

/// Writes the body of a ShareGroupDescribe request.
pub fn write_group_describe_request(
    alloc: Global,
    message: &GroupDescribeRequest,
) -> Result<Bytes, NoMemory>
    ensures { IfOk result (IsSpelling group_describe_request message.now) }
{
    write_whole(alloc, message)
}
