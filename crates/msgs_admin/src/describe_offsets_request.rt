ghost use Rattle.std.specs.Prelude.{IfOk};
ghost use Rattle.flex_fields.specs.Formats.{ReadsWhole, IsSpelling};
ghost use Rattle.msgs_admin.specs.DescribeOffsetsRequest.{asked_group, describe_offsets_request};

use crate::named_topic::NamedTopic;
use flex_fields::{
    Bytes, Cursor, Items, NoMemory, Out, Text, Wire, WireFault, put_structure, read_whole,
    take_structure, write_whole,
};
use std::alloc::Global;

/// A group, and the partitions of which it is asked how far the group has come. Null topics are all that it has.
#[derive(Debug, Drop)]
pub struct AskedGroup {
    pub group_id: Text,
    pub topics: Option<Items<NamedTopic<i32>>>,
}

/// Asks how far share groups have come.
#[derive(Debug, Drop)]
pub struct DescribeOffsetsRequest {
    pub groups: Items<AskedGroup>,
}

impl Wire for AskedGroup {
    ghost format = { asked_group };

    #[tactic(auto, unfolding(crate::specs::DescribeOffsetsRequest::asked_group))]
    fn take(alloc: Global, cursor: &mut Cursor<'_>) -> Result<Self, WireFault> {
        take_structure!(alloc, cursor, AskedGroup { group_id, topics })
    }

    fn put(&self, out: &mut Out) -> Result<(), NoMemory> {
        put_structure!(out, self, [group_id, topics])
    }
}

impl Wire for DescribeOffsetsRequest {
    ghost format = { describe_offsets_request };

    #[tactic(auto, unfolding(crate::specs::DescribeOffsetsRequest::describe_offsets_request))]
    fn take(alloc: Global, cursor: &mut Cursor<'_>) -> Result<Self, WireFault> {
        take_structure!(alloc, cursor, DescribeOffsetsRequest { groups })
    }

    fn put(&self, out: &mut Out) -> Result<(), NoMemory> {
        put_structure!(out, self, [groups])
    }
}

/// Reads the body of a DescribeShareGroupOffsets request. Places count from its first byte.
pub fn read_describe_offsets_request(
    alloc: Global,
    bytes: &[u8],
) -> Result<DescribeOffsetsRequest, WireFault>
    ensures { ReadsWhole describe_offsets_request bytes.now result }
{
    read_whole(alloc, bytes)
}

/// Writes the body of a DescribeShareGroupOffsets request.
pub fn write_describe_offsets_request(
    alloc: Global,
    message: &DescribeOffsetsRequest,
) -> Result<Bytes, NoMemory>
    ensures { IfOk result (IsSpelling describe_offsets_request message.now) }
{
    write_whole(alloc, message)
}
