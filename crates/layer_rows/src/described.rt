// The messages of the calls that tell how a queue is, each with its own two calls.
use crate::calls::Message;
use flex_fields::{Bytes, NoMemory, WireFault};
use msgs_admin::{
    DeleteOffsetsReply, DeleteOffsetsRequest, DescribeOffsetsReply, DescribeOffsetsRequest,
    GroupDescribeReply, GroupDescribeRequest, ListGroupsReply, ListGroupsRequest, ListOffsetsReply,
    ListOffsetsRequest, read_delete_offsets_reply, read_delete_offsets_request,
    read_describe_offsets_reply, read_describe_offsets_request, read_group_describe_reply,
    read_group_describe_request, read_list_groups_reply, read_list_groups_request,
    read_list_offsets_reply, read_list_offsets_request, write_delete_offsets_reply,
    write_delete_offsets_request, write_describe_offsets_reply, write_describe_offsets_request,
    write_group_describe_reply, write_group_describe_request, write_list_groups_reply,
    write_list_groups_request, write_list_offsets_reply, write_list_offsets_request,
};
use std::alloc::Global;

impl Message for ListOffsetsRequest {
    fn read(alloc: Global, bytes: &[u8]) -> Result<Self, WireFault> {
        read_list_offsets_request(alloc, bytes)
    }

    fn write(&self, alloc: Global) -> Result<Bytes, NoMemory> {
        write_list_offsets_request(alloc, self)
    }
}

impl Message for ListOffsetsReply {
    fn read(alloc: Global, bytes: &[u8]) -> Result<Self, WireFault> {
        read_list_offsets_reply(alloc, bytes)
    }

    fn write(&self, alloc: Global) -> Result<Bytes, NoMemory> {
        write_list_offsets_reply(alloc, self)
    }
}

impl Message for ListGroupsRequest {
    fn read(alloc: Global, bytes: &[u8]) -> Result<Self, WireFault> {
        read_list_groups_request(alloc, bytes)
    }

    fn write(&self, alloc: Global) -> Result<Bytes, NoMemory> {
        write_list_groups_request(alloc, self)
    }
}

impl Message for ListGroupsReply {
    fn read(alloc: Global, bytes: &[u8]) -> Result<Self, WireFault> {
        read_list_groups_reply(alloc, bytes)
    }

    fn write(&self, alloc: Global) -> Result<Bytes, NoMemory> {
        write_list_groups_reply(alloc, self)
    }
}

impl Message for GroupDescribeRequest {
    fn read(alloc: Global, bytes: &[u8]) -> Result<Self, WireFault> {
        read_group_describe_request(alloc, bytes)
    }

    fn write(&self, alloc: Global) -> Result<Bytes, NoMemory> {
        write_group_describe_request(alloc, self)
    }
}

impl Message for GroupDescribeReply {
    fn read(alloc: Global, bytes: &[u8]) -> Result<Self, WireFault> {
        read_group_describe_reply(alloc, bytes)
    }

    fn write(&self, alloc: Global) -> Result<Bytes, NoMemory> {
        write_group_describe_reply(alloc, self)
    }
}

impl Message for DescribeOffsetsRequest {
    fn read(alloc: Global, bytes: &[u8]) -> Result<Self, WireFault> {
        read_describe_offsets_request(alloc, bytes)
    }

    fn write(&self, alloc: Global) -> Result<Bytes, NoMemory> {
        write_describe_offsets_request(alloc, self)
    }
}

impl Message for DescribeOffsetsReply {
    fn read(alloc: Global, bytes: &[u8]) -> Result<Self, WireFault> {
        read_describe_offsets_reply(alloc, bytes)
    }

    fn write(&self, alloc: Global) -> Result<Bytes, NoMemory> {
        write_describe_offsets_reply(alloc, self)
    }
}

impl Message for DeleteOffsetsRequest {
    fn read(alloc: Global, bytes: &[u8]) -> Result<Self, WireFault> {
        read_delete_offsets_request(alloc, bytes)
    }

    fn write(&self, alloc: Global) -> Result<Bytes, NoMemory> {
        write_delete_offsets_request(alloc, self)
    }
}

impl Message for DeleteOffsetsReply {
    fn read(alloc: Global, bytes: &[u8]) -> Result<Self, WireFault> {
        read_delete_offsets_reply(alloc, bytes)
    }

    fn write(&self, alloc: Global) -> Result<Bytes, NoMemory> {
        write_delete_offsets_reply(alloc, self)
    }
}
