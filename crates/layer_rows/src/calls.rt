// Each message with its own two calls, which read and write its whole body.
use flex_fields::{Bytes, NoMemory, WireFault};
use msgs_base::{
    ApiVersionsReply, ApiVersionsRequest, DeleteRecordsReply, DeleteRecordsRequest,
    FindCoordinatorReply, FindCoordinatorRequest, MetadataReply, MetadataRequest, ProduceReply,
    ProduceRequest, api_versions_version, metadata_version, produce_version,
    read_api_versions_reply, read_api_versions_request, read_delete_records_reply,
    read_delete_records_request, read_find_coordinator_reply, read_find_coordinator_request,
    read_metadata_reply, read_metadata_request, read_produce_reply, read_produce_request,
    write_api_versions_reply, write_api_versions_request, write_delete_records_reply,
    write_delete_records_request, write_find_coordinator_reply, write_find_coordinator_request,
    write_metadata_reply, write_metadata_request, write_produce_reply, write_produce_request,
};
use msgs_group::{
    HeartbeatReply, HeartbeatRequest, read_heartbeat_reply, read_heartbeat_request,
    write_heartbeat_reply, write_heartbeat_request,
};
use msgs_share::{
    ShareAckReply, ShareAckRequest, ShareFetchReply, ShareFetchRequest, read_share_ack_reply,
    read_share_ack_request, read_share_fetch_reply, read_share_fetch_request,
    write_share_ack_reply, write_share_ack_request, write_share_fetch_reply,
    write_share_fetch_request,
};
use msgs_state::{
    DeleteShareGroupStateRequest, InitializeShareGroupStateRequest, ReadShareGroupStateReply,
    ReadShareGroupStateRequest, ShareGroupStateReply, WriteShareGroupStateRequest,
    read_delete_share_group_state_request, read_initialize_share_group_state_request,
    read_read_share_group_state_reply, read_read_share_group_state_request,
    read_share_group_state_reply, read_write_share_group_state_request,
    write_delete_share_group_state_request, write_initialize_share_group_state_request,
    write_read_share_group_state_reply, write_read_share_group_state_request,
    write_share_group_state_reply, write_write_share_group_state_request,
};
use std::alloc::Global;

/// A message that is read and written by calls of its own.
pub trait Message: Sized {
    /// Reads the whole of the bytes.
    fn read(alloc: Global, bytes: &[u8]) -> Result<Self, WireFault>;

    /// Its bytes.
    fn write(&self, alloc: Global) -> Result<Bytes, NoMemory>;
}

/// A message of several versions, which is read and written by calls of its own.
pub trait MessageAt: Sized {
    /// Reads the whole of the bytes in the version of this number.
    fn read_at(alloc: Global, number: u16, bytes: &[u8]) -> Result<Self, WireFault>;

    /// Its bytes in the version of this number.
    fn write_at(&self, alloc: Global, number: u16) -> Result<Bytes, NoMemory>;
}

impl Message for ApiVersionsRequest {
    fn read(alloc: Global, bytes: &[u8]) -> Result<Self, WireFault> {
        read_api_versions_request(alloc, bytes)
    }

    fn write(&self, alloc: Global) -> Result<Bytes, NoMemory> {
        write_api_versions_request(alloc, self)
    }
}

impl MessageAt for ApiVersionsReply {
    fn read_at(alloc: Global, number: u16, bytes: &[u8]) -> Result<Self, WireFault> {
        read_api_versions_reply(alloc, api_versions_version(number), bytes)
    }

    fn write_at(&self, alloc: Global, number: u16) -> Result<Bytes, NoMemory> {
        write_api_versions_reply(alloc, api_versions_version(number), self)
    }
}

impl MessageAt for MetadataRequest {
    fn read_at(alloc: Global, number: u16, bytes: &[u8]) -> Result<Self, WireFault> {
        read_metadata_request(alloc, metadata_version(number), bytes)
    }

    fn write_at(&self, alloc: Global, number: u16) -> Result<Bytes, NoMemory> {
        write_metadata_request(alloc, metadata_version(number), self)
    }
}

impl MessageAt for MetadataReply {
    fn read_at(alloc: Global, number: u16, bytes: &[u8]) -> Result<Self, WireFault> {
        read_metadata_reply(alloc, metadata_version(number), bytes)
    }

    fn write_at(&self, alloc: Global, number: u16) -> Result<Bytes, NoMemory> {
        write_metadata_reply(alloc, metadata_version(number), self)
    }
}

impl Message for FindCoordinatorRequest {
    fn read(alloc: Global, bytes: &[u8]) -> Result<Self, WireFault> {
        read_find_coordinator_request(alloc, bytes)
    }

    fn write(&self, alloc: Global) -> Result<Bytes, NoMemory> {
        write_find_coordinator_request(alloc, self)
    }
}

impl Message for FindCoordinatorReply {
    fn read(alloc: Global, bytes: &[u8]) -> Result<Self, WireFault> {
        read_find_coordinator_reply(alloc, bytes)
    }

    fn write(&self, alloc: Global) -> Result<Bytes, NoMemory> {
        write_find_coordinator_reply(alloc, self)
    }
}

impl MessageAt for ProduceRequest {
    fn read_at(alloc: Global, number: u16, bytes: &[u8]) -> Result<Self, WireFault> {
        read_produce_request(alloc, produce_version(number), bytes)
    }

    fn write_at(&self, alloc: Global, number: u16) -> Result<Bytes, NoMemory> {
        write_produce_request(alloc, produce_version(number), self)
    }
}

impl MessageAt for ProduceReply {
    fn read_at(alloc: Global, number: u16, bytes: &[u8]) -> Result<Self, WireFault> {
        read_produce_reply(alloc, produce_version(number), bytes)
    }

    fn write_at(&self, alloc: Global, number: u16) -> Result<Bytes, NoMemory> {
        write_produce_reply(alloc, produce_version(number), self)
    }
}

impl Message for DeleteRecordsRequest {
    fn read(alloc: Global, bytes: &[u8]) -> Result<Self, WireFault> {
        read_delete_records_request(alloc, bytes)
    }

    fn write(&self, alloc: Global) -> Result<Bytes, NoMemory> {
        write_delete_records_request(alloc, self)
    }
}

impl Message for DeleteRecordsReply {
    fn read(alloc: Global, bytes: &[u8]) -> Result<Self, WireFault> {
        read_delete_records_reply(alloc, bytes)
    }

    fn write(&self, alloc: Global) -> Result<Bytes, NoMemory> {
        write_delete_records_reply(alloc, self)
    }
}

impl Message for HeartbeatRequest {
    fn read(alloc: Global, bytes: &[u8]) -> Result<Self, WireFault> {
        read_heartbeat_request(alloc, bytes)
    }

    fn write(&self, alloc: Global) -> Result<Bytes, NoMemory> {
        write_heartbeat_request(alloc, self)
    }
}

impl Message for HeartbeatReply {
    fn read(alloc: Global, bytes: &[u8]) -> Result<Self, WireFault> {
        read_heartbeat_reply(alloc, bytes)
    }

    fn write(&self, alloc: Global) -> Result<Bytes, NoMemory> {
        write_heartbeat_reply(alloc, self)
    }
}

impl Message for ShareFetchRequest {
    fn read(alloc: Global, bytes: &[u8]) -> Result<Self, WireFault> {
        read_share_fetch_request(alloc, bytes)
    }

    fn write(&self, alloc: Global) -> Result<Bytes, NoMemory> {
        write_share_fetch_request(alloc, self)
    }
}

impl Message for ShareFetchReply {
    fn read(alloc: Global, bytes: &[u8]) -> Result<Self, WireFault> {
        read_share_fetch_reply(alloc, bytes)
    }

    fn write(&self, alloc: Global) -> Result<Bytes, NoMemory> {
        write_share_fetch_reply(alloc, self)
    }
}

impl Message for ShareAckRequest {
    fn read(alloc: Global, bytes: &[u8]) -> Result<Self, WireFault> {
        read_share_ack_request(alloc, bytes)
    }

    fn write(&self, alloc: Global) -> Result<Bytes, NoMemory> {
        write_share_ack_request(alloc, self)
    }
}

impl Message for ShareAckReply {
    fn read(alloc: Global, bytes: &[u8]) -> Result<Self, WireFault> {
        read_share_ack_reply(alloc, bytes)
    }

    fn write(&self, alloc: Global) -> Result<Bytes, NoMemory> {
        write_share_ack_reply(alloc, self)
    }
}

impl Message for InitializeShareGroupStateRequest {
    fn read(alloc: Global, bytes: &[u8]) -> Result<Self, WireFault> {
        read_initialize_share_group_state_request(alloc, bytes)
    }

    fn write(&self, alloc: Global) -> Result<Bytes, NoMemory> {
        write_initialize_share_group_state_request(alloc, self)
    }
}

impl Message for ShareGroupStateReply {
    fn read(alloc: Global, bytes: &[u8]) -> Result<Self, WireFault> {
        read_share_group_state_reply(alloc, bytes)
    }

    fn write(&self, alloc: Global) -> Result<Bytes, NoMemory> {
        write_share_group_state_reply(alloc, self)
    }
}

impl Message for ReadShareGroupStateRequest {
    fn read(alloc: Global, bytes: &[u8]) -> Result<Self, WireFault> {
        read_read_share_group_state_request(alloc, bytes)
    }

    fn write(&self, alloc: Global) -> Result<Bytes, NoMemory> {
        write_read_share_group_state_request(alloc, self)
    }
}

impl Message for ReadShareGroupStateReply {
    fn read(alloc: Global, bytes: &[u8]) -> Result<Self, WireFault> {
        read_read_share_group_state_reply(alloc, bytes)
    }

    fn write(&self, alloc: Global) -> Result<Bytes, NoMemory> {
        write_read_share_group_state_reply(alloc, self)
    }
}

impl Message for WriteShareGroupStateRequest {
    fn read(alloc: Global, bytes: &[u8]) -> Result<Self, WireFault> {
        read_write_share_group_state_request(alloc, bytes)
    }

    fn write(&self, alloc: Global) -> Result<Bytes, NoMemory> {
        write_write_share_group_state_request(alloc, self)
    }
}

impl Message for DeleteShareGroupStateRequest {
    fn read(alloc: Global, bytes: &[u8]) -> Result<Self, WireFault> {
        read_delete_share_group_state_request(alloc, bytes)
    }

    fn write(&self, alloc: Global) -> Result<Bytes, NoMemory> {
        write_delete_share_group_state_request(alloc, self)
    }
}
