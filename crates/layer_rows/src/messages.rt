// Kafka's messages: what each is read as, and written, by its own two calls.
use crate::calls::{Message, MessageAt};
use crate::kinds::{read_told, written_told};
use crate::plain::fault_text;
use flex_fields::Wire;
use msgs_admin::{
    DeleteOffsetsReply, DeleteOffsetsRequest, DescribeOffsetsReply, DescribeOffsetsRequest,
    GroupDescribeReply, GroupDescribeRequest, ListGroupsReply, ListGroupsRequest, ListOffsetsReply,
    ListOffsetsRequest,
};
use msgs_base::{
    ApiVersionsReply, ApiVersionsRequest, DeleteRecordsReply, DeleteRecordsRequest,
    FindCoordinatorReply, FindCoordinatorRequest, MetadataReply, MetadataRequest, ProduceReply,
    ProduceRequest,
};
use msgs_group::{HeartbeatReply, HeartbeatRequest};
use msgs_share::{ShareAckReply, ShareAckRequest, ShareFetchReply, ShareFetchRequest};
use msgs_state::{
    DeleteShareGroupStateRequest, InitializeShareGroupStateRequest, ReadShareGroupStateReply,
    ReadShareGroupStateRequest, ShareGroupStateReply, WriteShareGroupStateRequest,
};
use std::alloc::Global;
use std::fmt::Debug;
use std::io;

/// What a message is read as, and written.
fn told<M: Message + Wire + Debug>(alloc: Global, bytes: &[u8]) -> io::Result<String> {
    match M::read(alloc, bytes) {
        Ok(message) => read_told(alloc, bytes, &message, &message.write(alloc)),
        Err(fault) => fault_text(alloc, &fault),
    }
}

/// Whether some proper front of the bytes is read.
fn is_front_read<M: MessageAt + Drop>(alloc: Global, number: u16, bytes: &[u8]) -> bool {
    for length in 0..bytes.len().min(200) {
        let (front, _) = bytes.split_at(length);
        if M::read_at(alloc, number, front).is_ok() {
            return true;
        }
    }
    false
}

/// The versions in which a message is read and written.
#[derive(Clone, Copy)]
struct Numbers {
    read: u16,
    written: u16,
}

/// The version that stands behind a kind and a `-`, or `N-as-M` where a message is read in the one and written in the
/// other. Without one it is the last that is served.
fn numbers_of(kind: &str, last: u16) -> Numbers {
    let (_, numbers) = kind.split_once('-').unwrap_or((kind, ""));
    let (read, written) = numbers.split_once("-as-").unwrap_or((numbers, numbers));
    Numbers {
        read: read.parse().unwrap_or(last),
        written: written.parse().unwrap_or(last),
    }
}

/// What a message is read as in one of its versions, and written.
fn told_at<M: MessageAt + Debug + Drop>(
    alloc: Global,
    numbers: Numbers,
    bytes: &[u8],
) -> io::Result<String> {
    match M::read_at(alloc, numbers.read, bytes) {
        Ok(message) => {
            let written = message.write_at(alloc, numbers.written);
            let front = is_front_read::<M>(alloc, numbers.read, bytes);
            written_told(alloc, bytes, &message, &written, front)
        }
        Err(fault) => fault_text(alloc, &fault),
    }
}

/// What bytes are as a message of several versions, or as one of those below.
fn versioned_told(alloc: Global, kind: &str, bytes: &[u8]) -> io::Result<Option<String>> {
    let (name, _) = kind.split_once('-').unwrap_or((kind, ""));
    let text = match name {
        "ApiVersionsResponse" => { told_at::<ApiVersionsReply>(alloc, numbers_of(kind, 3), bytes) }
        "MetadataRequest" => told_at::<MetadataRequest>(alloc, numbers_of(kind, 12), bytes),
        "MetadataResponse" => told_at::<MetadataReply>(alloc, numbers_of(kind, 12), bytes),
        "ProduceRequest" => told_at::<ProduceRequest>(alloc, numbers_of(kind, 9), bytes),
        "ProduceResponse" => told_at::<ProduceReply>(alloc, numbers_of(kind, 9), bytes),
        _ => return state_told(alloc, kind, bytes),
    };
    Ok(Some(text?))
}

/// What bytes are as a message of a client's first calls, of a producer or of an operator, or as one of those below.
/// `None` where there is no such kind.
pub fn client_told(alloc: Global, kind: &str, bytes: &[u8]) -> io::Result<Option<String>> {
    let text = match kind {
        "ApiVersionsRequest" => told::<ApiVersionsRequest>(alloc, bytes),
        "FindCoordinatorRequest" => told::<FindCoordinatorRequest>(alloc, bytes),
        "FindCoordinatorResponse" => told::<FindCoordinatorReply>(alloc, bytes),
        "DeleteRecordsRequest" => told::<DeleteRecordsRequest>(alloc, bytes),
        "DeleteRecordsResponse" => told::<DeleteRecordsReply>(alloc, bytes),
        _ => return versioned_told(alloc, kind, bytes),
    };
    Ok(Some(text?))
}

/// What bytes are as a message of a state call, or of a share consumer.
fn state_told(alloc: Global, kind: &str, bytes: &[u8]) -> io::Result<Option<String>> {
    let text = match kind {
        "InitializeShareGroupStateRequest" => {
            told::<InitializeShareGroupStateRequest>(alloc, bytes)
        }
        "InitializeShareGroupStateResponse" => told::<ShareGroupStateReply>(alloc, bytes),
        "ReadShareGroupStateRequest" => told::<ReadShareGroupStateRequest>(alloc, bytes),
        "ReadShareGroupStateResponse" => told::<ReadShareGroupStateReply>(alloc, bytes),
        "WriteShareGroupStateRequest" => told::<WriteShareGroupStateRequest>(alloc, bytes),
        "DeleteShareGroupStateRequest" => told::<DeleteShareGroupStateRequest>(alloc, bytes),
        _ => return share_told(alloc, kind, bytes),
    };
    Ok(Some(text?))
}

/// What bytes are as a message of a share consumer.
fn share_told(alloc: Global, kind: &str, bytes: &[u8]) -> io::Result<Option<String>> {
    let text = match kind {
        "ShareFetchRequest" => told::<ShareFetchRequest>(alloc, bytes),
        "ShareFetchResponse" => told::<ShareFetchReply>(alloc, bytes),
        "ShareAcknowledgeRequest" => told::<ShareAckRequest>(alloc, bytes),
        "ShareAcknowledgeResponse" => told::<ShareAckReply>(alloc, bytes),
        "ShareGroupHeartbeatRequest" => told::<HeartbeatRequest>(alloc, bytes),
        "ShareGroupHeartbeatResponse" => told::<HeartbeatReply>(alloc, bytes),
        _ => return describe_told(alloc, kind, bytes),
    };
    Ok(Some(text?))
}

/// What bytes are as a message of a call that tells how a queue is, or that gives a group's place up.
fn describe_told(alloc: Global, kind: &str, bytes: &[u8]) -> io::Result<Option<String>> {
    let text = match kind {
        "ListOffsetsRequest" => told::<ListOffsetsRequest>(alloc, bytes),
        "ListOffsetsResponse" => told::<ListOffsetsReply>(alloc, bytes),
        "ListGroupsRequest" => told::<ListGroupsRequest>(alloc, bytes),
        "ListGroupsResponse" => told::<ListGroupsReply>(alloc, bytes),
        "ShareGroupDescribeRequest" => told::<GroupDescribeRequest>(alloc, bytes),
        "ShareGroupDescribeResponse" => told::<GroupDescribeReply>(alloc, bytes),
        "DescribeShareGroupOffsetsRequest" => told::<DescribeOffsetsRequest>(alloc, bytes),
        "DescribeShareGroupOffsetsResponse" => told::<DescribeOffsetsReply>(alloc, bytes),
        "DeleteShareGroupOffsetsRequest" => told::<DeleteOffsetsRequest>(alloc, bytes),
        "DeleteShareGroupOffsetsResponse" => told::<DeleteOffsetsReply>(alloc, bytes),
        _ => return Ok(None),
    };
    Ok(Some(text?))
}
