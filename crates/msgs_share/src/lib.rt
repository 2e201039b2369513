//! The messages of share consumers in the Kafka protocol (KIP-932): ShareFetch and ShareAcknowledge, version 1 each.
//!
//! Each message is a struct, its schema in `specs/`, and two calls that read and write its body. Topics stand in one
//! form in all of them. A read copies the record batches once, from the bytes into the message, and a write once,
//! from the message into the bytes.
#![tactic(auto)]

mod nodes;
mod records;
mod share_ack_reply;
mod share_ack_request;
mod share_fetch_reply;
mod share_fetch_request;
mod share_topic;

pub use nodes::{CurrentLeader, NodeEndpoint};
pub use records::Records;
pub use share_ack_reply::{
    AcknowledgedPartition, ShareAckReply, read_share_ack_reply, write_share_ack_reply,
};
pub use share_ack_request::{ShareAckRequest, read_share_ack_request, write_share_ack_request};
pub use share_fetch_reply::{
    AcquiredRecords, FetchedPartition, ShareFetchReply, read_share_fetch_reply,
    write_share_fetch_reply,
};
pub use share_fetch_request::{
    ShareFetchRequest, read_share_fetch_request, write_share_fetch_request,
};
pub use share_topic::{AcknowledgementBatch, SharePartition, ShareTopic};
