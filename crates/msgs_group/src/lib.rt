//! The messages of share groups in the Kafka protocol (KIP-932): ShareGroupHeartbeat of version 1.
//!
//! Each message is a struct, its schema in `specs/`, and two calls that read and write its body.
#![tactic(auto)]

mod heartbeat_reply;
mod heartbeat_request;
mod optional;

pub use heartbeat_reply::{
    AssignedTopic, Assignment, HeartbeatReply, read_heartbeat_reply, write_heartbeat_reply,
};
pub use heartbeat_request::{HeartbeatRequest, read_heartbeat_request, write_heartbeat_request};
