//! The share-group state calls of the Kafka protocol (KIP-932): Initialize-, Read-, Write- and DeleteShareGroupState.
//!
//! The requests have one form, and so have the replies: what differs is what is said of one partition. Each message
//! has its schema in `specs/`, and two calls that read and write its body.
#![tactic(auto)]

mod delete_request;
mod initialize_request;
mod read_reply;
mod read_request;
mod state_batch;
mod state_message;
mod state_reply;
mod write_request;

pub use delete_request::{
    DeletePartition, DeleteShareGroupStateRequest, read_delete_share_group_state_request,
    write_delete_share_group_state_request,
};
pub use initialize_request::{
    InitializePartition, InitializeShareGroupStateRequest,
    read_initialize_share_group_state_request, write_initialize_share_group_state_request,
};
pub use read_reply::{
    ReadPartitionResult, ReadShareGroupStateReply, read_read_share_group_state_reply,
    write_read_share_group_state_reply,
};
pub use read_request::{
    ReadPartition, ReadShareGroupStateRequest, read_read_share_group_state_request,
    write_read_share_group_state_request,
};
pub use state_batch::StateBatch;
pub use state_message::{StateReply, StateRequest, StateTopic};
pub use state_reply::{
    PartitionResult, ShareGroupStateReply, read_share_group_state_reply,
    write_share_group_state_reply,
};
pub use write_request::{
    WritePartition, WriteShareGroupStateRequest, read_write_share_group_state_request,
    write_write_share_group_state_request,
};
