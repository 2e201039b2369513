//! The headers of Kafka requests and replies.
#![tactic(auto)]

mod client;
mod head;
mod parts;

pub use head::{RequestHead, read_head, read_reply_head, write_head, write_reply_head};
pub use parts::{take_head_rest, take_head_start};
