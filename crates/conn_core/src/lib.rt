//! One connection of a broker: frames from a stream of bytes in any pieces, the parts that a request asks of the
//! shards, and the replies that are composed from their answers.
#![tactic(auto)]

mod api;
mod begun;
mod conn;
mod coordinators;
mod hand;
mod judge;
mod kept;
mod law;
mod metadata;
mod next;
mod request;
mod sending;
mod stream;
mod versions;
mod work;

pub use call_fold::{Looked, Part, PartAnswer, Produced};
pub use conn::Conn;
pub use law::{
    connections_ask_hosted_shards, connections_depend_on_the_stream,
    connections_wait_before_the_first_answer, each_request_is_taken_for_what_it_says,
    requests_keep_to_their_talk,
};
pub use next::Next;
pub use share_calls::{ShardList, WaitWish};
