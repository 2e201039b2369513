//! A share consumer as a pure machine: what it is to send, to write and to wait for, from the replies that it is given.
//!
//! It has two links, one for heartbeats and one for fetches. The first is built; of the second it is built what a reply
//! says ([`read_fetch`]). It knows no sockets and no clock: it is told the moment, the replies, and which link was lost.
#![tactic(auto)]

mod batches;
mod client;
mod conf;
mod covers;
mod data_link;
mod fault;
mod fetch_reply;
mod fetched;
mod frame;
mod grants;
mod group;
mod items;
mod judge;
mod laws;
mod located;
mod page;
mod partitions;
mod reader;
mod step;

pub use client::ClientCore;
pub use conf::ClientConf;
pub use fault::ClientFault;
pub use fetch_reply::read_fetch;
pub use fetched::{LocatedFetch, LocatedPartition};
pub use laws::{a_reply_tells_one_thing, places_change_nothing};
pub use located::{Locate, Located, LocatedRecords};
pub use step::{ClientStep, LinkKind, Took};
