//! The broker as a server runs it: the connection of a link that a thread serves through its passes of the locks around
//! all shards, and the jobs of a server, among which links are handed out.
#![tactic(auto)]

mod connection;
mod desk;
mod jobs;
mod naming;
mod owned;
mod server;
mod worker;

pub use connection::{Ended, serve_connection};
pub use jobs::{LinksEnd, serve_links};
pub use naming::{Handed, Named, Naming};
pub use owned::{JobOwned, JobShared};
pub use server::{Served, serve};
