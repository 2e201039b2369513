//! What the broker meets outside itself, as traits: byte sources and sinks, disks, and bays of disks; and for a
//! server links and where they come from, clocks, and what starts its workers.
//!
//! Each trait keeps a count of its faults that never falls. A call answers [`Failed`] only where the count of what it
//! was handed rose in that call, so an error always has a cause outside.
#![tactic(auto)]

mod bay;
mod closing;
mod copying;
mod disk;
mod fault;
mod link;
mod name;
mod serving;
mod spawner;
mod streams;
mod topic;

pub use bay::Bay;
pub use closing::CloseReason;
pub use copying::{ReadError, read_to_end, write_all};
pub use disk::Disk;
pub use fault::{Armed, FaultMode};
pub use link::{Link, send_all};
pub use name::{DiskName, DiskPlace, MAX_PARTITIONS};
pub use serving::{Clock, Gate, GatePlace, Listener, NoGate};
pub use spawner::{Spawner, start};
pub use streams::{Failed, Sink, Source};
pub use topic::is_topic_name;
