//! Sources, sinks, disks, bays, clocks, links and listeners in memory, whose contracts tell all that they hold and
//! when they fail.
//!
//! They stand in for files and connections wherever a run is to be repeated: in recorded sessions, in tests, and in
//! every statement that speaks of bytes.
#![tactic(auto)]

mod bay;
mod change;
mod clock;
mod content;
mod disk;
mod faulty;
mod history;
mod link;
mod listener;
mod numbered;
mod sink;
mod source;
mod spawner;

pub use bay::{MemBay, Slot};
pub use clock::MemClock;
pub use disk::MemDisk;
pub use link::MemLink;
pub use listener::MemListener;
pub use sink::MemSink;
pub use source::MemSource;
pub use spawner::FailingSpawner;
