//! The list of frames that a store keeps on its two disks, through crashes.
#![tactic(auto)]

mod fault;
mod journal;
mod opening;
mod step;
mod visit;

pub use checkpoint_journal::Snapshots;
pub use fault::CoordOpen;
pub use journal::{FaultCounts, StateJournal};
pub use opening::open;
pub use step::Appended;
pub use visit::StateVisit;
