//! Share-partition states by their keys, kept through crashes on the two disks of a store.
#![tactic(auto)]

mod coord;
mod fault;
mod laws;
mod plan;
mod records;
mod refusals;
mod replay;
mod reserved;
mod rows;
mod snapshots;
mod states;
mod store;
mod table;
mod view;
mod walk;

pub use coord::Coord;
pub use coord_checkpoint::{CoordOpen, FaultCounts};
pub use fault::CoordFault;
pub use laws::a_write_stores_one_record;
pub use rows::complete_of;
pub use states::States;
pub use store::Store;
pub use table::Table;
pub use view::{Kept, StateView};
