//! The records of the state journal, as bytes: snapshots, updates and removals of share-partition states, and the head
//! and the seal of a generation.
#![tactic(auto)]

mod fault;
mod fields;
mod laws;
mod lengths;
mod lent;
mod reader;
mod reading;
mod record;
mod writing;

pub use fault::RecordFault;
pub use laws::{faults_are_at_the_first_wrong_field, records_have_one_spelling};
pub use lengths::record_len;
pub use lent::LentState;
pub use reading::read_record;
pub use record::{KeyState, StateRecord};
pub use writing::{write_into, write_record, write_snapshot, write_update};
