//! The two disks of a store: which of their journals is live, what a crash leaves of the other one, and how a
//! checkpoint is written to that.
#![tactic(auto)]

mod head;
mod idle;
mod laws;
mod making;
mod mark;
mod snapshots;
mod stands;

pub use idle::close_idle;
pub use laws::{a_seal_comes_last, stores_are_read_one_way, the_next_generation_is_live};
pub use making::{CheckpointFault, write_checkpoint};
pub use mark::{Mark, mark_frame};
pub use snapshots::Snapshots;
pub use stands::{Known, Standing};
