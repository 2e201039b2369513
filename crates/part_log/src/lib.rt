//! The log of a partition on a disk: a list of record batches through crashes, and a start, below which its records
//! are deleted. The batches are found by an index in memory, and their bytes are read from the disk.
#![tactic(auto)]

mod entry;
mod fault;
mod laws;
mod log;
mod reading;

pub use fault::OpenFault;
pub use laws::{
    a_frame_is_one_batch, a_log_is_its_batches_and_its_last_mark, log_text_is_read_one_way,
};
pub use log::PartLog;
pub use share_model::{BatchPlace, BatchRead};
