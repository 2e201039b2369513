//! The batches of a log by offset, without their bytes: for each its offsets, its size and the place of its frame on
//! the disk. The bytes are read from the journal, and those that were read last are kept.
#![tactic(auto)]

mod cache;
mod entry;
mod index;
mod search;

pub use entry::Entry;
pub use index::LogIndex;
