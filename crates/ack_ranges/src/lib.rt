//! Acknowledgement batches: whether they are well formed, and the runs of offsets of which they say one thing.
#![tactic(auto)]

mod judge;
mod laws;
mod piece;
mod walk;

pub use judge::check;
pub use laws::{batches_have_one_first_fault, batches_have_one_list_of_pieces};
pub use piece::Piece;
pub use walk::Pieces;
