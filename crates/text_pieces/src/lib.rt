//! Text that is made line by line, and written to a sink in large pieces.
#![tactic(auto)]

mod fault;
mod pieces;

pub use fault::GenFault;
pub use pieces::Pieces;
