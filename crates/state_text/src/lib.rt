//! The stored tables of share groups as text: a line for each table or key, and one for each run of its rows.
#![tactic(auto)]

mod lines;
mod write;

pub use text_pieces::GenFault;
pub use write::{write_foreign, write_table};
