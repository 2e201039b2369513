//! Rows by offset, kept as runs.
#![tactic(auto)]

mod change;
mod complete;
mod joining;
mod overlay;
mod parts;
mod runs;
mod search;
mod shift;

pub use complete::complete_rows_are_counted_by_offsets;
pub use joining::touches;
pub use runs::Runs;
