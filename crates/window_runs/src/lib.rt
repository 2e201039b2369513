//! The records of a share partition that are acquired, kept as runs: offsets that follow one another and are held in
//! one way cost one entry.
#![tactic(auto)]

mod edit;
mod put;
mod range;
mod runs;
mod search;

pub use runs::WindowRuns;
