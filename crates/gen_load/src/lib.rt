//! A large script from a number: a session of a producer and two share consumers, as long as is wanted.
#![tactic(auto)]

mod counts;
mod lines;
mod messages;
mod records;
mod script;
mod write;

pub use text_pieces::GenFault;
pub use write::write_script;
