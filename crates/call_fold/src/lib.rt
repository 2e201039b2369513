//! A request in hand as a fold over its entries: which part a shard has to do next, and the reply that its answers
//! make. Each call of a connection is an instance of it.
#![tactic(auto)]

mod call;
mod law;
mod part;
mod rows;

pub use call::{Asking, Call, Entry, Stage, go_on, known_rows, part_of, take};
pub use law::each_row_is_of_its_own_entry;
pub use part::{Looked, Part, PartAnswer, Produced};
pub use rows::next_rows;
