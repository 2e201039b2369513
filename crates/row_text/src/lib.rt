//! Worked examples as lines of text: the form that all programs of examples share.
//!
//! A file is read line by line. Empty lines and those that begin with `#` say nothing. `case NAME` begins a case, and
//! `repeat N LINE` is a line N times, where `{#}` stands for 1 in the first one, in sixteen hexadecimal digits, for 2 in
//! the next one, and so on. Each other line is a word and a text, and the program says what it means; in the text
//! `{N*TEXT}` stands for N times TEXT. A case has to check something, and passes where all that it checks holds.
#![tactic(auto)]

mod run;
mod text;

pub use run::{Rows, Taken, run_files};
pub use text::{bytes_of, compared, expanded, shortened, without_blanks};
