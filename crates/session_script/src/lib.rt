//! Recorded sessions as text: events are read from a script, line by line, and outcomes are written as lines.
#![tactic(auto)]

ghost use Rattle.std.specs.Prelude.{List, ℕ};
ghost use Rattle.session_script.specs.Script.{HasOneReading};

mod event;
mod line;
mod putting;
mod reader;
mod summary;
mod telling;
mod word;
mod writer;

pub use event::{Event, Outcome};
pub use putting::put_outcome;
pub use reader::{ScriptFault, ScriptReader, Taken};
pub use summary::{Summary, write_summary};
pub use telling::Telling;
pub use word::number;
pub use writer::{LineFault, write_damaged, write_event, write_malformed, write_outcome};

/// A text is one list of events and one rest, so it is no two scripts, and its first malformed line is one.
pub fn scripts_are_read_one_way()
    ensures { (text : List ℕ) → HasOneReading text }
{}
