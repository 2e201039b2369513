// The numbers of a session's outcomes.
ghost use Rattle.std.specs.Prelude.{◌≡◌, ◌+◌, [], IfOk, string_bytes};
ghost use Rattle.session_script.specs.Summary.{joined, numbers_line, of_one, summary_of};
ghost use Rattle.session_script.specs.Writing.{WritesText};

use crate::event::Outcome;
use crate::writer::{LineFault, write_line};
use edge_io::Sink;
use flex_fields::NoMemory;
use std::alloc::{AllocError, Global};

/// How many outcomes of each kind a session has had.
#[derive(Clone, Copy)]
pub struct Summary {
    /// Replies that were sent.
    pub replies: u64,
    /// Connections that were closed, but those that their clients closed.
    pub closed: u64,
    /// Expiries and releases that couldn't be stored.
    pub faults: u64,
    /// Power losses.
    pub restarts: u64,
}

// One more than a number. A number that doesn't fit is answered as want of memory.
fn one_more(number: u64) -> Result<u64, NoMemory>
    ensures { IfOk result (λ sum. sum ≡ 1 + number) }
{
    match number.checked_add(1) {
        Some(sum) => Ok(sum),
        None => Err(NoMemory),
    }
}

impl Summary {
    /// There were no outcomes.
    pub fn none() -> Summary
        ensures { result ≡ summary_of [] }
    {
        Summary {
            replies: 0,
            closed: 0,
            faults: 0,
            restarts: 0,
        }
    }

    // With one outcome more.
    fn with_one(self, outcome: &Outcome) -> Result<Summary, NoMemory>
        ensures { IfOk result (λ summary. summary ≡ joined (of_one outcome.now) self) }
    {
        match outcome {
            Outcome::Reply { .. } => Ok(Summary {
                replies: one_more(self.replies)?,
                ..self
            }),
            Outcome::Closed { .. } => Ok(Summary {
                closed: one_more(self.closed)?,
                ..self
            }),
            Outcome::Fault { .. } => Ok(Summary {
                faults: one_more(self.faults)?,
                ..self
            }),
            Outcome::Restarted => Ok(Summary {
                restarts: one_more(self.restarts)?,
                ..self
            }),
        }
    }

    /// With these outcomes more. A number of 2^64 is answered as want of memory.
    pub fn with(self, outcomes: &[Outcome]) -> Result<Summary, NoMemory>
        ensures { IfOk result (λ summary. summary ≡ joined self (summary_of outcomes.now)) }
    {
        let Some((outcome, others)) = outcomes.split_first() else {
            return Ok(self);
        };
        match self.with_one(outcome) {
            Ok(summary) => summary.with(others),
            Err(NoMemory) => Err(NoMemory),
        }
    }
}

fn summary_line(alloc: Global, summary: Summary) -> Result<String, AllocError>
    ensures { IfOk result (λ text. string_bytes text ≡ numbers_line summary) }
{
    let Summary {
        replies,
        closed,
        faults,
        restarts,
    } = summary;
    format!(in alloc; "replies {replies} closed {closed} faults {faults} restarts {restarts}\n")
}

/// Writes the line that tells the numbers of a session's outcomes.
pub fn write_summary<O: Sink>(
    alloc: Global,
    summary: Summary,
    output: &mut O,
) -> Result<(), LineFault>
    ensures { WritesText (O.held output.old) (O.held output.new) (O.faults output.old) (O.faults output.new) (numbers_line summary) result }
{
    write_line(summary_line(alloc, summary), output)
}
