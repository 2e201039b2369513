// The lines of outcomes, behind a text that waits to be written.
ghost use Rattle.std.specs.Prelude.{◌≡◌, ◌++◌, [], IfOk, List, ℕ, OnErr, OnOk, string_bytes};
ghost use Rattle.flex_fields.specs.Formats.{StartsWith};
ghost use Rattle.session_script.specs.Output.{IsTold, outcome_line};
ghost use Rattle.session_script.specs.declared.event.Outcome.TheVariants.{Reply};

use crate::event::Outcome;
use crate::writer::outcome_line;
use flex_fields::NoMemory;
use std::alloc::{AllocError, Global};
use text_pieces::Pieces;
use topic_conf::Config;

// The line of a reply, piece by piece.
fn put_reply(text: &mut Pieces, conn: u32, frame: &[u8]) -> Result<(), NoMemory>
    ensures ok { OnOk result (text.new ≡ text.old ++ outcome_line [] (Reply conn frame.now)) }
    ensures err { OnErr result (StartsWith text.old text.new) }
{
    text.put("reply ")?;
    text.put_number(u64::from(conn))?;
    text.put(" ")?;
    text.put_hex(frame)?;
    text.put("\n")
}

// A line, where it was made.
fn put_line(text: &mut Pieces, line: Result<String, AllocError>) -> Result<(), NoMemory>
    ensures ok { (bytes : List ℕ) → IfOk line (λ made. string_bytes made ≡ bytes) → OnOk result (text.new ≡ text.old ++ bytes) }
    ensures err { OnErr result (text.new ≡ text.old) }
{
    match line {
        Ok(line) => text.put(&line),
        Err(_) => Err(NoMemory),
    }
}

fn put_whole(
    alloc: Global,
    text: &mut Pieces,
    outcome: &Outcome,
    conf: &Config,
) -> Result<(), NoMemory>
    requires { IsTold conf.now.topics outcome.now }
    ensures ok { OnOk result (text.new ≡ text.old ++ outcome_line conf.now.topics outcome.now) }
    ensures err { OnErr result (StartsWith text.old text.new) }
{
    if let Outcome::Reply { conn, frame } = outcome {
        return put_reply(text, *conn, frame.as_slice());
    }
    put_line(text, outcome_line(alloc, outcome, conf))
}

/// Adds the line of an outcome to a text that waits. The configuration tells the name of the partition that a fault
/// is of.
///
/// After want of memory the text is as it was.
pub fn put_outcome(
    alloc: Global,
    text: &mut Pieces,
    outcome: &Outcome,
    conf: &Config,
) -> Result<(), NoMemory>
    requires { IsTold conf.now.topics outcome.now }
    ensures ok { OnOk result (text.new ≡ text.old ++ outcome_line conf.now.topics outcome.now) }
    ensures err { OnErr result (text.new ≡ text.old) }
{
    let before = text.waits();
    match put_whole(alloc, text, outcome, conf) {
        Ok(()) => Ok(()),
        Err(NoMemory) => {
            text.truncate(before);
            Err(NoMemory)
        }
    }
}
