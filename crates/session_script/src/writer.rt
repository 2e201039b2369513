ghost use Rattle.std.specs.Prelude.{◌≡◌, ◌++◌, ◌∷◌, [], List, ℕ, IfOk, OnOk, codes, string_bytes};
ghost use Rattle.std.specs.Fmt.{decimal};
ghost use Rattle.hex.specs.Hex.{encode_lower};
ghost use Rattle.session_script.specs.Script.{line_of, mode_word};
ghost use Rattle.session_script.specs.Output.{IsHostedShard, IsTold, shard_text, outcome_line, cause_text, malformed_line, damaged_line};
ghost use Rattle.session_script.specs.Writing.{WritesText};
ghost use Rattle.session_script.specs.declared.writer.LineFault.TheVariants.{NoMemory as no_memory};

use crate::event::{Event, Outcome};
use edge_io::{DiskName, FaultMode, Sink, write_all};
use flex_fields::NoMemory;
use share_model::{CloseCause, Name, ShardId};
use std::alloc::{AllocError, Global};
use thiserror::Error;
use topic_conf::Config;

/// Why a line was not written.
#[derive(Clone, Copy, Debug, Error)]
pub enum LineFault {
    /// The sink failed, and has taken a front of the line.
    #[error("the line could not be written")]
    Write,
    /// No memory was found, and nothing was written.
    #[error("out of memory")]
    NoMemory,
}

impl From<AllocError> for LineFault {
    ghost from_gives = { λ _ e. e ≡ no_memory };

    fn from(_: AllocError) -> LineFault {
        LineFault::NoMemory
    }
}

impl From<NoMemory> for LineFault {
    ghost from_gives = { λ _ e. e ≡ no_memory };

    fn from(_: NoMemory) -> LineFault {
        LineFault::NoMemory
    }
}

// Puts a rest and a line feed behind the front of a line.
fn push_rest(line: &mut String, rest: &str) -> Result<(), AllocError>
    ensures { OnOk result (string_bytes line.new ≡ string_bytes line.old ++ (rest.now ++ 10 ∷ [])) }
{
    line.reserve(rest.len().saturating_add(1))?;
    line.push_str(rest)?;
    line.push_str("\n")
}

// A line of a word, a connection's number and a rest.
fn line(alloc: Global, word: &str, conn: u32, rest: &str) -> Result<String, AllocError>
    ensures { IfOk result (λ text. string_bytes text ≡ word.now ++ 32 ∷ (decimal conn ++ 32 ∷ (rest.now ++ 10 ∷ []))) }
{
    let mut line = format!(in alloc; "{word} {conn} ")?;
    push_rest(&mut line, rest)?;
    Ok(line)
}

// The same, of bytes in hexadecimal digits.
fn hex_line(alloc: Global, word: &str, conn: u32, bytes: &[u8]) -> Result<String, AllocError>
    ensures { IfOk result (λ text. string_bytes text ≡ word.now ++ 32 ∷ (decimal conn ++ 32 ∷ (encode_lower bytes.now ++ 10 ∷ []))) }
{
    let digits = hex::encode(alloc, bytes)?;
    line(alloc, word, conn, &digits)
}

// A line of a word and a number.
fn number_line(alloc: Global, word: &str, number: u64) -> Result<String, AllocError>
    ensures { IfOk result (λ text. string_bytes text ≡ word.now ++ 32 ∷ (decimal number ++ 10 ∷ [])) }
{
    format!(in alloc; "{word} {number}\n")
}

fn mode_word(mode: FaultMode) -> &'static str
    ensures { result.now ≡ mode_word mode }
{
    match mode {
        FaultMode::Once => "once",
        FaultMode::Torn => "torn",
        FaultMode::Dead => "dead",
    }
}

fn arm_line(
    alloc: Global,
    disk: &DiskName,
    after: u64,
    mode: FaultMode,
) -> Result<String, AllocError>
    ensures { IfOk result (λ text. string_bytes text ≡ codes "arm" ++ 32 ∷ (disk.now ++ 32 ∷ (decimal after ++ 32 ∷ (mode_word mode ++ 10 ∷ [])))) }
{
    let mode = mode_word(mode);
    format!(in alloc; "arm {disk} {after} {mode}\n")
}

fn expire_line(alloc: Global, topic: &Name, part: u32, now: u64) -> Result<String, AllocError>
    ensures { IfOk result (λ text. string_bytes text ≡ codes "expire" ++ 32 ∷ (topic.now ++ 32 ∷ (decimal part ++ 32 ∷ (decimal now ++ 10 ∷ [])))) }
{
    format!(in alloc; "expire {topic} {part} {now}\n")
}

fn step_line(alloc: Global, conn: u32, now: u64) -> Result<String, AllocError>
    ensures { IfOk result (λ text. string_bytes text ≡ codes "step" ++ 32 ∷ (decimal conn ++ 32 ∷ (decimal now ++ 10 ∷ []))) }
{
    format!(in alloc; "step {conn} {now}\n")
}

fn event_line(alloc: Global, event: &Event) -> Result<String, AllocError>
    ensures { IfOk result (λ text. string_bytes text ≡ line_of event.now) }
{
    match event {
        Event::Open { conn } => number_line(alloc, "open", u64::from(*conn)),
        Event::Bytes { conn, bytes } => hex_line(alloc, "bytes", *conn, bytes.as_slice()),
        Event::Close { conn } => number_line(alloc, "close", u64::from(*conn)),
        Event::Step { conn, now } => step_line(alloc, *conn, *now),
        Event::Expire { topic, part, now } => expire_line(alloc, topic, *part, *now),
        Event::Tick { now } => number_line(alloc, "tick", *now),
        Event::Arm { disk, after, mode } => arm_line(alloc, disk, *after, *mode),
        Event::Power { choice } => number_line(alloc, "power", *choice),
    }
}

fn cause_text(alloc: Global, cause: CloseCause) -> Result<String, AllocError>
    ensures { IfOk result (λ text. string_bytes text ≡ cause_text cause) }
{
    match cause {
        CloseCause::TooLong { size } => format!(in alloc; "too-long {size}"),
        CloseCause::BadHeader => String::from_str(alloc, "bad-header"),
        CloseCause::UnknownApi { key, version } => format!(in alloc; "unknown-api {key} {version}"),
        CloseCause::BadBody { place } => format!(in alloc; "bad-body {place}"),
        CloseCause::LongReply => String::from_str(alloc, "long-reply"),
    }
}

fn fault_of(alloc: Global, topic: &Name, part: u32) -> Result<String, AllocError>
    ensures { IfOk result (λ text. string_bytes text ≡ codes "fault" ++ 32 ∷ (topic.now ++ 47 ∷ (decimal part ++ 10 ∷ []))) }
{
    format!(in alloc; "fault {topic}/{part}\n")
}

fn fault_line(alloc: Global, shard: ShardId, conf: &Config) -> Result<String, AllocError>
    requires { IsHostedShard conf.now.topics shard }
    ensures { IfOk result (λ text. string_bytes text ≡ codes "fault" ++ 32 ∷ (shard_text conf.now.topics shard ++ 10 ∷ [])) }
{
    let ShardId::Part(number) = shard else {
        unreachable!()
    };
    let Some((topic, part)) = conf.partition_of(number) else {
        unreachable!()
    };
    fault_of(alloc, &topic.name, part)
}

fn closed_line(alloc: Global, conn: u32, cause: CloseCause) -> Result<String, AllocError>
    ensures { IfOk result (λ text. string_bytes text ≡ codes "closed" ++ 32 ∷ (decimal conn ++ 32 ∷ (cause_text cause ++ 10 ∷ []))) }
{
    let cause = cause_text(alloc, cause)?;
    line(alloc, "closed", conn, &cause)
}

pub(crate) fn outcome_line(
    alloc: Global,
    outcome: &Outcome,
    conf: &Config,
) -> Result<String, AllocError>
    requires { IsTold conf.now.topics outcome.now }
    ensures { IfOk result (λ text. string_bytes text ≡ outcome_line conf.now.topics outcome.now) }
{
    match outcome {
        Outcome::Fault { shard } => fault_line(alloc, *shard, conf),
        Outcome::Reply { conn, frame } => hex_line(alloc, "reply", *conn, frame.as_slice()),
        Outcome::Closed { conn, cause } => closed_line(alloc, *conn, *cause),
        Outcome::Restarted => String::from_str(alloc, "restarted\n"),
    }
}

// Writes a line, where it was made.
pub(crate) fn write_line<O: Sink>(
    line: Result<String, AllocError>,
    output: &mut O,
) -> Result<(), LineFault>
    ensures { (text : List ℕ) → IfOk line (λ made. string_bytes made ≡ text) →
        WritesText (O.held output.old) (O.held output.new) (O.faults output.old) (O.faults output.new) text result }
{
    let Ok(line) = line else {
        return Err(LineFault::NoMemory);
    };
    match write_all(output, line.as_bytes()) {
        Ok(()) => Ok(()),
        Err(_) => Err(LineFault::Write),
    }
}

/// Writes an event's line.
pub fn write_event<O: Sink>(alloc: Global, event: &Event, output: &mut O) -> Result<(), LineFault>
    ensures { WritesText (O.held output.old) (O.held output.new) (O.faults output.old) (O.faults output.new) (line_of event.now) result }
{
    write_line(event_line(alloc, event), output)
}

/// Writes an outcome's line. The configuration tells the name of the partition that a fault is of.
pub fn write_outcome<O: Sink>(
    alloc: Global,
    outcome: &Outcome,
    conf: &Config,
    output: &mut O,
) -> Result<(), LineFault>
    requires { IsTold conf.now.topics outcome.now }
    ensures { WritesText (O.held output.old) (O.held output.new) (O.faults output.old) (O.faults output.new)
        (outcome_line conf.now.topics outcome.now) result }
{
    write_line(outcome_line(alloc, outcome, conf), output)
}

/// Writes the line that names the place of a script's fault.
pub fn write_malformed<O: Sink>(alloc: Global, place: u64, output: &mut O) -> Result<(), LineFault>
    ensures { WritesText (O.held output.old) (O.held output.new) (O.faults output.old) (O.faults output.new) (malformed_line place) result }
{
    write_line(number_line(alloc, "malformed", place), output)
}

fn damaged_line(alloc: Global, disk: &DiskName, place: u64) -> Result<String, AllocError>
    ensures { IfOk result (λ text. string_bytes text ≡ damaged_line disk.now place) }
{
    format!(in alloc; "damaged {disk} {place}\n")
}

/// Writes the line that names a disk whose content isn't what a broker writes, and the place of the fault.
pub fn write_damaged<O: Sink>(
    alloc: Global,
    disk: &DiskName,
    place: u64,
    output: &mut O,
) -> Result<(), LineFault>
    ensures { WritesText (O.held output.old) (O.held output.new) (O.faults output.old) (O.faults output.new) (damaged_line disk.now place) result }
{
    write_line(damaged_line(alloc, disk, place), output)
}
