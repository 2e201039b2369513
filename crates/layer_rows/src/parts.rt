// The shard of a hosted partition, on three disks in memory. New groups begin at the log's start, a lock lasts 30000
// milliseconds, and a record goes out five times at most. All but what a fetch says is at the moment 0.
//
// | Line | Gives |
// |---|---|
// | `open` | a shard on empty disks: `ok` |
// | `open HEX` | a shard whose log's disk has these bytes: `ok` |
// | `produce HEX ..` | adds a batch: its base, or why it is refused |
// | `produces COUNT HEX ..` | adds it so often: the base of the last, or why one is refused |
// | `delete OFFSET` | deletes what lies below it, -1 standing for the log's end: where the log starts then, or `out of range END`, or `fails` |
// | `fetch GROUP MEMBER` | acquires what there is: `FIRST..LAST xCOUNT, ..`, or `fails` |
// | `fetch GROUP MEMBER RECORDS MOMENT` | acquires so many records at most at a moment |
// | `reserve NUMBER` | makes the spare number so large |
// | `arm DISK N MODE` | N calls on `log`, `state-a` or `state-b` pass, and the next fails: `once`, `torn` or `dead` |
// | `acknowledge GROUP MEMBER FIRST..LAST:TYPE,TYPE ..` | in memory that is set aside: `done`, `malformed`, `not held OFFSET`, `fails`, `full END` |
// | `table GROUP` | its start, and the runs of its stored rows |
// | `offer GROUP` | what a fetch would find: `no table`, `slot OFFSET` or `nothing` |
// | `faults` | how many calls of each disk failed: `log N, states N N` |
// | `describe GROUP` | how far it has come: `start N, end N, lag N, held N until MOMENT, ..`, or `held 0, ..`, or `none` |
use crate::acks::{batches_of, type_count};
use crate::disks::{mode_of, new_disk, number_text, word_number};
use crate::logs::answer_text;
use crate::plain::word;
use crate::runs::{done_text, list_text};
use edge_io::DiskPlace;
use edge_mem::MemDisk;
use flex_fields::Items;
use row_text::bytes_of;
use share_model::{
    AckList, AckOutcome, DeleteAnswer, Grant, Name, NoMemory, Offer, Reset, StoreFault,
    TableSummary, Then, ThenOutcome, Visit, VisitAnswer,
};
use share_part::{PartConf, PartFaultCounts, PartShard};
use std::alloc::Global;
use std::{io, mem};
use uuid::Uuid;
use window_runs::WindowRuns;

/// A shard, once one is opened.
#[derive(Drop)]
pub enum Parts {
    None,
    Shard(PartShard<MemDisk, WindowRuns>),
}

/// A shard whose log's disk has a content.
fn opened(alloc: Global, content: Vec<u8>) -> io::Result<Parts> {
    let log = new_disk(alloc, content)?;
    let first = new_disk(alloc, Vec::new(alloc))?;
    let second = new_disk(alloc, Vec::new(alloc))?;
    let topic = Uuid::from_bytes([0x11; 16]);
    let conf = PartConf::new(topic, 0, Reset::Earliest, 30000, 5);
    match PartShard::open(alloc, (log, first, second), conf) {
        Ok(shard) => Ok(Parts::Shard(shard)),
        Err(_) => Ok(Parts::None),
    }
}

/// Adds grants.
fn grants_text(alloc: Global, grants: &[Grant]) -> io::Result<String> {
    let mut text = String::new(alloc);
    for grant in grants {
        let Grant { first, last, count } = *grant;
        let one = format!(in alloc; ", {first}..{last} x{count}")?;
        text.push_str(one.as_str())?;
    }
    match text.as_str().strip_prefix(", ") {
        Some(text) => word(alloc, text),
        None => word(alloc, "none"),
    }
}

fn fetched_text(alloc: Global, answer: &VisitAnswer) -> io::Result<String> {
    match answer.then {
        ThenOutcome::Done => grants_text(alloc, answer.grants.as_slice()),
        ThenOutcome::Store(_) => word(alloc, "fails"),
    }
}

/// The group and the member of words, and what stands behind them.
fn names_of(text: &str) -> Option<(Name, Name, &str)> {
    let (group, rest) = text.split_once(' ')?;
    let (member, rest) = rest.split_once(' ').unwrap_or((rest, ""));
    Some((Name::new(group)?, Name::new(member)?, rest))
}

/// How many records words ask for, and at which moment; `None` where they say neither.
fn limits_of(words: &str) -> Option<(u32, u64)> {
    let (records, moment) = words.split_once(' ')?;
    Some((records.parse().ok()?, moment.parse().ok()?))
}

/// Acquires what there is for a member of a group.
fn fetch(
    alloc: Global,
    shard: &mut PartShard<MemDisk, WindowRuns>,
    group: Name,
    member: Name,
    words: &str,
) -> io::Result<String> {
    let (records, moment) = limits_of(words).unwrap_or((500, 0));
    if moment > 1 << 62 {
        return word(alloc, "no such moment");
    }
    let visit = Visit {
        group,
        member,
        acks: AckList::new(Items::new(Vec::new(alloc))),
        then: Then::Fetch {
            records,
            bytes: 1 << 20,
            first: true,
        },
    };
    match shard.visit(moment, &visit) {
        Ok(answer) => fetched_text(alloc, &answer),
        Err(_) => word(alloc, "no memory"),
    }
}

fn outcome_text(alloc: Global, outcome: AckOutcome) -> io::Result<String> {
    match outcome {
        AckOutcome::Done => word(alloc, "done"),
        AckOutcome::Malformed(_) => word(alloc, "malformed"),
        AckOutcome::NotHeld { offset } => word_number(alloc, "not held", offset),
        AckOutcome::Store(StoreFault::Device) => word(alloc, "fails"),
        AckOutcome::Store(StoreFault::Full { end }) => word_number(alloc, "full", end),
    }
}

/// Acknowledges what words say, in memory that is set aside.
fn acknowledge(
    alloc: Global,
    shard: &mut PartShard<MemDisk, WindowRuns>,
    group: &Name,
    member: &Name,
    words: &str,
) -> io::Result<String> {
    let batches = batches_of(alloc, words)?;
    if type_count(&batches).is_none() || batches.len() >= 1 << 31 {
        return word(alloc, "too many");
    }
    let outcome = shard.ack_reserved(0, group, member, &batches);
    outcome_text(alloc, outcome)
}

/// Adds a batch. `None` where the text isn't one of bytes.
fn produce(
    alloc: Global,
    shard: &mut PartShard<MemDisk, WindowRuns>,
    text: &str,
) -> io::Result<Option<String>> {
    let Some(batch) = bytes_of(alloc, text)? else {
        return Ok(None);
    };
    let answer = match shard.produce(0, &batch) {
        Ok(placed) => Ok(placed.base),
        Err(fault) => Err(fault),
    };
    Ok(Some(answer_text(alloc, answer)?))
}

/// Adds a batch so often as the first word says. `None` where the words aren't a number and bytes.
fn produces(
    alloc: Global,
    shard: &mut PartShard<MemDisk, WindowRuns>,
    text: &str,
) -> io::Result<Option<String>> {
    let Some((count, text)) = text.split_once(' ') else {
        return Ok(None);
    };
    let Ok(count) = count.parse::<u32>() else {
        return Ok(None);
    };
    let mut told = None;
    for _ in 0..count {
        told = produce(alloc, shard, text)?;
    }
    Ok(told)
}

/// Deletes the records below an offset.
fn delete(
    alloc: Global,
    shard: &mut PartShard<MemDisk, WindowRuns>,
    text: &str,
) -> io::Result<String> {
    let Ok(to) = text.parse() else {
        return word(alloc, "no such offset");
    };
    match shard.delete(0, to) {
        DeleteAnswer::Done { start } => number_text(alloc, start),
        DeleteAnswer::OutOfRange { end } => word_number(alloc, "out of range", end),
        DeleteAnswer::Store(StoreFault::Device) => word(alloc, "fails"),
        DeleteAnswer::Store(StoreFault::Full { end }) => word_number(alloc, "full", end),
    }
}

fn reserve(shard: &mut PartShard<MemDisk, WindowRuns>, text: &str) -> Option<Result<(), NoMemory>> {
    Some(shard.reserve(text.parse().ok()?))
}

/// A fault of one of the three disks is armed. `None` where there is no such disk.
fn arm(shard: &mut PartShard<MemDisk, WindowRuns>, text: &str) -> Option<Result<(), NoMemory>> {
    let mut words = text.split(' ');
    let disk = match words.next()? {
        "log" => DiskPlace::Log,
        "state-a" => DiskPlace::StateA,
        "state-b" => DiskPlace::StateB,
        _ => return None,
    };
    shard.arm(disk, words.next()?.parse().ok()?, mode_of(words.next()?));
    Some(Ok(()))
}

/// The start of a group's table and the runs of its stored rows.
fn table_text(
    alloc: Global,
    shard: &PartShard<MemDisk, WindowRuns>,
    text: &str,
) -> io::Result<String> {
    let Some(group) = Name::new(text) else {
        return word(alloc, "no such words");
    };
    let Some(view) = shard.look_state(&group) else {
        return word(alloc, "none");
    };
    let rows = list_text(alloc, view.runs.list())?;
    Ok(format!(in alloc; "start {}, {rows}", view.start)?)
}

/// What a fetch of a group would find.
fn offer_text(
    alloc: Global,
    shard: &PartShard<MemDisk, WindowRuns>,
    text: &str,
) -> io::Result<String> {
    let Some(group) = Name::new(text) else {
        return word(alloc, "no such words");
    };
    match shard.offer(&group) {
        Offer::NoTable => word(alloc, "no table"),
        Offer::Slot { offset } => word_number(alloc, "slot", offset),
        Offer::Nothing => word(alloc, "nothing"),
    }
}

/// How many records are held, and until when.
fn held_text(alloc: Global, summary: &TableSummary) -> io::Result<String> {
    match summary.first_lock_end {
        Some(end) => Ok(format!(in alloc; "held {} until {end}", summary.held)?),
        None => Ok(format!(in alloc; "held {}", summary.held)?),
    }
}

/// How far a group has come.
fn summary_text(
    alloc: Global,
    shard: &PartShard<MemDisk, WindowRuns>,
    text: &str,
) -> io::Result<String> {
    let Some(group) = Name::new(text) else {
        return word(alloc, "no such words");
    };
    let Some(summary) = shard.describe(&group) else {
        return word(alloc, "none");
    };
    let held = held_text(alloc, &summary)?;
    let TableSummary {
        start,
        end,
        lag,
        acknowledged,
        archived,
        ..
    } = summary;
    Ok(format!(in alloc;
        "start {start}, end {end}, lag {lag}, {held}, acknowledged {acknowledged}, archived {archived}"
    )?)
}

/// How many calls of each disk have failed.
fn faults_text(alloc: Global, shard: &PartShard<MemDisk, WindowRuns>) -> io::Result<String> {
    let PartFaultCounts { log, states } = shard.faults();
    Ok(format!(in alloc; "log {log}, states {} {}", states.first, states.second)?)
}

/// Does a line that names a member of a group. `None` where there is no such line.
fn on_names(
    alloc: Global,
    shard: &mut PartShard<MemDisk, WindowRuns>,
    kind: &str,
    text: &str,
) -> io::Result<Option<String>> {
    let Some((group, member, rest)) = names_of(text) else {
        return Ok(None);
    };
    let told = match kind {
        "fetch" => fetch(alloc, shard, group, member, rest),
        "acknowledge" => acknowledge(alloc, shard, &group, &member, rest),
        _ => return Ok(None),
    };
    Ok(Some(told?))
}

/// Does a line on a shard. `None` where there is no such line.
fn told_by(
    alloc: Global,
    shard: &mut PartShard<MemDisk, WindowRuns>,
    kind: &str,
    text: &str,
) -> io::Result<Option<String>> {
    let told = match kind {
        "produce" => return produce(alloc, shard, text),
        "produces" => return produces(alloc, shard, text),
        "delete" => delete(alloc, shard, text),
        "reserve" => done_text(alloc, reserve(shard, text)),
        "arm" => done_text(alloc, arm(shard, text)),
        "table" => table_text(alloc, shard, text),
        "offer" => offer_text(alloc, shard, text),
        "describe" => summary_text(alloc, shard, text),
        "faults" => faults_text(alloc, shard),
        _ => return on_names(alloc, shard, kind, text),
    };
    Ok(Some(told?))
}

impl Parts {
    /// Puts another shard in place of this one.
    pub fn set(&mut self, parts: Parts) {
        drop(mem::replace(self, parts));
    }

    /// What a line gives. `None` where there is no such line.
    pub fn told(&mut self, alloc: Global, kind: &str, text: &str) -> io::Result<Option<String>> {
        if kind == "open" {
            let Some(content) = bytes_of(alloc, text)? else {
                return Ok(None);
            };
            self.set(opened(alloc, content)?);
            return Ok(Some(word(alloc, "ok")?));
        }
        match self {
            Parts::None => Ok(None),
            Parts::Shard(shard) => told_by(alloc, shard, kind, text),
        }
    }
}
