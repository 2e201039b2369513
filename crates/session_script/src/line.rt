// One line of a script.
ghost use Rattle.std.specs.Prelude.{◌≡◌, ◌∷◌, ◌++◌, IfOk, MatchOption, codes};
ghost use Rattle.session_script.specs.Lines.{Says, SaysNothing};

use crate::event::Event;
use crate::word::{cut, fault_mode, hexadecimal, number, numbered, topic_name};
use edge_io::{DiskName, MAX_PARTITIONS};
use flex_fields::NoMemory;
use share_model::Blob;
use std::alloc::Global;
use std::str;

/// The greatest moment, in milliseconds.
const LAST_MOMENT: u64 = 1 << 62;

/// The greatest number of a partition.
const LAST_PARTITION: u64 = MAX_PARTITIONS as u64 - 1;

/// The most bytes that one line brings.
const MOST_BYTES: usize = 65536;

fn open(rest: &str) -> Option<Event>
    ensures { MatchOption result (SaysNothing (codes "open" ++ 32 ∷ rest.now)) (Says (codes "open" ++ 32 ∷ rest.now)) }
{
    let Some(conn) = number(u32::MAX as u64, rest) else {
        return None;
    };
    Some(Event::Open { conn: conn as u32 })
}

fn close(rest: &str) -> Option<Event>
    ensures { MatchOption result (SaysNothing (codes "close" ++ 32 ∷ rest.now)) (Says (codes "close" ++ 32 ∷ rest.now)) }
{
    let Some(conn) = number(u32::MAX as u64, rest) else {
        return None;
    };
    Some(Event::Close { conn: conn as u32 })
}

fn step(rest: &str) -> Option<Event>
    ensures { MatchOption result (SaysNothing (codes "step" ++ 32 ∷ rest.now)) (Says (codes "step" ++ 32 ∷ rest.now)) }
{
    let Some((conn, word)) = numbered(rest) else {
        return None;
    };
    let Some(now) = number(LAST_MOMENT, word) else {
        return None;
    };
    Some(Event::Step { conn, now })
}

fn expire(rest: &str) -> Option<Event>
    ensures { MatchOption result (SaysNothing (codes "expire" ++ 32 ∷ rest.now)) (Says (codes "expire" ++ 32 ∷ rest.now)) }
{
    let Some((topic, rest)) = cut(rest) else {
        return None;
    };
    let Some((part, now)) = cut(rest) else {
        return None;
    };
    let Some(topic) = topic_name(topic) else {
        return None;
    };
    let Some(part) = number(LAST_PARTITION, part) else {
        return None;
    };
    let Some(now) = number(LAST_MOMENT, now) else {
        return None;
    };
    Some(Event::Expire {
        topic,
        part: part as u32,
        now,
    })
}

fn tick(rest: &str) -> Option<Event>
    ensures { MatchOption result (SaysNothing (codes "tick" ++ 32 ∷ rest.now)) (Says (codes "tick" ++ 32 ∷ rest.now)) }
{
    let Some(now) = number(LAST_MOMENT, rest) else {
        return None;
    };
    Some(Event::Tick { now })
}

fn arm(rest: &str) -> Option<Event>
    ensures { MatchOption result (SaysNothing (codes "arm" ++ 32 ∷ rest.now)) (Says (codes "arm" ++ 32 ∷ rest.now)) }
{
    let Some((disk, rest)) = cut(rest) else {
        return None;
    };
    let Some((after, mode)) = cut(rest) else {
        return None;
    };
    let Some(disk) = DiskName::parse(disk) else {
        return None;
    };
    let Some(after) = number(u64::MAX, after) else {
        return None;
    };
    let Some(mode) = fault_mode(mode) else {
        return None;
    };
    Some(Event::Arm { disk, after, mode })
}

fn power(rest: &str) -> Option<Event>
    ensures { MatchOption result (SaysNothing (codes "power" ++ 32 ∷ rest.now)) (Says (codes "power" ++ 32 ∷ rest.now)) }
{
    let Some(choice) = number(u64::MAX, rest) else {
        return None;
    };
    Some(Event::Power { choice })
}

fn bytes(alloc: Global, rest: &str) -> Result<Option<Event>, NoMemory>
    ensures { IfOk result (λ found. MatchOption found (SaysNothing (codes "bytes" ++ 32 ∷ rest.now)) (Says (codes "bytes" ++ 32 ∷ rest.now))) }
{
    let Some((conn, digits)) = numbered(rest) else {
        return Ok(None);
    };
    if digits.is_empty() || digits.len() > 2 * MOST_BYTES {
        return Ok(None);
    }
    match hexadecimal(alloc, digits)? {
        Some(bytes) => Ok(Some(Event::Bytes {
            conn,
            bytes: Blob::new(bytes),
        })),
        None => Ok(None),
    }
}

/// The event whose line this is, without its line feed.
pub fn event(alloc: Global, line: &[u8]) -> Result<Option<Event>, NoMemory>
    ensures { IfOk result (λ found. MatchOption found (SaysNothing line.now) (Says line.now)) }
{
    let Ok(line) = str::from_utf8(line) else {
        return Ok(None);
    };
    let Some((word, rest)) = cut(line) else {
        return Ok(None);
    };
    match word {
        "open" => Ok(open(rest)),
        "bytes" => bytes(alloc, rest),
        "close" => Ok(close(rest)),
        "step" => Ok(step(rest)),
        "expire" => Ok(expire(rest)),
        "tick" => Ok(tick(rest)),
        "arm" => Ok(arm(rest)),
        "power" => Ok(power(rest)),
        _ => Ok(None),
    }
}
