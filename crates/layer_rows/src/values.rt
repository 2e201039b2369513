// Checksums, names, keys, states and topics.
use crate::plain::{debug_text, hex_text, word};
use crc_castagnoli::crc32c;
use share_model::{Key, Name, Reset, RowState};
use std::alloc::Global;
use std::cmp::Ordering;
use std::io;
use topic_conf::{Config, Topic, TopicList, Versions};
use uuid::Uuid;

/// The checksum of bytes.
pub fn sum_told(alloc: Global, bytes: &[u8]) -> io::Result<String> {
    hex_text(alloc, &crc32c(bytes).to_be_bytes())
}

/// What bytes are as a name.
pub fn name_told(alloc: Global, bytes: &[u8]) -> io::Result<String> {
    match Name::from_bytes(bytes) {
        Some(name) => {
            let (text, length) = (name.as_str(), name.as_bytes().len());
            Ok(format!(in alloc; "{text}, {length} bytes")?)
        }
        None => word(alloc, "no name"),
    }
}

/// A key of three words.
fn key_of(words: &str) -> Option<Key> {
    let (group, rest) = words.split_once(' ')?;
    let (topic, part) = rest.split_once(' ')?;
    let part: u32 = part.parse().ok()?;
    if part >= 1 << 31 {
        return None;
    }
    Some(Key {
        group: Name::new(group)?,
        topic: Uuid::parse_str(topic).ok()?,
        part,
    })
}

/// How the first of two keys stands to the second.
pub fn order_told(words: &str) -> &'static str {
    let (first, second) = words.split_once(" and ").unwrap_or((words, ""));
    match (key_of(first), key_of(second)) {
        (Some(a), Some(b)) => match a.cmp(&b) {
            Ordering::Less => "before it",
            Ordering::Equal => "the same",
            Ordering::Greater => "behind it",
        },
        _ => "no keys",
    }
}

/// The state of a number.
pub fn state_told(number: &str) -> &'static str {
    match RowState::from_number(number.parse().unwrap_or(255)) {
        Some(RowState::Available) => "available",
        Some(RowState::Acknowledged) => "acknowledged",
        Some(RowState::Archived) => "archived",
        None => "none",
    }
}

/// A topic whose id is one byte 16 times.
fn topic_of(name: Name, parts: u32, byte: u8) -> Topic {
    let id = Uuid::from_bytes([byte; 16]);
    Topic { name, parts, id }
}

/// Orders with three partitions and audit with one, whose ids are of bytes 1 and of bytes 2.
fn orders_and_audit(alloc: Global) -> io::Result<Option<Config>> {
    let names = (
        Name::new("orders"),
        Name::new("audit"),
        Name::new("localhost"),
    );
    let (Some(orders), Some(audit), Some(host)) = names else {
        return Ok(None);
    };
    let topics = vec![in alloc; topic_of(orders, 3, 1), topic_of(audit, 1, 2)]?;
    match TopicList::new(topics) {
        Some(list) => Ok(Some(Config::new(
            list,
            Reset::Earliest,
            30000,
            5,
            host,
            9092,
            Versions::Exact,
        ))),
        None => Ok(None),
    }
}

/// Where a topic stands, or the number of a partition's shard.
fn number_of(conf: &Config, kind: &str, words: &str) -> Option<u32> {
    let (id, part) = words.split_once(' ').unwrap_or((words, ""));
    let id = Uuid::parse_str(id).unwrap_or(Uuid::from_bytes([0; 16]));
    match kind {
        "topic-named" => conf.by_name(words),
        "topic-of-id" => conf.by_id(id),
        _ => conf.find(id, part.parse().unwrap_or(-1)),
    }
}

/// What a topic or a partition is in a configuration: a number, or `none`.
pub fn topic_told(alloc: Global, kind: &str, words: &str) -> io::Result<String> {
    let Some(conf) = orders_and_audit(alloc)? else {
        return word(alloc, "no configuration");
    };
    match number_of(&conf, kind, words) {
        Some(number) => debug_text(alloc, &number),
        None => word(alloc, "none"),
    }
}
