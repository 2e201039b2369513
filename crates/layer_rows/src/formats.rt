// Formats: what the bytes of a case stand for, and where the first fault is of those that stand for nothing.
//
// | Line | Means |
// |---|---|
// | `bytes HEX ..` | the bytes, of this case and of those behind it |
// | `set PLACE HEX ..` | the bytes from that place on, counted from 0, are others in this case |
// | `cut N` | of the bytes only the first N are there in this case |
// | `seal` | the checksum of a record batch is set to what the bytes give |
// | `KIND TEXT` | the bytes are read as this kind, and give that text |
//
// A text is the value, and `written HEX` behind it where the value is written as other bytes; or a fault and its
// place. Each proper front of bytes that are read has to be refused. In values `null` is Kafka's null. The kinds are
// in `kinds.rt`, `messages.rt`, `batches.rt`, `heard.rt`, `records.rt`, `acks.rt`, `values.rt` and `sessions.rt`.
use crate::acks::ack_told;
use crate::batches::{batch_told, made_told, placed_told, record_of, unchecked_told};
use crate::heard::heard_told;
use crate::kinds::wire_told;
use crate::plain::is_text;
use crate::records::{record_told, update_told};
use crate::sessions::session_told;
use crate::values::{name_told, order_told, state_told, sum_told, topic_told};
use crc_castagnoli::crc32c;
use rec_batch::{Form, Rec};
use row_text::bytes_of;
use share_session::Sessions;
use std::alloc::Global;
use std::io;

#[derive(Drop)]
pub struct Formats {
    given: Vec<u8>,
    bytes: Vec<u8>,
    records: Vec<Rec>,
    sessions: Sessions,
}

/// Sets the bytes from a place on, as far as they reach.
fn set(bytes: &mut [u8], place: usize, others: &[u8]) {
    let (_, behind) = bytes.split_at_mut(place.min(bytes.len()));
    for (into, from) in behind.iter_mut().zip(others) {
        *into = *from;
    }
}

/// Sets the checksum of a record batch to that of the bytes.
fn seal(bytes: &mut [u8]) {
    if let Some((_, checked)) = bytes.split_at_checked(21) {
        let sum = crc32c(checked).to_be_bytes();
        set(bytes, 17, &sum);
    }
}

/// What a line's words are as a kind.
fn words_told(alloc: Global, kind: &str, words: &str) -> io::Result<String> {
    match kind {
        "acks" => ack_told(alloc, words),
        "key" => is_text(alloc, words, order_told(words)),
        "state-number" => is_text(alloc, words, state_told(words)),
        "update-of" => is_text(alloc, words, update_told(alloc, words)?.as_str()),
        _ => {
            let told = topic_told(alloc, kind, words)?;
            is_text(alloc, words, told.as_str())
        }
    }
}

impl Formats {
    pub fn new(alloc: Global) -> Formats {
        Formats {
            given: Vec::new(alloc),
            bytes: Vec::new(alloc),
            records: Vec::new(alloc),
            sessions: Sessions::new(alloc),
        }
    }

    /// Takes bytes of a text, and tells whether it has any.
    fn give(&mut self, alloc: Global, text: &str) -> io::Result<bool> {
        let Some(bytes) = bytes_of(alloc, text)? else {
            return Ok(false);
        };
        self.bytes = bytes.as_slice().to_vec(alloc)?;
        self.given = bytes;
        Ok(true)
    }

    /// Sets the bytes from a place on.
    fn set(&mut self, alloc: Global, text: &str) -> io::Result<bool> {
        let (place, digits) = text.split_once(' ').unwrap_or((text, ""));
        let Some(others) = bytes_of(alloc, digits)? else {
            return Ok(false);
        };
        set(&mut self.bytes, place.parse().unwrap_or(0), &others);
        Ok(true)
    }

    /// Adds a record.
    fn add(&mut self, alloc: Global, text: &str) -> io::Result<bool> {
        self.records.push(record_of(alloc, text)?)?;
        Ok(true)
    }

    /// Changes the bytes of this case, and tells whether there is such a line.
    pub fn change(&mut self, alloc: Global, kind: &str, text: &str) -> io::Result<bool> {
        match kind {
            "bytes" => return self.give(alloc, text),
            "set" => return self.set(alloc, text),
            "record" => return self.add(alloc, text),
            "cut" => self.bytes.truncate(text.parse().unwrap_or(0)),
            "seal" => seal(&mut self.bytes),
            _ => return Ok(false),
        }
        Ok(true)
    }

    /// What the case's bytes or a line's words are as a kind. `None` where there is no such kind.
    pub fn told(&mut self, alloc: Global, kind: &str, text: &str) -> io::Result<Option<String>> {
        let bytes = self.bytes.as_slice();
        let told = match kind {
            "produced" => batch_told(alloc, bytes, Form::Produced),
            "stored" => batch_told(alloc, bytes, Form::Stored),
            "batch" | "batch-read" => made_told(alloc, kind, &self.records),
            "placed-at-72623859790382856" => placed_told(alloc, bytes, 72623859790382856),
            "unchecked-places" => unchecked_told(alloc, bytes),
            "hears-2" => heard_told(alloc, bytes, 2),
            "hears-500" => heard_told(alloc, bytes, 500),
            "state-record" => record_told(alloc, bytes),
            "crc32c" => sum_told(alloc, bytes),
            "name" => name_told(alloc, bytes),
            "begins-fetch" | "begins-ack" | "closes" => {
                session_told(alloc, kind, bytes, &mut self.sessions)
            }
            "acks"
            | "key"
            | "state-number"
            | "update-of"
            | "topic-named"
            | "topic-of-id"
            | "shard-of" => {
                let (words, _) = text.split_once(" is ").unwrap_or((text, ""));
                words_told(alloc, kind, words)
            }
            _ => return wire_told(alloc, kind, bytes),
        };
        Ok(Some(told?))
    }

    /// Makes ready for a case: its bytes are those given last, and there are no records and no sessions.
    pub fn begin(&mut self, alloc: Global) -> io::Result<()> {
        self.bytes = self.given.as_slice().to_vec(alloc)?;
        self.records = Vec::new(alloc);
        self.sessions = Sessions::new(alloc);
        Ok(())
    }
}
