// For what a connection waits, over a topic of 64 partitions whose id is 16 bytes 22.
//
// | Line | Gives |
// |---|---|
// | `fetch HEX ..` | what becomes of a ShareFetch with this body once it has come, and for what the connection waits |
// | `answer` | what becomes of it once the part that is asked has given nothing, and for what the connection waits |
// | `end` | for what the connection waits once it is closed |
//
// Of a ShareFetch becomes `asks` or `replies`. What is waited for is `GROUP at SHARD ..` and the milliseconds, or
// `no wait`.
ghost use Rattle.call_fold.specs.Parts.{IsVisitAnswer};

use crate::plain::word;
use crate::sessions::hosted;
use call_fold::{Part, PartAnswer};
use conn_core::{Conn, Next, WaitWish};
use flex_fields::Items;
use row_text::bytes_of;
use share_model::{AckOutcome, Blob, ThenOutcome, VisitAnswer};
use std::alloc::Global;
use std::{io, mem};
use topic_conf::Config;

#[derive(Drop)]
pub struct Waits {
    conn: Conn,
}

/// The frame of a ShareFetch of version 1 with this body: its size; key 78, the version, correlation id 1, no client
/// id, no tags; and the body.
fn fetch_frame(alloc: Global, body: &[u8]) -> io::Result<Vec<u8>> {
    let header = [0, 78, 0, 1, 0, 0, 0, 1, 255, 255, 0];
    let size = u32::try_from(body.len()).unwrap_or(0).saturating_add(11);
    let mut frame = size.to_be_bytes().as_slice().to_vec(alloc)?;
    frame.extend_from_slice(&header)?;
    frame.extend_from_slice(body)?;
    Ok(frame)
}

/// A visit that gave nothing.
fn nothing(alloc: Global) -> PartAnswer
    ensures { IsVisitAnswer result }
{
    PartAnswer::Visit(VisitAnswer {
        ack: AckOutcome::Done,
        then: ThenOutcome::Done,
        grants: Items::new(Vec::new(alloc)),
        batches: Blob::new(Vec::new(alloc)),
    })
}

/// What a connection tells that it does next.
fn next_word(next: &Next) -> &'static str {
    match next {
        Next::Idle => "idle",
        Next::Ask(_) => "asks",
        Next::Ready => "replies",
        Next::Closed(_) => "closes",
        Next::Gone => "gone",
    }
}

/// The group, the shards, and the milliseconds.
fn wish_text(alloc: Global, wish: &WaitWish) -> io::Result<String> {
    let (group, wait_ms) = (wish.group.as_str(), wish.wait_ms);
    let mut text = format!(in alloc; "{group} at")?;
    for shard in wish.shards.as_slice() {
        text.push_str(format!(in alloc; " {shard}")?.as_str())?;
    }
    text.push_str(format!(in alloc; " for {wait_ms} ms")?.as_str())?;
    Ok(text)
}

/// For what a connection waits.
fn waits_text(alloc: Global, conn: &Conn) -> io::Result<String> {
    match conn.wait_wish() {
        Some(wish) => wish_text(alloc, wish),
        None => word(alloc, "no wait"),
    }
}

/// What a connection does next, and for what it waits.
fn next_text(alloc: Global, conf: &Config, conn: &mut Conn) -> io::Result<String> {
    let Ok(next) = conn.next_part(conf) else {
        return word(alloc, "no memory");
    };
    let (does, waits) = (next_word(&next), waits_text(alloc, conn)?);
    Ok(format!(in alloc; "{does}, {waits}")?)
}

/// The visit that a connection asks gives nothing. Whether it asked one, and took the answer.
fn answer(alloc: Global, conf: &Config, conn: &mut Conn) -> bool {
    let Ok(next) = conn.next_part(conf) else {
        return false;
    };
    let Next::Ask(part) = next else {
        return false;
    };
    let Part::Visit { .. } = part else {
        return false;
    };
    conn.give(conf, nothing(alloc)).is_ok()
}

impl Waits {
    pub fn new(alloc: Global) -> Waits {
        Waits {
            conn: Conn::open(alloc),
        }
    }

    /// Puts another connection in place of this one.
    pub fn set(&mut self, waits: Waits) {
        drop(mem::replace(self, waits));
    }

    /// A ShareFetch with this body comes.
    fn fetch(&mut self, alloc: Global, conf: &Config, body: &[u8]) -> io::Result<String> {
        let frame = fetch_frame(alloc, body)?;
        if self.conn.feed(&frame).is_err() {
            return word(alloc, "no memory");
        }
        next_text(alloc, conf, &mut self.conn)
    }

    /// What a line gives. `None` where there is no such line.
    pub fn told(&mut self, alloc: Global, kind: &str, text: &str) -> io::Result<Option<String>> {
        let (Some(conf), Some(body)) = (hosted(alloc)?, bytes_of(alloc, text)?) else {
            return Ok(None);
        };
        let told = match kind {
            "fetch" => self.fetch(alloc, &conf, &body),
            "answer" => {
                if answer(alloc, &conf, &mut self.conn) {
                    next_text(alloc, &conf, &mut self.conn)
                } else {
                    word(alloc, "no visit")
                }
            }
            "end" => {
                self.conn.end();
                waits_text(alloc, &self.conn)
            }
            _ => return Ok(None),
        };
        Ok(Some(told?))
    }
}
