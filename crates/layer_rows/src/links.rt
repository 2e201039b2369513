// What a server meets outside, in memory: links, listeners and clocks.
//
// | Line | Gives |
// |---|---|
// | `link HEX ..` | a link whose peer sends these bytes: `ok` |
// | `link-fails N HEX ..` | the same, of which the read and the write numbered N, from 0, fail |
// | `read N` | one read of N bytes: the bytes, or `fails`; those read into are then as they were |
// | `send HEX ..` | `ok`, or `fails` |
// | `sent` | what the link was sent |
// | `at-end` | whether a look finds that the peer has ended: `yes` or `no` |
// | `closed CAUSE [N [M]]` | tells the link that it is closed for this cause: its words |
// | `listener N` | a listener of N links, whose peers send `00`, `01` and so on: `ok` |
// | `listener-fails M N` | the same, of which the call numbered M, from 0, fails |
// | `next` | takes the next link, whose lines follow: `ok`, `none` or `fails` |
// | `clock FIRST STEP` | a clock: `ok` |
// | `now` | its next answer |
// | `pause MS` | `ok` |
// | `another` | goes on with another clock of the same kind: `ok` |
use crate::disks::{UNREAD, bytes_text, done, failed_read, number_text};
use crate::plain::word;
use edge_io::{Clock, CloseReason, Link, Listener, send_all};
use edge_mem::{MemClock, MemLink, MemListener, MemSink, MemSource};
use row_text::bytes_of;
use std::alloc::Global;
use std::collections::VecDeque;
use std::{io, mem};

#[derive(Drop)]
pub struct Links {
    link: MemLink,
    listener: MemListener<MemLink>,
    clock: MemClock,
}

/// A link whose peer sends these bytes, and whose calls of these numbers fail.
fn link_of(alloc: Global, bytes: Vec<u8>, failing: Vec<u64>) -> io::Result<MemLink> {
    let sink = MemSink::new(alloc, failing.as_slice().to_vec(alloc)?);
    Ok(MemLink::new(MemSource::new(bytes, failing), sink))
}

/// A listener of so many links, whose calls of these numbers fail.
fn listener_of(alloc: Global, count: u8, failing: Vec<u64>) -> io::Result<MemListener<MemLink>> {
    let mut links = VecDeque::new(alloc);
    for number in 0..count {
        let bytes = vec![in alloc; number; 1]?;
        links.push_back(link_of(alloc, bytes, Vec::new(alloc))?)?;
    }
    Ok(MemListener::new(links, failing))
}

/// The number before a blank, as a list of one, and what follows.
fn failing_of(alloc: Global, text: &str) -> io::Result<(Vec<u64>, &str)> {
    let (call, rest) = text.split_once(' ').unwrap_or((text, ""));
    Ok((vec![in alloc; call.parse().unwrap_or(0); 1]?, rest))
}

/// One read of some bytes.
fn read_piece(alloc: Global, link: &mut MemLink, count: usize) -> io::Result<String> {
    let mut into = vec![in alloc; UNREAD; count.min(1 << 20)]?;
    match link.read(&mut into) {
        Ok(read) => {
            let (piece, _) = into.split_at(read.min(into.len()));
            bytes_text(alloc, piece)
        }
        Err(_) => failed_read(alloc, &into),
    }
}

/// The cause of these words.
fn reason_of(text: &str) -> CloseReason {
    let (kind, numbers) = text.split_once(' ').unwrap_or((text, ""));
    let (first, second) = numbers.split_once(' ').unwrap_or((numbers, ""));
    match kind {
        "too-long" => CloseReason::TooLong {
            size: first.parse().unwrap_or(0),
        },
        "bad-header" => CloseReason::BadHeader,
        "unknown-api" => CloseReason::UnknownApi {
            key: first.parse().unwrap_or(0),
            version: second.parse().unwrap_or(0),
        },
        "bad-body" => CloseReason::BadBody {
            place: first.parse().unwrap_or(0),
        },
        "long-reply" => CloseReason::LongReply,
        _ => CloseReason::NoMemory,
    }
}

impl Links {
    pub fn new(alloc: Global) -> io::Result<Links> {
        Ok(Links {
            link: link_of(alloc, Vec::new(alloc), Vec::new(alloc))?,
            listener: listener_of(alloc, 0, Vec::new(alloc))?,
            clock: MemClock::new(0, 0),
        })
    }

    /// Puts others in place of these.
    pub fn set(&mut self, links: Links) {
        drop(mem::replace(self, links));
    }

    /// Goes over to a link with these bytes. `None` where they aren't bytes.
    fn set_link(
        &mut self,
        alloc: Global,
        text: &str,
        failing: Vec<u64>,
    ) -> io::Result<Option<String>> {
        let Some(bytes) = bytes_of(alloc, text)? else {
            return Ok(None);
        };
        self.link = link_of(alloc, bytes, failing)?;
        Ok(Some(done(alloc, true)?))
    }

    /// Goes over to a listener of so many links.
    fn set_listener(&mut self, alloc: Global, text: &str, failing: Vec<u64>) -> io::Result<String> {
        self.listener = listener_of(alloc, text.parse().unwrap_or(0), failing)?;
        done(alloc, true)
    }

    /// Goes over to a clock.
    fn set_clock(&mut self, alloc: Global, text: &str) -> io::Result<String> {
        let (first, step) = text.split_once(' ').unwrap_or((text, ""));
        self.clock = MemClock::new(first.parse().unwrap_or(0), step.parse().unwrap_or(0));
        done(alloc, true)
    }

    /// Takes the next link.
    fn next(&mut self, alloc: Global) -> io::Result<String> {
        match self.listener.next() {
            Ok(Some(link)) => {
                self.link = link;
                done(alloc, true)
            }
            Ok(None) => word(alloc, "none"),
            Err(_) => word(alloc, "fails"),
        }
    }

    /// What a line on the link gives. `None` where it isn't about it.
    fn on_link(&mut self, alloc: Global, kind: &str, text: &str) -> io::Result<Option<String>> {
        let told = match kind {
            "link" => return self.set_link(alloc, text, Vec::new(alloc)),
            "link-fails" => {
                let (failing, rest) = failing_of(alloc, text)?;
                return self.set_link(alloc, rest, failing);
            }
            "read" => read_piece(alloc, &mut self.link, text.parse().unwrap_or(0)),
            "send" => match bytes_of(alloc, text)? {
                Some(bytes) => done(alloc, send_all(&mut self.link, &bytes).is_ok()),
                None => return Ok(None),
            },
            "sent" => bytes_text(alloc, self.link.bytes()),
            "at-end" => word(alloc, if self.link.is_at_end() { "yes" } else { "no" }),
            "closed" => {
                let reason = reason_of(text);
                self.link.closed(reason);
                Ok(format!(in alloc; "{reason}")?)
            }
            _ => return Ok(None),
        };
        Ok(Some(told?))
    }

    /// What a line gives. `None` where it isn't about these.
    pub fn told(&mut self, alloc: Global, kind: &str, text: &str) -> io::Result<Option<String>> {
        let told = match kind {
            "listener" => self.set_listener(alloc, text, Vec::new(alloc)),
            "listener-fails" => {
                let (failing, rest) = failing_of(alloc, text)?;
                self.set_listener(alloc, rest, failing)
            }
            "next" => self.next(alloc),
            "clock" => self.set_clock(alloc, text),
            "now" => number_text(alloc, self.clock.now_ms()),
            "pause" => {
                self.clock.pause(text.parse().unwrap_or(0));
                done(alloc, true)
            }
            "another" => {
                self.clock = self.clock.another();
                done(alloc, true)
            }
            _ => return self.on_link(alloc, kind, text),
        };
        Ok(Some(told?))
    }
}
