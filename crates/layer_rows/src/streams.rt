// A source, a sink and bytes with room.
//
// | Line | Gives |
// |---|---|
// | `source HEX ..` | a source of these bytes: `ok` |
// | `source-fails N`, `sink-fails N` | a new source of the same bytes, a new sink, of which the call numbered N, from 0, fails |
// | `read-piece N` | one read of N bytes: the bytes, or `fails`; those read into are then as they were |
// | `read-all` | reads to the end: `ok` or `fails` |
// | `got` | what was read by all reads |
// | `write-all HEX ..` | `ok` or `fails` |
// | `wrote` | what the sink holds |
// | `room N`, `room-append HEX ..` | sets room aside for N bytes; appends bytes: `ok` or `fails` |
// | `room-holds` | the bytes, which it then hands out |
use crate::disks::{UNREAD, bytes_text, done, failed_read};
use edge_io::{Source, read_to_end, write_all};
use edge_mem::{MemSink, MemSource};
use row_text::bytes_of;
use share_model::Room;
use std::alloc::Global;
use std::{io, mem};

#[derive(Drop)]
pub struct Streams {
    source: MemSource,
    got: Vec<u8>,
    sink: MemSink,
    room: Room,
}

/// One read of some bytes.
fn read_piece(alloc: Global, source: &mut MemSource, count: usize) -> io::Result<String> {
    let mut into = vec![in alloc; UNREAD; count.min(1 << 20)]?;
    match source.read(&mut into) {
        Ok(read) => {
            let (piece, _) = into.split_at(read.min(into.len()));
            bytes_text(alloc, piece)
        }
        Err(_) => failed_read(alloc, &into),
    }
}

/// What the room holds, which it then hands out.
fn held(alloc: Global, room: Room) -> io::Result<String> {
    let held = room.as_slice().to_vec(alloc)?;
    let bytes = room.into_blob().into_vec();
    match held.as_slice() == bytes.as_slice() {
        true => bytes_text(alloc, &bytes),
        false => done(alloc, false),
    }
}

impl Streams {
    pub fn new(alloc: Global) -> Streams {
        Streams {
            source: MemSource::new(Vec::new(alloc), Vec::new(alloc)),
            got: Vec::new(alloc),
            sink: MemSink::new(alloc, Vec::new(alloc)),
            room: Room::new(alloc),
        }
    }

    /// A new sink, of which a call fails.
    fn fail_sink(&mut self, alloc: Global, call: &str) -> io::Result<String> {
        let failing = vec![in alloc; call.parse().unwrap_or(0); 1]?;
        self.sink = MemSink::new(alloc, failing);
        done(alloc, true)
    }

    /// Does a line with these bytes. `None` where it isn't about bytes.
    fn take(&mut self, alloc: Global, kind: &str, bytes: Vec<u8>) -> io::Result<Option<String>> {
        let is_ok = match kind {
            "source" => {
                self.source = MemSource::new(bytes, Vec::new(alloc));
                true
            }
            "write-all" => write_all(&mut self.sink, &bytes).is_ok(),
            "room-append" => self.room.append(&bytes).is_ok(),
            _ => return Ok(None),
        };
        Ok(Some(done(alloc, is_ok)?))
    }

    /// A new source, of which a call fails.
    fn fail_source(&mut self, alloc: Global, text: &str) -> io::Result<Option<String>> {
        let (call, digits) = text.split_once(' ').unwrap_or((text, ""));
        let failing = vec![in alloc; call.parse().unwrap_or(0); 1]?;
        let Some(bytes) = bytes_of(alloc, digits)? else {
            return Ok(None);
        };
        self.source = MemSource::new(bytes, failing);
        Ok(Some(done(alloc, true)?))
    }

    /// What a line gives. `None` where it isn't about these.
    pub fn told(&mut self, alloc: Global, kind: &str, text: &str) -> io::Result<Option<String>> {
        let told = match kind {
            "source" | "write-all" | "room-append" => match bytes_of(alloc, text)? {
                Some(bytes) => return self.take(alloc, kind, bytes),
                None => return Ok(None),
            },
            "source-fails" => return self.fail_source(alloc, text),
            "sink-fails" => self.fail_sink(alloc, text),
            "read-piece" => read_piece(alloc, &mut self.source, text.parse().unwrap_or(0)),
            "read-all" => done(alloc, read_to_end(&mut self.source, &mut self.got).is_ok()),
            "got" => bytes_text(alloc, &self.got),
            "wrote" => bytes_text(alloc, self.sink.bytes()),
            "room" => done(alloc, self.room.reserve(text.parse().unwrap_or(0)).is_ok()),
            "room-holds" => held(alloc, mem::replace(&mut self.room, Room::new(alloc))),
            _ => return Ok(None),
        };
        Ok(Some(told?))
    }
}
