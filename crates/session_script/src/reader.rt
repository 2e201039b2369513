ghost use Rattle.std.specs.Prelude.{◌≡◌, ◌<◌, ◌≤◌, ◌+◌, ◌∷◌, ◌++◌, [], ℕ, List, length, take, drop, IfOk, OnErr, IfSome, MatchOption, Err, true, vec_len};
ghost use Rattle.std.specs.Io.KnownBytes.{Consumes, IsAtEnd};
ghost use Rattle.edge_io.specs.Causes.{Rose};
ghost use Rattle.edge_io.specs.Streams.{Gains};
ghost use Rattle.session_script.specs.declared.reader.ScriptFault.TheVariants.{NoMemory as no_memory};
ghost use Rattle.session_script.specs.Script.{longest, longest_line};
ghost use Rattle.session_script.specs.Lines.{HasEventLine, HasNone, IsLine, IsFeedFrom, IsUnfinished};
ghost use Rattle.session_script.specs.Reading.{Takes, taken_line, Answers, EndStands};

use crate::event::Event;
use crate::line::event;
use edge_io::{ReadError, Source};
use flex_fields::NoMemory;
use memchr::memchr;
use std::alloc::Global;
use std::marker::Model;
use thiserror::Error;

/// How many bytes a read asks for.
const PIECE: usize = 8192;

/// The longest line of an event: `bytes`, a number of ten digits and 65536 bytes, with blanks and line feed.
const LONGEST_LINE: usize = 6 + 11 + 131072 + 1;

/// Where a script may end, in bytes.
const LONGEST_SCRIPT: u64 = 1 << 62;

/// What was taken from a script.
#[derive(Drop)]
pub enum Taken {
    Event(Event),
    /// The line `end`, behind which the input ended.
    End,
}

/// Why nothing was taken.
#[derive(Clone, Copy, Debug, Error)]
pub enum ScriptFault {
    /// No line of a script stands here. `place` is the line's first byte, counted from 0, or the first byte
    /// behind the line `end`.
    #[error("malformed line at byte {place}")]
    Malformed { place: u64 },
    /// The source failed.
    #[error("the script could not be read")]
    Read,
    /// No memory was found. The next call goes on from here.
    #[error("out of memory")]
    NoMemory,
}

impl From<NoMemory> for ScriptFault {
    ghost from_gives = { λ _ e. e ≡ no_memory };

    fn from(_: NoMemory) -> ScriptFault {
        ScriptFault::NoMemory
    }
}

/// Reads the events of a script one after another. It keeps what the source gave and no event has taken.
#[derive(Drop)]
pub struct ScriptReader {
    alloc: Global,
    buffer: Vec<u8>,
    // where what is pending begins
    start: usize,
    // no line feed is pending before this place
    scanned: usize,
    // of the byte at `start`, in the script
    place: u64,
}

impl Model for ScriptReader {
    ghost use Rattle.std.specs.Prelude.{drop};
    ghost use Rattle.session_script.specs.Unread.{Unread, IsBuffered};

    ghost Value = { Unread };

    ghost view = { λ r. record { place = r.place; pending = drop r.start r.buffer.items } };

    ghost invariant = { λ r. IsBuffered r.buffer.items r.start r.scanned r.place };
}

// Puts what one read gives behind the bytes of `buffer`.
#[tactic(auto, using(crate::proofs::Takings::keeps_consumes, crate::proofs::Takings::same_consumes))]
fn read_piece<S: Source>(buffer: &mut Vec<u8>, source: &mut S) -> Result<usize, ReadError>
    ensures given { Gains (S.left source.old) (S.left source.new) buffer.old.items buffer.new.items }
    ensures count { IfOk result (λ n. vec_len buffer.new ≡ vec_len buffer.old + n) }
    ensures kept { OnErr result (buffer.new.items ≡ buffer.old.items) }
    ensures end { IfOk result (λ n. n ≡ 0 → IsAtEnd (S.left source.new) × (S.ended source.new ≡ true)) }
    ensures read { result ≡ Err ReadError.Failed → Rose (S.faults source.old) (S.faults source.new) }
    ensures later { S.faults source.old ≤ S.faults source.new }
{
    buffer.reserve(PIECE)?;
    let mut piece = [0; PIECE];
    let Ok(count) = source.read(&mut piece) else {
        return Err(ReadError::Failed);
    };
    let (given, _) = piece.split_at(count);
    if buffer.extend_from_slice(given).is_err() {
        unreachable!()
    }
    Ok(count)
}

// Where the first line feed stands from this place on.
fn feed_from(bytes: &[u8], from: usize) -> Option<usize>
    requires { from ≤ length bytes.now }
    ensures { MatchOption result (HasNone 10 (drop from bytes.now)) (IsFeedFrom bytes.now from) }
{
    let (_, rest) = bytes.split_at(from);
    match memchr(b'\n', rest) {
        Some(count) => Some(from + count),
        None => None,
    }
}

impl ScriptReader {
    /// A reader at the front of a script.
    pub fn new(alloc: Global) -> ScriptReader
        ensures { result ≡ record { place = 0; pending = [] } }
    {
        ScriptReader {
            alloc,
            buffer: Vec::new(alloc),
            start: 0,
            scanned: 0,
            place: 0,
        }
    }

    fn place(&self) -> u64
        ensures value { result ≡ self.now.place }
        ensures within { result ≤ longest }
    {
        self.place
    }

    fn pending(&self) -> usize
        ensures { result ≡ length self.now.pending }
    {
        self.buffer.len() - self.start
    }

    fn bytes(&self) -> &[u8]
        ensures { result.now ≡ self.now.pending }
    {
        &self.buffer[self.start..]
    }

    // Gives up the room of what was taken.
    fn forget_taken(&mut self)
        ensures { self.new ≡ self.old }
    {
        if self.start > 0 {
            let _ = self.buffer.drain(..self.start);
            self.scanned -= self.start;
            self.start = 0;
        }
    }

    // Where the first line feed is pending. Each byte is looked at once.
    fn line_feed(&mut self) -> Option<usize>
        ensures same { self.new ≡ self.old }
        ensures found { MatchOption result (HasNone 10 self.new.pending) (IsLine self.new.pending) }
    {
        match feed_from(&self.buffer, self.scanned) {
            Some(place) => {
                self.scanned = place;
                Some(place - self.start)
            }
            None => {
                self.scanned = self.buffer.len();
                None
            }
        }
    }

    // Takes so many of the bytes that are pending.
    fn skip(&mut self, count: usize)
        requires within { count ≤ length self.old.pending }
        requires script { self.old.place + count ≤ longest }
        ensures { self.new ≡ record { place = self.old.place + count; pending = drop count self.old.pending } }
    {
        self.start += count;
        self.place += count as u64;
        self.scanned = self.start;
    }
}

impl ScriptReader {
    // Reads a piece of the source behind what is pending, and answers how many bytes it has.
    fn fill<S: Source>(&mut self, source: &mut S) -> Result<usize, ReadError>
        ensures taken { Takes self.old self.new (S.left source.old) (S.left source.new) [] }
        ensures count { IfOk result (λ n. length self.new.pending ≡ length self.old.pending + n) }
        ensures end { IfOk result (λ n. n ≡ 0 → IsAtEnd (S.left source.new) × (S.ended source.new ≡ true)) }
        ensures kept { OnErr result (self.new ≡ self.old) }
        ensures read { result ≡ Err ReadError.Failed → Rose (S.faults source.old) (S.faults source.new) }
        ensures later { S.faults source.old ≤ S.faults source.new }
    {
        self.forget_taken();
        read_piece(&mut self.buffer, source)
    }

    // The length of the line that is pending, without its line feed. There is none where the input ends before
    // a line feed, and where more is pending than the longest line has.
    fn line<S: Source>(&mut self, source: &mut S) -> Result<Option<usize>, ReadError>
        ensures taken { Takes self.old self.new (S.left source.old) (S.left source.new) [] }
        ensures found { IfOk result (λ found. MatchOption found (IsUnfinished self.new.pending (S.left source.new)) (IsLine self.new.pending)) }
        ensures read { result ≡ Err ReadError.Failed → Rose (S.faults source.old) (S.faults source.new) }
        ensures unbroken { result ≡ Err ReadError.Failed → HasNone 10 self.new.pending × (length self.new.pending ≤ longest_line) }
        ensures later { S.faults source.old ≤ S.faults source.new }
    {
        'pieces: loop {
            if let Some(length) = self.line_feed() {
                return Ok(Some(length));
            }
            if self.pending() > LONGEST_LINE {
                return Ok(None);
            }
            if self.fill(source)? == 0 {
                return Ok(None);
            }
        }
    }

    // Takes the last line, if the input ends behind it.
    fn end<S: Source>(&mut self, source: &mut S) -> Result<Taken, ScriptFault>
        requires is { EndStands self.old }
        ensures taken { Takes self.old self.new (S.left source.old) (S.left source.new) (taken_line result) }
        ensures answer { Answers self.new (S.left source.new) (S.ended source.new) result }
        ensures read { result ≡ Err ScriptFault.Read → Rose (S.faults source.old) (S.faults source.new) }
        ensures later { S.faults source.old ≤ S.faults source.new }
    {
        let behind = self.place() + 4;
        if self.pending() > 4 {
            return Err(ScriptFault::Malformed { place: behind });
        }
        match self.fill(source) {
            Ok(0) => {
                self.skip(4);
                Ok(Taken::End)
            }
            Ok(_) => Err(ScriptFault::Malformed { place: behind }),
            Err(ReadError::Failed) => Err(ScriptFault::Read),
            Err(ReadError::NoMemory) => Err(ScriptFault::NoMemory),
        }
    }

    // Takes the line that is pending, of so many bytes before its line feed.
    fn take_line<S: Source>(&mut self, length: usize, source: &mut S) -> Result<Taken, ScriptFault>
        requires is { IsLine self.old.pending length }
        ensures taken { Takes self.old self.new (S.left source.old) (S.left source.new) (taken_line result) }
        ensures answer { Answers self.new (S.left source.new) (S.ended source.new) result }
        ensures read { result ≡ Err ScriptFault.Read → Rose (S.faults source.old) (S.faults source.new) }
        ensures later { S.faults source.old ≤ S.faults source.new }
    {
        let malformed = ScriptFault::Malformed {
            place: self.place(),
        };
        if length as u64 >= LONGEST_SCRIPT - self.place() {
            return Err(malformed);
        }
        let (line, _) = self.bytes().split_at(length);
        if let Some(event) = event(self.alloc, line)? {
            self.skip(length + 1);
            return Ok(Taken::Event(event));
        }
        if line == b"end".as_slice() {
            return self.end(source);
        }
        Err(malformed)
    }

    /// Whether a line is pending whole that isn't the last one. Then the next call of [`ScriptReader::take_event`]
    /// reads nothing.
    pub fn is_ready(&mut self) -> bool
        ensures same { self.new ≡ self.old }
        ensures ready { result ≡ true → HasEventLine self.new.pending }
    {
        match self.line_feed() {
            Some(length) => {
                let (line, _) = self.bytes().split_at(length);
                line != b"end".as_slice()
            }
            None => false,
        }
    }

    /// Takes the next event, or the end of the script. It reads as far as it must to know.
    ///
    /// After `NoMemory` nothing is lost, and the next call goes on. After `Malformed` and `Read` what was read
    /// and not taken is still there.
    pub fn take_event<S: Source>(&mut self, source: &mut S) -> Result<Taken, ScriptFault>
        ensures taken { Takes self.old self.new (S.left source.old) (S.left source.new) (taken_line result) }
        ensures answer { Answers self.new (S.left source.new) (S.ended source.new) result }
        ensures read { result ≡ Err ScriptFault.Read → Rose (S.faults source.old) (S.faults source.new) }
        ensures later { S.faults source.old ≤ S.faults source.new }
    {
        match self.line(source) {
            Ok(Some(length)) => self.take_line(length, source),
            Ok(None) => Err(ScriptFault::Malformed {
                place: self.place(),
            }),
            Err(ReadError::Failed) => Err(ScriptFault::Read),
            Err(ReadError::NoMemory) => Err(ScriptFault::NoMemory),
        }
    }
}
