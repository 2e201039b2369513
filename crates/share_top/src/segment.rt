// A segment, read from a source: record batches one after another, each of which says in its header how long it is.
ghost use Rattle.std.specs.Prelude.{◌≡◌, ◌<◌, ◌≤◌, ◌+◌, [], ℕ, List, length, take, drop, IfOk, OnErr, MatchOption, Err, true, vec_len};
ghost use Rattle.std.specs.Io.KnownBytes.{Consumes, IsAtEnd};
ghost use Rattle.edge_io.specs.Causes.{Rose};
ghost use Rattle.edge_io.specs.Streams.{Gains};
ghost use Rattle.session_script.specs.Script.{longest};
ghost use Rattle.session_script.specs.Reading.{Takes};
ghost use Rattle.rec_batch.specs.Fields.{batch_length};
ghost use Rattle.share_top.specs.SegmentReading.{IsSize, IsNoSize, IsFilled, Answers};

use edge_io::{ReadError, Source};
use std::alloc::Global;
use std::marker::Model;

/// How many bytes a read asks for.
const PIECE: usize = 8192;

/// Where the length field of a batch begins, and where it ends. It counts the bytes behind it.
const LENGTH: usize = 8;

const LENGTH_END: usize = 12;

/// The fewest bytes of a batch, which are its header, and the most.
const LEAST: i64 = 61;

const MOST: i64 = 1_048_588;

/// Where a segment may end, in bytes.
const LONGEST_SEGMENT: u64 = 1 << 62;

/// What stands at the front of what is still to come.
#[derive(Clone, Copy)]
pub enum Front {
    /// As many bytes as a batch's header says, and all of them are there.
    Batch { size: usize },
    /// Nothing: the input ended.
    End,
}

/// Why nothing was found.
#[derive(Clone, Copy)]
pub enum SegmentFault {
    /// Something stands there that is no whole batch.
    Refused,
    /// The source failed.
    Read,
    /// No memory was found.
    NoMemory,
}

/// Reads the batches of a segment one after another. It keeps what the source gave and no batch has taken, in one
/// buffer.
#[derive(Drop)]
pub struct SegmentReader {
    buffer: Vec<u8>,
    // where what is pending begins
    start: usize,
    // of the byte at `start`, in the segment
    place: u64,
}

impl Model for SegmentReader {
    ghost use Rattle.std.specs.Prelude.{drop};
    ghost use Rattle.session_script.specs.Unread.{Unread};
    ghost use Rattle.share_top.specs.SegmentReading.{IsHeld};

    ghost Value = { Unread };

    ghost view = { λ r. record { place = r.place; pending = drop r.start r.buffer.items } };

    ghost invariant = { λ r. IsHeld r.buffer.items r.start r.place };
}

// Puts what one read gives behind the bytes of `buffer`.
#[tactic(auto, using(crate::proofs::SegmentReads::keeps_consumes, crate::proofs::SegmentReads::same_consumes))]
fn read_piece<S: Source>(buffer: &mut Vec<u8>, source: &mut S) -> Result<usize, ReadError>
    ensures given { Gains (S.left source.old) (S.left source.new) buffer.old.items buffer.new.items }
    ensures count { IfOk result (λ n. vec_len buffer.new ≡ vec_len buffer.old + n) }
    ensures kept { OnErr result (buffer.new.items ≡ buffer.old.items) }
    ensures end { IfOk result (λ n. n ≡ 0 → IsAtEnd (S.left source.new) × (S.ended source.new ≡ true)) }
    ensures read { result ≡ Err ReadError.Failed → Rose (S.faults source.old) (S.faults source.new) }
    ensures later { S.faults source.old ≤ S.faults source.new }
{
    buffer.reserve(PIECE)?;
    let mut piece = [0; PIECE];
    let Ok(count) = source.read(&mut piece) else {
        return Err(ReadError::Failed);
    };
    let (given, _) = piece.split_at(count);
    if buffer.extend_from_slice(given).is_err() {
        unreachable!()
    }
    Ok(count)
}

// The length field of a batch.
fn length_field(header: &[u8]) -> i32
    requires { 12 ≤ length header.now }
    ensures { result ≡ batch_length header.now }
{
    let (_, field) = header.split_at(LENGTH);
    i32::from_be_bytes([field[0], field[1], field[2], field[3]])
}

// The size that the length field says, if a batch may have it.
fn batch_size(header: &[u8]) -> Option<usize>
    requires { 12 ≤ length header.now }
    ensures { MatchOption result (IsNoSize header.now) (IsSize header.now) }
{
    let size = i64::from(length_field(header)) + LENGTH_END as i64;
    if size < LEAST || size > MOST {
        return None;
    }
    Some(size as usize)
}

impl SegmentReader {
    /// A reader at the front of a segment.
    pub fn new(alloc: Global) -> SegmentReader
        ensures { result ≡ record { place = 0; pending = [] } }
    {
        SegmentReader {
            buffer: Vec::new(alloc),
            start: 0,
            place: 0,
        }
    }

    /// The place of the first byte that no batch has taken.
    pub fn place(&self) -> u64
        ensures value { result ≡ self.now.place }
        ensures within { result ≤ longest }
    {
        self.place
    }

    fn pending(&self) -> usize
        ensures { result ≡ length self.now.pending }
    {
        self.buffer.len() - self.start
    }

    fn bytes(&self) -> &[u8]
        ensures { result.now ≡ self.now.pending }
    {
        &self.buffer[self.start..]
    }

    /// So many of the bytes that are pending.
    pub fn first(&self, count: usize) -> &[u8]
        requires { count ≤ length self.now.pending }
        ensures { result.now ≡ take count self.now.pending }
    {
        let (first, _) = self.bytes().split_at(count);
        first
    }

    // Gives up the room of what was taken.
    fn forget_taken(&mut self)
        ensures { self.new ≡ self.old }
    {
        if self.start > 0 {
            let _ = self.buffer.drain(..self.start);
            self.start = 0;
        }
    }

    /// Takes so many of the bytes that are pending.
    pub fn skip(&mut self, count: usize)
        requires within { count ≤ length self.old.pending }
        requires segment { self.old.place + count ≤ longest }
        ensures { self.new ≡ record { place = self.old.place + count; pending = drop count self.old.pending } }
    {
        self.start += count;
        self.place += count as u64;
    }
}

impl SegmentReader {
    // Reads a piece of the source behind what is pending, and answers how many bytes it has.
    fn fill<S: Source>(&mut self, source: &mut S) -> Result<usize, ReadError>
        ensures taken { Takes self.old self.new (S.left source.old) (S.left source.new) [] }
        ensures count { IfOk result (λ n. length self.new.pending ≡ length self.old.pending + n) }
        ensures end { IfOk result (λ n. n ≡ 0 → IsAtEnd (S.left source.new) × (S.ended source.new ≡ true)) }
        ensures kept { OnErr result (self.new ≡ self.old) }
        ensures read { result ≡ Err ReadError.Failed → Rose (S.faults source.old) (S.faults source.new) }
        ensures later { S.faults source.old ≤ S.faults source.new }
    {
        self.forget_taken();
        read_piece(&mut self.buffer, source)
    }

    // Reads until so many bytes are pending. False where the source ends before.
    fn fill_to<S: Source>(&mut self, count: usize, source: &mut S) -> Result<bool, ReadError>
        requires { count ≤ 1048588 }
        ensures taken { Takes self.old self.new (S.left source.old) (S.left source.new) [] }
        ensures filled { IfOk result (IsFilled count self.new (S.left source.new) (S.ended source.new)) }
        ensures read { result ≡ Err ReadError.Failed → Rose (S.faults source.old) (S.faults source.new) × (length self.new.pending < count) }
        ensures later { S.faults source.old ≤ S.faults source.new }
    {
        'pieces: loop {
            if self.pending() >= count {
                return Ok(true);
            }
            if self.fill(source)? == 0 {
                return Ok(false);
            }
        }
    }

    // Finds the batch whose length field is pending.
    fn sized_front<S: Source>(&mut self, source: &mut S) -> Result<Front, SegmentFault>
        requires { 12 ≤ length self.old.pending }
        ensures taken { Takes self.old self.new (S.left source.old) (S.left source.new) [] }
        ensures answer { Answers self.new (S.left source.new) (S.ended source.new) result }
        ensures read { result ≡ Err SegmentFault.Read → Rose (S.faults source.old) (S.faults source.new) }
        ensures later { S.faults source.old ≤ S.faults source.new }
    {
        let Some(size) = batch_size(self.bytes()) else {
            return Err(SegmentFault::Refused);
        };
        if size as u64 > LONGEST_SEGMENT - self.place() {
            return Err(SegmentFault::Refused);
        }
        match self.fill_to(size, source) {
            Ok(true) => Ok(Front::Batch { size }),
            Ok(false) => Err(SegmentFault::Refused),
            Err(ReadError::Failed) => Err(SegmentFault::Read),
            Err(ReadError::NoMemory) => Err(SegmentFault::NoMemory),
        }
    }

    /// Finds the batch at the front of what is still to come, whose bytes are pending then, or the end of the
    /// segment. It reads as far as it must to know, and never more for a batch than one may have.
    pub fn front<S: Source>(&mut self, source: &mut S) -> Result<Front, SegmentFault>
        ensures taken { Takes self.old self.new (S.left source.old) (S.left source.new) [] }
        ensures answer { Answers self.new (S.left source.new) (S.ended source.new) result }
        ensures read { result ≡ Err SegmentFault.Read → Rose (S.faults source.old) (S.faults source.new) }
        ensures later { S.faults source.old ≤ S.faults source.new }
    {
        match self.fill_to(LENGTH_END, source) {
            Ok(true) => self.sized_front(source),
            Ok(false) => {
                if self.pending() == 0 {
                    return Ok(Front::End);
                }
                Err(SegmentFault::Refused)
            }
            Err(ReadError::Failed) => Err(SegmentFault::Read),
            Err(ReadError::NoMemory) => Err(SegmentFault::NoMemory),
        }
    }
}
