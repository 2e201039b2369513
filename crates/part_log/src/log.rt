ghost use Rattle.std.specs.Prelude.{◌≡◌, ◌≢◌, ◌⊎◌, ◌↔◌, ◌+◌, ◌<◌, ◌≤◌, ◌^◌, ◌++◌, [], ◌∷◌, ℕ, List, length, map, max};
ghost use Rattle.std.specs.Prelude.{Some, None, IsOk, IfOk, IfErr, OnOk, OnErr, Err, MatchOption, MatchResult};
ghost use Rattle.std.specs.declared.option.Option.{Option};
ghost use Rattle.share_model.specs.declared.fault.BatchFault.{BatchFault};
ghost use Rattle.share_model.specs.declared.fault.LogFault.{LogFault};
ghost use Rattle.edge_io.specs.Armed.{ArmsAlone, RunsOn, StarvesUnarmed};
ghost use Rattle.edge_io.specs.Causes.{Rose};
ghost use Rattle.edge_io.specs.Counting.{MakesUpTo};
ghost use Rattle.edge_io.specs.Disk.{IsTold};
ghost use Rattle.edge_io.specs.Moments.{Elapses, LeavesOnly};
ghost use Rattle.gate_journal.specs.Frames.{StandsAs, StandsFor, blocks, frame_in};
ghost use Rattle.gate_journal.specs.Journals.{IsQuiet};
ghost use Rattle.rec_batch.specs.Batches.{IsFirstFault};
ghost use Rattle.rec_batch.specs.Placing.{placed};
ghost use Rattle.share_model.specs.Logs.{Batch, IsAt, end_of};
ghost use Rattle.part_log.specs.Starts.{IsNextSlotOf, IsSlotOf, Log, LogWrite};
ghost use Rattle.part_log.specs.Starts.LogWrite.{Adds, Marks};
ghost use Rattle.share_model.specs.Rooms.{Appends, Reserves};
ghost use Rattle.log_index.specs.Indexes.{FillsWithin};
ghost use Rattle.part_log.specs.Batches.{IsStored, batch_in};
ghost use Rattle.part_log.specs.Logs.{IsLogText, IsNoLogText, Keeps, log_in};
ghost use Rattle.part_log.specs.Shards.{CarriesLog, LogShardState, StepsLog, StepsRaise};

use crate::entry::{inner, mark_buffer, placed_copy};
use crate::fault::OpenFault;
use crate::reading::{LogRead, Reader};
use edge_io::{Disk, FaultMode};
use gate_journal::{Journal, SeenFrames, StartFault, buffer_of, start_each};
use log_index::LogIndex;
use rec_batch::{Form, read_batch};
use share_model::{BatchPlace, BatchRead, LogFault, Room, StoreFault};
use std::alloc::Global;
use std::marker::Model;

const OFFSETS: u64 = 1 << 62;

/// The log of a partition: a list of record batches on a disk, which grows by one batch at a time and survives a
/// crash at any moment; and a start, below which its records are deleted.
///
/// A contract sees its batches, each with its first and last offset, the offsets of its records and its bytes, its
/// start, and beside them the writing end of its journal. Each batch stands in one frame of the journal, and each new
/// start in a mark of eight bytes, its last one being the start; no space is given back. In memory are the offsets,
/// the size and the place of each batch, and the bytes of the 64 that were read last.
#[derive(Drop)]
pub struct PartLog<D: Disk> {
    alloc: Global,
    journal: Journal<D>,
    index: LogIndex,
    start: u64,
    end: u64,
    seen: SeenFrames,
}

impl<D: Disk> Model for PartLog<D> {
    ghost use Rattle.part_log.specs.Logs.{LogParts};
    ghost use Rattle.part_log.specs.Holding.{HoldsLog, batches_of};

    ghost Value = { LogParts D };

    ghost view = { λ l. record { batches = batches_of l.seen.frames; start = l.start; journal = l.journal } };

    ghost invariant = { λ l. HoldsLog D.seen l.seen.frames l.index l.journal l.start l.end };
}

// The disk of a journal was not opened.
fn open_fault(fault: StartFault) -> OpenFault
    ensures damaged { (place : ℕ) → result ≡ OpenFault.Damaged place → fault ≡ StartFault.Damaged place }
    ensures device { result ≡ OpenFault.Device → fault ≡ StartFault.Device }
{
    match fault {
        StartFault::Damaged { place } => OpenFault::Damaged { place },
        StartFault::Device => OpenFault::Device,
        StartFault::NoMemory => OpenFault::NoMemory,
    }
}

// The last offset of a batch, if it is below 2^62.
fn last_offset(base: u64, last_delta: u32) -> Option<u64>
    requires { base ≤ 2 ^ 62 }
    ensures { MatchOption result (2 ^ 62 ≤ base + last_delta) (λ last. (last ≡ base + last_delta) × (last < 2 ^ 62)) }
{
    let last = base + u64::from(last_delta);
    if last < OFFSETS { Some(last) } else { None }
}

impl<D: Disk> PartLog<D> {
    ghost use Rattle.part_log.specs.Logs.{AddsOnce, IsAdded, IsPlaceOf, IsRaised, IsUnwritten, IsWithin, MayFollow, LogParts};
    ghost use Rattle.part_log.specs.Logs.{MayStartAt, OnlyReads, RaisesOnce};

    /// Opens the log of a disk: reads the batches and the start that its content stands for, in time linear in the
    /// content.
    ///
    /// It syncs first, so that what it reads is what a crash would leave, and repairs the end of the journal. It reads
    /// in pieces, and keeps of a batch its offsets, its size and its place. At an `Err` the disk comes back.
    pub fn open(alloc: Global, disk: D) -> Result<PartLog<D>, (D, OpenFault)>
        // The log is the one that the content stands for; each image stands for it from now on, and nothing is pending.
        ensures kept { IfOk result (λ log. Keeps D.seen log None) }
        ensures opens { IfOk result (λ log. (c : List ℕ) → (D.seen disk).content ≡ Some c → IsLogText c (log_in log)) }

        // Its journal ends with a gate, behind the frames of the content.
        ensures ends { IfOk result (λ log. (c : List ℕ) (frames : List (List ℕ)) → (D.seen disk).content ≡ Some c →
            StandsFor c frames → log.journal.end ≡ length (blocks frames) + 1) }

        // A content that stands for a log is never damaged, and gives this log.
        ensures recovers { (c : List ℕ) (is : Log) → (D.seen disk).content ≡ Some c → IsLogText c is →
            MatchResult result (λ log. log_in log ≡ is) (λ e. (place : ℕ) → e.1 ≢ OpenFault.Damaged place) }

        // Each refusal has its cause.
        ensures damaged { IfErr result (λ e. (place : ℕ) → e.1 ≡ OpenFault.Damaged place →
            (c : List ℕ) → (D.seen disk).content ≡ Some c → IsNoLogText c place) }
        ensures device { IfErr result (λ e. e.1 ≡ OpenFault.Device →
            Rose (D.seen disk).faults (D.seen e.0).faults × StarvesUnarmed D.seen disk e.0) }

        // At each moment since the call began each image is one from before it, or stands for the frames of one.
        ensures any_moment { MatchResult result (λ log. LeavesOnly D.seen disk log.journal.disk (StandsAs (D.seen disk).image))
            (λ e. LeavesOnly D.seen disk e.0 (StandsAs (D.seen disk).image)) }
        ensures runs { MatchResult result (λ log. RunsOn D.seen disk log.journal.disk)
            (λ e. RunsOn D.seen disk e.0) }
    {
        let Ok(mut reader) = Reader::new(alloc) else {
            return Err((disk, OpenFault::NoMemory));
        };
        match start_each(alloc, disk, &mut reader) {
            Ok(journal) => match reader.finish() {
                Ok(read) => {
                    let LogRead {
                        index,
                        start,
                        end,
                        seen,
                    } = read;
                    Ok(PartLog {
                        alloc,
                        journal,
                        index,
                        start,
                        end,
                        seen,
                    })
                }
                Err(place) => Err((journal.into_disk(), OpenFault::Damaged { place })),
            },
            Err((disk, fault)) => Err((disk, open_fault(fault))),
        }
    }

    // Writes the batch in a buffer, which may stand behind the others.
    fn store(&mut self, base: u64, last: u64, mut buffer: Vec<u8>) -> Result<u64, LogFault>
        requires size { 66 ≤ length buffer.items }
        requires follows { MayFollow self.old.batches (batch_in (frame_in buffer.items)) }
        requires base { base ≡ (batch_in (frame_in buffer.items)).base }
        requires last { last ≡ (batch_in (frame_in buffer.items)).last }
        ensures ok { OnOk result (IsAdded D.seen self.old self.new (batch_in (frame_in buffer.items))) }
        ensures quiet { OnOk result (IsQuiet D.seen self.old.journal.disk self.new.journal.disk) }
        ensures base { IfOk result (λ n. n ≡ base) }
        ensures device { result ≡ Err (LogFault.Store StoreFault.Device) →
            IsUnwritten D.seen self.old self.new (Adds (batch_in (frame_in buffer.items)))
            × Rose (D.seen self.old.journal.disk).faults (D.seen self.new.journal.disk).faults
            × StarvesUnarmed D.seen self.old.journal.disk self.new.journal.disk }
        ensures unchanged { (fault : LogFault) → result ≡ Err fault → fault ≢ LogFault.Store StoreFault.Device → self.new ≡ self.old }
        ensures full { (end : ℕ) → result ≡ Err (LogFault.Store (StoreFault.Full end)) →
            (2 ^ 62 < self.old.journal.end + length buffer.items) × (end ≡ self.old.journal.end) }
        ensures room { (result ≡ Err LogFault.NoMemory) ⊎ ((self.old.journal.end + length buffer.items ≤ 2 ^ 62)
            ⊎ (result ≡ Err (LogFault.Store (StoreFault.Full self.old.journal.end)))) }
        ensures no_batch { (fault : BatchFault) → result ≢ Err (LogFault.Batch fault) }
        ensures no_behind { (end : ℕ) → result ≢ Err (LogFault.Behind end) }
        ensures any_moment { (pending : Option LogWrite) → Keeps D.seen self.old pending →
            LeavesOnly D.seen self.old.journal.disk self.new.journal.disk
            (IsWithin (log_in self.old) pending (Adds (batch_in (frame_in buffer.items)))) }
        ensures runs { RunsOn D.seen self.old.journal.disk self.new.journal.disk }
    {
        if let Err(_) = self.index.reserve() {
            return Err(LogFault::NoMemory);
        }
        let place = self.journal.last_gate();
        match self.journal.append(&mut buffer) {
            Ok(_) => {
                let frame = inner(&buffer);
                if let Err(_) = self.index.push(base, last, frame.len() as u32, place) {
                    unreachable!()
                }
                self.seen = self.seen.with(&place, frame);
                self.end = last + 1;
                Ok(base)
            }
            Err(fault) => Err(LogFault::Store(fault)),
        }
    }

    // Writes a mark.
    fn mark(&mut self, start: u64) -> Result<(), StoreFault>
        requires follows { MayStartAt (log_in self.old) start }
        ensures ok { OnOk result (IsRaised D.seen self.old self.new start) }
        ensures quiet { OnOk result (IsQuiet D.seen self.old.journal.disk self.new.journal.disk) }
        ensures device { result ≡ Err StoreFault.Device → IsUnwritten D.seen self.old self.new (Marks start)
            × Rose (D.seen self.old.journal.disk).faults (D.seen self.new.journal.disk).faults
            × StarvesUnarmed D.seen self.old.journal.disk self.new.journal.disk }
        ensures full { (end : ℕ) → (result ≡ Err (StoreFault.Full end))
            ↔ ((end ≡ self.old.journal.end) × (2 ^ 62 < self.old.journal.end + 13)) }
        ensures unchanged { (end : ℕ) → result ≡ Err (StoreFault.Full end) → self.new ≡ self.old }
        ensures any_moment { (pending : Option LogWrite) → Keeps D.seen self.old pending →
            LeavesOnly D.seen self.old.journal.disk self.new.journal.disk
            (IsWithin (log_in self.old) pending (Marks start)) }
        ensures runs { RunsOn D.seen self.old.journal.disk self.new.journal.disk }
    {
        let mut buffer = mark_buffer(start);
        let gate = self.journal.last_gate();
        match self.journal.append(&mut buffer) {
            Ok(_) => {
                self.seen = self.seen.with(&gate, inner(&buffer));
                self.start = start;
                Ok(())
            }
            Err(fault) => Err(fault),
        }
    }

    // Adds a batch as a producer sends it, at the log's end and with leader epoch 0.
    fn add(&mut self, batch: &[u8]) -> Result<u64, LogFault>
        // What isn't a batch is refused with its first fault.
        ensures batch { (fault : BatchFault) → (result ≡ Err (LogFault.Batch fault)) ↔ IsFirstFault Form.Produced batch.now fault }
        ensures behind { (end : ℕ) → result ≢ Err (LogFault.Behind end) }

        // Any other is added at the log's end, or refused with its cause.
        ensures base { IfOk result (λ base. base ≡ end_of self.old.batches) }
        ensures below { IfOk result (λ base. base ≤ 2 ^ 62) }
        ensures once { AddsOnce D.seen self.old self.new
            (batch_in (placed (end_of self.old.batches) batch.now)) result }
        ensures runs { RunsOn D.seen self.old.journal.disk self.new.journal.disk }
    {
        let view = match read_batch(batch, Form::Produced) {
            Ok(view) => view,
            Err(fault) => return Err(LogFault::Batch(fault)),
        };
        let base = self.end();
        let Some(last) = last_offset(base, view.last_delta) else {
            return Err(LogFault::Store(StoreFault::Full { end: base }));
        };
        let Ok(buffer) = placed_copy(self.alloc, batch, base) else {
            return Err(LogFault::NoMemory);
        };
        self.store(base, last, buffer)
    }

    /// Adds a batch as a producer sends it, at the log's end and with leader epoch 0, and answers its base.
    ///
    /// What isn't a batch in the produced form is refused with its first fault. Where its last offset would be 2^62
    /// or more, it is refused as full with the log's end, and where the journal has no room with the journal's. At
    /// `Device` the batch is pending, or the one that was pending still is; at each other refusal nothing is changed.
    /// It makes one copy of the batch, which is then kept, and one device write for it.
    pub fn append(&mut self, batch: &[u8]) -> Result<u64, LogFault>
        // What isn't a batch is refused with its first fault.
        ensures batch { (fault : BatchFault) → (result ≡ Err (LogFault.Batch fault)) ↔ IsFirstFault Form.Produced batch.now fault }
        ensures behind { (end : ℕ) → result ≢ Err (LogFault.Behind end) }

        // Any other is added at the log's end, or refused with its cause.
        ensures base { IfOk result (λ base. base ≡ end_of self.old.batches) }
        ensures below { IfOk result (λ base. base ≤ 2 ^ 62) }
        ensures once { AddsOnce D.seen self.old self.new
            (batch_in (placed (end_of self.old.batches) batch.now)) result }
        ensures runs { RunsOn D.seen self.old.journal.disk self.new.journal.disk }

        // It is a step of the log's shard, where memory is found.
        ensures steps { result ≢ Err LogFault.NoMemory → (shard : LogShardState) → CarriesLog D.seen self.old shard → (after : LogShardState)
            × CarriesLog D.seen self.new after
            × StepsLog (Rose (D.seen self.old.journal.disk).faults (D.seen self.new.journal.disk).faults) self.old.journal.end shard batch.now result after }
    {
        self.add(batch)
    }

    /// Adds a batch as a log keeps it, with the base that it has and all its bytes, and answers its base.
    ///
    /// What isn't a batch in the stored form is refused with its first fault, and one whose base is below the log's
    /// end with that end. The other refusals, and what stands after each, are those of `append`.
    pub fn load(&mut self, batch: &[u8]) -> Result<u64, LogFault>
        // What isn't a batch is refused with its first fault, and what begins below the log's end with that end.
        ensures batch { (fault : BatchFault) → (result ≡ Err (LogFault.Batch fault)) ↔ IsFirstFault Form.Stored batch.now fault }
        ensures behind { (end : ℕ) → (result ≡ Err (LogFault.Behind end)) ↔ ((end ≡ end_of self.old.batches)
            × IsStored (batch_in batch.now) × ((batch_in batch.now).base < end_of self.old.batches)) }

        // Any other is added as it is, or refused with its cause.
        ensures once { AddsOnce D.seen self.old self.new (batch_in batch.now) result }
        ensures fits { (end : ℕ) → result ≡ Err (LogFault.Store (StoreFault.Full end)) → MayFollow self.old.batches (batch_in batch.now) }
        ensures runs { RunsOn D.seen self.old.journal.disk self.new.journal.disk }
    {
        let view = match read_batch(batch, Form::Stored) {
            Ok(view) => view,
            Err(fault) => return Err(LogFault::Batch(fault)),
        };
        let end = self.end();
        if view.base < end {
            return Err(LogFault::Behind { end });
        }
        let Ok(buffer) = buffer_of(self.alloc, batch) else {
            return Err(LogFault::NoMemory);
        };
        self.store(view.base, view.base + u64::from(view.last_delta), buffer)
    }

    /// Deletes the records below an offset above the log's start, and at most its end: from now on the log starts
    /// there. It writes a mark, and takes no memory.
    ///
    /// At `Device` the log starts where it did, and the mark is pending, or the write that was pending still is. At
    /// `Full` the journal has no room for the mark, and nothing is changed.
    pub fn raise(&mut self, to: u64) -> Result<(), StoreFault>
        requires above { self.old.start < to }
        requires within { to ≤ end_of self.old.batches }
        ensures once { RaisesOnce D.seen self.old self.new to result }
        ensures runs { RunsOn D.seen self.old.journal.disk self.new.journal.disk }

        // It is a step of the log's shard.
        ensures steps { (shard : LogShardState) → CarriesLog D.seen self.old shard →
            (after : LogShardState) × CarriesLog D.seen self.new after
            × StepsRaise (Rose (D.seen self.old.journal.disk).faults (D.seen self.new.journal.disk).faults)
            self.old.journal.end shard to result after }
    {
        self.mark(to)
    }

    /// The least slot from an offset on, found in the logarithm of the number of batches.
    pub fn next_slot(&self, from: u64) -> Option<u64>
        ensures { IsNextSlotOf (log_in self.now) from result }
    {
        self.index.next_slot(from.max(self.start))
    }

    /// The batch that covers a slot, found in the logarithm of the number of batches. `None` where the offset is none.
    pub fn batch_of(&self, offset: u64) -> Option<BatchPlace>
        ensures { MatchOption result (IsSlotOf (log_in self.now) offset → ⊥)
            (λ place. (self.now.start ≤ offset) × IsPlaceOf self.now.batches offset place) }
    {
        if offset < self.start {
            return None;
        }
        self.index.batch_of(offset)
    }

    /// The number of batches.
    pub fn len(&self) -> u64
        ensures { result ≡ length self.now.batches }
    {
        self.index.len()
    }

    /// The offset at which the log starts: 0, or where it was raised to last.
    pub fn start(&self) -> u64
        ensures value { result ≡ self.now.start }
        ensures within { result ≤ end_of self.now.batches }
    {
        self.start
    }

    /// The offset behind the last one that a batch covers, or 0.
    pub fn end(&self) -> u64
        ensures end { result ≡ end_of self.now.batches }
        ensures below { result ≤ 2 ^ 62 }
    {
        self.end
    }

    /// Appends the bytes of the batch with this number, from 0 on, to a room. The bytes of the 64 batches that were
    /// read last are kept; those of another are read from the disk by two device calls, of which the first that fails
    /// is the last.
    ///
    /// The answer doesn't depend on what is kept, but for `Device`. It finds no memory only where the spare number of
    /// the room is below the number of bytes. After a refusal the room has the bytes that it had, and its spare number
    /// is no smaller.
    pub fn batch_bytes(&mut self, number: u64, out: &mut Room) -> Result<(), BatchRead>
        requires { number < length self.old.batches }

        // At Ok the bytes of that batch stand behind those of the room, where the disk tells its content. In any case
        // no more bytes than it has do.
        ensures ok { OnOk result (IsTold (D.seen self.old.journal.disk).content →
            (b : Batch) → IsAt self.old.batches number b → Appends out.old out.new b.bytes) }
        ensures extends { OnOk result ((b : Batch) → IsAt self.old.batches number b →
            FillsWithin (length b.bytes) out.old out.new) }
        ensures err { OnErr result (Reserves out.old out.new 0) }
        ensures spared { (b : Batch) → IsAt self.old.batches number b → length b.bytes ≤ out.old.spare →
            result ≢ Err BatchRead.NoMemory }

        // Nothing is changed in the log, and a device fault comes only where a call failed.
        ensures log { OnlyReads D.seen self.old self.new }
        ensures disk { MakesUpTo D.seen 2 self.old.journal.disk self.new.journal.disk (result ≡ Err BatchRead.Device) }
    {
        self.index.read(&mut self.journal, number, out)
    }

    /// Whether a call of its disk has failed for want of memory.
    pub fn starved(&self) -> bool
        ensures { result ≡ (D.seen self.now.journal.disk).starved }
    {
        self.journal.starved()
    }

    /// The count of faults of its disk.
    pub fn faults(&self) -> u64
        ensures { result ≡ (D.seen self.now.journal.disk).faults }
    {
        self.journal.faults()
    }

    /// Arms a fault of its disk, and changes nothing else.
    pub fn arm(&mut self, after: u64, mode: FaultMode)
        ensures disk { ArmsAlone D.seen after mode self.old.journal.disk self.new.journal.disk }
        ensures time { Elapses (D.seen self.old.journal.disk) (D.seen self.new.journal.disk) }
        ensures rest { self.new ≡ record self.old { journal = record self.old.journal { disk = self.new.journal.disk } } }
        ensures stays { (pending : Option LogWrite) → Keeps D.seen self.old pending → Keeps D.seen self.new pending }
    {
        self.journal.arm(after, mode);
    }

    /// Gives the disk back.
    pub fn into_disk(self) -> D
        ensures { result ≡ self.journal.disk }
    {
        let PartLog { journal, .. } = self;
        journal.into_disk()
    }
}
