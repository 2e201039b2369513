ghost use Rattle.std.specs.Prelude.{◌≡◌, ◌≢◌, ◌⊎◌, ◌+◌, ◌<◌, ◌≤◌, ◌++◌, [], ◌∷◌, ℕ, List, length, MatchOption, IfOk, OnOk, OnErr, IsOk, Err};
ghost use Rattle.edge_io.specs.Counting.{MakesUpTo};
ghost use Rattle.edge_io.specs.Disk.{IsTold};
ghost use Rattle.gate_journal.specs.Reading.{HasFrameAt, ReadsOnly};
ghost use Rattle.share_model.specs.Logs.{IsNextSlot, IsSlot, end_of};
ghost use Rattle.share_model.specs.Rooms.{Appends, Reserves};
ghost use Rattle.log_index.specs.Indexes.{CachesAlso, FillsWithin, IndexParts, Indexes, IsEntryAt, IsPlaceOf, log_of};
ghost use Rattle.log_index.specs.declared.entry.Entry.{Entry};

use crate::cache::{append_frame, append_kept};
use crate::entry::Entry;
use crate::search::{next_slot, place_of};
use edge_io::Disk;
use gate_journal::Journal;
use lru::LruCache;
use share_model::{BatchPlace, BatchRead, Blob, NoMemory, Room};
use std::alloc::Global;
use std::marker::Model;
use std::num::NonZeroUsize;

const CACHED: usize = 64;

/// The batches of a log, without their bytes, and the bytes of those that were read last.
///
/// A contract sees the entries that were pushed, for each cached number the bytes that are cached for it, and how many
/// entries may be pushed with no memory.
#[derive(Drop)]
pub struct LogIndex {
    entries: Vec<Entry>,
    cache: LruCache<u64, Blob>,
}

impl Model for LogIndex {
    ghost use Rattle.std.specs.Prelude.{◌-◌, vec_len, vec_capacity};
    ghost use Rattle.share_model.specs.Logs.{IsLog};
    ghost use Rattle.log_index.specs.Indexes.{IndexParts, log_of};

    ghost Value = { IndexParts };

    ghost view = { λ i. record { entries = i.entries.items; cached = i.cache.entries; spare = vec_capacity i.entries - vec_len i.entries } };

    ghost invariant = { λ i. IsLog (log_of i.entries.items) };
}

impl LogIndex {
    /// An index of no batches, which caches nothing.
    pub fn new(alloc: Global) -> Result<LogIndex, NoMemory>
        ensures { IfOk result (λ i. (i.entries ≡ []) × (i.cached ≡ [])) }
    {
        let Some(most) = NonZeroUsize::new(CACHED) else {
            unreachable!()
        };
        let cache = LruCache::new(alloc, most)?;
        Ok(LogIndex {
            entries: Vec::new(alloc),
            cache,
        })
    }

    /// Sets memory aside for one more batch, so that the next push finds it.
    pub fn reserve(&mut self) -> Result<(), NoMemory>
        ensures ok { OnOk result (1 ≤ self.new.spare) }
        ensures same { (self.new.entries ≡ self.old.entries) × (self.new.cached ≡ self.old.cached) }
    {
        self.entries.reserve(1)?;
        Ok(())
    }

    /// Adds a batch behind the others: its first and last offset, the number of its bytes, and the place of its
    /// frame's gate. Nothing is cached by it. After a refusal, which doesn't come where memory was set aside, there are
    /// the entries that there were.
    pub fn push(&mut self, base: u64, last: u64, size: u32, place: u64) -> Result<(), NoMemory>
        requires order { base ≤ last }
        requires behind { end_of (log_of self.old.entries) ≤ base }
        ensures ok { OnOk result (self.new.entries ≡
            self.old.entries ++ record { base = base; last = last; size = size; place = place } ∷ []) }
        ensures cached { self.new.cached ≡ self.old.cached }
        ensures err { OnErr result (self.new.entries ≡ self.old.entries) }
        ensures spared { 1 ≤ self.old.spare → IsOk result }
    {
        self.entries.push(Entry {
            base,
            last,
            size,
            place,
        })?;
        Ok(())
    }

    /// The number of batches.
    pub fn len(&self) -> u64
        ensures { result ≡ length self.now.entries }
    {
        self.entries.len() as u64
    }

    /// The least slot from an offset on, found in the logarithm of the number of batches.
    pub fn next_slot(&self, from: u64) -> Option<u64>
        ensures { IsNextSlot (log_of self.now.entries) from result }
    {
        next_slot(&self.entries, from)
    }

    /// The batch that covers an offset, found in the logarithm of the number of batches.
    pub fn batch_of(&self, offset: u64) -> Option<BatchPlace>
        ensures { MatchOption result (IsSlot (log_of self.now.entries) offset → ⊥) (IsPlaceOf self.now.entries offset) }
    {
        place_of(&self.entries, offset)
    }

    /// Appends the bytes of the batch with this number, from 0 on, to a room: those that are cached for it, and else
    /// those of its frame, which are then cached, if there is memory for that. The 64 that were read last are cached.
    ///
    /// The answer with the cache is the answer without it. It finds no memory only where the spare number of the room
    /// is below the frame's length. After a refusal the room has the bytes that it had, and its spare number is no
    /// smaller. The entries, the journal's frames and what is pending there stay in any case.
    pub fn read<D: Disk>(
        &mut self,
        journal: &mut Journal<D>,
        number: u64,
        out: &mut Room,
    ) -> Result<(), BatchRead>
        requires number { number < length self.old.entries }
        requires fits { Indexes D.seen self.old journal.old }

        // At Ok the frame at the place of that entry stands behind the bytes of the room, where the disk tells its
        // content. In any case no more bytes than the frame has do.
        ensures ok { OnOk result (IsTold (D.seen journal.old.disk).content → (e : Entry) (frame : List ℕ) → IsEntryAt self.old.entries number e →
            HasFrameAt D.seen journal.old e.place frame → Appends out.old out.new frame) }
        ensures extends { OnOk result ((e : Entry) → IsEntryAt self.old.entries number e → FillsWithin e.size out.old out.new) }
        ensures err { OnErr result (Reserves out.old out.new 0) }
        ensures spared { (e : Entry) → IsEntryAt self.old.entries number e → e.size ≤ out.old.spare → result ≢ Err BatchRead.NoMemory }

        // The entries stay, the cache still fits, and nothing is changed in the journal.
        ensures entries { self.new.entries ≡ self.old.entries }
        ensures fits { Indexes D.seen self.new journal.new }
        ensures cached { CachesAlso self.old.cached number (λ bytes. IsOk result × (out.new.bytes ≡ out.old.bytes ++ bytes)) self.new.cached }
        ensures only { ReadsOnly D.seen journal.old journal.new }
        ensures disk { MakesUpTo D.seen 2 journal.old.disk journal.new.disk (result ≡ Err BatchRead.Device) }
    {
        if let Some(read) = append_kept(&mut self.cache, number, out) {
            return read;
        }
        let entry = &self.entries[number as usize];
        let alloc = *self.entries.allocator();
        append_frame(&mut self.cache, alloc, journal, number, entry, out)
    }
}
