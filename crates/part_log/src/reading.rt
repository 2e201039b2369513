// Reads the batches and the marks of a log from the frames of its journal, one after another.
ghost use Rattle.std.specs.Prelude.{◌≡◌, [], ℕ, List, IfOk, IfErr};
ghost use Rattle.part_log.specs.Holding.{HasBadFrame, IsIndexed};

use crate::entry::{mark_in, next_entry};
use gate_journal::{FrameVisit, SeenFrames};
use log_index::LogIndex;
use share_model::NoMemory;
use std::alloc::Global;
use std::marker::Model;

/// A log that was read from the frames of its journal.
#[derive(Drop)]
pub struct LogRead {
    pub index: LogIndex,
    pub start: u64,
    pub end: u64,
    pub seen: SeenFrames,
}

/// The log of the frames that were handed over, or the first frame that can't stand in one. A contract sees the
/// frames, each with its place.
#[derive(Drop)]
pub struct Reader {
    index: LogIndex,
    start: u64,
    end: u64,
    bad: Option<u64>,
    seen: SeenFrames,
}

impl Model for Reader {
    ghost use Rattle.std.specs.Prelude.{List, ℕ};
    ghost use Rattle.part_log.specs.Holding.{Reads};

    ghost Value = { List (ℕ × List ℕ) };

    ghost view = { λ r. r.seen.frames };

    ghost invariant = { λ r. Reads r.seen.frames r.index r.start r.end r.bad };
}

impl Reader {
    /// A reader of no frames.
    pub fn new(alloc: Global) -> Result<Reader, NoMemory>
        ensures { IfOk result (λ r. r ≡ []) }
    {
        let index = LogIndex::new(alloc)?;
        Ok(Reader {
            index,
            start: 0,
            end: 0,
            bad: None,
            seen: SeenFrames::new(),
        })
    }

    /// The index of the batches, the start and the end of their log, and the frames; or the place of the first frame
    /// that can't stand in a log.
    pub fn finish(self) -> Result<LogRead, u64>
        ensures frames { IfOk result (λ x. x.seen.frames ≡ self) }
        ensures indexed { IfOk result (λ x. IsIndexed self x.index x.start x.end) }
        ensures cached { IfOk result (λ x. x.index.cached ≡ []) }
        ensures bad { IfErr result (HasBadFrame self) }
    {
        let Reader {
            index,
            start,
            end,
            bad,
            seen,
        } = self;
        match bad {
            None => Ok(LogRead {
                index,
                start,
                end,
                seen,
            }),
            Some(place) => Err(place),
        }
    }
}

impl FrameVisit for Reader {
    ghost use Rattle.std.specs.Prelude.{List, ℕ};

    ghost seen = { λ (frames : List (ℕ × List ℕ)). frames };

    fn frame(&mut self, place: u64, bytes: &[u8]) -> Result<(), NoMemory> {
        let seen = self.seen.with(&place, bytes);
        if let Some(_) = self.bad {
            self.seen = seen;
            return Ok(());
        }
        if let Some(start) = mark_in(bytes) {
            self.seen = seen;
            if self.start < start && start <= self.end {
                self.start = start;
                return Ok(());
            }
            self.bad = Some(place);
            return Ok(());
        }
        let Some(entry) = next_entry(place, bytes, self.end) else {
            self.bad = Some(place);
            self.seen = seen;
            return Ok(());
        };
        self.index
            .push(entry.base, entry.last, entry.size, entry.place)?;
        self.end = entry.last + 1;
        self.seen = seen;
        Ok(())
    }
}
