// The frames of a store on its two disks.
ghost use Rattle.std.specs.Prelude.{false, ◌≡◌, ◌⊎◌, ◌↔◌, List, ℕ, true, length};
ghost use Rattle.std.specs.declared.option.Option.{Option};
ghost use Rattle.edge_io.specs.Armed.{ArmsAlone};
ghost use Rattle.gate_journal.specs.Frames.{IsFrame, frame_in};
ghost use Rattle.checkpoint_journal.specs.Generations.{IsPlain, mark_of};
ghost use Rattle.coord_checkpoint.specs.Stores.{IsDueWith, Keeps, MayMake, arranged, live_side};
ghost use Rattle.coord_checkpoint.specs.Writes.{MayCheckpoint, StaysOn, Tries, Writes};

use crate::step::{Appended, Turn, is_due, may_make, step, step_checkpoint, step_plain};
use checkpoint_journal::Snapshots;
use edge_io::{Disk, DiskPlace, FaultMode};
use gate_journal::Journal;
use share_model::StoreFault;
use std::alloc::Global;
use std::marker::Model;

/// The count of faults of each disk of a store.
#[derive(Clone, Copy)]
pub struct FaultCounts {
    pub first: u64,
    pub second: u64,
}

/// A list of frames on the two disks of a store, which grows by one frame at a time and survives a crash at any moment.
///
/// One disk is *live*: the frames stand in its journal. Once there are many more of them than keys, a checkpoint is
/// written to the other disk: a head with the next generation, a snapshot of each key, and a seal, with which that disk
/// becomes live.
#[derive(Drop)]
pub struct StateJournal<D: Disk> {
    first: Journal<D>,
    second: Journal<D>,
    turn: Turn,
}

impl<D: Disk> Model for StateJournal<D> {
    ghost use Rattle.coord_checkpoint.specs.Stores.{StoreParts, arranged};

    ghost Value = { StoreParts D };

    ghost view = { λ j. arranged j.first j.second j.turn };
}

impl<D: Disk> StateJournal<D> {
    // A store of two journals.
    pub(crate) fn opened(first: Journal<D>, second: Journal<D>, turn: Turn) -> Self
        ensures { result ≡ arranged first second turn }
    {
        StateJournal {
            first,
            second,
            turn,
        }
    }

    // The number of frames of the live journal.
    fn frames(&self) -> u64
        ensures { result ≡ (live_side self.now).count }
    {
        if self.turn.on_second {
            self.second.count()
        } else {
            self.first.count()
        }
    }

    /// Whether a checkpoint is to be tried before the next write, where there are so many keys.
    pub fn is_due(&self, keys: u64) -> bool
        ensures { (result ≡ true) ↔ (IsDueWith self.now keys × MayMake self.now keys) }
    {
        is_due(self.frames(), keys) && may_make(self.turn)
    }

    /// Which disk is live.
    pub fn on_second(&self) -> bool
        ensures { result ≡ self.now.on_second }
    {
        self.turn.on_second
    }

    /// Adds a frame, and answers its number in the live journal, from 0 on. It tries no checkpoint.
    ///
    /// `buffer` has the frame, of 1 to 33554432 bytes, behind four bytes of any value and before one; it is no head.
    /// Where the seal of an earlier checkpoint may still land, the first gate of its disk is closed before the frame is
    /// written.
    ///
    /// At `Device` the frame is pending, or the one that was pending still is. At `Full` the journal would end past
    /// 2^62 bytes, and nothing is changed.
    pub fn append(&mut self, buffer: &mut [u8]) -> Result<u64, StoreFault>
        requires frame { IsFrame (frame_in buffer.old) × IsPlain (mark_of (frame_in buffer.old)) }
        ensures writes { (fresh : List ℕ) (snapshots : List (List ℕ)) →
            Writes D.seen (frame_in buffer.old) fresh snapshots (length buffer.old) self.old self.new false result }
        ensures alone { StaysOn D.seen self.old self.new result }
    {
        if self.turn.on_second {
            step_plain(&mut self.second, &mut self.first, &mut self.turn, buffer)
        } else {
            step_plain(&mut self.first, &mut self.second, &mut self.turn, buffer)
        }
    }

    /// The same, with a checkpoint that is tried before it where one is due. `fresh` has the frame that is written
    /// behind a completed checkpoint, in place of the one in `buffer`.
    ///
    /// `snapshots` hands over the snapshot of each key. A checkpoint that fails, for want of memory too, refuses
    /// nothing, and the next write tries again.
    pub fn append_behind<S: Snapshots>(
        &mut self,
        alloc: Global,
        buffer: &mut [u8],
        fresh: &mut [u8],
        snapshots: &mut S,
    ) -> Appended
        requires frame { IsFrame (frame_in buffer.old) × IsPlain (mark_of (frame_in buffer.old)) }
        requires fresh { IsFrame (frame_in fresh.old) × IsPlain (mark_of (frame_in fresh.old)) }
        ensures writes { Writes D.seen (frame_in buffer.old) (frame_in fresh.old) (S.rest snapshots.old) (length buffer.old) self.old self.new
            result.checkpointed result.result }
    {
        if self.turn.on_second {
            step(
                alloc,
                &mut self.second,
                &mut self.first,
                &mut self.turn,
                buffer,
                fresh,
                snapshots,
            )
        } else {
            step(
                alloc,
                &mut self.first,
                &mut self.second,
                &mut self.turn,
                buffer,
                fresh,
                snapshots,
            )
        }
    }

    /// Tries a checkpoint where one is due, and answers whether it was made. Nothing is tried where the journal is so
    /// long that the largest frame would have no room behind it.
    ///
    /// Once it is made nothing is pending. One that fails, for want of memory too, leaves the frames and what was
    /// pending.
    pub fn checkpoint<S: Snapshots>(&mut self, alloc: Global, snapshots: &mut S) -> bool
        ensures tries { Tries D.seen (S.rest snapshots.old) self.old self.new result }
    {
        if self.turn.on_second {
            step_checkpoint(
                alloc,
                &self.second,
                &mut self.first,
                &mut self.turn,
                snapshots,
            )
        } else {
            step_checkpoint(
                alloc,
                &self.first,
                &mut self.second,
                &mut self.turn,
                snapshots,
            )
        }
    }

    /// Whether a call of one of its disks has failed for want of memory.
    pub fn starved(&self) -> bool
        ensures { (result ≡ true) ↔ (((D.seen self.now.first.disk).starved ≡ true) ⊎ ((D.seen self.now.second.disk).starved ≡ true)) }
    {
        self.first.starved() || self.second.starved()
    }

    /// The count of faults of each of its disks.
    pub fn faults(&self) -> FaultCounts
        ensures first { result.first ≡ (D.seen self.now.first.disk).faults }
        ensures second { result.second ≡ (D.seen self.now.second.disk).faults }
    {
        FaultCounts {
            first: self.first.faults(),
            second: self.second.faults(),
        }
    }

    /// Arms a fault of one of its disks, and changes nothing else; it has no log.
    pub fn arm(&mut self, disk: DiskPlace, after: u64, mode: FaultMode)
        ensures log { disk ≡ DiskPlace.Log → self.new ≡ self.old }
        ensures log_b { disk ≡ DiskPlace.LogB → self.new ≡ self.old }
        ensures first { disk ≡ DiskPlace.StateA →
            ArmsAlone D.seen after mode self.old.first.disk self.new.first.disk × (self.new.second ≡ self.old.second) }
        ensures second { disk ≡ DiskPlace.StateB →
            ArmsAlone D.seen after mode self.old.second.disk self.new.second.disk × (self.new.first ≡ self.old.first) }
        ensures end { self.new.end ≡ self.old.end }
        ensures due { (snapshots : List (List ℕ)) → MayCheckpoint self.new snapshots ↔ MayCheckpoint self.old snapshots }
        ensures stays { (frames : List (List ℕ)) (sealing : Option (List (List ℕ))) (pending : Option (List ℕ)) →
            Keeps D.seen self.old frames sealing pending → Keeps D.seen self.new frames sealing pending }
    {
        match disk {
            DiskPlace::Log => {}
            DiskPlace::LogB => {}
            DiskPlace::StateA => self.first.arm(after, mode),
            DiskPlace::StateB => self.second.arm(after, mode),
        }
    }

    /// Gives the disks back, the first one first.
    pub fn into_disks(self) -> (D, D)
        ensures { (result.0 ≡ self.first.disk) × (result.1 ≡ self.second.disk) }
    {
        let StateJournal { first, second, .. } = self;
        (first.into_disk(), second.into_disk())
    }
}
