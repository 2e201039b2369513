ghost use Rattle.std.specs.Prelude.{◌≡◌, ◌↔◌, ◌⊎◌, ◌≤◌, ◌+◌, ◌^◌, [], length, take, drop, false, true};
ghost use Rattle.std.specs.Prelude.{Some, is_some, IfOk, OnOk, OnErr, IsErr, MatchResult};
ghost use Rattle.edge_io.specs.declared.fault.Armed.TheVariants.{Nothing, After};
ghost use Rattle.edge_io.specs.Armed.{breaks, tears, RunsAsArmed};
ghost use Rattle.edge_io.specs.Causes.{CountsFault, FailsBy, HasCause, Rose, raised};
ghost use Rattle.edge_io.specs.Disk.{written, IsTold, WhereTold, Changes, UnfinishedWrite, UnfinishedCut, StepsBy, Within};
ghost use Rattle.edge_io.specs.Disk.{SameImages, Synced, SameContent, IsUneventful, GrowsTo, ShrinksTo, LosesPower, KeepsPower};
ghost use Rattle.edge_io.specs.Moments.{Elapses};
ghost use Rattle.edge_mem.specs.Events.{Wrote, CutTo, Kept, Lost};
ghost use Rattle.edge_mem.specs.Steps.{EndsKept};
ghost use Rattle.edge_mem.specs.Past.{state, content, with_event, broken_by, failed_write};
ghost use Rattle.edge_mem.specs.Seen.{disk_view};
ghost use Rattle.edge_mem.specs.Laws.{content_is_image, counts_now, only_now};

use crate::faulty::{Refusal, count_call, cut, write};
use crate::history::History;
use edge_io::{Armed, Disk, Failed, FaultMode};
use flex_fields::NoMemory;
use std::alloc::Global;
use std::marker::Model;

/// A disk in memory. It keeps all that happened to it, so that it tells what a crash might have left at any moment.
///
/// A sync takes no memory. A write takes memory for its bytes twice, a cut for one entry, and a power loss for the
/// content that it leaves: once where that is what a read gives, and else twice.
#[derive(Drop)]
pub struct MemDisk {
    history: History,
    armed: Armed,
    arms: u64,
    starved: bool,
    faults: u64,
}

impl Model for MemDisk {
    ghost use Rattle.edge_mem.specs.Past.{DiskState};

    ghost Value = { DiskState };

    ghost view = { λ d. record { past = d.history; armed = d.armed; arms = d.arms; starved = d.starved; faults = d.faults } };
}

fn copy_part(from: &[u8], place: usize, into: &mut [u8])
    requires { place + length into.old ≤ length from.now }
    ensures { into.new ≡ take (length into.old) (drop place from.now) }
{
    let (_, rest) = from.split_at(place);
    let (part, _) = rest.split_at(into.len());
    into.copy_from_slice(part);
}

impl MemDisk {
    /// A disk with this content, on which nothing has happened yet.
    pub fn new(alloc: Global, bytes: Vec<u8>) -> Result<MemDisk, NoMemory>
        ensures state { IfOk result (λ d. d ≡ record {
          past = record { first = bytes.items; events = [] };
          armed = Nothing;
          arms = 0;
          starved = false;
          faults = 0;
        }) }
        ensures content { IfOk result (λ d. content d.past ≡ bytes.items) }
    {
        Ok(MemDisk {
            history: History::new(alloc, bytes)?,
            armed: Armed::Nothing,
            arms: 0,
            starved: false,
            faults: 0,
        })
    }

    /// What a read gives.
    pub fn bytes(&self) -> &[u8]
        ensures { result.now ≡ content self.now.past }
    {
        self.history.bytes()
    }

    // Counts the fault of a call that was refused.
    fn refuse(&mut self, refusal: Refusal) -> Failed
        ensures past { self.new.past ≡ self.old.past }
        ensures armed { self.new.armed ≡ self.old.armed }
        ensures arms { self.new.arms ≡ self.old.arms }
        ensures starves { refusal ≡ Refusal.NoMemory → self.new.starved ≡ true }
        ensures stays { self.old.starved ≡ true → self.new.starved ≡ true }
        ensures later { self.old.faults ≤ self.new.faults }
        ensures rose { Rose self.old.faults self.new.faults }
        ensures faults { self.new.faults ≡ raised self.old.faults }
        ensures only { self.new.starved ≡ true → (self.old.starved ≡ true) ⊎ (refusal ≡ Refusal.NoMemory) }
        ensures same { refusal ≡ Refusal.Broken → self.new.starved ≡ self.old.starved }
    {
        self.starved = self.starved | (refusal == Refusal::NoMemory);
        self.faults = self.faults.saturating_add(1);
        Failed
    }
}

impl Disk for MemDisk {
    ghost seen = { disk_view };

    ghost read_is_image = { λ d c told. content_is_image d.past c told };

    ghost counts_now = { λ d t c le now. counts_now d.past t c le now };

    ghost only_now = { λ d c left. only_now d.past c left };

    fn len(&self) -> u64 {
        self.history.bytes().len() as u64
    }

    fn starved(&self) -> bool {
        self.starved
    }

    fn faults(&self) -> u64 {
        self.faults
    }

    fn read_at(&mut self, place: u64, into: &mut [u8]) -> Result<(), Failed>
        requires { place + length into.old ≤ (disk_view self.old).size }
        ensures bytes { OnOk result (WhereTold (disk_view self.old).content (λ c. into.new ≡ take (length into.old) (drop place c))) }
        ensures stays { SameContent (disk_view self.old) (disk_view self.new) }
        ensures images { SameImages (disk_view self.old).image (disk_view self.new).image }
        ensures time { Elapses (disk_view self.old) (disk_view self.new) }
        ensures events { IsUneventful (disk_view self.old) (disk_view self.new) }
        ensures fails { IsTold (disk_view self.old).content → RunsAsArmed false (disk_view self.old) (disk_view self.new) result }
        ensures cause { HasCause self.old.faults self.new.faults result }

        // It fails exactly where the armed fault breaks it, and changes nothing, `into` included.
        ensures broken { IsErr result ↔ (breaks self.old.armed ≡ true) }
        ensures into { OnErr result (into.new ≡ into.old) }
        ensures past { self.new.past ≡ self.old.past }
        ensures starved { self.new.starved ≡ self.old.starved }
        ensures faults { CountsFault self.old.faults self.new.faults result }
    {
        if count_call(&mut self.armed).is_some() {
            return Err(self.refuse(Refusal::Broken));
        }
        copy_part(self.history.bytes(), place as usize, into);
        Ok(())
    }

    fn write_at(&mut self, place: u64, bytes: &[u8]) -> Result<(), Failed>
        requires begins { place ≤ (disk_view self.old).size }
        requires ends { place + length bytes.now ≤ 2 ^ 62 }
        ensures content { Changes (written place bytes.now) (UnfinishedWrite place (length bytes.now))
            (disk_view self.old).content (disk_view self.new).content result }
        ensures size { GrowsTo (place + length bytes.now) (disk_view self.old).size (disk_view self.new).size result }
        ensures images { StepsBy (UnfinishedWrite place (length bytes.now)) (disk_view self.old).image (disk_view self.new).image result }
        ensures time { Elapses (disk_view self.old) (disk_view self.new) }
        ensures events { IsUneventful (disk_view self.old) (disk_view self.new) }
        ensures fails { IsTold (disk_view self.old).content → RunsAsArmed (tears self.old.armed) (disk_view self.old) (disk_view self.new) result }
        ensures cause { HasCause self.old.faults self.new.faults result }

        // One that is done is the event that happened. A broken one leaves nothing, or the first half, by the mode of
        // the fault. Without memory it changes nothing.
        ensures past { MatchResult result (λ _. self.new.past ≡ with_event self.old.past (Wrote place bytes.now))
            (λ _. (self.new.past ≡ failed_write (broken_by self.old.armed) place bytes.now self.old.past) ⊎
            ((self.new.starved ≡ true) × (self.new.past ≡ self.old.past))) }
        ensures no_memory { self.old.starved ≡ false → self.new.starved ≡ true → self.new.past ≡ self.old.past }
        ensures faults { CountsFault self.old.faults self.new.faults result }
    {
        match write(&mut self.history, &mut self.armed, place as usize, bytes) {
            Ok(()) => Ok(()),
            Err(refusal) => Err(self.refuse(refusal)),
        }
    }

    fn cut(&mut self, to: u64) -> Result<(), Failed>
        requires { to ≤ (disk_view self.old).size }
        ensures content { Changes (take to) (UnfinishedCut to) (disk_view self.old).content (disk_view self.new).content result }
        ensures size { ShrinksTo to (disk_view self.old).size (disk_view self.new).size result }
        ensures images { StepsBy (UnfinishedCut to) (disk_view self.old).image (disk_view self.new).image result }
        ensures time { Elapses (disk_view self.old) (disk_view self.new) }
        ensures events { IsUneventful (disk_view self.old) (disk_view self.new) }
        ensures fails { IsTold (disk_view self.old).content → RunsAsArmed false (disk_view self.old) (disk_view self.new) result }
        ensures cause { HasCause self.old.faults self.new.faults result }

        // One that fails changes nothing.
        ensures past { MatchResult result (λ _. self.new.past ≡ with_event self.old.past (CutTo to)) (λ _. self.new.past ≡ self.old.past) }
        ensures faults { CountsFault self.old.faults self.new.faults result }
    {
        match cut(&mut self.history, &mut self.armed, to as usize) {
            Ok(()) => Ok(()),
            Err(refusal) => Err(self.refuse(refusal)),
        }
    }

    fn sync(&mut self) -> Result<(), Failed>
        ensures synced { OnOk result (Synced (disk_view self.old).content (disk_view self.new).image) }
        ensures stays { SameContent (disk_view self.old) (disk_view self.new) }
        ensures images { Within (disk_view self.old).image (disk_view self.new).image }
        ensures time { Elapses (disk_view self.old) (disk_view self.new) }
        ensures events { IsUneventful (disk_view self.old) (disk_view self.new) }
        ensures fails { IsTold (disk_view self.old).content → RunsAsArmed false (disk_view self.old) (disk_view self.new) result }
        ensures cause { HasCause self.old.faults self.new.faults result }

        // It fails exactly where the armed fault breaks it, and then changes nothing.
        ensures broken { IsErr result ↔ (breaks self.old.armed ≡ true) }
        ensures past { MatchResult result
            (λ _. (self.new.past ≡ with_event self.old.past Kept) ⊎ ((self.new.past ≡ self.old.past) × EndsKept self.old.past.events))
            (λ _. self.new.past ≡ self.old.past) }
        ensures starved { self.new.starved ≡ self.old.starved }
        ensures faults { CountsFault self.old.faults self.new.faults result }
    {
        if count_call(&mut self.armed).is_some() {
            return Err(self.refuse(Refusal::Broken));
        }
        self.history.sync();
        Ok(())
    }

    fn power_loss(&mut self, choice: u64) -> Result<(), Failed>
        ensures loses { OnOk result (LosesPower choice (disk_view self.old) (disk_view self.new)) }
        ensures keeps { OnErr result (KeepsPower (disk_view self.old) (disk_view self.new)) }
        ensures told { is_some (disk_view self.new).content ≡ is_some (disk_view self.old).content }
        ensures images { Within (disk_view self.old).image (disk_view self.new).image }
        ensures time { Elapses (disk_view self.old) (disk_view self.new) }
        ensures arms { self.new.arms ≡ self.old.arms }
        ensures fails { IsTold (disk_view self.old).content → FailsBy ⊥ self.old.starved self.new.starved result }
        ensures quiet { IsTold (disk_view self.old).content → OnOk result (self.new.faults ≡ self.old.faults) }
        ensures cause { HasCause self.old.faults self.new.faults result }

        // It leaves the content at the last sync with the first changes since, as many as the choice says.
        ensures past { MatchResult result (λ _. self.new.past ≡ with_event self.old.past (Lost choice))
            (λ _. self.new.past ≡ self.old.past) }
        ensures faults { CountsFault self.old.faults self.new.faults result }
    {
        match self.history.lose(choice) {
            Ok(()) => {
                self.armed = Armed::Nothing;
                Ok(())
            }
            Err(_) => Err(self.refuse(Refusal::NoMemory)),
        }
    }

    fn arm(&mut self, after: u64, mode: FaultMode)
        ensures armed { IsTold (disk_view self.old).content → self.new.armed ≡ After after mode }
        ensures arms { IsTold (disk_view self.old).content → self.new.arms ≡ raised self.old.arms }
        ensures losses { (state self.new.past).losses ≡ (state self.old.past).losses }
        ensures stays { SameContent (disk_view self.old) (disk_view self.new) }
        ensures images { SameImages (disk_view self.old).image (disk_view self.new).image }
        ensures time { Elapses (disk_view self.old) (disk_view self.new) }
        ensures starved { self.new.starved ≡ self.old.starved }
        ensures faults { self.new.faults ≡ self.old.faults }

        // Nothing happens to the content.
        ensures past { self.new.past ≡ self.old.past }
    {
        self.armed = Armed::After {
            passes: after,
            mode,
        };
        self.arms = self.arms.saturating_add(1);
    }
}
