// The writing end of a journal: its last gate, and what is left to mend behind it.
ghost use Rattle.std.specs.Prelude.{◌≡◌, ◌+◌, ◌<◌, ◌≤◌, ◌^◌, ◌++◌, List, ℕ, length, OnOk, OnErr};
ghost use Rattle.std.specs.List.{AllByRecursion};
ghost use Rattle.edge_io.specs.Armed.{RunsOn};
ghost use Rattle.edge_io.specs.Causes.{HasCause};
ghost use Rattle.edge_io.specs.Counting.{DoesCalls, FailsInCalls};
ghost use Rattle.edge_io.specs.Disk.{Follows, UnfinishedCut};
ghost use Rattle.edge_io.specs.Moments.{LeavesOnly};
ghost use Rattle.gate_journal.specs.Frames.{StandsFor, IsFrame, IsRest, IsShut, text_of};
ghost use Rattle.gate_journal.specs.Groups.{AreAjar, AreHeld, IsAllOrNone, IsGroup, group_text};

use crate::device::{cut_and_sync, write_and_sync};
use edge_io::{Disk, Failed};

/// What a write that failed has left to mend.
#[derive(Clone, Copy)]
pub enum Mending {
    Nothing,
    /// Bytes behind the closed gate.
    Behind,
    /// A gate that may be open, and a frame behind it.
    Gate,
}

/// A disk whose content up to `end` is journal text of `count` frames. The last gate is the byte before `end`.
#[derive(Drop)]
pub struct Writer<D: Disk> {
    pub disk: D,
    pub end: u64,
    pub count: u64,
    pub mending: Mending,
}

impl<D: Disk> Writer<D> {
    ghost use Rattle.gate_journal.specs.Groups.{MendsAll};
    ghost use Rattle.gate_journal.specs.Journals.{HasRoom, IsShaped, calls_to_mend};

    // Closes a gate that may be open.
    fn close_gate(&mut self) -> Result<(), Failed>
        requires gate { self.old.mending ≡ Mending.Gate }
        requires room { HasRoom D.seen self.old }
        requires ends { self.old.end ≤ 2 ^ 62 }
        ensures ok { OnOk result ((frames group : List (List ℕ)) → IsShaped D.seen self.old frames (AreAjar frames group) →
            IsShaped D.seen self.new frames (IsShut frames)) }
        ensures kept { (frames group : List (List ℕ)) → IsShaped D.seen self.old frames (AreAjar frames group) →
            IsShaped D.seen self.new frames (AreAjar frames group) }
        ensures any_moment { (frames group : List (List ℕ)) → IsShaped D.seen self.old frames (AreAjar frames group) →
            AllByRecursion IsFrame group → 0 < length group → LeavesOnly D.seen self.old.disk self.new.disk (IsAllOrNone frames group) }
        ensures done { OnOk result (self.new.mending ≡ Mending.Behind) }
        ensures err { OnErr result (self.new.mending ≡ Mending.Gate) }
        ensures same { (self.new.end ≡ self.old.end) × (self.new.count ≡ self.old.count) }
        ensures room_kept { HasRoom D.seen self.new }
        ensures runs { RunsOn D.seen self.old.disk self.new.disk }
        ensures calls { OnOk result (DoesCalls D.seen 2 self.old.disk self.new.disk) }
        ensures fails { OnErr result (FailsInCalls D.seen 2 self.old.disk self.new.disk) }
        ensures cause { HasCause (D.seen self.old.disk).faults (D.seen self.new.disk).faults result }
    {
        write_and_sync(&mut self.disk, self.end - 1, &[0])?;
        self.mending = Mending::Behind;
        Ok(())
    }

    // Cuts off what stands behind the closed gate.
    pub fn cut_behind(&mut self) -> Result<(), Failed>
        requires room { HasRoom D.seen self.old }
        ensures ok { OnOk result ((frames : List (List ℕ)) → IsShaped D.seen self.old frames (IsShut frames) →
            IsShaped D.seen self.new frames (IsRest frames)) }
        ensures kept { (frames : List (List ℕ)) → IsShaped D.seen self.old frames (IsShut frames) → IsShaped D.seen self.new frames (IsShut frames) }
        ensures any_moment { (frames : List (List ℕ)) → IsShaped D.seen self.old frames (IsShut frames) →
            LeavesOnly D.seen self.old.disk self.new.disk (λ c. StandsFor c frames) }
        ensures done { OnOk result (self.new.mending ≡ Mending.Nothing) }
        ensures err { OnErr result (self.new.mending ≡ self.old.mending) }
        ensures images { Follows (UnfinishedCut self.old.end) (D.seen self.old.disk).image (D.seen self.new.disk).image }
        ensures same { (self.new.end ≡ self.old.end) × (self.new.count ≡ self.old.count) }
        ensures room_kept { HasRoom D.seen self.new }
        ensures runs { RunsOn D.seen self.old.disk self.new.disk }
        ensures calls { OnOk result (DoesCalls D.seen 2 self.old.disk self.new.disk) }
        ensures fails { OnErr result (FailsInCalls D.seen 2 self.old.disk self.new.disk) }
        ensures cause { HasCause (D.seen self.old.disk).faults (D.seen self.new.disk).faults result }
    {
        cut_and_sync(&mut self.disk, self.end)?;
        self.mending = Mending::Nothing;
        Ok(())
    }

    // Writes frames behind the closed gate.
    fn stage(&mut self, bytes: &[u8]) -> Result<(), Failed>
        requires mended { self.old.mending ≡ Mending.Nothing }
        requires room { HasRoom D.seen self.old }
        requires ends { self.old.end + length bytes.now ≤ 2 ^ 62 }
        ensures ok { OnOk result ((frames group : List (List ℕ)) → IsShaped D.seen self.old frames (IsRest frames) →
            bytes.now ≡ group_text group → IsShaped D.seen self.new frames (AreHeld frames group)) }
        ensures kept { (frames : List (List ℕ)) → IsShaped D.seen self.old frames (IsRest frames) → IsShaped D.seen self.new frames (IsShut frames) }
        ensures any_moment { (frames : List (List ℕ)) → IsShaped D.seen self.old frames (IsRest frames) →
            LeavesOnly D.seen self.old.disk self.new.disk (λ c. StandsFor c frames) }
        ensures done { OnOk result (self.new.mending ≡ Mending.Nothing) }
        ensures err { OnErr result (self.new.mending ≡ Mending.Behind) }
        ensures same { (self.new.end ≡ self.old.end) × (self.new.count ≡ self.old.count) }
        ensures room_kept { HasRoom D.seen self.new }
        ensures reach { OnOk result (self.old.end + length bytes.now ≤ (D.seen self.new.disk).size) }
        ensures runs { RunsOn D.seen self.old.disk self.new.disk }
        ensures calls { OnOk result (DoesCalls D.seen 2 self.old.disk self.new.disk) }
        ensures fails { OnErr result (FailsInCalls D.seen 2 self.old.disk self.new.disk) }
        ensures cause { HasCause (D.seen self.old.disk).faults (D.seen self.new.disk).faults result }
    {
        if let Err(failed) = write_and_sync(&mut self.disk, self.end, bytes) {
            self.mending = Mending::Behind;
            return Err(failed);
        }
        Ok(())
    }

    // Opens the gate before so many frames that were written with their gates, `len` bytes in all.
    fn open_gate(&mut self, len: u64, count: u64) -> Result<(), Failed>
        requires mended { self.old.mending ≡ Mending.Nothing }
        requires room { HasRoom D.seen self.old }
        requires ends { self.old.end + len ≤ 2 ^ 62 }
        requires reach { self.old.end + len ≤ (D.seen self.old.disk).size }
        requires some { 0 < len }
        requires few { count ≤ len }
        ensures ok { OnOk result ((frames group : List (List ℕ)) → IsShaped D.seen self.old frames (AreHeld frames group) →
            AllByRecursion IsFrame group → 0 < length group → len ≡ length (group_text group) → count ≡ length group →
            IsShaped D.seen self.new (frames ++ group) (λ c. c ≡ text_of (frames ++ group))) }
        ensures kept { OnErr result ((frames group : List (List ℕ)) → IsShaped D.seen self.old frames (AreHeld frames group) →
            IsShaped D.seen self.new frames (AreAjar frames group)) }
        ensures any_moment { (frames group : List (List ℕ)) → IsShaped D.seen self.old frames (AreHeld frames group) →
            AllByRecursion IsFrame group → 0 < length group → LeavesOnly D.seen self.old.disk self.new.disk (IsAllOrNone frames group) }
        ensures done { OnOk result ((self.new.mending ≡ Mending.Nothing) ×
            (self.new.end ≡ self.old.end + len) × (self.new.count ≡ self.old.count + count)) }
        ensures err { OnErr result ((self.new.mending ≡ Mending.Gate) ×
            (self.new.end ≡ self.old.end) × (self.new.count ≡ self.old.count)) }
        ensures room_kept { HasRoom D.seen self.new }
        ensures runs { RunsOn D.seen self.old.disk self.new.disk }
        ensures calls { OnOk result (DoesCalls D.seen 2 self.old.disk self.new.disk) }
        ensures fails { OnErr result (FailsInCalls D.seen 2 self.old.disk self.new.disk) }
        ensures cause { HasCause (D.seen self.old.disk).faults (D.seen self.new.disk).faults result }
    {
        if let Err(failed) = write_and_sync(&mut self.disk, self.end - 1, &[1]) {
            self.mending = Mending::Gate;
            return Err(failed);
        }
        self.end += len;
        self.count += count;
        Ok(())
    }

    // Mends what a write that failed has left.
    pub fn mend(&mut self) -> Result<(), Failed>
        requires room { HasRoom D.seen self.old }
        requires ends { self.old.end ≤ 2 ^ 62 }
        ensures ok { OnOk result ((frames pending : List (List ℕ)) → MendsAll D.seen self.old self.old.mending frames pending →
            IsShaped D.seen self.new frames (IsRest frames)) }
        ensures kept { OnErr result ((frames pending : List (List ℕ)) → MendsAll D.seen self.old self.old.mending frames pending →
            MendsAll D.seen self.new self.new.mending frames pending) }
        ensures any_moment { (frames pending : List (List ℕ)) → MendsAll D.seen self.old self.old.mending frames pending →
            LeavesOnly D.seen self.old.disk self.new.disk (IsAllOrNone frames pending) }
        ensures done { OnOk result (self.new.mending ≡ Mending.Nothing) }
        ensures same { (self.new.end ≡ self.old.end) × (self.new.count ≡ self.old.count) }
        ensures room_kept { HasRoom D.seen self.new }
        ensures runs { RunsOn D.seen self.old.disk self.new.disk }
        ensures calls { OnOk result (DoesCalls D.seen (calls_to_mend self.old.mending) self.old.disk self.new.disk) }
        ensures fails { OnErr result (FailsInCalls D.seen (calls_to_mend self.old.mending) self.old.disk self.new.disk) }
        ensures cause { HasCause (D.seen self.old.disk).faults (D.seen self.new.disk).faults result }
    {
        match self.mending {
            Mending::Nothing => Ok(()),
            Mending::Behind => self.cut_behind(),
            Mending::Gate => {
                self.close_gate()?;
                self.cut_behind()
            }
        }
    }

    // Adds so many frames, which the bytes have with their lengths and gates: all of them, or none.
    pub fn add(&mut self, bytes: &[u8], count: u64) -> Result<(), Failed>
        requires mended { self.old.mending ≡ Mending.Nothing }
        requires room { HasRoom D.seen self.old }
        requires ends { self.old.end + length bytes.now ≤ 2 ^ 62 }
        requires some { 0 < length bytes.now }
        requires few { count ≤ length bytes.now }
        ensures ok { OnOk result ((frames group : List (List ℕ)) → IsShaped D.seen self.old frames (IsRest frames) → IsGroup bytes.now count group →
            IsShaped D.seen self.new (frames ++ group) (λ c. c ≡ text_of (frames ++ group))) }
        ensures kept { OnErr result ((frames group : List (List ℕ)) → IsShaped D.seen self.old frames (IsRest frames) → IsGroup bytes.now count group →
            MendsAll D.seen self.new self.new.mending frames group) }
        ensures any_moment { (frames group : List (List ℕ)) → IsShaped D.seen self.old frames (IsRest frames) → IsGroup bytes.now count group →
            LeavesOnly D.seen self.old.disk self.new.disk (IsAllOrNone frames group) }
        ensures done { OnOk result ((self.new.mending ≡ Mending.Nothing) ×
            (self.new.end ≡ self.old.end + length bytes.now) × (self.new.count ≡ self.old.count + count)) }
        ensures err { OnErr result ((self.new.end ≡ self.old.end) × (self.new.count ≡ self.old.count)) }
        ensures room_kept { HasRoom D.seen self.new }
        ensures runs { RunsOn D.seen self.old.disk self.new.disk }
        ensures calls { OnOk result (DoesCalls D.seen 4 self.old.disk self.new.disk) }
        ensures fails { OnErr result (FailsInCalls D.seen 4 self.old.disk self.new.disk) }
        ensures cause { HasCause (D.seen self.old.disk).faults (D.seen self.new.disk).faults result }
    {
        self.stage(bytes)?;
        self.open_gate(bytes.len() as u64, count)
    }
}
