ghost use Rattle.std.specs.Prelude.{◌≡◌, ◌≢◌, ◌⊎◌, ◌≤◌, ◌<◌, ◌+◌, ◌-◌, ◌^◌, ◌++◌, ◌∷◌};
ghost use Rattle.std.specs.Prelude.{[], min, ℕ, List, Bool, true, false};
ghost use Rattle.std.specs.Prelude.{Some, None, is_some, IfSome, IfOk, OnErr, IsErr, Contains, length, slice_index_or};
ghost use Rattle.edge_io.specs.Bays.{SameSlot, IsAsTold, IsUntouched, Holds, IsSound};
ghost use Rattle.edge_io.specs.Causes.{CountsFault, FailsBy, HasCause, raised};
ghost use Rattle.edge_mem.specs.Bays.{slot_index, found, disk_at, out_at, taken_at, is_empty, fresh, Taken, Put};
ghost use Rattle.edge_mem.specs.Seen.{bay_view, disk_view};
ghost use Rattle.edge_mem.specs.declared.bay.Slot.{Slot};

use crate::disk::MemDisk;
use crate::numbered::Calls;
use edge_io::{Bay, Disk, DiskName, Failed};
use flex_fields::NoMemory;
use std::alloc::Global;
use std::marker::Model;

/// A slot for a disk, and the count of faults with which it was taken.
#[derive(Drop)]
pub struct Slot {
    pub name: DiskName,
    pub disk: Option<MemDisk>,
    pub count: u64,
}

/// Disks in memory. A disk that is taken for the first time is empty; one with a content is put back first.
#[derive(Drop)]
pub struct MemBay {
    alloc: Global,
    slots: Vec<Slot>,
    calls: Calls,
    starved: bool,
}

impl Model for MemBay {
    ghost use Rattle.edge_mem.specs.Bays.{BayState};

    ghost Value = { BayState };

    ghost view = { λ b. record { slots = b.slots.items; failing = b.calls.failing; calls = b.calls.made; starved = b.starved; faults = b.calls.faults } };
}

// The number of the slot of that name, from 0 on.
fn position(slots: &[Slot], name: &[u8]) -> Option<usize>
    ensures at { result ≡ slot_index slots.now name.now }
    ensures within { IfSome result (λ n. n < length slots.now) }
{
    let Some((first, rest)) = slots.split_first() else {
        return None;
    };
    if first.name.as_bytes() == name {
        return Some(0);
    }
    match position(rest, name) {
        None => None,
        Some(n) => Some(n + 1),
    }
}

// Takes the disk of a slot.
fn take_at(slots: &mut Vec<Slot>, at: usize) -> MemDisk
    requires within { at < length slots.old.items }
    requires there { (d : Slot) → is_empty (slice_index_or slots.old.items at d).disk ≡ false }
    ensures { (d : Slot) → Taken slots.old.items at d result slots.new.items }
{
    let slot = &mut slots[at];
    match slot.disk.take() {
        None => unreachable!(),
        Some(disk) => {
            slot.count = disk.faults();
            disk
        }
    }
}

// Puts a disk into a slot, and answers how much its count rose.
fn put_at(slots: &mut Vec<Slot>, at: usize, disk: MemDisk) -> u64
    requires within { at < length slots.old.items }
    ensures put { (d : Slot) → Put slots.old.items at d disk slots.new.items }
    ensures rose { (d : Slot) → result ≡ disk.faults - (slice_index_or slots.old.items at d).count }
{
    let slot = &mut slots[at];
    let rose = disk.faults().saturating_sub(slot.count);
    slot.disk = Some(disk);
    rose
}

// A new disk, whose slot is out.
fn make(alloc: Global, slots: &mut Vec<Slot>, name: &DiskName) -> Result<MemDisk, NoMemory>
    ensures ok { IfOk result (λ d. (d ≡ fresh) × ((s : Slot) × (s.name ≡ name.now) × (s.disk ≡ None) × (s.count ≡ 0) ×
        (slots.new.items ≡ slots.old.items ++ s ∷ []))) }
    ensures err { OnErr result (slots.new.items ≡ slots.old.items) }
{
    let disk = MemDisk::new(alloc, Vec::new(alloc))?;
    slots.push(Slot {
        name: name.duplicate(),
        disk: None,
        count: 0,
    })?;
    Ok(disk)
}

impl MemBay {
    /// A bay with no disks yet. With no call listed it is sound. The calls of `take` whose numbers, from 0 on, are in
    /// `failing` fail.
    pub fn new(alloc: Global, failing: Vec<u64>) -> MemBay
        ensures state { result ≡ record { slots = []; failing = failing.items; calls = 0; starved = false; faults = 0 } }
        ensures sound { failing.items ≡ [] → IsSound bay_view disk_view result }
    {
        MemBay {
            alloc,
            slots: Vec::new(alloc),
            calls: Calls::new(failing),
            starved: false,
        }
    }
}

impl MemBay {
    // Takes the disk of that name, which is made if it is new.
    fn take_named(&mut self, name: &DiskName) -> Result<MemDisk, NoMemory>
        requires { out_at self.old name.now ≡ false }
        ensures given { IfOk result (λ d. d ≡ disk_at self.old name.now) }
        ensures is_out { IfOk result (λ d. (out_at self.new name.now ≡ true) × (taken_at self.new name.now ≡ d.faults)) }
        ensures err { OnErr result (self.new ≡ self.old) }
        ensures others { (m : List ℕ) → m ≢ name.now → SameSlot bay_view m self.old self.new }
        ensures failing { self.new.failing ≡ self.old.failing }
        ensures calls { self.new.calls ≡ self.old.calls }
        ensures starved { self.new.starved ≡ self.old.starved }
        ensures faults { self.new.faults ≡ self.old.faults }
    {
        match position(&self.slots, name.as_bytes()) {
            Some(at) => Ok(take_at(&mut self.slots, at)),
            None => {
                let disk = make(self.alloc, &mut self.slots, name)?;
                Ok(disk)
            }
        }
    }
}

impl Bay for MemBay {
    type D = MemDisk;

    ghost seen = { bay_view };

    fn starved(&self) -> bool {
        self.starved
    }

    fn has(&self, name: &DiskName) -> bool
        ensures empty { result ≡ false → IfSome (Some (disk_at self.now name.now)) (λ d. IsUntouched disk_view d) }

        // A disk is there from the first `take` on.
        ensures there { result ≡ is_some (found self.now.slots name.now) }
    {
        position(&self.slots, name.as_bytes()).is_some()
    }

    fn take(&mut self, name: &DiskName) -> Result<MemDisk, Failed>
        requires { out_at self.old name.now ≡ false }
        ensures given { IfOk result (λ d. IsAsTold (Some (disk_at self.old name.now)) d) }
        ensures is_out { IfOk result (λ d. (out_at self.new name.now ≡ true) × (taken_at self.new name.now ≡ d.faults)) }
        ensures err { OnErr result ((Some (disk_at self.new name.now) ≡ Some (disk_at self.old name.now)) × (out_at self.new name.now ≡ false)) }
        ensures others { (m : List ℕ) → m ≢ name.now → SameSlot bay_view m self.old self.new }
        ensures starves { self.new.starved ≡ true → (self.old.starved ≡ true) ⊎ IsErr result }
        ensures stays { self.old.starved ≡ true → self.new.starved ≡ true }
        ensures told { is_some (Some (disk_at self.new name.now)) ≡ is_some (Some (disk_at self.old name.now)) }
        ensures steady { self.old.failing ≡ [] → self.new.failing ≡ [] }
        ensures want { self.old.failing ≡ [] → OnErr result (self.new.starved ≡ true) }
        ensures cause { HasCause self.old.faults self.new.faults result }

        // It gives the disk that is told. It fails where the list says so or where it finds no memory; where the list
        // says so it asks for none.
        ensures disk { IfOk result (λ d. d ≡ disk_at self.old name.now) }
        ensures fails { FailsBy (Contains self.old.failing self.old.calls) self.old.starved self.new.starved result }
        ensures memory { Contains self.old.failing self.old.calls → self.new.starved ≡ self.old.starved }
        ensures failing { self.new.failing ≡ self.old.failing }
        ensures calls { self.new.calls ≡ raised self.old.calls }
        ensures faults { CountsFault self.old.faults self.new.faults result }
    {
        if let Err(fault) = self.calls.begin() {
            return Err(fault);
        }
        match self.take_named(name) {
            Ok(disk) => Ok(disk),
            Err(_) => {
                self.starved = true;
                Err(self.calls.fail())
            }
        }
    }

    fn put_back(&mut self, name: &DiskName, given: MemDisk)
        requires { out_at self.old name.now ≡ true }
        ensures there { Holds (Some (disk_at self.old name.now)) (Some (disk_at self.new name.now)) given }
        ensures is_in { out_at self.new name.now ≡ false }
        ensures taken { taken_at self.new name.now ≡ taken_at self.old name.now }
        ensures others { (m : List ℕ) → m ≢ name.now → SameSlot bay_view m self.old self.new }
        ensures later { self.old.faults ≤ self.new.faults }
        ensures steady { self.old.failing ≡ [] → self.new.failing ≡ [] }
        ensures counts { self.new.faults ≡ min (self.old.faults + (given.faults - taken_at self.old name.now)) (2 ^ 64 - 1) }
        ensures starved { self.new.starved ≡ self.old.starved }

        // It is told by its name from now on.
        ensures disk { disk_at self.new name.now ≡ given }
        ensures failing { self.new.failing ≡ self.old.failing }
        ensures calls { self.new.calls ≡ self.old.calls }
    {
        match position(&self.slots, name.as_bytes()) {
            None => unreachable!(),
            Some(at) => {
                let rose = put_at(&mut self.slots, at, given);
                self.calls.add_faults(rose);
            }
        }
    }
}
