ghost use Rattle.std.specs.Prelude.{◌≡◌, ◌≢◌, ◌⊎◌, ◌≤◌, ◌<◌, ◌+◌, ◌-◌, ◌^◌};
ghost use Rattle.std.specs.Prelude.{[], min, ℕ, List, true, false, IfOk, OnErr, IsErr};
ghost use Rattle.edge_io.specs.Bays.{SameSlot, IsAsTold, Holds};
ghost use Rattle.edge_io.specs.Causes.{CountsFault, HasCause, Rose, raised};
ghost use Rattle.edge_real.specs.Folders.{out_at, taken_at, Same};
ghost use Rattle.edge_real.specs.Seen.{folder_view};

use crate::fault::{FolderFault, FolderPart, SystemCall, SystemFault};
use crate::file::FileDisk;
use crate::opening::{make_folders, open_locked, path_of};
use crate::slots::{Slot, kept_len, set_in, set_out, take_kept};
use crate::system::Folders;
use edge_io::{Bay, Disk, DiskName, Failed};
use std::alloc::Global;
use std::io::ErrorKind;
use std::marker::Model;

/// The disks of a folder: each is the file of its name under it. A file that is missing is an empty disk.
///
/// The first `take` makes the folder where it is missing, and locks its file `lock~` for as long as the bay lives.
/// Where another program has that lock, `take` fails, and the next one tries again. A disk that is put back keeps its
/// file open, and is given again when its name is taken.
#[derive(Drop)]
pub struct FolderBay<S: Folders> {
    alloc: Global,
    system: S,
    folder: String,
    lock: Option<S::File>,
    slots: Vec<Slot<S::File>>,
    starved: bool,
    faults: u64,
    last: Option<(FolderPart, SystemFault)>,
}

impl<S: Folders> Model for FolderBay<S> {
    ghost use Rattle.edge_real.specs.Folders.{FolderState, AreNamed};

    ghost Value = { FolderState S.File };

    ghost view = { λ b. record { slots = b.slots.items; starved = b.starved; faults = b.faults } };

    ghost invariant = { λ b. AreNamed b.slots.items };
}

impl<S: Folders> FolderBay<S> {
    /// The disks of a folder, by these calls. Nothing is asked of the system yet.
    pub fn over(alloc: Global, system: S, folder: String) -> FolderBay<S>
        ensures { result ≡ record { slots = []; starved = false; faults = 0 } }
    {
        FolderBay {
            alloc,
            system,
            folder,
            lock: None,
            slots: Vec::new(alloc),
            starved: false,
            faults: 0,
            last: None,
        }
    }

    /// What makes the calls.
    pub fn system(&self) -> &S {
        &self.system
    }

    /// How long the disk of that name is, where it was put back.
    pub fn kept_len(&self, name: &DiskName) -> Option<u64> {
        kept_len(&self.slots, name)
    }

    /// The last fault of the bay or of a disk that was put back.
    pub fn last_fault(&self) -> Option<FolderFault<'_>> {
        match &self.last {
            None => None,
            Some((part, fault)) => Some(FolderFault {
                folder: &self.folder,
                part,
                fault: *fault,
            }),
        }
    }

    // Locks the folder, which is made where it is missing.
    fn lock(&mut self) -> Result<(), (FolderPart, SystemFault)>
        ensures { self.new ≡ self.old }
    {
        if self.lock.is_some() {
            return Ok(());
        }
        if let Err(fault) = make_folders(&mut self.system, &self.folder) {
            return Err((FolderPart::Folder, fault));
        }
        match open_locked(self.alloc, &mut self.system, &self.folder) {
            Ok(file) => {
                self.lock = Some(file);
                Ok(())
            }
            Err(fault) => Err((FolderPart::Lock, fault)),
        }
    }

    // The disk of that name that was put back, or one over its file, which is opened.
    fn find(&mut self, name: &DiskName) -> Result<FileDisk<S::File>, SystemFault>
        ensures named { IfOk result (λ d. d.name ≡ name.now) }
        ensures slots { (m : List ℕ) → Same self.old.slots self.new.slots m }
        ensures same { (self.new.starved ≡ self.old.starved) × (self.new.faults ≡ self.old.faults) }
    {
        if let Some(disk) = take_kept(&mut self.slots, name) {
            return Ok(disk);
        }
        FileDisk::open(self.alloc, &mut self.system, &self.folder, name)
    }

    // Takes the disk of that name.
    fn take_named(&mut self, name: &DiskName) -> Result<FileDisk<S::File>, SystemFault>
        ensures named { IfOk result (λ d. d.name ≡ name.now) }
        ensures is_out { IfOk result (λ d. (out_at self.new name.now ≡ true) × (taken_at self.new name.now ≡ d.faults)) }
        ensures others { (m : List ℕ) → m ≢ name.now → Same self.old.slots self.new.slots m }
        ensures err { OnErr result (Same self.old.slots self.new.slots name.now) }
        ensures same { (self.new.starved ≡ self.old.starved) × (self.new.faults ≡ self.old.faults) }
    {
        let disk = self.find(name)?;
        if let Err(error) = set_out(&mut self.slots, name, disk.faults()) {
            return Err(SystemFault {
                call: SystemCall::Path,
                error,
            });
        }
        Ok(disk)
    }

    // Counts a fault, and keeps what the system said. Want of memory is told apart.
    fn refuse(&mut self, part: FolderPart, fault: SystemFault) -> Failed
        ensures slots { self.new.slots ≡ self.old.slots }
        ensures later { self.old.faults ≤ self.new.faults }
        ensures rose { Rose self.old.faults self.new.faults }
        ensures faults { self.new.faults ≡ raised self.old.faults }
        ensures stays { self.old.starved ≡ true → self.new.starved ≡ true }
    {
        self.starved = self.starved | (fault.error.kind() == ErrorKind::OutOfMemory);
        self.faults = self.faults.saturating_add(1);
        self.last = Some((part, fault));
        Failed
    }
}

impl<S: Folders> Bay for FolderBay<S> {
    type D = FileDisk<S::File>;

    ghost seen = { folder_view };

    fn starved(&self) -> bool {
        self.starved
    }

    fn has(&self, name: &DiskName) -> bool {
        match path_of(self.alloc, &self.folder, name.as_str()) {
            Ok(path) => self.system.has_file(&path).unwrap_or(true),
            Err(_) => true,
        }
    }

    fn take(&mut self, name: &DiskName) -> Result<FileDisk<S::File>, Failed>
        requires { out_at self.old name.now ≡ false }
        ensures given { IfOk result (λ d. IsAsTold ((folder_view self.old).disk name.now) d) }
        ensures is_out { IfOk result (λ d. (out_at self.new name.now ≡ true) × (taken_at self.new name.now ≡ d.faults)) }
        ensures err { OnErr result (((folder_view self.new).disk name.now ≡ (folder_view self.old).disk name.now) × (out_at self.new name.now ≡ false)) }
        ensures others { (m : List ℕ) → m ≢ name.now → SameSlot folder_view m self.old self.new }
        ensures starves { self.new.starved ≡ true → (self.old.starved ≡ true) ⊎ IsErr result }
        ensures stays { self.old.starved ≡ true → self.new.starved ≡ true }
        ensures cause { HasCause self.old.faults self.new.faults result }

        // It gives the disk of that name, and counts a fault exactly where it fails.
        ensures named { IfOk result (λ d. d.name ≡ name.now) }
        ensures counts { CountsFault self.old.faults self.new.faults result }
    {
        if let Err((part, fault)) = self.lock() {
            return Err(self.refuse(part, fault));
        }
        match self.take_named(name) {
            Ok(disk) => Ok(disk),
            Err(fault) => Err(self.refuse(FolderPart::Disk(name.duplicate()), fault)),
        }
    }

    fn put_back(&mut self, name: &DiskName, given: FileDisk<S::File>)
        requires { out_at self.old name.now ≡ true }
        ensures there { Holds ((folder_view self.old).disk name.now) ((folder_view self.new).disk name.now) given }
        ensures is_in { out_at self.new name.now ≡ false }
        ensures taken { taken_at self.new name.now ≡ taken_at self.old name.now }
        ensures others { (m : List ℕ) → m ≢ name.now → SameSlot folder_view m self.old self.new }
        ensures later { self.old.faults ≤ self.new.faults }
        ensures counts { self.new.faults ≡ min (self.old.faults + (given.faults - taken_at self.old name.now)) (2 ^ 64 - 1) }
        ensures starved { self.new.starved ≡ self.old.starved }
    {
        let fault = given.last_fault();
        let rose = set_in(&mut self.slots, name, given);
        remember(&mut self.last, name, rose, fault);
        self.faults = counted(self.faults, rose);
    }
}

// Keeps the last fault of a disk whose count rose.
fn remember(
    last: &mut Option<(FolderPart, SystemFault)>,
    name: &DiskName,
    rose: u64,
    fault: Option<SystemFault>,
) {
    match fault {
        Some(fault) if rose > 0 => *last = Some((FolderPart::Disk(name.duplicate()), fault)),
        _ => {}
    }
}

// A count of faults with some more.
fn counted(faults: u64, more: u64) -> u64
    ensures sum { result ≡ min (faults + more) (2 ^ 64 - 1) }
{
    faults.saturating_add(more)
}
