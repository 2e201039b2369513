ghost use Rattle.std.specs.Prelude.{◌≡◌, ◌+◌, ◌≤◌, ◌^◌, false, length, IfOk, IsErr};
ghost use Rattle.edge_io.specs.Causes.{HasCause, raised};
ghost use Rattle.edge_io.specs.Disk.{GrowsTo, ShrinksTo};
ghost use Rattle.edge_real.specs.Files.{no_content, Calls, Syncs};
ghost use Rattle.edge_real.specs.Seen.{file_view};

use crate::fault::{SystemCall, SystemFault};
use crate::opening::open_below;
use crate::system::{Folders, OpenedFile};
use edge_io::{Disk, DiskName, Failed, FaultMode};
use std::alloc::Global;
use std::io;
use std::marker::Model;

/// A disk over a file, by positioned reads and writes. It tells no content, and ignores `arm` and `power_loss`.
///
/// A sync is `fdatasync`. After one that failed every later call fails, until the file is opened again: the system may
/// have dropped what was written, and would not say so at the next sync.
#[derive(Drop)]
pub struct FileDisk<F> {
    file: F,
    name: DiskName,
    size: u64,
    broken: bool,
    faults: u64,
    last: Option<SystemFault>,
}

impl<F> Model for FileDisk<F> {
    ghost use Rattle.edge_real.specs.Files.{FileState};

    ghost Value = { FileState };

    ghost view = { λ d. record { name = d.name; size = d.size; broken = d.broken; faults = d.faults } };
}

impl<F: OpenedFile> FileDisk<F> {
    /// Opens the file of that name under a folder that is there. A file that is missing is made, empty, with the
    /// folders between.
    ///
    /// It syncs the given folder and those from there to the file, so that the file's name lasts: three syncs, or two
    /// for a foreign disk. After an error the file may be there.
    pub fn open<S: Folders<File = F>>(
        alloc: Global,
        system: &mut S,
        folder: &str,
        name: &DiskName,
    ) -> Result<FileDisk<F>, SystemFault>
        ensures { IfOk result (λ d. d ≡ record { name = name.now; size = d.size; broken = false; faults = 0 }) }
    {
        let mut file = open_below(alloc, system, folder, name.as_str())?;
        match file.size() {
            Ok(size) => Ok(FileDisk {
                file,
                name: name.duplicate(),
                size,
                broken: false,
                faults: 0,
                last: None,
            }),
            Err(error) => Err(SystemFault {
                call: SystemCall::Size,
                error,
            }),
        }
    }

    /// The name of the disk.
    pub fn name(&self) -> &DiskName
        ensures { result.now ≡ self.now.name }
    {
        &self.name
    }

    /// The last call that the system did not do, and what it said. A call that comes behind a failed sync asks
    /// nothing of the system, and leaves the words of that sync.
    pub fn last_fault(&self) -> Option<SystemFault> {
        self.last
    }

    // Counts a fault.
    fn fail(&mut self) -> Failed
        ensures name { self.new.name ≡ self.old.name }
        ensures size { self.new.size ≡ self.old.size }
        ensures broken { self.new.broken ≡ self.old.broken }
        ensures later { self.old.faults ≤ self.new.faults }
        ensures faults { self.new.faults ≡ raised self.old.faults }
    {
        self.faults = self.faults.saturating_add(1);
        Failed
    }

    // Counts a fault, and keeps what the system said.
    fn refuse(&mut self, call: SystemCall, error: io::Error) -> Failed
        ensures name { self.new.name ≡ self.old.name }
        ensures size { self.new.size ≡ self.old.size }
        ensures broken { self.new.broken ≡ self.old.broken }
        ensures later { self.old.faults ≤ self.new.faults }
        ensures faults { self.new.faults ≡ raised self.old.faults }
    {
        self.last = Some(SystemFault { call, error });
        self.fail()
    }
}

impl<F: OpenedFile> Disk for FileDisk<F> {
    ghost seen = { file_view };

    ghost read_is_image = { λ _ c told. no_content c told };

    ghost counts_now = { λ _ _ _ _ now. now };

    ghost only_now = { λ _ _ left. left };

    fn len(&self) -> u64 {
        self.size
    }

    fn starved(&self) -> bool {
        false
    }

    fn faults(&self) -> u64 {
        self.faults
    }

    fn read_at(&mut self, place: u64, into: &mut [u8]) -> Result<(), Failed>
        requires { place + length into.old ≤ self.old.size }
        ensures size { self.new.size ≡ self.old.size }
        ensures cause { HasCause self.old.faults self.new.faults result }
        ensures file { Calls self.old self.new result }
    {
        if self.broken {
            return Err(self.fail());
        }
        match self.file.read_exact_at(into, place) {
            Ok(()) => Ok(()),
            Err(error) => Err(self.refuse(SystemCall::Read, error)),
        }
    }

    fn write_at(&mut self, place: u64, bytes: &[u8]) -> Result<(), Failed>
        requires begins { place ≤ self.old.size }
        requires ends { place + length bytes.now ≤ 2 ^ 62 }
        ensures size { GrowsTo (place + length bytes.now) self.old.size self.new.size result }
        ensures cause { HasCause self.old.faults self.new.faults result }
        ensures file { Calls self.old self.new result }
    {
        if self.broken {
            return Err(self.fail());
        }
        if let Err(error) = self.file.write_all_at(bytes, place) {
            return Err(self.refuse(SystemCall::Write, error));
        }
        self.size = self.size.max(place + bytes.len() as u64);
        Ok(())
    }

    fn cut(&mut self, to: u64) -> Result<(), Failed>
        requires { to ≤ self.old.size }
        ensures size { ShrinksTo to self.old.size self.new.size result }
        ensures cause { HasCause self.old.faults self.new.faults result }
        ensures file { Calls self.old self.new result }
    {
        if self.broken {
            return Err(self.fail());
        }
        if let Err(error) = self.file.set_size(to) {
            return Err(self.refuse(SystemCall::Cut, error));
        }
        self.size = to;
        Ok(())
    }

    fn sync(&mut self) -> Result<(), Failed>
        ensures size { self.new.size ≡ self.old.size }
        ensures cause { HasCause self.old.faults self.new.faults result }
        ensures file { Syncs self.old self.new result }
    {
        if self.broken {
            return Err(self.fail());
        }
        match self.file.sync_data() {
            Ok(()) => Ok(()),
            Err(error) => {
                self.broken = true;
                Err(self.refuse(SystemCall::Sync, error))
            }
        }
    }

    fn power_loss(&mut self, _choice: u64) -> Result<(), Failed>
        ensures done { IsErr result → ⊥ }
        ensures ignored { self.new ≡ self.old }
    {
        Ok(())
    }

    fn arm(&mut self, _after: u64, _mode: FaultMode)
        ensures ignored { self.new ≡ self.old }
    {}
}
