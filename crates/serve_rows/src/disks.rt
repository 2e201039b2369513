// Disks in memory whose content nobody is told, one of which may hold a write.
ghost use Rattle.std.specs.Prelude.{[]};
ghost use Rattle.edge_real.specs.Seen.{folder_view};
ghost use Rattle.broker_hosts.specs.Bays.{AreOut};
ghost use Rattle.share_top.specs.Loading.{NoneIsOut};

use crate::board::{BEGUN, BROKEN, Board, RELEASED};
use edge_io::{Disk, Failed};
use edge_mem::MemDisk;
use edge_real::{FolderBay, Folders, OpenedFile};
use std::alloc::Global;
use std::io;
use std::io::ErrorKind;
use std::sync::Arc;

/// The least length of a write that is held, which is that of a batch of three records.
const HELD: usize = 85;

/// A file over a disk in memory.
#[derive(Drop)]
pub struct MemFile {
    disk: MemDisk,
    board: Arc<Board, Global>,
    holds: bool,
}

/// Folders that are there, of files that are empty at their opening.
#[derive(Drop)]
pub struct MemFolders {
    pub board: Arc<Board, Global>,
    /// Whether the first long write on `orders/0/log` is held.
    pub holds: bool,
}

fn failed() -> io::Error {
    io::Error::from(ErrorKind::StorageFull)
}

fn done(given: Result<(), Failed>) -> io::Result<()> {
    match given {
        Ok(()) => Ok(()),
        Err(Failed) => Err(failed()),
    }
}

impl MemFile {
    /// Waits, where this write is to be held.
    fn hold(&mut self, bytes: &[u8]) {
        if self.holds && bytes.len() >= HELD {
            self.holds = false;
            self.board.put(BEGUN, 1);
            self.board.wait(RELEASED);
        }
    }
}

impl OpenedFile for MemFile {
    fn size(&mut self) -> io::Result<u64> {
        Ok(self.disk.len())
    }

    fn read_exact_at(&mut self, into: &mut [u8], place: u64) -> io::Result<()> {
        let (size, count) = (self.disk.len(), into.len() as u64);
        if count > size || place > size - count {
            return Err(failed());
        }
        done(self.disk.read_at(place, into))
    }

    fn write_all_at(&mut self, bytes: &[u8], place: u64) -> io::Result<()> {
        self.hold(bytes);
        let end = place.saturating_add(bytes.len() as u64);
        if place > self.disk.len() || end > 1 << 62 || self.board.told(BROKEN) != 0 {
            return Err(failed());
        }
        done(self.disk.write_at(place, bytes))
    }

    fn set_size(&mut self, size: u64) -> io::Result<()> {
        if size > self.disk.len() {
            return Err(failed());
        }
        done(self.disk.cut(size))
    }

    fn sync_data(&mut self) -> io::Result<()> {
        done(self.disk.sync())
    }

    fn lock(&mut self) -> io::Result<()> {
        Ok(())
    }
}

impl Folders for MemFolders {
    type File = MemFile;

    fn make_folder(&mut self, _path: &str) -> io::Result<bool> {
        Ok(true)
    }

    fn open_file(&mut self, path: &str) -> io::Result<MemFile> {
        let alloc = self.board.alloc();
        let Ok(disk) = MemDisk::new(alloc, Vec::new(alloc)) else {
            return Err(io::Error::from(ErrorKind::OutOfMemory));
        };
        Ok(MemFile {
            disk,
            board: Arc::try_clone(&self.board)?,
            holds: self.holds && path.ends_with("orders/0/log"),
        })
    }

    fn has_file(&self, path: &str) -> io::Result<bool> {
        Ok(!path.ends_with("/log-b"))
    }

    fn sync_folder(&mut self, _path: &str) -> io::Result<()> {
        Ok(())
    }
}

/// A bay of such disks, of which none is out.
pub fn bay_of(alloc: Global, folders: MemFolders, folder: String) -> FolderBay<MemFolders>
    ensures home { NoneIsOut folder_view result }
    ensures out { AreOut folder_view [] result }
{
    FolderBay::over(alloc, folders, folder)
}
