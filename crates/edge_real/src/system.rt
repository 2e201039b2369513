// The calls of the operating system that disks over files make.
use std::fs::{File, OpenOptions};
use std::os::unix::fs::FileExt;
use std::rt::Files;
use std::{fs, io};

/// The calls that a disk makes of its file, as POSIX `fstat`, `pread`, `pwrite`, `ftruncate` and `fdatasync`, and
/// `flock`.
///
/// A fake of it shows which calls a disk makes, as no file can.
pub trait OpenedFile: Drop {
    /// The length of the file.
    fn size(&mut self) -> io::Result<u64>;

    /// Fills `into` with the bytes at `place`.
    fn read_exact_at(&mut self, into: &mut [u8], place: u64) -> io::Result<()>;

    /// Writes all bytes at `place`.
    fn write_all_at(&mut self, bytes: &[u8], place: u64) -> io::Result<()>;

    /// Makes the file this long.
    fn set_size(&mut self, size: u64) -> io::Result<()>;

    /// Brings what was written, and the length, to the device.
    fn sync_data(&mut self) -> io::Result<()>;

    /// Takes the file's exclusive lock, until the file is closed. Where another opening of the file has it, it is of
    /// the kind `WouldBlock`, and doesn't wait.
    fn lock(&mut self) -> io::Result<()>;
}

impl OpenedFile for File {
    fn size(&mut self) -> io::Result<u64> {
        Ok(self.metadata()?.len())
    }

    fn read_exact_at(&mut self, into: &mut [u8], place: u64) -> io::Result<()> {
        FileExt::read_exact_at(self, into, place)
    }

    fn write_all_at(&mut self, bytes: &[u8], place: u64) -> io::Result<()> {
        FileExt::write_all_at(self, bytes, place)
    }

    fn set_size(&mut self, size: u64) -> io::Result<()> {
        self.set_len(size)
    }

    fn sync_data(&mut self) -> io::Result<()> {
        File::sync_data(self)
    }

    fn lock(&mut self) -> io::Result<()> {
        match self.try_lock() {
            Ok(()) => Ok(()),
            Err(error) => Err(io::Error::from(error)),
        }
    }
}

/// The calls by which a disk opens its file, by paths.
pub trait Folders: Drop {
    type File: OpenedFile;

    /// Makes a folder, whose parent is there. `false` where the folder was there already.
    fn make_folder(&mut self, path: &str) -> io::Result<bool>;

    /// Opens a file to read and write it, and makes it where it is missing.
    fn open_file(&mut self, path: &str) -> io::Result<Self::File>;

    /// Whether there is a file of this path, which isn't made.
    fn has_file(&self, path: &str) -> io::Result<bool>;

    /// Brings the names in a folder to the device.
    fn sync_folder(&mut self, path: &str) -> io::Result<()>;
}

/// The folders of the operating system.
#[derive(Drop)]
pub struct SystemFolders<'a, R> {
    pub rt: &'a R,
}

impl<R: Files<File = File>> Folders for SystemFolders<'_, R> {
    type File = File;

    fn make_folder(&mut self, path: &str) -> io::Result<bool> {
        let error = match fs::create_dir(self.rt, path) {
            Ok(()) => return Ok(true),
            Err(error) => error,
        };
        match fs::metadata(self.rt, path) {
            Ok(found) if found.is_dir() => Ok(false),
            _ => Err(error),
        }
    }

    fn open_file(&mut self, path: &str) -> io::Result<File> {
        OpenOptions::new()
            .read(true)
            .write(true)
            .create(true)
            .open(self.rt, path)
    }

    fn has_file(&self, path: &str) -> io::Result<bool> {
        fs::exists(self.rt, path)
    }

    fn sync_folder(&mut self, path: &str) -> io::Result<()> {
        File::open(self.rt, path)?.sync_all()
    }
}
