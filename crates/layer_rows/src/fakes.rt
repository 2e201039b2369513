// Fakes of the system's calls, which show what adapters ask of it, as no file and no pipe can.
use edge_real::{Folders, OpenedFile, SystemCall};
use std::alloc::Global;
use std::io;
use std::io::{ErrorKind, Read, Write};

/// Calls by paths that are all done, but for the first of one kind. They are noted with their paths.
#[derive(Drop)]
pub struct FakeFolders {
    failing: Option<SystemCall>,
    missing: bool,
    notes: String,
}

/// A file that holds bytes, `abcdef` at its opening. Its calls are done, but for the first of one kind.
#[derive(Drop)]
pub struct FakeFile {
    failing: Option<SystemCall>,
    bytes: Vec<u8>,
}

/// Fails where this kind of call is to fail, once.
fn done(failing: &mut Option<SystemCall>, call: SystemCall) -> io::Result<()> {
    if *failing != Some(call) {
        return Ok(());
    }
    *failing = None;
    Err(io::Error::from(ErrorKind::StorageFull))
}

/// The bytes before a place and those from there on. An error where there is no such place.
fn parted(bytes: &[u8], place: u64) -> io::Result<(&[u8], &[u8])> {
    match bytes.split_at_checked(usize::try_from(place).unwrap_or(usize::MAX)) {
        Some(parts) => Ok(parts),
        None => Err(io::Error::from(ErrorKind::UnexpectedEof)),
    }
}

impl OpenedFile for FakeFile {
    fn size(&mut self) -> io::Result<u64> {
        done(&mut self.failing, SystemCall::Size)?;
        Ok(self.bytes.len() as u64)
    }

    fn read_exact_at(&mut self, into: &mut [u8], place: u64) -> io::Result<()> {
        done(&mut self.failing, SystemCall::Read)?;
        let (_, behind) = parted(&self.bytes, place)?;
        let (found, _) = parted(behind, into.len() as u64)?;
        if found.len() == into.len() {
            into.copy_from_slice(found);
        }
        Ok(())
    }

    fn write_all_at(&mut self, bytes: &[u8], place: u64) -> io::Result<()> {
        done(&mut self.failing, SystemCall::Write)?;
        let (front, behind) = parted(&self.bytes, place)?;
        let mut all = front.to_vec(*self.bytes.allocator())?;
        all.extend_from_slice(bytes)?;
        if let Some((_, rest)) = behind.split_at_checked(bytes.len()) {
            all.extend_from_slice(rest)?;
        }
        self.bytes = all;
        Ok(())
    }

    fn set_size(&mut self, size: u64) -> io::Result<()> {
        done(&mut self.failing, SystemCall::Cut)?;
        let (front, _) = parted(&self.bytes, size)?;
        self.bytes = front.to_vec(*self.bytes.allocator())?;
        Ok(())
    }

    fn sync_data(&mut self) -> io::Result<()> {
        done(&mut self.failing, SystemCall::Sync)
    }

    fn lock(&mut self) -> io::Result<()> {
        done(&mut self.failing, SystemCall::Lock)
    }
}

impl FakeFolders {
    /// Calls of which the first of this kind fails. Where a folder's parent is missing, the first that makes a folder
    /// says so.
    pub fn new(alloc: Global, failing: Option<SystemCall>, missing: bool) -> FakeFolders {
        FakeFolders {
            failing,
            missing,
            notes: String::new(alloc),
        }
    }

    /// The calls that were made, with their paths.
    pub fn notes(&self) -> &str {
        self.notes.as_str().trim_start()
    }

    fn note(&mut self, what: &str, path: &str) -> io::Result<()> {
        self.notes.push_str(what)?;
        self.notes.push_str(path)?;
        Ok(())
    }
}

impl Folders for FakeFolders {
    type File = FakeFile;

    fn make_folder(&mut self, path: &str) -> io::Result<bool> {
        self.note(" make ", path)?;
        if self.missing {
            self.missing = false;
            return Err(io::Error::from(ErrorKind::NotFound));
        }
        done(&mut self.failing, SystemCall::MakeFolder)?;
        Ok(true)
    }

    fn open_file(&mut self, path: &str) -> io::Result<FakeFile> {
        self.note(" open ", path)?;
        done(&mut self.failing, SystemCall::Open)?;
        let mut failing = None;
        if path.ends_with("lock~") == (self.failing == Some(SystemCall::Lock)) {
            failing = self.failing.take();
        }
        let bytes = b"abcdef".to_vec(*self.notes.allocator())?;
        Ok(FakeFile { failing, bytes })
    }

    fn has_file(&self, path: &str) -> io::Result<bool> {
        match self.failing {
            Some(SystemCall::Path) => Err(io::Error::from(ErrorKind::PermissionDenied)),
            _ => Ok(self.notes.split(' ').any(|word| word == path)),
        }
    }

    fn sync_folder(&mut self, path: &str) -> io::Result<()> {
        self.note(" sync ", path)?;
        done(&mut self.failing, SystemCall::SyncFolder)
    }
}

/// A stream whose calls end so, one after the other; those behind the list are done. It takes and gives a byte at a
/// time.
#[derive(Drop)]
pub struct Flaky {
    calls: usize,
    ends: Vec<Option<ErrorKind>>,
}

impl Flaky {
    pub fn new(ends: Vec<Option<ErrorKind>>) -> Flaky {
        Flaky { calls: 0, ends }
    }

    fn call(&mut self) -> io::Result<()> {
        let end = self.ends.get(self.calls).copied().flatten();
        self.calls = self.calls.saturating_add(1);
        match end {
            None => Ok(()),
            Some(kind) => Err(io::Error::from(kind)),
        }
    }
}

impl Read for Flaky {
    fn read(&mut self, into: &mut [u8]) -> io::Result<usize> {
        self.call()?;
        Ok(into.len().min(1))
    }
}

impl Write for Flaky {
    fn write(&mut self, bytes: &[u8]) -> io::Result<usize> {
        self.call()?;
        Ok(bytes.len().min(1))
    }

    fn flush(&mut self) -> io::Result<()> {
        self.call()
    }
}
