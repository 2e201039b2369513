// The files of a server's folder, which tell each fault as it comes.
use crate::notices::Teller;
use edge_real::{Folders, OpenedFile, SystemCall, SystemFault, SystemFolders};
use std::fs::File;
use std::io;

/// A file that tells what the system didn't do.
#[derive(Drop)]
pub struct ToldFile {
    file: File,
    path: String,
    teller: Teller,
}

impl ToldFile {
    // Tells a fault, and hands the answer on.
    fn told(&self, call: SystemCall, answer: io::Result<()>) -> io::Result<()> {
        if let Err(error) = answer {
            self.teller
                .tell_fault(self.path.as_str(), SystemFault { call, error });
        }
        answer
    }
}

impl OpenedFile for ToldFile {
    fn size(&mut self) -> io::Result<u64> {
        OpenedFile::size(&mut self.file)
    }

    fn read_exact_at(&mut self, into: &mut [u8], place: u64) -> io::Result<()> {
        let answer = OpenedFile::read_exact_at(&mut self.file, into, place);
        self.told(SystemCall::Read, answer)
    }

    fn write_all_at(&mut self, bytes: &[u8], place: u64) -> io::Result<()> {
        let answer = OpenedFile::write_all_at(&mut self.file, bytes, place);
        self.told(SystemCall::Write, answer)
    }

    fn set_size(&mut self, size: u64) -> io::Result<()> {
        let answer = OpenedFile::set_size(&mut self.file, size);
        self.told(SystemCall::Cut, answer)
    }

    fn sync_data(&mut self) -> io::Result<()> {
        let answer = OpenedFile::sync_data(&mut self.file);
        self.told(SystemCall::Sync, answer)
    }

    fn lock(&mut self) -> io::Result<()> {
        OpenedFile::lock(&mut self.file)
    }
}

/// The folders of the operating system, whose files tell their faults.
#[derive(Drop)]
pub struct ToldFolders<'a> {
    pub system: SystemFolders<'a, HostRuntime>,
    pub teller: Teller,
}

impl Folders for ToldFolders<'_> {
    type File = ToldFile;

    fn make_folder(&mut self, path: &str) -> io::Result<bool> {
        self.system.make_folder(path)
    }

    fn open_file(&mut self, path: &str) -> io::Result<ToldFile> {
        let file = self.system.open_file(path)?;
        let path = String::from_str(self.system.rt.alloc(), path)?;
        Ok(ToldFile {
            file,
            path,
            teller: self.teller.again(),
        })
    }

    fn has_file(&self, path: &str) -> io::Result<bool> {
        self.system.has_file(path)
    }

    fn sync_folder(&mut self, path: &str) -> io::Result<()> {
        self.system.sync_folder(path)
    }
}
