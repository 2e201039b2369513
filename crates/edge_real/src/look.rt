// A look at the files of a folder, which changes none.
use crate::system::{Folders, OpenedFile};
use std::io;
use std::io::ErrorKind;

/// The folders of a look: what is there is read, and nothing is made, written, cut or synced. A file that is missing is
/// empty.
///
/// Of what is written and cut the size alone is kept. So a disk over such a file tells how long it would be, and nothing
/// is to be read that was written.
#[derive(Drop)]
pub struct LookFolders<S> {
    pub system: S,
}

/// A file of a look.
#[derive(Drop)]
pub struct LookFile<F> {
    file: Option<F>,
    size: u64,
}

impl<F: OpenedFile> OpenedFile for LookFile<F> {
    fn size(&mut self) -> io::Result<u64> {
        Ok(self.size)
    }

    fn read_exact_at(&mut self, into: &mut [u8], place: u64) -> io::Result<()> {
        match &mut self.file {
            Some(file) => file.read_exact_at(into, place),
            None => Err(io::Error::from(ErrorKind::UnexpectedEof)),
        }
    }

    fn write_all_at(&mut self, bytes: &[u8], place: u64) -> io::Result<()> {
        self.size = self.size.max(place.saturating_add(bytes.len() as u64));
        Ok(())
    }

    fn set_size(&mut self, size: u64) -> io::Result<()> {
        self.size = size;
        Ok(())
    }

    fn sync_data(&mut self) -> io::Result<()> {
        Ok(())
    }

    fn lock(&mut self) -> io::Result<()> {
        match &mut self.file {
            Some(file) => file.lock(),
            None => Ok(()),
        }
    }
}

impl<S: Folders> Folders for LookFolders<S> {
    type File = LookFile<S::File>;

    fn make_folder(&mut self, _path: &str) -> io::Result<bool> {
        Ok(false)
    }

    fn open_file(&mut self, path: &str) -> io::Result<LookFile<S::File>> {
        if !self.system.has_file(path)? {
            return Ok(LookFile {
                file: None,
                size: 0,
            });
        }
        let mut file = self.system.open_file(path)?;
        let size = file.size()?;
        Ok(LookFile {
            file: Some(file),
            size,
        })
    }

    fn has_file(&self, path: &str) -> io::Result<bool> {
        self.system.has_file(path)
    }

    fn sync_folder(&mut self, _path: &str) -> io::Result<()> {
        Ok(())
    }
}
