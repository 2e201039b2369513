use edge_io::DiskName;
use std::io::ErrorKind;
use std::{fmt, io};

/// What the operating system was asked for.
#[derive(Clone, Copy, PartialEq, Eq)]
pub enum SystemCall {
    /// The path for a call was to be made, in memory.
    Path,
    MakeFolder,
    SyncFolder,
    Open,
    Lock,
    Size,
    Read,
    Write,
    Flush,
    Cut,
    Sync,
    Bind,
    Accept,
    Connect,
    StartThread,
}

impl fmt::Display for SystemCall {
    fn fmt<W: fmt::Write>(&self, f: &mut fmt::Formatter<W>) -> fmt::Result {
        let words = match self {
            SystemCall::Path => "path",
            SystemCall::MakeFolder => "make folder",
            SystemCall::SyncFolder => "sync folder",
            SystemCall::Open => "open",
            SystemCall::Lock => "lock",
            SystemCall::Size => "size",
            SystemCall::Read => "read",
            SystemCall::Write => "write",
            SystemCall::Flush => "flush",
            SystemCall::Cut => "cut",
            SystemCall::Sync => "sync",
            SystemCall::Bind => "bind",
            SystemCall::Accept => "accept",
            SystemCall::Connect => "connect",
            SystemCall::StartThread => "start thread",
        };
        f.write_str(words)
    }
}

/// A call that the operating system did not do, and what it said. It is shown as `write: No space left on device`, say.
#[derive(Clone, Copy)]
pub struct SystemFault {
    pub call: SystemCall,
    pub error: io::Error,
}

impl fmt::Display for SystemFault {
    fn fmt<W: fmt::Write>(&self, f: &mut fmt::Formatter<W>) -> fmt::Result {
        write!(f, "{}: {}", self.call, self.error)?;
        if self.call == SystemCall::Lock && self.error.kind() == ErrorKind::WouldBlock {
            return f.write_str(" (another program has this folder open)");
        }
        Ok(())
    }
}

/// What of a folder of disks a call was for.
#[derive(Drop)]
pub enum FolderPart {
    /// The folder itself, and those above it.
    Folder,
    /// The file that is locked while the folder is open.
    Lock,
    /// The file of a disk, with the folders on its way.
    Disk(DiskName),
}

/// A fault in a folder of disks. It is shown as `data/orders/0/log: write: No space left on device`, say.
#[derive(Drop)]
pub struct FolderFault<'a> {
    pub folder: &'a str,
    pub part: &'a FolderPart,
    pub fault: SystemFault,
}

impl fmt::Display for FolderFault<'_> {
    fn fmt<W: fmt::Write>(&self, f: &mut fmt::Formatter<W>) -> fmt::Result {
        match self.part {
            FolderPart::Folder => write!(f, "{}: {}", self.folder, self.fault),
            FolderPart::Lock => write!(f, "{}/lock~: {}", self.folder, self.fault),
            FolderPart::Disk(name) => write!(f, "{}/{name}: {}", self.folder, self.fault),
        }
    }
}
