//! Sources and sinks over std's readers and writers, disks over files, a bay of disks over a folder; and for a server
//! links over TCP, threads and the system's clock.
//!
//! This is the trusted edge: no clause can say what a file, a pipe or a terminal holds, so these adapters tell no
//! bytes, and their contracts say only how they count faults. That a real file keeps what is asked of a disk is a
//! premise, and no theorem. Each adapter keeps what the operating system said at its last fault, for the program to
//! tell.
#![tactic(auto)]

mod bay;
mod calls;
mod clock;
mod evidence;
mod fault;
mod file;
mod link;
mod listener;
mod look;
mod notices;
mod opening;
mod slots;
mod spawner;
mod streams;
mod system;

pub use bay::FolderBay;
pub use calls::TcpCalls;
pub use clock::SystemClock;
pub use evidence::{KeepFault, Kept, keep_behind, lacks_bytes, seen_behind};
pub use fault::{FolderFault, FolderPart, SystemCall, SystemFault};
pub use file::FileDisk;
pub use link::TcpLink;
pub use listener::TcpLinks;
pub use look::{LookFile, LookFolders};
pub use notices::{NoNotices, SocketNotices};
pub use slots::Slot;
pub use spawner::ThreadSpawner;
pub use streams::{ReaderSource, WriterSink};
pub use system::{Folders, OpenedFile, SystemFolders};
