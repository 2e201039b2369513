// Adapters: which calls of the system they make, and what they make of its answers. What they make of real files is
// shown by the built program.
//
// | Line | Gives |
// |---|---|
// | `folder`, `folder fails CALL` | disks of a folder, over calls that are done, but for the first of this kind: `ok` |
// | `folder below` | the same, where the folder's parent is missing |
// | `visit CALL of NAME` | takes the disk of that name, makes a call of it, and puts it back. A call is `size`, `read PLACE N`, `write PLACE HEX`, `cut LENGTH` or `sync`; it gives the size, the bytes, or `ok`, or `fails`. Each file holds `abcdef` at first |
// | `has NAME` | whether the folder has the file of a disk: `yes` or `no`. It has those that were opened |
// | `calls` | the calls that made folders, opened files and synced folders |
// | `source END ..`, `sink END ..` | a stream whose calls end so, one after the other, and then `done`: `ok` |
// | `read`, `write` | how many bytes are read, or written: a number, or `fails` |
// | `fault` | the words of the last fault, or `none` |
ghost use Rattle.std.specs.Prelude.{◌≡◌, ℕ, List, false};
ghost use Rattle.edge_real.specs.Folders.{out_at};

use crate::bay::named;
use crate::disks::{cut, done, number_text, read, write};
use crate::fakes::{FakeFile, FakeFolders, Flaky};
use crate::plain::word;
use edge_io::{Bay, Disk, DiskName, Failed, Sink, Source};
use edge_real::{FileDisk, FolderBay, ReaderSource, SystemCall, WriterSink};
use std::alloc::Global;
use std::fmt::Display;
use std::io::ErrorKind;
use std::{io, mem};

/// Disks of a folder, of which none is out.
#[derive(Drop)]
pub struct FakeBay {
    bay: FolderBay<FakeFolders>,
    ghost none_out: { (m : List ℕ) → out_at bay m ≡ false },
}

/// What is there.
#[derive(Drop)]
pub enum Adapters {
    None,
    Folder(FakeBay),
    Source(ReaderSource<Flaky>),
    Sink(WriterSink<Flaky>),
}

/// The call of a name.
fn call_of(name: &str) -> Option<SystemCall> {
    let calls = [
        ("path", SystemCall::Path),
        ("make-folder", SystemCall::MakeFolder),
        ("sync-folder", SystemCall::SyncFolder),
        ("open", SystemCall::Open),
        ("lock", SystemCall::Lock),
        ("size", SystemCall::Size),
        ("read", SystemCall::Read),
        ("write", SystemCall::Write),
        ("cut", SystemCall::Cut),
        ("sync", SystemCall::Sync),
    ];
    for (word, call) in calls {
        if word == name {
            return Some(call);
        }
    }
    None
}

/// One call. `None` where there is no such call.
fn call(alloc: Global, disk: &mut FileDisk<FakeFile>, words: &str) -> io::Result<Option<String>> {
    let (kind, text) = words.split_once(' ').unwrap_or((words, ""));
    let (first, rest) = text.split_once(' ').unwrap_or((text, ""));
    let number = first.parse().unwrap_or(0);
    let told = match kind {
        "size" => number_text(alloc, disk.len()),
        "read" => read(alloc, disk, number, rest.parse().unwrap_or(0)),
        "write" => return write(alloc, disk, number, rest),
        "cut" => cut(alloc, disk, number),
        "sync" => done(alloc, disk.sync().is_ok()),
        _ => return Ok(None),
    };
    Ok(Some(told?))
}

/// The words of a fault, or `none`.
fn fault_words<F: Display>(alloc: Global, fault: &Option<F>) -> io::Result<String> {
    match fault {
        None => word(alloc, "none"),
        Some(fault) => Ok(format!(in alloc; "{fault}")?),
    }
}

/// How many bytes were taken or given, or `fails`.
fn count_text(alloc: Global, answer: Result<usize, Failed>) -> io::Result<String> {
    match answer {
        Ok(count) => number_text(alloc, count as u64),
        Err(Failed) => word(alloc, "fails"),
    }
}

/// How the calls of a stream end.
fn ends_of(alloc: Global, words: &str) -> io::Result<Vec<Option<ErrorKind>>> {
    let mut ends = Vec::new(alloc);
    for word in words.split(' ') {
        ends.push(match word {
            "interrupted" => Some(ErrorKind::Interrupted),
            "broken-pipe" => Some(ErrorKind::BrokenPipe),
            "would-block" => Some(ErrorKind::WouldBlock),
            "unexpected-end" => Some(ErrorKind::UnexpectedEof),
            _ => None,
        })?;
    }
    Ok(ends)
}

impl FakeBay {
    /// Disks of the folder `new/data`.
    fn new(alloc: Global, text: &str) -> io::Result<FakeBay> {
        let failing = match text.strip_prefix("fails ") {
            Some(name) => call_of(name),
            None => None,
        };
        let folders = FakeFolders::new(alloc, failing, text == "below");
        let folder = word(alloc, "new/data")?;
        let bay = FolderBay::over(alloc, folders, folder);
        Ok(FakeBay { bay })
    }

    /// Takes a disk, makes this call, and puts it back.
    fn visit(&mut self, alloc: Global, name: &DiskName, words: &str) -> io::Result<Option<String>> {
        let Ok(mut disk) = self.bay.take(name) else {
            return Ok(Some(word(alloc, "fails")?));
        };
        let told = call(alloc, &mut disk, words);
        self.bay.put_back(name, disk);
        told
    }

    /// What a line gives. `None` where it isn't about disks of a folder.
    fn told(&mut self, alloc: Global, kind: &str, text: &str) -> io::Result<Option<String>> {
        let told = match kind {
            "visit" => {
                let (words, name) = text.split_once(" of ").unwrap_or((text, ""));
                return match named(name) {
                    Some(name) => self.visit(alloc, &name, words),
                    None => Ok(None),
                };
            }
            "has" => match named(text) {
                Some(name) => word(alloc, if self.bay.has(&name) { "yes" } else { "no" }),
                None => return Ok(None),
            },
            "calls" => word(alloc, self.bay.system().notes()),
            "fault" => fault_words(alloc, &self.bay.last_fault()),
            _ => return Ok(None),
        };
        Ok(Some(told?))
    }
}

/// What a line gives. `None` where it isn't about a source.
fn source_told(
    alloc: Global,
    source: &mut ReaderSource<Flaky>,
    kind: &str,
) -> io::Result<Option<String>> {
    let told = match kind {
        "read" => count_text(alloc, source.read(&mut [0; 4])),
        "fault" => fault_words(alloc, &source.last_fault()),
        _ => return Ok(None),
    };
    Ok(Some(told?))
}

/// What a line gives. `None` where it isn't about a sink.
fn sink_told(
    alloc: Global,
    sink: &mut WriterSink<Flaky>,
    kind: &str,
) -> io::Result<Option<String>> {
    let told = match kind {
        "write" => count_text(alloc, sink.write(b"ab")),
        "fault" => fault_words(alloc, &sink.last_fault()),
        _ => return Ok(None),
    };
    Ok(Some(told?))
}

/// What a line is about from here on. `None` where it says nothing of that.
fn made(alloc: Global, kind: &str, text: &str) -> io::Result<Option<Adapters>> {
    match kind {
        "folder" => Ok(Some(Adapters::Folder(FakeBay::new(alloc, text)?))),
        "source" => {
            let stream = Flaky::new(ends_of(alloc, text)?);
            Ok(Some(Adapters::Source(ReaderSource::new(stream))))
        }
        "sink" => {
            let stream = Flaky::new(ends_of(alloc, text)?);
            Ok(Some(Adapters::Sink(WriterSink::new(stream))))
        }
        _ => Ok(None),
    }
}

impl Adapters {
    /// Puts others in place of these.
    pub fn set(&mut self, adapters: Adapters) {
        drop(mem::replace(self, adapters));
    }

    /// What a line about what is there gives. `None` where there is no such line.
    fn asked(&mut self, alloc: Global, kind: &str, text: &str) -> io::Result<Option<String>> {
        match self {
            Adapters::None => Ok(None),
            Adapters::Folder(bay) => bay.told(alloc, kind, text),
            Adapters::Source(source) => source_told(alloc, source, kind),
            Adapters::Sink(sink) => sink_told(alloc, sink, kind),
        }
    }

    /// What a line gives. `None` where there is no such line.
    pub fn told(&mut self, alloc: Global, kind: &str, text: &str) -> io::Result<Option<String>> {
        match made(alloc, kind, text)? {
            Some(adapters) => {
                self.set(adapters);
                Ok(Some(word(alloc, "ok")?))
            }
            None => self.asked(alloc, kind, text),
        }
    }
}
