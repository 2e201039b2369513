// A disk in memory, and a journal on it.
//
// | Line | Gives |
// |---|---|
// | `disk HEX ..` | a disk with this content: `ok` |
// | `read PLACE N` | the N bytes at a place, or `fails`; the bytes read into are then as they were |
// | `write PLACE HEX ..`, `cut LENGTH`, `sync` | `ok` or `fails` |
// | `arm N MODE` | N calls pass, and the next fails: `once`, `torn` or `dead` |
// | `power K` | a power loss that keeps the first K changes since the last sync |
// | `content`, `faults`, `starved` | what the disk holds; how many faults there were; whether memory was wanting |
// | `start` | a journal on the disk: its frames, or `damaged PLACE`, or `fails` |
// | `append HEX ..` | the number of the frame, or `fails`; its buffer has the length before the frame and a closed gate behind it |
// | `append-each N HEX ..` | appends the frame N times, and gives the last answer |
ghost use Rattle.std.specs.Prelude.{◌≤◌, ◌+◌, ◌^◌, length};

use crate::plain::word;
use edge_io::{Disk, FaultMode};
use edge_mem::MemDisk;
use gate_journal::{Journal, StartFault, start};
use part_log::PartLog;
use row_text::bytes_of;
use share_model::{Blob, StoreFault};
use std::alloc::Global;
use std::{io, mem};

/// What is there. A journal and a log give their disk back where a line is about the disk.
#[derive(Drop)]
pub enum Store {
    None,
    Disk(MemDisk),
    Journal(Journal<MemDisk>),
    Log(PartLog<MemDisk>),
}

/// `ok` or `fails`.
pub fn done(alloc: Global, is_ok: bool) -> io::Result<String> {
    word(alloc, if is_ok { "ok" } else { "fails" })
}

/// Bytes in hexadecimal, and `nothing` for none.
pub fn bytes_text(alloc: Global, bytes: &[u8]) -> io::Result<String> {
    if bytes.is_empty() {
        return word(alloc, "nothing");
    }
    Ok(hex::encode(alloc, bytes)?)
}

/// The mode of a fault that is armed.
pub fn mode_of(name: &str) -> FaultMode {
    match name {
        "torn" => FaultMode::Torn,
        "dead" => FaultMode::Dead,
        _ => FaultMode::Once,
    }
}

/// What a room holds into which nothing was read.
pub const UNREAD: u8 = 0xee;

/// Whether nothing was read into a room.
pub fn is_unread(room: &[u8]) -> bool {
    for byte in room {
        if *byte != UNREAD {
            return false;
        }
    }
    true
}

/// How a read was answered that failed.
pub fn failed_read(alloc: Global, room: &[u8]) -> io::Result<String> {
    word(
        alloc,
        if is_unread(room) {
            "fails"
        } else {
            "fails and writes"
        },
    )
}

/// Reads some bytes at a place.
pub fn read<D: Disk>(alloc: Global, disk: &mut D, place: u64, count: u64) -> io::Result<String> {
    if count > 1 << 20 || place > disk.len() || count > disk.len() - place {
        return word(alloc, "behind the end");
    }
    let mut into = vec![in alloc; UNREAD; count as usize]?;
    match disk.read_at(place, &mut into) {
        Ok(()) => bytes_text(alloc, &into),
        Err(_) => failed_read(alloc, &into),
    }
}

/// Writes the bytes of a text at a place. `None` where it has none.
pub fn write<D: Disk>(
    alloc: Global,
    disk: &mut D,
    place: u64,
    text: &str,
) -> io::Result<Option<String>> {
    let Some(bytes) = bytes_of(alloc, text)? else {
        return Ok(None);
    };
    if place > disk.len() || place > 1 << 40 || bytes.len() > 1 << 40 {
        return Ok(Some(word(alloc, "behind the end")?));
    }
    Ok(Some(done(alloc, disk.write_at(place, &bytes).is_ok())?))
}

/// Cuts it to a length.
pub fn cut<D: Disk>(alloc: Global, disk: &mut D, length: u64) -> io::Result<String> {
    if length > disk.len() {
        return word(alloc, "behind the end");
    }
    done(alloc, disk.cut(length).is_ok())
}

/// A number as text.
pub fn number_text(alloc: Global, number: u64) -> io::Result<String> {
    Ok(format!(in alloc; "{number}")?)
}

/// A word and a number as text.
pub fn word_number(alloc: Global, word: &str, number: u64) -> io::Result<String> {
    Ok(format!(in alloc; "{word} {number}")?)
}

/// What a line does with a disk. `None` where it isn't about one.
fn disk_told(
    alloc: Global,
    disk: &mut MemDisk,
    kind: &str,
    text: &str,
) -> io::Result<Option<String>> {
    let (first, rest) = text.split_once(' ').unwrap_or((text, ""));
    let number = first.parse().unwrap_or(0);
    let told = match kind {
        "read" => read(alloc, disk, number, rest.parse().unwrap_or(0)),
        "write" => return write(alloc, disk, number, rest),
        "cut" => cut(alloc, disk, number),
        "sync" => done(alloc, disk.sync().is_ok()),
        "power" => done(alloc, disk.power_loss(number).is_ok()),
        "content" => bytes_text(alloc, disk.bytes()),
        "faults" => number_text(alloc, disk.faults()),
        "starved" => word(alloc, if disk.starved() { "yes" } else { "no" }),
        _ => return Ok(None),
    };
    Ok(Some(told?))
}

/// Adds a frame.
fn push_frame(alloc: Global, text: &mut String, frame: &Blob) -> io::Result<()> {
    let digits = hex::encode(alloc, frame.as_slice())?;
    text.push_str(" ")?;
    Ok(text.push_str(digits.as_str())?)
}

/// The frames, with blanks between them.
fn frames_text(alloc: Global, frames: &[Blob]) -> io::Result<String> {
    let mut text = word(alloc, "frames")?;
    for frame in frames {
        push_frame(alloc, &mut text, frame)?;
    }
    Ok(text)
}

/// Why no journal was started.
fn refusal(alloc: Global, fault: StartFault) -> io::Result<String> {
    match fault {
        StartFault::Damaged { place } => word_number(alloc, "damaged", place),
        StartFault::Device => word(alloc, "fails"),
        StartFault::NoMemory => word(alloc, "no memory"),
    }
}

/// Appends a frame, whose bytes stand behind four others and before one.
fn append(journal: &mut Journal<MemDisk>, buffer: &mut [u8]) -> Option<Result<u64, StoreFault>> {
    if buffer.len() < 6 || buffer.len() > 33554437 {
        return None;
    }
    Some(journal.append(buffer))
}

/// The buffer of a frame.
fn buffer_of(alloc: Global, frame: &[u8]) -> io::Result<Vec<u8>> {
    let mut buffer = vec![in alloc; 9u8; 4]?;
    buffer.extend_from_slice(frame)?;
    buffer.push(9)?;
    Ok(buffer)
}

/// Whether a buffer has the length before its frame, and a closed gate behind it.
fn is_framed(buffer: &[u8], frame: &[u8]) -> bool {
    let length = u32::try_from(frame.len()).unwrap_or(0).to_be_bytes();
    match buffer.strip_prefix(length.as_slice()) {
        Some(rest) => rest.strip_suffix(&[0]) == Some(frame),
        None => false,
    }
}

/// Appends a frame, and tells the answer.
fn append_once(alloc: Global, journal: &mut Journal<MemDisk>, frame: &[u8]) -> io::Result<String> {
    let mut buffer = buffer_of(alloc, frame)?;
    let answer = append(journal, &mut buffer);
    if answer.is_some() && !is_framed(&buffer, frame) {
        return word(alloc, "its five bytes aren't set");
    }
    match answer {
        Some(Ok(number)) => number_text(alloc, number),
        Some(Err(StoreFault::Device)) => word(alloc, "fails"),
        Some(Err(StoreFault::Full { end })) => word_number(alloc, "full", end),
        None => word(alloc, "no frame"),
    }
}

/// Appends a frame some times, and tells the last answer.
fn append_each(
    alloc: Global,
    journal: &mut Journal<MemDisk>,
    count: u64,
    text: &str,
) -> io::Result<Option<String>> {
    let Some(frame) = bytes_of(alloc, text)? else {
        return Ok(None);
    };
    let mut told = String::new(alloc);
    for _ in 0..count {
        told = append_once(alloc, journal, &frame)?;
    }
    Ok(Some(told))
}

/// A new disk with a content.
pub fn new_disk(alloc: Global, content: Vec<u8>) -> io::Result<MemDisk> {
    match MemDisk::new(alloc, content) {
        Ok(disk) => Ok(disk),
        Err(_) => Err(io::Error::from(io::ErrorKind::OutOfMemory)),
    }
}

/// A new disk with the content of a text. `None` where it has no bytes.
fn disk_of(alloc: Global, text: &str) -> io::Result<Option<MemDisk>> {
    match bytes_of(alloc, text)? {
        Some(content) => Ok(Some(new_disk(alloc, content)?)),
        None => Ok(None),
    }
}

impl Store {
    /// Puts another store in place of this one.
    pub fn set(&mut self, store: Store) {
        drop(mem::replace(self, store));
    }

    /// The disk, without its journal or log.
    fn into_disk(self) -> Option<MemDisk> {
        match self {
            Store::None => None,
            Store::Disk(disk) => Some(disk),
            Store::Journal(journal) => Some(journal.into_disk()),
            Store::Log(log) => Some(log.into_disk()),
        }
    }

    /// Takes the disk out, where there is one.
    pub fn take_disk(&mut self) -> Option<MemDisk> {
        mem::replace(self, Store::None).into_disk()
    }

    fn arm(&mut self, after: u64, mode: FaultMode) {
        match self {
            Store::None => {}
            Store::Disk(disk) => disk.arm(after, mode),
            Store::Journal(journal) => journal.arm(after, mode),
            Store::Log(log) => log.arm(after, mode),
        }
    }

    /// Puts a new disk here.
    fn put(&mut self, alloc: Global, text: &str) -> io::Result<Option<String>> {
        let Some(disk) = disk_of(alloc, text)? else {
            return Ok(None);
        };
        self.set(Store::Disk(disk));
        Ok(Some(word(alloc, "ok")?))
    }

    /// Starts a journal on the disk.
    fn start(&mut self, alloc: Global) -> io::Result<Option<String>> {
        let Some(disk) = self.take_disk() else {
            return Ok(None);
        };
        let told = match start(alloc, disk) {
            Ok((journal, frames)) => {
                self.set(Store::Journal(journal));
                frames_text(alloc, &frames)
            }
            Err((disk, fault)) => {
                self.set(Store::Disk(disk));
                refusal(alloc, fault)
            }
        };
        Ok(Some(told?))
    }

    /// Appends a frame some times. `None` where there is no journal.
    fn append(&mut self, alloc: Global, count: u64, text: &str) -> io::Result<Option<String>> {
        match self {
            Store::Journal(journal) => append_each(alloc, journal, count, text),
            _ => Ok(None),
        }
    }

    /// Does a line on the disk itself.
    fn on_disk(&mut self, alloc: Global, kind: &str, text: &str) -> io::Result<Option<String>> {
        if let Some(disk) = self.take_disk() {
            self.set(Store::Disk(disk));
        }
        match self {
            Store::Disk(disk) => disk_told(alloc, disk, kind, text),
            _ => Ok(None),
        }
    }

    /// What a line gives. `None` where it isn't about a disk or a journal.
    pub fn told(&mut self, alloc: Global, kind: &str, text: &str) -> io::Result<Option<String>> {
        let (first, rest) = text.split_once(' ').unwrap_or((text, ""));
        let count = first.parse().unwrap_or(0);
        match kind {
            "disk" => self.put(alloc, text),
            "start" => self.start(alloc),
            "arm" => {
                self.arm(count, mode_of(rest));
                Ok(Some(word(alloc, "ok")?))
            }
            "append" => self.append(alloc, 1, text),
            "append-each" => self.append(alloc, count, rest),
            _ => self.on_disk(alloc, kind, text),
        }
    }
}
