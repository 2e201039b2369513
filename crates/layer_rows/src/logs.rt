// The log of a partition on the disk.
//
// | Line | Gives |
// |---|---|
// | `open-log` | the log of the disk: its batches and its end, or `damaged PLACE`, or `fails` |
// | `append-batch HEX ..`, `load-batch HEX ..` | adds a batch as a producer sends it, or as a log keeps it: its base, or why it is refused |
// | `appends N HEX ..` | appends the batch N times, and gives the last answer |
// | `log-start`, `log-end` | the offset at which it starts, and the one behind the last one |
// | `raise OFFSET` | raises the start: the new one, or `fails`, or `no such start` where it isn't above the start and at the end at most |
// | `next-slot OFFSET` | the least slot from an offset on, or `none` |
// | `batch-of OFFSET` | the number, the first and the last offset and the size of the batch that covers it, or `none` |
// | `batch-bytes OFFSET` | the bytes of that batch, or `fails` |
// | `read-each N` | reads the first N batches, one after another: how many bytes they have, or `fails at NUMBER` |
use crate::disks::{Store, bytes_text, number_text, word_number};
use crate::plain::word;
use edge_mem::MemDisk;
use part_log::{BatchRead, OpenFault, PartLog};
use row_text::bytes_of;
use share_model::{LogFault, Room, StoreFault};
use std::alloc::Global;
use std::io;

/// A base, or why a batch is refused.
pub fn answer_text(alloc: Global, answer: Result<u64, LogFault>) -> io::Result<String> {
    match answer {
        Ok(base) => number_text(alloc, base),
        Err(LogFault::Batch(fault)) => Ok(format!(in alloc; "{fault:?}")?),
        Err(LogFault::Behind { end }) => word_number(alloc, "behind", end),
        Err(LogFault::Store(StoreFault::Device)) => word(alloc, "fails"),
        Err(LogFault::Store(StoreFault::Full { end })) => word_number(alloc, "full", end),
        Err(LogFault::NoMemory) => word(alloc, "no memory"),
    }
}

/// Appends a batch, and tells the answer.
fn append_text(alloc: Global, log: &mut PartLog<MemDisk>, batch: &[u8]) -> io::Result<String> {
    let answer = log.append(batch);
    answer_text(alloc, answer)
}

/// Why no bytes were given. Those that were to be appended to must be as they were.
fn unread(alloc: Global, fault: BatchRead, room: &Room) -> io::Result<String> {
    if !room.as_slice().is_empty() {
        return word(alloc, "fails and writes");
    }
    match fault {
        BatchRead::Device => word(alloc, "fails"),
        BatchRead::NoMemory => word(alloc, "no memory"),
    }
}

fn batch_bytes(alloc: Global, log: &mut PartLog<MemDisk>, offset: u64) -> io::Result<String> {
    let Some(place) = log.batch_of(offset) else {
        return word(alloc, "none");
    };
    let mut room = Room::new(alloc);
    if place.number >= log.len() {
        return word(alloc, "no such number");
    }
    match log.batch_bytes(place.number, &mut room) {
        Ok(()) => bytes_text(alloc, room.as_slice()),
        Err(fault) => unread(alloc, fault, &room),
    }
}

/// Reads so many batches, from the first one on.
fn read_each(alloc: Global, log: &mut PartLog<MemDisk>, count: u64) -> io::Result<String> {
    let mut room = Room::new(alloc);
    for number in 0..count {
        if number >= log.len() {
            return word(alloc, "no such number");
        }
        if let Err(_) = log.batch_bytes(number, &mut room) {
            return word_number(alloc, "fails at", number);
        }
    }
    number_text(alloc, room.as_slice().len() as u64)
}

fn appends(alloc: Global, log: &mut PartLog<MemDisk>, text: &str) -> io::Result<Option<String>> {
    let (count, digits) = text.split_once(' ').unwrap_or((text, ""));
    let Some(batch) = bytes_of(alloc, digits)? else {
        return Ok(None);
    };
    let mut told = String::new(alloc);
    for _ in 0..count.parse().unwrap_or(0u64) {
        told = append_text(alloc, log, &batch)?;
    }
    Ok(Some(told))
}

/// Adds a batch, and tells the answer.
fn add(
    alloc: Global,
    log: &mut PartLog<MemDisk>,
    kind: &str,
    text: &str,
) -> io::Result<Option<String>> {
    let Some(batch) = bytes_of(alloc, text)? else {
        return Ok(None);
    };
    let answer = match kind {
        "load-batch" => log.load(&batch),
        _ => log.append(&batch),
    };
    Ok(Some(answer_text(alloc, answer)?))
}

/// Raises the start, where the log may start there, and tells it.
fn raise(alloc: Global, log: &mut PartLog<MemDisk>, to: u64) -> io::Result<String> {
    if to <= log.start() || to > log.end() {
        return word(alloc, "no such start");
    }
    match log.raise(to) {
        Ok(()) => number_text(alloc, log.start()),
        Err(StoreFault::Device) => word(alloc, "fails"),
        Err(StoreFault::Full { end }) => word_number(alloc, "full", end),
    }
}

/// The batch that covers an offset, or `none`.
fn place_text(alloc: Global, log: &PartLog<MemDisk>, offset: u64) -> io::Result<String> {
    match log.batch_of(offset) {
        Some(place) => {
            let (number, base) = (place.number, place.base);
            let (last, size) = (place.last, place.size);
            Ok(format!(in alloc; "{number} {base} {last} {size}")?)
        }
        None => word(alloc, "none"),
    }
}

/// What a line on a log gives. `None` where it isn't one.
fn log_told(
    alloc: Global,
    log: &mut PartLog<MemDisk>,
    kind: &str,
    text: &str,
) -> io::Result<Option<String>> {
    let number = text.parse().unwrap_or(0);
    let told = match kind {
        "append-batch" | "load-batch" => return add(alloc, log, kind, text),
        "appends" => return appends(alloc, log, text),
        "log-start" => number_text(alloc, log.start()),
        "log-end" => number_text(alloc, log.end()),
        "raise" => raise(alloc, log, number),
        "next-slot" => match log.next_slot(number) {
            Some(slot) => number_text(alloc, slot),
            None => word(alloc, "none"),
        },
        "batch-of" => place_text(alloc, log, number),
        "batch-bytes" => batch_bytes(alloc, log, number),
        "read-each" => read_each(alloc, log, number),
        _ => return Ok(None),
    };
    Ok(Some(told?))
}

/// How many batches a log has, and its end.
fn opened_text(alloc: Global, log: &PartLog<MemDisk>) -> io::Result<String> {
    let (count, end) = (log.len(), log.end());
    Ok(format!(in alloc; "{count} batches, end {end}")?)
}

/// Why no log was opened.
fn refusal(alloc: Global, fault: OpenFault) -> io::Result<String> {
    match fault {
        OpenFault::Damaged { place } => word_number(alloc, "damaged", place),
        OpenFault::Device => word(alloc, "fails"),
        OpenFault::NoMemory => word(alloc, "no memory"),
    }
}

impl Store {
    fn open_log(&mut self, alloc: Global) -> io::Result<Option<String>> {
        let Some(disk) = self.take_disk() else {
            return Ok(None);
        };
        let told = match PartLog::open(alloc, disk) {
            Ok(log) => {
                let told = opened_text(alloc, &log);
                self.set(Store::Log(log));
                told
            }
            Err((disk, fault)) => {
                self.set(Store::Disk(disk));
                refusal(alloc, fault)
            }
        };
        Ok(Some(told?))
    }

    /// What a line about a log gives. `None` where it isn't about one.
    pub fn on_log(&mut self, alloc: Global, kind: &str, text: &str) -> io::Result<Option<String>> {
        if kind == "open-log" {
            return self.open_log(alloc);
        }
        match self {
            Store::Log(log) => log_told(alloc, log, kind, text),
            _ => Ok(None),
        }
    }
}
