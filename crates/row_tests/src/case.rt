// A case as far as it was read.
use crate::judge::{judge_again, judge_bay, judge_count, judge_runs, judge_settings, script_of};
use crate::runs::{Flip, MarkLine, push_flips};
use edge_io::{DiskName, FaultMode};
use row_text::{Rows, Taken, bytes_of, without_blanks};
use std::alloc::Global;
use std::io;

#[derive(Drop)]
pub struct Case {
    pub words: Vec<String>,
    pub behind: Vec<String>,
    pub script: String,
    pub segment: Vec<u8>,
    pub wanted: String,
    pub read_faults: Vec<u64>,
    pub write_faults: Vec<u64>,
    pub bay_faults: Vec<u64>,
    pub disks: Vec<DiskLine>,
    pub arms: Vec<ArmLine>,
    pub left: Vec<DiskLine>,
    pub marks: Vec<MarkLine>,
    pub flips: Vec<Flip>,
}

/// A disk, and a content of it.
#[derive(Drop)]
pub struct DiskLine {
    pub name: DiskName,
    pub bytes: Vec<u8>,
}

/// A fault that is armed on a disk.
#[derive(Drop)]
pub struct ArmLine {
    pub name: DiskName,
    pub after: u64,
    pub mode: FaultMode,
}

/// Adds a line.
fn push_line(out: &mut String, text: &str) -> io::Result<()> {
    out.push_str(text)?;
    Ok(out.push_str("\n")?)
}

/// Adds a line of a word, a connection's number and bytes, whose digits have blanks between them.
fn push_bytes(alloc: Global, out: &mut String, word: &str, text: &str) -> io::Result<()> {
    let (conn, digits) = text.split_once(' ').unwrap_or((text, ""));
    let digits = without_blanks(alloc, digits)?;
    let line = format!(in alloc; "{word} {conn} {digits}")?;
    push_line(out, line.as_str())
}

/// Adds a `bytes` line for each byte.
fn push_bytewise(alloc: Global, out: &mut String, text: &str) -> io::Result<()> {
    let (conn, digits) = text.split_once(' ').unwrap_or((text, ""));
    let digits = without_blanks(alloc, digits)?;
    for pair in digits.as_bytes().chunks(2) {
        let digits = str::from_utf8(pair).unwrap_or("");
        let line = format!(in alloc; "bytes {conn} {digits}")?;
        push_line(out, line.as_str())?;
    }
    Ok(())
}

/// A word, and the text behind it.
pub fn field(text: &str) -> (&str, &str) {
    text.split_once(' ').unwrap_or((text, ""))
}

/// How many state batches stand on a line.
const BATCHES_ON_A_LINE: u64 = 2500;

/// Adds `bytes` lines of some state batches of one offset each.
fn push_batches(alloc: Global, out: &mut String, text: &str) -> io::Result<()> {
    let (conn, rest) = field(text);
    let (count, rest) = field(rest);
    let (first, rest) = field(rest);
    let (step, digits) = field(rest);
    let step = step.parse().unwrap_or(0);
    let digits = without_blanks(alloc, digits)?;
    let mut offset: u64 = first.parse().unwrap_or(0);
    let word = format!(in alloc; "bytes {conn} ")?;
    out.push_str(word.as_str())?;
    for number in 0..count.parse().unwrap_or(0u64) {
        if number > 0 && number % BATCHES_ON_A_LINE == 0 {
            out.push_str("\n")?;
            out.push_str(word.as_str())?;
        }
        let place = hex::encode(alloc, &offset.to_be_bytes())?;
        out.push_str(place.as_str())?;
        out.push_str(place.as_str())?;
        out.push_str(digits.as_str())?;
        offset = offset.saturating_add(step);
    }
    Ok(out.push_str("\n")?)
}

/// A disk by its name; the first one of foreign state where no disk has that name.
fn named(name: &str) -> DiskName {
    DiskName::parse(name).unwrap_or(DiskName::foreign_state_a())
}

/// A line of a disk's name and bytes.
fn disk_line(alloc: Global, text: &str) -> io::Result<DiskLine> {
    let (name, digits) = text.split_once(' ').unwrap_or((text, ""));
    let bytes = bytes_of(alloc, digits)?;
    Ok(DiskLine {
        name: named(name),
        bytes: bytes.unwrap_or(Vec::new(alloc)),
    })
}

/// Adds the bytes of a line to a segment.
fn push_segment(alloc: Global, segment: &mut Vec<u8>, text: &str) -> io::Result<()> {
    let bytes = bytes_of(alloc, text)?.unwrap_or(Vec::new(alloc));
    Ok(segment.extend_from_slice(&bytes)?)
}

/// A line of a disk's name, a number of calls and a mode.
fn arm_line(text: &str) -> ArmLine {
    let (name, fault) = text.split_once(' ').unwrap_or((text, ""));
    let (after, mode) = fault.split_once(' ').unwrap_or((fault, ""));
    ArmLine {
        name: named(name),
        after: after.parse().unwrap_or(0),
        mode: match mode {
            "torn" => FaultMode::Torn,
            "dead" => FaultMode::Dead,
            _ => FaultMode::Once,
        },
    }
}

/// The words that stand between blanks.
fn words_of(alloc: Global, text: &str) -> io::Result<Vec<String>> {
    let mut words = Vec::new(alloc);
    for word in text.split(' ').filter(|word| !word.is_empty()) {
        words.push(String::from_str(alloc, word)?)?;
    }
    Ok(words)
}

/// A line of a mark and the words that stand in its place.
fn mark_line(alloc: Global, text: &str) -> io::Result<MarkLine> {
    let (mark, words) = field(text);
    Ok(MarkLine {
        mark: String::from_str(alloc, mark)?,
        words: words_of(alloc, words)?,
    })
}

/// A line of a mark and bytes, of which each proper front stands in its place.
fn front_line(alloc: Global, text: &str) -> io::Result<MarkLine> {
    let (mark, digits) = field(text);
    let digits = without_blanks(alloc, digits)?;
    let mut front = String::new(alloc);
    let mut words = Vec::new(alloc);
    for pair in digits.as_bytes().chunks(2) {
        if !front.is_empty() {
            words.push(String::from_str(alloc, front.as_str())?)?;
        }
        front.push_str(str::from_utf8(pair).unwrap_or(""))?;
    }
    Ok(MarkLine {
        mark: String::from_str(alloc, mark)?,
        words,
    })
}

impl Case {
    pub fn new(alloc: Global) -> Case {
        Case {
            words: Vec::new(alloc),
            behind: Vec::new(alloc),
            script: String::new(alloc),
            segment: Vec::new(alloc),
            wanted: String::new(alloc),
            read_faults: Vec::new(alloc),
            write_faults: Vec::new(alloc),
            bay_faults: Vec::new(alloc),
            disks: Vec::new(alloc),
            arms: Vec::new(alloc),
            left: Vec::new(alloc),
            marks: Vec::new(alloc),
            flips: Vec::new(alloc),
        }
    }

    /// Notes a line that says what is given and wanted, and tells whether there is such a line.
    fn note(&mut self, alloc: Global, kind: &str, text: &str) -> io::Result<bool> {
        match kind {
            "words" => self.words = words_of(alloc, text)?,
            "then" => self.behind = words_of(alloc, text)?,
            "read-fault" => self.read_faults.push(text.parse().unwrap_or(0))?,
            "write-fault" => self.write_faults.push(text.parse().unwrap_or(0))?,
            "bay-fault" => self.bay_faults.push(text.parse().unwrap_or(0))?,
            "disk" => self.disks.push(disk_line(alloc, text)?)?,
            "armed" => self.arms.push(arm_line(text))?,
            "left" => self.left.push(disk_line(alloc, text)?)?,
            "with" => self.marks.push(mark_line(alloc, text)?)?,
            "fronts" => self.marks.push(front_line(alloc, text)?)?,
            "flip" => push_flips(alloc, &mut self.flips, self.disks.len() as u64, text)?,
            ">" => push_line(&mut self.script, text)?,
            "send" => push_bytes(alloc, &mut self.script, "bytes", text)?,
            "bytewise" => push_bytewise(alloc, &mut self.script, text)?,
            "batches" => push_batches(alloc, &mut self.script, text)?,
            "cut" => self.script.push_str(text)?,
            "segment" => push_segment(alloc, &mut self.segment, text)?,
            "<" => push_line(&mut self.wanted, text)?,
            "reply" => push_bytes(alloc, &mut self.wanted, "reply", text)?,
            _ => return Ok(false),
        }
        Ok(true)
    }
}

impl Rows for Case {
    /// A case has the words of the one before it until it is given its own.
    fn begin(&mut self, alloc: Global) -> io::Result<()> {
        self.behind = Vec::new(alloc);
        self.script = String::new(alloc);
        self.segment = Vec::new(alloc);
        self.wanted = String::new(alloc);
        self.read_faults = Vec::new(alloc);
        self.write_faults = Vec::new(alloc);
        self.bay_faults = Vec::new(alloc);
        self.disks = Vec::new(alloc);
        self.arms = Vec::new(alloc);
        self.left = Vec::new(alloc);
        self.marks = Vec::new(alloc);
        self.flips = Vec::new(alloc);
        Ok(())
    }

    fn take(&mut self, rt: &HostRuntime, kind: &str, text: &str) -> io::Result<Taken> {
        let differs = match kind {
            "status" => judge_runs(rt, self, text)?,
            "lines" => judge_count(rt, self, text)?,
            "gen" => {
                self.script = script_of(rt, text)?;
                return Ok(Taken::Noted);
            }
            "again" => judge_again(rt.alloc(), self)?,
            "settings" => judge_settings(rt.alloc(), self, text)?,
            "bay" => judge_bay(rt.alloc(), self, text)?,
            _ => match self.note(rt.alloc(), kind, text)? {
                true => return Ok(Taken::Noted),
                false => return Ok(Taken::Unknown),
            },
        };
        Ok(match differs {
            None => Taken::Passed,
            Some(why) => Taken::Failed { why },
        })
    }
}
