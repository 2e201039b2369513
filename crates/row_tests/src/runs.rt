// The runs of a case: one for each choice of what stands in place of its marks, and of the byte of a disk that is changed.
use crate::case::{Case, DiskLine, field};
use row_text::bytes_of;
use std::alloc::Global;
use std::io;

/// A mark of the script, and the words that stand in its place, each in a run of its own.
#[derive(Drop)]
pub struct MarkLine {
    pub mark: String,
    pub words: Vec<String>,
}

/// A byte of a disk that is changed in a run of its own, by an exclusive or.
#[derive(Clone, Copy)]
pub struct Flip {
    /// The number of the disk's line, from 0 on.
    pub disk: u64,
    pub place: u64,
    pub mask: u8,
}

/// Adds the bytes of a line of two hexadecimal digits, and the places of the first byte and the last.
pub fn push_flips(alloc: Global, flips: &mut Vec<Flip>, disks: u64, text: &str) -> io::Result<()> {
    let (digits, places) = field(text);
    let (first, last) = field(places);
    let first: u64 = first.parse().unwrap_or(0);
    let last: u64 = last.parse().unwrap_or(0);
    let mask = bytes_of(alloc, digits)?.unwrap_or(Vec::new(alloc));
    for place in first..last.saturating_add(1) {
        flips.push(Flip {
            disk: disks.saturating_sub(1),
            place,
            mask: mask.first().copied().unwrap_or(0),
        })?;
    }
    Ok(())
}

// How many runs there are for the bytes that are changed.
fn flips_of(case: &Case) -> u64 {
    (case.flips.len() as u64).max(1)
}

/// How many runs a case has.
pub fn runs_of(case: &Case) -> u64 {
    let mut runs = flips_of(case);
    for line in &case.marks {
        runs = runs.saturating_mul((line.words.len() as u64).max(1));
    }
    runs
}

// A number by its last digit and the others, of so many digits.
fn digit(number: u64, digits: u64) -> (u64, u64) {
    let last = number.checked_rem(digits).unwrap_or(0);
    (last, number.checked_div(digits).unwrap_or(0))
}

// Changes a byte.
fn change(bytes: &mut Vec<u8>, flip: Flip) {
    if let Some(byte) = bytes.get_mut(flip.place as usize) {
        *byte = *byte ^ flip.mask;
    }
}

/// The content that a disk has before a run, by the number of its line.
pub fn content_of_run(
    alloc: Global,
    case: &Case,
    line: &DiskLine,
    disk: u64,
    run: u64,
) -> io::Result<Vec<u8>> {
    let mut bytes = line.bytes.as_slice().to_vec(alloc)?;
    let (number, _) = digit(run, flips_of(case));
    if let Some(flip) = case.flips.get(number as usize) {
        if flip.disk == disk {
            change(&mut bytes, *flip);
        }
    }
    Ok(bytes)
}

/// The script of a run, in which each mark has become one of its words.
pub fn script_of_run(alloc: Global, case: &Case, run: u64) -> io::Result<String> {
    let mut script = String::from_str(alloc, case.script.as_str())?;
    let (_, mut rest) = digit(run, flips_of(case));
    for line in &case.marks {
        let (number, others) = digit(rest, line.words.len() as u64);
        rest = others;
        if let Some(word) = line.words.get(number as usize) {
            script = script
                .as_str()
                .replace(alloc, line.mark.as_str(), word.as_str())?;
        }
    }
    Ok(script)
}
