// Keeps what an opening would cut from a file, in a file beside it.
ghost use Rattle.std.specs.Prelude.{◌≤◌};

use crate::fault::{SystemCall, SystemFault};
use crate::opening::{parent, told};
use crate::system::{Folders, OpenedFile};
use std::alloc::Global;
use std::io;

/// What was kept of a file's end.
#[derive(Drop)]
pub struct Kept {
    /// How many bytes.
    pub bytes: u64,
    /// How many whole frames stand at their beginning, each with an open gate before it but for the first.
    pub frames: u64,
    /// The path of the file that has them.
    pub path: String,
}

/// The file that a call was for, and what the system said.
pub type KeepFault = (String, SystemFault);

// How many bytes are read at a time.
const PIECE: usize = 65536;

// How many files are kept beside a file: the first ones, and the latest in place of the last.
const MOST_KEPT: u32 = 9;

// The most bytes of a frame.
const MAX_FRAME: u64 = 33554432;

// How many of the bytes from one place to another are read next.
fn piece_len(from: u64, to: u64) -> usize
    ensures { result ≤ 65536 }
{
    let left = to.saturating_sub(from);
    match usize::try_from(left) {
        Ok(left) => left.min(PIECE),
        Err(_) => PIECE,
    }
}

// Whether a file has zeros alone from one place to another.
fn is_zero<F: OpenedFile>(file: &mut F, from: u64, to: u64) -> io::Result<bool> {
    let mut piece = [0; PIECE];
    let mut at = from;
    for _ in 0..u64::MAX {
        let count = piece_len(at, to);
        if count == 0 {
            return Ok(true);
        }
        file.read_exact_at(&mut piece[..count], at)?;
        if piece[..count].iter().any(|&byte| byte != 0) {
            return Ok(false);
        }
        at = at.saturating_add(count as u64);
    }
    Ok(true)
}

// The length of the frame that stands whole at a place, before a gate.
fn frame_at<F: OpenedFile>(file: &mut F, at: u64, end: u64) -> io::Result<Option<u64>> {
    if end.saturating_sub(at) < 6 {
        return Ok(None);
    }
    let mut bytes = [0; 4];
    file.read_exact_at(&mut bytes, at)?;
    let len = u64::from(u32::from_be_bytes(bytes));
    if len == 0 || len > MAX_FRAME || end.saturating_sub(at) < len.saturating_add(5) {
        return Ok(None);
    }
    Ok(Some(len))
}

// How many whole frames stand from a place on, each but the first behind an open gate.
fn frames_from<F: OpenedFile>(file: &mut F, from: u64, end: u64) -> io::Result<u64> {
    let mut at = from;
    let mut frames: u64 = 0;
    for _ in 0..u64::MAX {
        let Some(len) = frame_at(file, at, end)? else {
            return Ok(frames);
        };
        frames = frames.saturating_add(1);
        let mut gate = [0];
        file.read_exact_at(&mut gate, at.saturating_add(len).saturating_add(4))?;
        if gate != [1] {
            return Ok(frames);
        }
        at = at.saturating_add(len).saturating_add(5);
    }
    Ok(frames)
}

// Copies the bytes from one place to another to a file, which they fill, and syncs it.
fn copy_out<F: OpenedFile>(
    file: &mut F,
    from: u64,
    to: u64,
    copy: &mut F,
) -> Result<(), SystemFault> {
    let mut piece = [0; PIECE];
    let mut at = from;
    told(SystemCall::Cut, copy.set_size(0))?;
    for _ in 0..u64::MAX {
        let count = piece_len(at, to);
        if count == 0 {
            break;
        }
        told(
            SystemCall::Read,
            file.read_exact_at(&mut piece[..count], at),
        )?;
        told(
            SystemCall::Write,
            copy.write_all_at(&piece[..count], at.saturating_sub(from)),
        )?;
        at = at.saturating_add(count as u64);
    }
    told(SystemCall::Sync, copy.sync_data())
}

// The path of the next file that is kept beside a file.
fn kept_path<S: Folders>(alloc: Global, system: &S, path: &str) -> io::Result<String> {
    for number in 1..MOST_KEPT {
        let kept = format!(in alloc; "{path}.cut-{number}")?;
        if !system.has_file(kept.as_str())? {
            return Ok(kept);
        }
    }
    Ok(format!(in alloc; "{path}.cut-{MOST_KEPT}")?)
}

// What stands in a file from a place on: its end, and how many whole frames there are. `None` where it is nothing, or
// zeros alone.
fn behind<F: OpenedFile>(file: &mut F, from: u64) -> io::Result<Option<(u64, u64)>> {
    let end = file.size()?;
    if end <= from || is_zero(file, from, end)? {
        return Ok(None);
    }
    Ok(Some((end, frames_from(file, from, end)?)))
}

// Copies what stands in a file from a place on to one of this path, whose name lasts.
fn keep_at<S: Folders>(
    system: &mut S,
    file: &mut S::File,
    from: u64,
    to: u64,
    kept: &str,
) -> Result<(), SystemFault> {
    let mut copy = told(SystemCall::Open, system.open_file(kept))?;
    copy_out(file, from, to, &mut copy)?;
    told(SystemCall::SyncFolder, system.sync_folder(parent(kept)))
}

/// Keeps what stands in the file of a path from a place on, in a file beside it: `PATH.cut-1` to `PATH.cut-8`, and then
/// `PATH.cut-9`, which has the latest. It is synced, and its name lasts. Where nothing stands there, or zeros alone,
/// nothing is kept. The file itself isn't changed.
pub fn keep_behind<S: Folders>(
    alloc: Global,
    system: &mut S,
    path: String,
    from: u64,
) -> Result<Option<Kept>, KeepFault> {
    match told(SystemCall::Open, system.has_file(path.as_str())) {
        Ok(true) => {}
        Ok(false) => return Ok(None),
        Err(fault) => return Err((path, fault)),
    }
    let mut file = match told(SystemCall::Open, system.open_file(path.as_str())) {
        Ok(file) => file,
        Err(fault) => return Err((path, fault)),
    };
    let (end, frames) = match told(SystemCall::Read, behind(&mut file, from)) {
        Ok(Some(found)) => found,
        Ok(None) => return Ok(None),
        Err(fault) => return Err((path, fault)),
    };
    let kept = match told(SystemCall::Path, kept_path(alloc, &*system, path.as_str())) {
        Ok(kept) => kept,
        Err(fault) => return Err((path, fault)),
    };
    match keep_at(system, &mut file, from, end, kept.as_str()) {
        Ok(()) => Ok(Some(Kept {
            bytes: end.saturating_sub(from),
            frames,
            path: kept,
        })),
        Err(fault) => Err((kept, fault)),
    }
}

// What stands in the file of a path from a place on.
fn seen_at<S: Folders>(system: &mut S, path: &str, from: u64) -> io::Result<Option<(u64, u64)>> {
    if !system.has_file(path)? {
        return Ok(None);
    }
    let mut file = system.open_file(path)?;
    match behind(&mut file, from)? {
        Some((end, frames)) => Ok(Some((end.saturating_sub(from), frames))),
        None => Ok(None),
    }
}

/// How many bytes stand in the file of a path from a place on, and how many whole frames at their beginning. `None`
/// where it is nothing or zeros alone, or where it can't be read.
pub fn seen_behind<S: Folders>(system: &mut S, path: &str, from: u64) -> Option<(u64, u64)> {
    seen_at(system, path, from).unwrap_or(None)
}

// The first bytes of a file, at most so many.
fn first_bytes<F: OpenedFile>(alloc: Global, file: &mut F, most: u64) -> io::Result<Vec<u8>> {
    let size = file.size()?.min(most);
    let mut bytes = Vec::new(alloc);
    let mut at = 0;
    let mut piece = [0; PIECE];
    for _ in 0..u64::MAX {
        let count = piece_len(at, size);
        if count == 0 {
            break;
        }
        file.read_exact_at(&mut piece[..count], at)?;
        bytes.extend_from_slice(&piece[..count])?;
        at = at.saturating_add(count as u64);
    }
    Ok(bytes)
}

/// Whether the file of a path has more than a gate, and has these bytes nowhere among its first 16 MiB. `false` where it
/// isn't there or can't be read.
pub fn lacks_bytes<S: Folders>(alloc: Global, system: &mut S, path: &str, bytes: &[u8]) -> bool {
    if !system.has_file(path).unwrap_or(false) {
        return false;
    }
    let Ok(mut file) = system.open_file(path) else {
        return false;
    };
    match first_bytes(alloc, &mut file, 16777216) {
        Ok(found) => found.len() > 1
            && !found.windows(bytes.len().max(1)).any(|part| part == bytes),
        Err(_) => false,
    }
}
