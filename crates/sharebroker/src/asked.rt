// What is told on standard output of the program itself: its usage text, and its version.
use crate::usage::{is_command, usage_text};
use sha1::Sha1;
use std::alloc::AllocError;
use std::fs::File;
use std::io;
use std::io::Read;

/// The kit that proves and builds the program, as `rt version` tells it.
const KIT: &str = "rattle-kit-13f logic dac8208d650f15bf";

/// What words ask to be told of the program.
enum Asked<'a> {
    /// Its usage text, of the command of this name alone where there is one.
    Usage(&'a str),
    Version,
}

fn asks_help(word: &str) -> bool {
    word == "--help" || word == "-h"
}

// What these words ask, where they ask for one of these and nothing else.
fn find_asked(words: &[String]) -> Option<Asked<'_>> {
    let (first, rest) = words.split_first()?;
    let first = first.as_str();
    let Some(second) = rest.first() else {
        return match first {
            "--version" => Some(Asked::Version),
            "help" => Some(Asked::Usage("")),
            _ if asks_help(first) => Some(Asked::Usage("")),
            _ => None,
        };
    };
    let second = second.as_str();
    if rest.len() > 1 {
        return None;
    }
    if first == "help" && is_command(second) {
        return Some(Asked::Usage(second));
    }
    if is_command(first) && asks_help(second) {
        return Some(Asked::Usage(first));
    }
    None
}

// The SHA-1 of the program's own file.
fn own_sum(rt: &HostRuntime) -> io::Result<[u8; 20]> {
    let mut file = File::open(rt, "/proc/self/exe")?;
    let mut sum = Sha1::new();
    let mut piece = [0; 65536];
    for _ in 0..u64::MAX {
        let count = file.read(&mut piece)?;
        if count == 0 {
            break;
        }
        sum.update(&piece[..count]);
    }
    Ok(sum.finalize())
}

// The version: the kit, and the SHA-1 of the program's own file where it can be read.
fn version_text(rt: &HostRuntime) -> Result<String, AllocError> {
    let mut text = format!(in rt.alloc(); "sharebroker, proved and built by {KIT}\n")?;
    if let Ok(sum) = own_sum(rt) {
        text.push_str("SHA-1 of this program: ")?;
        for byte in sum {
            let digits = format!(in rt.alloc(); "{byte:02x}")?;
            text.push_str(digits.as_str())?;
        }
        text.push_str("\n")?;
    }
    Ok(text)
}

/// What is told on standard output, where the words ask for it and for nothing else.
pub fn answer(rt: &HostRuntime, words: &[String]) -> Result<Option<String>, AllocError> {
    match find_asked(words) {
        Some(Asked::Usage(name)) => Ok(Some(usage_text(rt.alloc(), name)?)),
        Some(Asked::Version) => Ok(Some(version_text(rt)?)),
        None => Ok(None),
    }
}
