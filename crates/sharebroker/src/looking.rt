// A look at a folder before it is opened. What an opening would refuse ends the program with each file as it was, and
// what it would cut off is kept first.
ghost use Rattle.std.specs.Prelude.{◌≡◌, List, ℕ, false};
ghost use Rattle.edge_real.specs.Folders.{out_at};

use crate::ending::{DAMAGED, DEVICE, Faults, NO_MEMORY, NO_SEGMENT, WRITE_FAULT, tell_status};
use edge_io::{DiskName, DiskPlace, write_all};
use edge_mem::{MemSink, MemSource};
use edge_real::{
    FolderBay, Folders, LookFolders, ReaderSource, SystemFolders, WriterSink, keep_behind,
    lacks_bytes, seen_behind,
};
use share_top::{ServeWords, Words, consume_words, run_alone, serve_words};
use std::alloc::AllocError;
use std::io::{Read, Write};
use topic_conf::Config;

// The most frames that one write leaves behind a journal's end.
const MOST_FRAMES: u64 = 1;

type Look<'a> = FolderBay<LookFolders<SystemFolders<'a, HostRuntime>>>;

// The disks of a folder, as they are. None is out.
fn look_bay<'a>(rt: &'a HostRuntime, folder: String) -> Look<'a>
    ensures { (name : List ℕ) → out_at result name ≡ false }
{
    let system = SystemFolders { rt };
    FolderBay::over(rt.alloc(), LookFolders { system }, folder)
}

// The configuration of a command that opens a folder.
fn config_of(words: Words) -> Option<Config> {
    match words {
        Words::Serve { words, .. } => {
            let ServeWords { conf, .. } = words;
            Some(conf)
        }
        Words::Load { conf, .. } => Some(conf),
        Words::DumpState { conf } => Some(conf),
        _ => None,
    }
}

// The words of a dump of this folder for so many topics, which are the last ones of these words.
fn dump_words(
    rt: &HostRuntime,
    words: &[String],
    folder: &str,
    topics: usize,
) -> Result<Vec<String>, AllocError> {
    let mut dump = Vec::new(rt.alloc());
    for word in ["dump-state", "--dir", folder] {
        dump.push(String::from_str(rt.alloc(), word)?)?;
    }
    for word in words.iter().skip(words.len().saturating_sub(topics)) {
        dump.push(String::from_str(rt.alloc(), word.as_str())?)?;
    }
    Ok(dump)
}

// The disks of these topics, and the foreign ones.
fn disks_of(rt: &HostRuntime, conf: &Config) -> Result<Vec<DiskName>, AllocError> {
    let mut names = Vec::new(rt.alloc());
    let places = [
        DiskPlace::Log,
        DiskPlace::LogB,
        DiskPlace::StateA,
        DiskPlace::StateB,
    ];
    for topic in conf.topics() {
        for number in 0..topic.parts {
            for place in places {
                if let Some(name) = DiskName::hosted(topic.name.as_bytes(), number, place) {
                    names.push(name)?;
                }
            }
        }
    }
    names.push(DiskName::foreign_state_a())?;
    names.push(DiskName::foreign_state_b())?;
    Ok(names)
}

// Keeps what the opening of a disk would cut off, and says so. `false` where it can't be kept, which is told.
fn keep(rt: &HostRuntime, folder: &str, name: &DiskName, from: u64) -> Result<bool, AllocError> {
    let path = format!(in rt.alloc(); "{folder}/{name}")?;
    match keep_behind(rt.alloc(), &mut SystemFolders { rt }, path, from) {
        Ok(None) => {}
        Ok(Some(kept)) => {
            let (bytes, frames, at) = (kept.bytes, kept.frames, kept.path.as_str());
            let _ = if frames > MOST_FRAMES {
                eprintln!(rt;
                    "sharebroker: {folder}/{name}: {bytes} bytes behind its end are cut off and kept in {at}; no unfinished write leaves {frames} whole frames there"
                )
            } else {
                eprintln!(rt;
                    "sharebroker: {folder}/{name}: {bytes} bytes behind its end are cut off and kept in {at}"
                )
            };
        }
        Err((path, fault)) => {
            let _ = eprintln!(rt; "sharebroker: {path}: {fault}");
            return Ok(false);
        }
    }
    Ok(true)
}

// Keeps what the opening of each disk would cut off.
fn keep_all(
    rt: &HostRuntime,
    folder: &str,
    names: &[DiskName],
    bay: &Look<'_>,
) -> Result<bool, AllocError> {
    for name in names {
        if let Some(len) = bay.kept_len(name) {
            if !keep(rt, folder, name, len)? {
                return Ok(false);
            }
        }
    }
    Ok(true)
}

// Tells which files of a refused folder have more behind their end than an unfinished write leaves.
fn tell_rests(
    rt: &HostRuntime,
    folder: &str,
    names: &[DiskName],
    bay: &Look<'_>,
) -> Result<(), AllocError> {
    for name in names {
        if let Some(len) = bay.kept_len(name) {
            let path = format!(in rt.alloc(); "{folder}/{name}")?;
            match seen_behind(&mut SystemFolders { rt }, path.as_str(), len) {
                Some((bytes, frames)) if frames > MOST_FRAMES => {
                    let _ = eprintln!(rt;
                        "sharebroker: {path}: {bytes} bytes stand behind its end; no unfinished write leaves {frames} whole frames there"
                    );
                }
                _ => {}
            }
        }
    }
    Ok(())
}

// Tells which topics have another id in the folder than in the words.
fn tell_ids(rt: &HostRuntime, folder: &str, conf: &Config) -> Result<(), AllocError> {
    for topic in conf.topics() {
        let name = topic.name.as_str();
        for number in 0..topic.parts {
            let path = format!(in rt.alloc(); "{folder}/{name}/{number}/state-a")?;
            if lacks_bytes(
                rt.alloc(),
                &mut SystemFolders { rt },
                path.as_str(),
                topic.id.as_bytes(),
            ) {
                let _ = eprintln!(rt; "sharebroker: {path}: the topic {name} has another id there");
            }
        }
    }
    Ok(())
}

// Tells which topics the folder hasn't.
fn tell_missing(rt: &HostRuntime, folder: &str, conf: &Config) -> Result<(), AllocError> {
    let system = SystemFolders { rt };
    for topic in conf.topics() {
        let name = topic.name.as_str();
        let path = format!(in rt.alloc(); "{folder}/{name}")?;
        if let Ok(false) = system.has_file(path.as_str()) {
            let _ = eprintln!(rt; "sharebroker: {folder}: it has no topic {name}");
        }
    }
    Ok(())
}

// Writes the line of a damaged disk, tells what is to be told of the status, and gives it.
fn tell_damaged<R: Read, W: Write>(
    rt: &HostRuntime,
    line: &[u8],
    input: &ReaderSource<R>,
    output: &mut WriterSink<W>,
) -> u8 {
    let status = match write_all(output, line) {
        Ok(()) => DAMAGED,
        Err(_) => WRITE_FAULT,
    };
    tell_status(rt, status, NO_SEGMENT, Faults::of(input, output, None))
}

// What a look at a folder comes to: the status with which the program ends, if it is to end.
fn looked<R: Read, W: Write>(
    rt: &HostRuntime,
    words: &[String],
    folder: &str,
    conf: &Config,
    input: &mut ReaderSource<R>,
    output: &mut WriterSink<W>,
) -> Result<Option<u8>, AllocError> {
    let dump = dump_words(rt, words, folder, conf.topics().len())?;
    let Ok(None) = serve_words(rt.alloc(), &dump) else {
        return Ok(None);
    };
    let Ok(None) = consume_words(rt.alloc(), &dump) else {
        return Ok(None);
    };
    // The first write alone is taken, which is the line of a damaged disk where there is one.
    let mut failing = Vec::new(rt.alloc());
    failing.push(1)?;
    let mut source = MemSource::new(Vec::new(rt.alloc()), Vec::new(rt.alloc()));
    let mut front = MemSink::new(rt.alloc(), failing);
    let mut bay = look_bay(rt, String::from_str(rt.alloc(), folder)?);
    let status = run_alone(rt.alloc(), &dump, &mut source, &mut front, &mut bay);
    let names = disks_of(rt, conf)?;
    match status {
        DAMAGED => {
            let status = tell_damaged(rt, front.bytes(), input, output);
            tell_rests(rt, folder, &names, &bay)?;
            tell_ids(rt, folder, conf)?;
            Ok(Some(status))
        }
        DEVICE => Ok(Some(tell_status(
            rt,
            status,
            NO_SEGMENT,
            Faults::of(input, output, bay.last_fault()),
        ))),
        NO_MEMORY => Err(AllocError),
        _ => match keep_all(rt, folder, &names, &bay)? {
            true => Ok(None),
            false => Ok(Some(DEVICE)),
        },
    }
}

/// Looks at a folder that is there before a command opens it, and changes none of its files. The status with which the
/// program ends, where the opening would be refused, and where what it cuts off can't be kept; that is told.
pub fn look<R: Read, W: Write>(
    rt: &HostRuntime,
    words: &[String],
    folder: &str,
    input: &mut ReaderSource<R>,
    output: &mut WriterSink<W>,
) -> Option<u8> {
    let Ok(words_read) = Words::read(rt.alloc(), words) else {
        return None;
    };
    let is_dump = matches!(&words_read, Words::DumpState { .. });
    let conf = config_of(words_read)?;
    if !(SystemFolders { rt }).has_file(folder).unwrap_or(false) {
        if is_dump {
            let _ = eprintln!(rt; "sharebroker: {folder}: no such folder");
            return Some(DEVICE);
        }
        return None;
    }
    if is_dump {
        let _ = tell_missing(rt, folder, &conf);
    }
    match looked(rt, words, folder, &conf, input, output) {
        Ok(ends) => ends,
        Err(_) => Some(tell_status(rt, NO_MEMORY, NO_SEGMENT, Faults::of(input, output, None))),
    }
}
