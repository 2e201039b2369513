// What the program says on standard error, where it doesn't end with status 0.
use crate::usage::usage_text;
use crate::wrong::wrong;
use edge_real::{FolderFault, ReaderSource, SystemFault, WriterSink};
use share_top::Address;
use std::io::{Read, Write};

/// The status where the words are no command, and where one of them isn't UTF-8.
pub const USAGE: u8 = 2;

/// The status where the input isn't what the command reads.
const MALFORMED: u8 = 3;

/// The status where the input failed.
const READ_FAULT: u8 = 4;

/// The status where the output failed.
pub const WRITE_FAULT: u8 = 5;

/// The status where the content of a disk isn't store text.
pub const DAMAGED: u8 = 6;

/// The status where a disk or the bay failed.
pub const DEVICE: u8 = 7;

/// The status where no memory is found.
pub const NO_MEMORY: u8 = 8;

/// The status where the socket that listens failed.
const LISTENER: u8 = 9;

/// The status where no thread could be started.
const SPAWNER: u8 = 10;

/// The status where a share consumer has no link, or lost one before its last acknowledgement was answered.
const LOST: u8 = 11;

/// The status where a broker's reply has an error code.
const REFUSED: u8 = 12;

/// The status where a broker's reply can't be.
const STRANGE: u8 = 13;

/// What that status means of a script.
pub const NO_SCRIPT: &str =
    "the input is no script; the last line of the output names its first fault";

/// What that status means of the batches of a log.
pub const NO_SEGMENT: &str =
    "a batch of the input is refused; the last line of the output names its place, and those before it are stored";

/// The last faults of the standard streams, of the folder of disks, of the socket that listens at an address, and of
/// starting a thread, as the operating system told them.
#[derive(Drop)]
pub struct Faults<'a> {
    input: Option<SystemFault>,
    output: Option<SystemFault>,
    folder: Option<FolderFault<'a>>,
    listener: Option<(&'a Address, SystemFault)>,
    spawner: Option<SystemFault>,
    words: &'a [String],
}

impl<'a> Faults<'a> {
    /// The last faults of these.
    pub fn of<R: Read, W: Write>(
        input: &ReaderSource<R>,
        output: &WriterSink<W>,
        folder: Option<FolderFault<'a>>,
    ) -> Faults<'a> {
        Faults {
            input: input.last_fault(),
            output: output.last_fault(),
            folder,
            listener: None,
            spawner: None,
            words: &[],
        }
    }

    /// The same with the last fault of the socket that listens at this address.
    pub fn with_listener(self, listen: &'a Address, fault: Option<SystemFault>) -> Faults<'a> {
        let listener = match fault {
            Some(fault) => Some((listen, fault)),
            None => None,
        };
        Faults { listener, ..self }
    }

    /// The same of these words of the command line.
    pub fn with_words(self, words: &'a [String]) -> Faults<'a> {
        Faults { words, ..self }
    }

    /// The same with the last fault of starting a thread.
    pub fn with_spawner(self, spawner: Option<SystemFault>) -> Faults<'a> {
        Faults { spawner, ..self }
    }
}

// A line on what the program met. It is lost where standard error can't be written.
fn tell(rt: &HostRuntime, what: &str) {
    let _ = eprintln!(rt; "sharebroker: {what}");
}

// A line on a stream, and what the operating system said of it.
fn tell_stream(rt: &HostRuntime, stream: &str, fault: Option<SystemFault>) {
    let _ = match fault {
        Some(fault) => eprintln!(rt; "sharebroker: {stream}: {fault}"),
        None => eprintln!(rt; "sharebroker: {stream} failed"),
    };
}

// A line on a file of the folder, and what the operating system said of it. A disk in memory fails without a word of
// the system, and a log that is full is no fault of a file.
fn tell_device(rt: &HostRuntime, fault: Option<FolderFault<'_>>) {
    let _ = match fault {
        Some(fault) => eprintln!(rt; "sharebroker: {fault}"),
        None => eprintln!(rt; "sharebroker: a disk failed, or a log is full"),
    };
}

// A line on the socket that listens, and what the operating system said.
fn tell_listener(rt: &HostRuntime, fault: Option<(&Address, SystemFault)>) {
    let _ = match fault {
        Some((listen, fault)) => {
            let (host, port) = (listen.host.as_str(), listen.port);
            eprintln!(rt; "sharebroker: {host}:{port}: {fault}")
        }
        None => eprintln!(rt; "sharebroker: no client can be accepted any more"),
    };
}

// A line that no thread was started, and what the operating system said.
fn tell_spawner(rt: &HostRuntime, fault: Option<SystemFault>) {
    let _ = match fault {
        Some(fault) => eprintln!(rt; "sharebroker: {fault}"),
        None => eprintln!(rt; "sharebroker: the system started no further thread"),
    };
}

// The usage text of the command, behind a line, and one that says which word is wrong.
fn tell_usage(rt: &HostRuntime, words: &[String]) {
    tell(rt, "bad words");
    if let Ok(Some(text)) = wrong(rt.alloc(), words) {
        tell(rt, text.as_str());
    }
    let name = match words.first() {
        Some(name) => name.as_str(),
        None => "",
    };
    if let Ok(text) = usage_text(rt.alloc(), name) {
        let _ = eprint!(rt; "{text}");
    }
}

/// Says in one line what a status means, and gives it; after bad words the usage text follows. `malformed` is what is
/// said of an input that isn't what the command reads.
pub fn tell_status(rt: &HostRuntime, status: u8, malformed: &str, faults: Faults<'_>) -> u8 {
    match status {
        USAGE => tell_usage(rt, faults.words),
        MALFORMED => tell(rt, malformed),
        READ_FAULT => tell_stream(rt, "standard input", faults.input),
        WRITE_FAULT => tell_stream(rt, "standard output", faults.output),
        DAMAGED => tell(
            rt,
            "a disk has a content that no broker wrote; the last line of the output names it, and the place of its first fault",
        ),
        DEVICE => tell_device(rt, faults.folder),
        NO_MEMORY => tell(rt, "out of memory"),
        LISTENER => tell_listener(rt, faults.listener),
        SPAWNER => tell_spawner(rt, faults.spawner),
        LOST => tell(
            rt,
            "the broker went away before it answered the last acknowledgement; what was written may be delivered again",
        ),
        REFUSED => tell(
            rt,
            "the broker refused; the last line of the output has the error code of its reply",
        ),
        STRANGE => tell(
            rt,
            "a reply of the broker can't be; the last line of the output names the place in it",
        ),
        _ => {}
    }
    status
}
