//! The program: it hands the real streams and a bay of disks to the top call, and ends with its status.
#![tactic(auto)]

ghost use Rattle.std.specs.Prelude.{◌≡◌, List, ℕ, false};
ghost use Rattle.edge_real.specs.Folders.{out_at as out_of_folder};
ghost use Rattle.share_top.specs.Words.{AreOfConsume, AreOfServe};

mod asked;
mod consumer;
mod ending;
mod files;
mod looking;
mod notices;
mod server;
mod usage;
mod wrong;

use asked::answer;
use consumer::{consume_over_tcp, memory_bay};
use edge_io::write_all;
use edge_real::{FolderBay, ReaderSource, SystemFolders, WriterSink};
use ending::{Faults, NO_MEMORY, NO_SCRIPT, NO_SEGMENT, USAGE, WRITE_FAULT, tell_status};
use looking::look;
use server::serve_over_tcp;
use share_top::{BayChoice, bay_choice, consume_words, run_alone, serve_words};
use std::env;
use std::io::{ErrorKind, Read, Result, Write};
use std::net::{Net, TcpListener, TcpStream};
use std::process::ExitCode;
use std::sync::Wait;
use std::thread::Threads;
use std::time::Clock;

// The words behind the program's name.
fn words(rt: &HostRuntime) -> Result<Vec<String>> {
    let mut words = Vec::new(rt.alloc());
    for word in env::args(rt)?.skip(1) {
        words.push(word)?;
    }
    Ok(words)
}

// The word that names the folder over which these words are run. They are run over a fresh bay in memory where there
// is none.
fn folder_word(words: &[String]) -> Option<&String> {
    match bay_choice(words) {
        BayChoice::Memory => None,
        BayChoice::Folder { word } => words.get(word),
    }
}

// The disks of a folder. None is out.
fn folder_bay(rt: &HostRuntime, folder: String) -> FolderBay<SystemFolders<'_, HostRuntime>>
    ensures { (name : List ℕ) → out_of_folder result name ≡ false }
{
    FolderBay::over(rt.alloc(), SystemFolders { rt }, folder)
}

// Does what the words say, which are none of a server or of a share consumer, tells what is to be told of the status,
// and gives it.
fn perform<R: Read, W: Write>(
    rt: &HostRuntime,
    words: &[String],
    input: &mut ReaderSource<R>,
    output: &mut WriterSink<W>,
) -> u8
    requires unserved { AreOfServe words.now → ⊥ }
    requires unlinked { AreOfConsume words.now → ⊥ }
{
    let Some(folder) = folder_word(words) else {
        let mut bay = memory_bay(rt);
        let status = run_alone(rt.alloc(), words, input, output, &mut bay);
        let faults = Faults::of(input, output, None).with_words(words);
        return tell_status(rt, status, NO_SCRIPT, faults);
    };
    if let Some(status) = look(rt, words, folder.as_str(), input, output) {
        return status;
    }
    let Ok(folder) = folder.clone() else {
        return tell_status(rt, NO_MEMORY, NO_SEGMENT, Faults::of(input, output, None));
    };
    let mut bay = folder_bay(rt, folder);
    let status = run_alone(rt.alloc(), words, input, output, &mut bay);
    tell_status(
        rt,
        status,
        NO_SEGMENT,
        Faults::of(input, output, bay.last_fault()).with_words(words),
    )
}

// The same of words that may be those of a share consumer.
fn perform_or_consume<
    H: Net<Listener = TcpListener, Stream = TcpStream>
        + Threads
        + Wait
        + Clock
        + Clone
        + Copy
        + Drop
        + Send
        + Sync
        + 'static,
    R: Read,
    W: Write,
>(
    handle: &H,
    rt: &HostRuntime,
    words: &[String],
    input: &mut ReaderSource<R>,
    output: &mut WriterSink<W>,
) -> u8
    requires { AreOfServe words.now → ⊥ }
{
    match consume_words(rt.alloc(), words) {
        Ok(None) => perform(rt, words, input, output),
        Ok(Some((connect, _))) => consume_over_tcp(handle, rt, words, &connect, input, output),
        Err(_) => tell_status(rt, NO_MEMORY, NO_SCRIPT, Faults::of(input, output, None)),
    }
}

// Tells a text on standard output, and gives the status.
fn told<R: Read, W: Write>(
    rt: &HostRuntime,
    text: &str,
    input: &ReaderSource<R>,
    output: &mut WriterSink<W>,
) -> u8 {
    match write_all(output, text.as_bytes()) {
        Ok(()) => 0,
        Err(_) => tell_status(rt, WRITE_FAULT, NO_SCRIPT, Faults::of(input, output, None)),
    }
}

fn main(rt: HostRuntime) -> ExitCode {
    let mut input = ReaderSource::new(rt.stdin());
    let mut output = WriterSink::new(rt.stdout());
    let words = match words(&rt) {
        Ok(words) => words,
        Err(error) => {
            let status = if error.kind() == ErrorKind::OutOfMemory {
                NO_MEMORY
            } else {
                USAGE
            };
            let faults = Faults::of(&input, &output, None);
            return ExitCode::from(tell_status(&rt, status, NO_SCRIPT, faults));
        }
    };
    if let Ok(Some(text)) = answer(&rt, &words) {
        return ExitCode::from(told(&rt, text.as_str(), &input, &mut output));
    }
    let status = match serve_words(rt.alloc(), &words) {
        Ok(None) => perform_or_consume(&rt, &rt, &words, &mut input, &mut output),
        Ok(Some((listen, served))) => {
            let folder = match folder_word(&words) {
                Some(folder) => folder.as_str(),
                None => "",
            };
            serve_over_tcp(
                &rt,
                &rt,
                &words,
                &listen,
                &served,
                folder,
                &mut input,
                &mut output,
            )
        }
        Err(_) => tell_status(&rt, NO_MEMORY, NO_SCRIPT, Faults::of(&input, &output, None)),
    };
    ExitCode::from(status)
}
