// What differs between that which a case gives and that which is wanted.
ghost use Rattle.std.specs.Prelude.{IfOk};
ghost use Rattle.edge_mem.specs.Seen.{bay_view};
ghost use Rattle.share_top.specs.Loading.{NoneIsOut};

use crate::case::Case;
use crate::disks::{bay_of, compared_disks};
use crate::runs::{runs_of, script_of_run};
use edge_mem::{MemBay, MemSink, MemSource};
use row_text::compared;
use session_script::{ScriptReader, Taken, write_event};
use share_model::Reset;
use share_top::{
    Address, BayChoice, ServeWords, Words, bay_choice, consume_words, run_alone, serve_words,
};
use std::alloc::Global;
use std::io;
use std::io::ErrorKind;
use topic_conf::Config;

// What the commands of a case end with, what they write, and the disks that they leave.
#[derive(Drop)]
struct Ran {
    status: String,
    output: MemSink,
    bay: MemBay,
}

// Runs a command that is none of a server or of a share consumer, and tells its status.
fn run_command(
    alloc: Global,
    words: &[String],
    input: &mut MemSource,
    output: &mut MemSink,
    bay: &mut MemBay,
) -> io::Result<u8>
    requires { NoneIsOut bay_view bay.old }
    ensures { NoneIsOut bay_view bay.new }
{
    let Ok(served) = serve_words(alloc, words) else {
        return Err(io::Error::from(ErrorKind::OutOfMemory));
    };
    if served.is_some() {
        return Err(io::Error::from(ErrorKind::Unsupported));
    }
    let Ok(consumed) = consume_words(alloc, words) else {
        return Err(io::Error::from(ErrorKind::OutOfMemory));
    };
    if consumed.is_some() {
        return Err(io::Error::from(ErrorKind::Unsupported));
    }
    Ok(run_alone(alloc, words, input, output, bay))
}

// Runs the command of a case, and the one that it has behind it, and tells their statuses.
fn run_commands(
    alloc: Global,
    case: &Case,
    input: &mut MemSource,
    output: &mut MemSink,
    bay: &mut MemBay,
) -> io::Result<String>
    requires { NoneIsOut bay_view bay.old }
    ensures { NoneIsOut bay_view bay.new }
{
    let ended = run_command(alloc, &case.words, input, output, bay)?;
    if case.behind.is_empty() {
        return Ok(format!(in alloc; "{ended}")?);
    }
    let next = run_command(alloc, &case.behind, input, output, bay)?;
    Ok(format!(in alloc; "{ended} {next}")?)
}

// A run of the session of a case, and of the command that it has behind it.
fn run_case(rt: &HostRuntime, case: &Case, run: u64) -> io::Result<Ran>
    ensures { IfOk result (λ ran. NoneIsOut bay_view ran.bay) }
{
    let alloc = rt.alloc();
    let script = script_of_run(alloc, case, run)?;
    let mut given = script.as_bytes().to_vec(alloc)?;
    given.extend_from_slice(&case.segment)?;
    let mut input = MemSource::new(given, case.read_faults.as_slice().to_vec(alloc)?);
    let mut output = MemSink::new(alloc, case.write_faults.as_slice().to_vec(alloc)?);
    let mut bay = bay_of(alloc, case, run)?;
    let status = run_commands(alloc, case, &mut input, &mut output, &mut bay)?;
    Ok(Ran {
        status,
        output,
        bay,
    })
}

// What is wrong with a status.
fn judged(alloc: Global, given: &str, wanted: &str) -> io::Result<Option<String>> {
    if given == wanted {
        return Ok(None);
    }
    Ok(Some(format!(in alloc; "the status is {given}, and {wanted} is wanted")?))
}

// A run of the session of a case.
fn judge_run(rt: &HostRuntime, case: &Case, run: u64, status: &str) -> io::Result<Option<String>> {
    let alloc = rt.alloc();
    let mut ran = run_case(rt, case, run)?;
    if let Some(why) = judged(alloc, ran.status.as_str(), status)? {
        return Ok(Some(why));
    }
    let wrote = str::from_utf8(ran.output.bytes()).unwrap_or("no UTF-8");
    if let Some(why) = compared(alloc, wrote, case.wanted.as_str())? {
        return Ok(Some(why));
    }
    compared_disks(alloc, &mut ran.bay, case)
}

/// Runs the session of a case, as often as its lines say.
pub fn judge_runs(rt: &HostRuntime, case: &Case, status: &str) -> io::Result<Option<String>> {
    for run in 0..runs_of(case) {
        if let Some(why) = judge_run(rt, case, run, status)? {
            let why = why.as_str();
            return Ok(Some(format!(in rt.alloc(); "in run {run}, {why}")?));
        }
    }
    Ok(None)
}

/// Runs the session of a case, and counts its lines.
pub fn judge_count(rt: &HostRuntime, case: &Case, wanted: &str) -> io::Result<Option<String>> {
    let alloc = rt.alloc();
    let ran = run_case(rt, case, 0)?;
    if let Some(why) = judged(alloc, ran.status.as_str(), "0")? {
        return Ok(Some(why));
    }
    let mut count: u64 = 0;
    for byte in ran.output.bytes() {
        if *byte == b'\n' {
            count = count.saturating_add(1);
        }
    }
    let count = format!(in alloc; "{count}")?;
    compared(alloc, count.as_str(), wanted)
}

/// The script that `gen` writes for a number.
pub fn script_of(rt: &HostRuntime, number: &str) -> io::Result<String> {
    let alloc = rt.alloc();
    let mut words = Vec::new(alloc);
    words.push(String::from_str(alloc, "gen")?)?;
    words.push(String::from_str(alloc, number)?)?;
    let mut input = MemSource::new(Vec::new(alloc), Vec::new(alloc));
    let mut output = MemSink::new(alloc, Vec::new(alloc));
    let mut bay = MemBay::new(alloc, Vec::new(alloc));
    run_command(alloc, &words, &mut input, &mut output, &mut bay)?;
    Ok(String::from_str(alloc, str::from_utf8(output.bytes()).unwrap_or(""))?)
}

/// Reads the events of a case's script, and writes them.
pub fn judge_again(alloc: Global, case: &Case) -> io::Result<Option<String>> {
    let script = case.script.as_bytes().to_vec(alloc)?;
    let mut input = MemSource::new(script, Vec::new(alloc));
    let mut output = MemSink::new(alloc, Vec::new(alloc));
    let mut reader = ScriptReader::new(alloc);
    for _ in 0..case.script.len() {
        let Ok(Taken::Event(event)) = reader.take_event(&mut input) else {
            break;
        };
        if write_event(alloc, &event, &mut output).is_err() {
            break;
        }
    }
    let wanted = case.script.strip_suffix("end\n").unwrap_or("");
    let wrote = str::from_utf8(output.bytes()).unwrap_or("no UTF-8");
    compared(alloc, wrote, wanted)
}

/// The settings of a configuration, in the order and the notation of the command line.
fn settings(alloc: Global, conf: &Config) -> io::Result<String> {
    let reset = match conf.reset() {
        Reset::Latest => "latest",
        Reset::Earliest => "earliest",
    };
    let (lock, limit) = (conf.lock_ms(), conf.limit());
    let (host, port) = (conf.host().as_str(), conf.port());
    let mut text = format!(in alloc; "{reset} {lock} {limit} {host}:{port}")?;
    for topic in conf.topics() {
        let (name, parts, id) = (topic.name.as_str(), topic.parts, topic.id);
        let topic = format!(in alloc; " {name}:{parts}:{id}")?;
        text.push_str(topic.as_str())?;
    }
    Ok(text)
}

// What a server is told, in the order and the notation of the command line.
fn server(alloc: Global, listen: &Address, words: &ServeWords) -> io::Result<String> {
    let (host, port) = (listen.host.as_str(), listen.port);
    let settings = settings(alloc, &words.conf)?;
    let (workers, accept) = (words.workers, words.accept);
    Ok(format!(in alloc; "listen {host}:{port} workers {workers} accept {accept} {settings}")?)
}

/// Tells which bay the words of a case want: the place of the folder's word, or `memory`.
pub fn judge_bay(alloc: Global, case: &Case, wanted: &str) -> io::Result<Option<String>> {
    match bay_choice(&case.words) {
        BayChoice::Memory => compared(alloc, "memory", wanted),
        BayChoice::Folder { word } => {
            let text = format!(in alloc; "folder {word}")?;
            compared(alloc, text.as_str(), wanted)
        }
    }
}

/// Reads the words of a case.
pub fn judge_settings(alloc: Global, case: &Case, wanted: &str) -> io::Result<Option<String>> {
    match Words::read(alloc, &case.words) {
        Ok(Words::Replay { conf, summary }) => {
            let settings = settings(alloc, &conf)?;
            let told = if summary { "summary " } else { "" };
            let text = format!(in alloc; "{told}{settings}")?;
            compared(alloc, text.as_str(), wanted)
        }
        Ok(Words::Load { conf, shard }) => {
            let settings = settings(alloc, &conf)?;
            let text = format!(in alloc; "shard {shard} {settings}")?;
            compared(alloc, text.as_str(), wanted)
        }
        Ok(Words::DumpState { conf }) => compared(alloc, settings(alloc, &conf)?.as_str(), wanted),
        Ok(Words::Gen { n }) => {
            let text = format!(in alloc; "rounds {n}")?;
            compared(alloc, text.as_str(), wanted)
        }
        Ok(Words::Serve { listen, words }) => {
            compared(alloc, server(alloc, &listen, &words)?.as_str(), wanted)
        }
        Ok(Words::Consume { connect, conf }) => {
            let (host, port) = (connect.host.as_str(), connect.port);
            let (group, member) = (conf.group.as_str(), conf.member.as_str());
            let (topic, count) = (conf.topic.as_str(), conf.count);
            let text = format!(in alloc;
                "connect {host}:{port} group {group} member {member} topic {topic} count {count}"
            )?;
            compared(alloc, text.as_str(), wanted)
        }
        Err(fault) => Ok(Some(format!(in alloc; "{fault:?}")?)),
    }
}
