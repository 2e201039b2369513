// Texts: the script of a number, and stored states as lines.
//
// | Line | Gives |
// |---|---|
// | `sink-fails N` | a new sink, of which the call numbered N, from 0, fails: `ok` |
// | `script N` | writes the script of N rounds: `ok`, or its fault |
// | `record HEX ..` | a snapshot of the state journal, whose key and state the lines behind it write: `ok` |
// | `table TOPIC PART` | writes the state as the table of the key's group: `ok`, or the fault |
// | `foreign` | writes the state under its key: `ok`, or the fault |
// | `lines`, `size` | how many lines the sink holds, and how many bytes |
// | `line K` | the line numbered K, from 1 |
// | `sum` | the CRC-32C of all that the sink holds |
use crate::disks::done;
use crate::plain::{debug_text, word};
use crate::values::sum_told;
use edge_mem::MemSink;
use gen_load::write_script;
use offset_runs::Runs;
use row_text::bytes_of;
use share_coord::{StateView, complete_of};
use share_model::Key;
use state_records::{KeyState, StateRecord, read_record};
use state_text::{GenFault, write_foreign, write_table};
use std::alloc::Global;
use std::{io, mem};

#[derive(Drop)]
struct Stored {
    key: Key,
    view: StateView,
}

#[derive(Drop)]
pub struct Texts {
    sink: MemSink,
    stored: Option<Stored>,
}

/// The state of a snapshot, where it has no more runs than a key may have.
fn stored_of(state: KeyState) -> Option<Stored> {
    let KeyState {
        key,
        snapshot: _,
        state_epoch,
        leader_epoch,
        start,
        complete: _,
        runs,
    } = state;
    let runs = Runs::from_list(runs);
    if runs.list().len() > 1000000 {
        return None;
    }
    let complete = complete_of(&runs);
    Some(Stored {
        key,
        view: StateView {
            state_epoch,
            leader_epoch,
            start,
            complete,
            runs,
        },
    })
}

/// The state of a snapshot that is spelled by these digits.
fn read_stored(alloc: Global, digits: &str) -> io::Result<Option<Stored>> {
    let Some(bytes) = bytes_of(alloc, digits)? else {
        return Ok(None);
    };
    match read_record(alloc, &bytes) {
        Ok(StateRecord::Snapshot(state)) => Ok(stored_of(state)),
        _ => Ok(None),
    }
}

fn written(alloc: Global, call: Result<(), GenFault>) -> io::Result<String> {
    match call {
        Ok(()) => done(alloc, true),
        Err(fault) => debug_text(alloc, &fault),
    }
}

impl Texts {
    pub fn new(alloc: Global) -> Texts {
        Texts {
            sink: MemSink::new(alloc, Vec::new(alloc)),
            stored: None,
        }
    }

    /// Puts others in place of these.
    pub fn set(&mut self, texts: Texts) {
        drop(mem::replace(self, texts));
    }

    fn script(&mut self, alloc: Global, number: &str) -> io::Result<String> {
        let number: u32 = number.parse().unwrap_or(0);
        if number == 0 || number > 100000 {
            return word(alloc, "no such number");
        }
        written(alloc, write_script(alloc, number, &mut self.sink))
    }

    fn table(&mut self, alloc: Global, text: &str) -> io::Result<String> {
        let (topic, part) = text.split_once(' ').unwrap_or((text, ""));
        let Some(stored) = &self.stored else {
            return word(alloc, "no state");
        };
        let (group, part) = (&stored.key.group, part.parse().unwrap_or(0));
        let result = write_table(alloc, group, topic, part, &stored.view, &mut self.sink);
        written(alloc, result)
    }

    fn foreign(&mut self, alloc: Global) -> io::Result<String> {
        let Some(stored) = &self.stored else {
            return word(alloc, "no state");
        };
        let result = write_foreign(alloc, &stored.key, &stored.view, &mut self.sink);
        written(alloc, result)
    }

    fn fail_sink(&mut self, alloc: Global, call: &str) -> io::Result<String> {
        let failing = vec![in alloc; call.parse().unwrap_or(0); 1]?;
        self.sink = MemSink::new(alloc, failing);
        done(alloc, true)
    }

    fn read(&mut self, alloc: Global, digits: &str) -> io::Result<String> {
        self.stored = read_stored(alloc, digits)?;
        done(alloc, self.stored.is_some())
    }

    /// The line of a number, from 1.
    fn line(&self, alloc: Global, number: &str) -> io::Result<String> {
        let text = str::from_utf8(self.sink.bytes()).unwrap_or("");
        let number: usize = number.parse().unwrap_or(0);
        word(
            alloc,
            text.lines()
                .nth(number.saturating_sub(1))
                .unwrap_or("no line"),
        )
    }

    fn lines(&self, alloc: Global) -> io::Result<String> {
        let text = str::from_utf8(self.sink.bytes()).unwrap_or("");
        debug_text(alloc, &text.lines().count())
    }

    /// What a line gives. `None` where there is no such line.
    pub fn told(&mut self, alloc: Global, kind: &str, text: &str) -> io::Result<Option<String>> {
        let told = match kind {
            "sink-fails" => self.fail_sink(alloc, text),
            "script" => self.script(alloc, text),
            "record" => self.read(alloc, text),
            "table" => self.table(alloc, text),
            "foreign" => self.foreign(alloc),
            "lines" => self.lines(alloc),
            "line" => self.line(alloc, text),
            "size" => debug_text(alloc, &self.sink.bytes().len()),
            "sum" => sum_told(alloc, self.sink.bytes()),
            _ => return Ok(None),
        };
        Ok(Some(told?))
    }
}
