// Windows: what is held of a share partition. A member holds by a lock that ends at a moment, with a delivery count.
//
//     hold MEMBER FIRST..LAST END COUNT        holds these offsets, one after another
//     range MEMBER FIRST..LAST END COUNT       the same by one call
//     turns MEMBER OTHER FIRST..LAST END COUNT the same as hold, for two members in turn
//     end FIRST..LAST                          ends what is held of these offsets
//     reserve NUMBER                           sets memory aside for so many more
//     look OFFSET                              its hold
//     next OFFSET                              what is left from it on of the first run that doesn't end below it
//     due MOMENT                               the least offset whose lock has ended then
//     count, list                              how many offsets are held, and their runs
ghost use Rattle.std.specs.Prelude.{◌≡◌, ◌<◌, ◌≤◌, ◌+◌, [], ◌∷◌};
ghost use Rattle.lock_index.specs.Runs.{IsRunList};
ghost use Rattle.lock_index.specs.declared.run.HoldRun.{HoldRun};

use crate::plain::word;
use lock_index::{HoldRun, Steps, Window};
use share_model::{Hold, Name, NoMemory};
use std::alloc::Global;
use std::marker::Brand;
use std::sync::ledger::{Blank, Ledger};
use std::{io, mem};
use window_runs::WindowRuns;

// Ends holds by the call that counts. Of one run it takes at most 20 steps.
fn end_counted<L: Ledger>(window: &mut WindowRuns, first: u64, last: u64, steps: &mut Steps<L>)
    ensures { (run : HoldRun) → IsRunList window.old.held (run ∷ []) → steps.new ≤ steps.old + 20 }
{
    window.end_hold_counted(first, last, steps);
}

// The same in a ledger of its own.
fn end_in_ledger<L: Ledger>(window: &mut WindowRuns, first: u64, last: u64, blank: Blank)
    requires name { blank.name ≡ L.name }
    requires parts { blank.parts ≡ L.parts }
    requires some { 0 < blank.parts }
{
    let mut steps = Steps::<L>::new(blank);
    end_counted(window, first, last, &mut steps);
}

/// The offsets of `FIRST..LAST`.
fn offsets_of(text: &str) -> Option<(u64, u64)> {
    let (first, last) = text.split_once("..")?;
    Some((first.parse().ok()?, last.parse().ok()?))
}

/// The hold of `MEMBER END COUNT`.
fn hold_read(member: &str, end: &str, count: &str) -> Option<Hold> {
    Some(Hold {
        member: Name::new(member)?,
        end: end.parse().ok()?,
        count: count.parse().ok()?,
    })
}

/// Holds offsets in one way.
fn put_all(window: &mut WindowRuns, first: u64, last: u64, hold: &Hold) -> Result<(), NoMemory> {
    for offset in first..last.saturating_add(1) {
        window.hold(offset, *hold)?;
    }
    Ok(())
}

/// Holds offsets in two ways, in turn.
fn put_turns(
    window: &mut WindowRuns,
    first: u64,
    last: u64,
    hold: &Hold,
    other: &Hold,
) -> Result<(), NoMemory> {
    for offset in first..last.saturating_add(1) {
        let hold = if (offset - first) % 2 == 0 {
            *hold
        } else {
            *other
        };
        window.hold(offset, hold)?;
    }
    Ok(())
}

fn done_text(alloc: Global, done: Option<Result<(), NoMemory>>) -> io::Result<String> {
    match done {
        Some(Ok(())) => word(alloc, "ok"),
        Some(Err(NoMemory)) => word(alloc, "no memory"),
        None => word(alloc, "no such words"),
    }
}

fn hold_line(window: &mut WindowRuns, text: &str, at_once: bool) -> Option<Result<(), NoMemory>> {
    let mut words = text.split(' ');
    let member = words.next()?;
    let (first, last) = offsets_of(words.next()?)?;
    let hold = hold_read(member, words.next()?, words.next()?)?;
    if at_once {
        return Some(window.hold_range(first, last, hold));
    }
    Some(put_all(window, first, last, &hold))
}

fn turns_line(window: &mut WindowRuns, text: &str) -> Option<Result<(), NoMemory>> {
    let mut words = text.split(' ');
    let member = words.next()?;
    let other = words.next()?;
    let (first, last) = offsets_of(words.next()?)?;
    let end = words.next()?;
    let count = words.next()?;
    let hold = hold_read(member, end, count)?;
    let other = hold_read(other, end, count)?;
    Some(put_turns(window, first, last, &hold, &other))
}

fn end_line(window: &mut WindowRuns, text: &str) -> Option<Result<(), NoMemory>> {
    let (first, last) = offsets_of(text)?;
    end_in_ledger::<Brand>(window, first, last, Blank::new(1));
    Some(Ok(()))
}

fn reserve_line(window: &mut WindowRuns, text: &str) -> Option<Result<(), NoMemory>> {
    Some(window.reserve(text.parse().ok()?))
}

fn number_text(alloc: Global, number: Option<u64>) -> io::Result<String> {
    match number {
        Some(number) => Ok(format!(in alloc; "{number}")?),
        None => word(alloc, "none"),
    }
}

fn hold_text(alloc: Global, hold: Option<Hold>) -> io::Result<String> {
    match hold {
        Some(Hold { member, end, count }) => Ok(format!(in alloc; "{member} {end} x{count}")?),
        None => word(alloc, "none"),
    }
}

fn run_text(alloc: Global, from: u64, run: Option<&HoldRun>) -> io::Result<String> {
    match run {
        Some(run) => Ok(format!(in alloc; "{}..{}", run.first.max(from), run.last)?),
        None => word(alloc, "none"),
    }
}

/// The runs of a window.
fn list_text(alloc: Global, runs: &[HoldRun]) -> io::Result<String> {
    let mut text = String::new(alloc);
    for run in runs {
        let HoldRun { first, last, hold } = *run;
        let Hold { member, end, count } = hold;
        let one = format!(in alloc; ", {member} {first}..{last} {end} x{count}")?;
        text.push_str(one.as_str())?;
    }
    match text.as_str().strip_prefix(", ") {
        Some(text) => word(alloc, text),
        None => word(alloc, "none"),
    }
}

/// What a line gives. `None` where there is no such line.
fn told_by(
    alloc: Global,
    window: &mut WindowRuns,
    kind: &str,
    text: &str,
) -> io::Result<Option<String>> {
    let number = text.parse().unwrap_or(0);
    let told = match kind {
        "hold" => done_text(alloc, hold_line(window, text, false)),
        "range" => done_text(alloc, hold_line(window, text, true)),
        "turns" => done_text(alloc, turns_line(window, text)),
        "end" => done_text(alloc, end_line(window, text)),
        "reserve" => done_text(alloc, reserve_line(window, text)),
        "look" => hold_text(alloc, window.look(number).copied()),
        "next" => run_text(alloc, number, window.run_from(number)),
        "due" => number_text(alloc, window.due(number)),
        "count" => number_text(alloc, Some(window.count())),
        "list" => list_text(alloc, window.list()),
        _ => return Ok(None),
    };
    Ok(Some(told?))
}

#[derive(Drop)]
pub struct Windows {
    runs: WindowRuns,
}

impl Windows {
    pub fn new(alloc: Global) -> Windows {
        Windows {
            runs: WindowRuns::new(alloc),
        }
    }

    /// Puts others in place of these.
    pub fn set(&mut self, windows: Windows) {
        drop(mem::replace(self, windows));
    }

    /// What a line gives. `None` where there is no such line.
    pub fn told(&mut self, alloc: Global, kind: &str, text: &str) -> io::Result<Option<String>> {
        told_by(alloc, &mut self.runs, kind, text)
    }
}
