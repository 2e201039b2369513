// Rows by offset, kept as runs. A row is a state (0 available, 2 acknowledged, 4 archived) with a delivery count.
//
//     reserve NUMBER                     sets memory aside for so many more runs
//     put FIRST..LAST STATE COUNT        gives these offsets the row
//     within FIRST..LAST STATE COUNT     the same, in memory that is set aside for it
//     every STEP NUMBER STATE COUNT      gives so many offsets the row, from 0 on and so far apart, in memory that
//                                        is set aside for all of them first
//     lay STEP NUMBER STATE COUNT        lays such rows over those that are there, by one pass into memory that is set
//                                        aside for it
//     cut OFFSET                         takes the rows below it away
//     clear                              takes all rows away
//     look OFFSET                        its row
//     count, list                        how many runs there are, and the runs
use crate::plain::word;
use offset_runs::Runs;
use share_model::{NoMemory, Row, RowState, Run};
use std::alloc::Global;
use std::{io, mem};

/// The row of a state and a count.
fn row_of(state: &str, count: &str) -> Option<Row> {
    Some(Row {
        state: RowState::from_number(state.parse().ok()?)?,
        count: count.parse().ok()?,
    })
}

/// Puts a row in memory that is set aside for it.
fn put_within(runs: &mut Runs, first: u64, last: u64, row: Row) -> Result<(), NoMemory> {
    runs.reserve(2)?;
    runs.put_reserved(first, last, row);
    Ok(())
}

fn put_line(runs: &mut Runs, text: &str, reserved: bool) -> Option<Result<(), NoMemory>> {
    let mut words = text.split(' ');
    let (first, last) = words.next()?.split_once("..")?;
    let (first, last) = (first.parse().ok()?, last.parse().ok()?);
    let row = row_of(words.next()?, words.next()?)?;
    if reserved {
        return Some(put_within(runs, first, last, row));
    }
    Some(runs.put_range(first, last, row))
}

/// Puts so many rows of one offset each, in memory that is set aside for all of them first.
fn put_every(runs: &mut Runs, step: u64, number: u32, row: Row) -> Result<(), NoMemory> {
    if number > 1 << 30 {
        return Err(NoMemory);
    }
    runs.reserve(2 * number)?;
    let mut offset: u64 = 0;
    for _ in 0..number {
        runs.put_reserved(offset, offset, row);
        offset = offset.saturating_add(step);
    }
    Ok(())
}

/// Lays such rows over those that are there.
fn lay_every(
    alloc: Global,
    runs: &mut Runs,
    step: u64,
    number: u32,
    row: Row,
) -> Result<(), NoMemory> {
    let mut over = Runs::new(alloc);
    put_every(&mut over, step, number, row)?;
    let (below, above) = (runs.list().len(), over.list().len());
    if below > 1 << 30 || above > 1 << 30 {
        return Err(NoMemory);
    }
    let mut laid = Runs::new(alloc);
    laid.reserve((below + 2 * above) as u32)?;
    laid.lay_reserved(runs, &over);
    *runs = laid;
    Ok(())
}

fn every_line(
    alloc: Global,
    runs: &mut Runs,
    text: &str,
    laid: bool,
) -> Option<Result<(), NoMemory>> {
    let mut words = text.split(' ');
    let step = words.next()?.parse().ok()?;
    let number = words.next()?.parse().ok()?;
    let row = row_of(words.next()?, words.next()?)?;
    if laid {
        return Some(lay_every(alloc, runs, step, number, row));
    }
    Some(put_every(runs, step, number, row))
}

/// `ok`, or why nothing is done.
pub fn done_text(alloc: Global, done: Option<Result<(), NoMemory>>) -> io::Result<String> {
    match done {
        Some(Ok(())) => word(alloc, "ok"),
        Some(Err(NoMemory)) => word(alloc, "no memory"),
        None => word(alloc, "no such words"),
    }
}

fn row_text(alloc: Global, row: Option<Row>) -> io::Result<String> {
    match row {
        Some(row) => Ok(format!(in alloc; "{} x{}", row.state.number(), row.count)?),
        None => word(alloc, "none"),
    }
}

/// Runs: `FIRST..LAST STATE xCOUNT, ..`, or `none`.
pub fn list_text(alloc: Global, runs: &[Run]) -> io::Result<String> {
    let mut text = String::new(alloc);
    for run in runs {
        let (first, last, state, count) = (run.first, run.last, run.state.number(), run.count);
        let one = format!(in alloc; ", {first}..{last} {state} x{count}")?;
        text.push_str(one.as_str())?;
    }
    match text.as_str().strip_prefix(", ") {
        Some(text) => word(alloc, text),
        None => word(alloc, "none"),
    }
}

fn changed(runs: &mut Runs, kind: &str, number: u64) -> Option<Result<(), NoMemory>> {
    match kind {
        "cut" => runs.cut_below(number),
        "clear" => runs.clear(),
        _ => return Some(runs.reserve(u32::try_from(number).ok()?)),
    }
    Some(Ok(()))
}

/// What a line gives. `None` where there is no such line.
fn told_by(alloc: Global, runs: &mut Runs, kind: &str, text: &str) -> io::Result<Option<String>> {
    let number = text.parse().unwrap_or(0);
    let told = match kind {
        "put" => done_text(alloc, put_line(runs, text, false)),
        "within" => done_text(alloc, put_line(runs, text, true)),
        "every" => done_text(alloc, every_line(alloc, runs, text, false)),
        "lay" => done_text(alloc, every_line(alloc, runs, text, true)),
        "reserve" | "cut" | "clear" => done_text(alloc, changed(runs, kind, number)),
        "look" => row_text(alloc, runs.look(number)),
        "count" => Ok(format!(in alloc; "{}", runs.list().len())?),
        "list" => list_text(alloc, runs.list()),
        _ => return Ok(None),
    };
    Ok(Some(told?))
}

#[derive(Drop)]
pub struct StoredRuns {
    runs: Runs,
}

impl StoredRuns {
    pub fn new(alloc: Global) -> StoredRuns {
        StoredRuns {
            runs: Runs::new(alloc),
        }
    }

    /// Puts others in place of these.
    pub fn set(&mut self, others: StoredRuns) {
        drop(mem::replace(self, others));
    }

    /// What a line gives. `None` where there is no such line.
    pub fn told(&mut self, alloc: Global, kind: &str, text: &str) -> io::Result<Option<String>> {
        told_by(alloc, &mut self.runs, kind, text)
    }
}
