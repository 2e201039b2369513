// The cases of the files that the arguments name.
use crate::text::{expanded, numbered};
use std::alloc::Global;
use std::{env, fs, io};

/// What a line of a case was.
#[derive(Drop)]
pub enum Taken {
    /// It was noted.
    Noted,
    /// There is no such line.
    Unknown,
    /// What it checks holds.
    Passed,
    /// What it checks doesn't hold.
    Failed { why: String },
}

/// What a program's lines mean.
pub trait Rows: Drop {
    /// Makes ready for a case.
    fn begin(&mut self, alloc: Global) -> io::Result<()>;

    /// Takes a line of the case: a word, and the text behind it.
    fn take(&mut self, rt: &HostRuntime, kind: &str, text: &str) -> io::Result<Taken>;
}

/// The case that is read, and how many passed and failed before it.
#[derive(Drop)]
struct Tally {
    name: String,
    checks: u64,
    failures: u64,
    passed: u64,
    failed: u64,
}

impl Tally {
    fn new(alloc: Global) -> Tally {
        Tally {
            name: String::new(alloc),
            checks: 0,
            failures: 0,
            passed: 0,
            failed: 0,
        }
    }

    /// Counts the case that ends here, where there is one.
    fn close(&mut self, rt: &HostRuntime) -> io::Result<()> {
        if self.failures > 0 {
            self.failed = self.failed.saturating_add(1);
        } else if self.checks > 0 {
            self.passed = self.passed.saturating_add(1);
        } else if !self.name.is_empty() {
            println!(rt; "{}: it checks nothing", self.name.as_str())?;
            self.failed = self.failed.saturating_add(1);
        }
        self.name = String::new(rt.alloc());
        self.checks = 0;
        self.failures = 0;
        Ok(())
    }

    /// Notes what a line was, and prints what doesn't hold.
    fn note(&mut self, rt: &HostRuntime, line: &str, taken: Taken) -> io::Result<()> {
        match taken {
            Taken::Noted => {}
            Taken::Passed => self.checks = self.checks.saturating_add(1),
            Taken::Unknown => {
                self.failures = self.failures.saturating_add(1);
                println!(rt; "{}: no line of a case: {line}", self.name.as_str())?;
            }
            Taken::Failed { why } => {
                self.failures = self.failures.saturating_add(1);
                println!(rt; "{}: {why}", self.name.as_str())?;
            }
        }
        Ok(())
    }
}

/// A word, and the text behind it.
fn parted(line: &str) -> (&str, &str) {
    line.split_once(' ').unwrap_or((line, ""))
}

/// Takes a line some times, with the number of the time in place of each `{#}`.
fn take_times<R: Rows>(
    rt: &HostRuntime,
    rows: &mut R,
    tally: &mut Tally,
    count: u64,
    line: &str,
) -> io::Result<()> {
    let (kind, text) = parted(line);
    let text = expanded(rt.alloc(), text)?;
    for time in 0..count {
        let text = numbered(rt.alloc(), text.as_str(), time.saturating_add(1))?;
        let taken = rows.take(rt, kind, text.as_str())?;
        tally.note(rt, line, taken)?;
    }
    Ok(())
}

/// Takes a line of a file.
fn take_line<R: Rows>(
    rt: &HostRuntime,
    rows: &mut R,
    tally: &mut Tally,
    line: &str,
) -> io::Result<()> {
    let (kind, text) = parted(line);
    match kind {
        "" | "#" => Ok(()),
        "case" => {
            tally.close(rt)?;
            tally.name = String::from_str(rt.alloc(), text)?;
            rows.begin(rt.alloc())
        }
        "repeat" => {
            let (count, line) = parted(text);
            take_times(rt, rows, tally, count.parse().unwrap_or(0), line)
        }
        _ => take_times(rt, rows, tally, 1, line),
    }
}

/// Takes each line of a file.
fn run_file<R: Rows>(
    rt: &HostRuntime,
    rows: &mut R,
    tally: &mut Tally,
    file: &str,
) -> io::Result<()> {
    let text = fs::read_to_string(rt, file)?;
    for line in text.as_str().lines() {
        take_line(rt, rows, tally, line)?;
    }
    tally.close(rt)
}

/// Runs the cases of the files that the arguments name. Prints a line for each check that fails, and last how many
/// cases passed and failed.
pub fn run_files<R: Rows>(rt: &HostRuntime, mut rows: R) -> io::Result<()> {
    let mut tally = Tally::new(rt.alloc());
    for file in env::args(rt)?.skip(1) {
        run_file(rt, &mut rows, &mut tally, file.as_str())?;
    }
    println!(rt; "{} passed, {} failed", tally.passed, tally.failed)
}
