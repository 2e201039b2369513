// Signals between peers, disks and gates, which are in different threads.
use std::alloc::{AllocError, Global};
use std::sync::Arc;
use std::sync::atomic::{AtomicU64, Ordering};
use std::thread;
use std::time::Duration;

/// Each write to a disk fails.
pub const BROKEN: usize = 0;

/// The write that is held has begun.
pub const BEGUN: usize = 1;

/// What is held goes on.
pub const RELEASED: usize = 2;

/// How many replies were written, where their links' numbers are heard.
pub const HEARD: usize = 3;

/// How often clocks were asked, where they count it.
pub const ASKED: usize = 4;

/// How often a signal is looked at.
pub const LOOKS: u32 = 20_000;

const SIGNALS: u32 = 8;

#[derive(Drop)]
pub struct Board {
    rt: HostRuntime,
    signals: Vec<AtomicU64>,
    failures: AtomicU64,
    finished: AtomicU64,
}

impl Board {
    /// Signals that aren't set.
    pub fn new(rt: HostRuntime) -> Result<Arc<Board, Global>, AllocError> {
        let mut signals = Vec::new(rt.alloc());
        for _ in 0..SIGNALS {
            signals.push(AtomicU64::new(0))?;
        }
        let board = Board {
            rt,
            signals,
            failures: AtomicU64::new(0),
            finished: AtomicU64::new(0),
        };
        Ok(Arc::new(rt.alloc(), board)?)
    }

    /// Sets a signal to a number; 0 clears it.
    pub fn put(&self, signal: usize, number: u64) {
        if let Some(signal) = self.signals.get(signal) {
            signal.store(number, Ordering::SeqCst);
        }
    }

    /// The number of a signal, 0 where it isn't set.
    pub fn told(&self, signal: usize) -> u64 {
        match self.signals.get(signal) {
            Some(signal) => signal.load(Ordering::SeqCst),
            None => 0,
        }
    }

    /// Counts a signal up by one: how often it was counted before.
    pub fn count(&self, signal: usize) -> u64 {
        match self.signals.get(signal) {
            Some(signal) => signal.fetch_add(1, Ordering::SeqCst),
            None => 0,
        }
    }

    // Looks so often whether a signal has this number or a greater one, and gives it: 0 where it hasn't.
    fn look(&self, signal: usize, least: u64, looks: u32) -> u64 {
        for _ in 0..looks {
            let number = self.told(signal);
            if number >= least {
                return number;
            }
            self.pause();
        }
        self.fail("a wait has no end");
        0
    }

    /// Waits until a signal is set, and gives its number: 0 where that lasts too long.
    pub fn wait(&self, signal: usize) -> u64 {
        self.look(signal, 1, LOOKS)
    }

    /// Waits, longer than for any other signal, until clocks were asked so often.
    pub fn wait_for_asks(&self, least: u64) {
        self.look(ASKED, least, 5 * LOOKS);
    }

    /// Lets a millisecond pass.
    pub fn pause(&self) {
        thread::sleep(&self.rt, Duration::from_millis(1));
    }

    /// Counts what isn't as it is wanted, and prints it.
    pub fn fail(&self, why: &str) {
        self.failures.fetch_add(1, Ordering::SeqCst);
        let rt = &self.rt;
        let _ = println!(rt; "{why}");
    }

    /// Counts a peer that took all its lines.
    pub fn finish(&self) {
        self.finished.fetch_add(1, Ordering::SeqCst);
    }

    /// Whether so many peers took all their lines, and all was as it is wanted.
    pub fn is_well(&self, peers: u64) -> bool {
        self.failures.load(Ordering::SeqCst) == 0 && self.finished.load(Ordering::SeqCst) == peers
    }

    pub fn alloc(&self) -> Global {
        self.rt.alloc()
    }
}
