// What a server meets: clocks that go on by steps or by how often they are asked, jobs of which one is refused, gates
// that hold a link, and one that hears the numbers of links.
ghost use Rattle.std.specs.Prelude.{◌≤◌, ◌^◌, None};
ghost use Rattle.edge_io.specs.Causes.{Rose};

use crate::board::{ASKED, Board, HEARD, RELEASED};
use edge_io::{Clock, Gate, GatePlace, Spawner};
use std::alloc::Global;
use std::sync::Arc;
use std::sync::atomic::{AtomicU64, Ordering};
use std::thread;
use std::thread::Threads;
use std::time::Duration;

/// A clock that goes on by one step at each answer. A pause lasts a millisecond.
#[derive(Drop)]
pub struct StepClock {
    rt: HostRuntime,
    step: u64,
    now: u64,
}

impl StepClock {
    pub fn new(rt: HostRuntime, step: u64) -> StepClock {
        StepClock { rt, step, now: 0 }
    }
}

impl Clock for StepClock {
    ghost told = { λ _. None };

    fn now_ms(&mut self) -> u64 {
        self.now = self.now.saturating_add(self.step);
        self.now.min(1 << 62)
    }

    fn another(&self) -> StepClock {
        StepClock::new(self.rt, self.step)
    }

    fn pause(&mut self, _ms: u32) {
        thread::sleep(&self.rt, Duration::from_millis(1));
    }
}

/// So often clocks are asked before they answer `LATE`.
const PATIENCE: u64 = 10_000_000;

/// So much more often they are asked before a link goes on that is held.
const MORE: u64 = 1_000_000;

/// A moment behind the end of each wait.
const LATE: u64 = 100_000;

/// A clock that answers 0, and `LATE` once it and those made from it were asked so often together. Its pauses have no
/// length.
#[derive(Drop)]
pub struct AskedClock {
    pub board: Option<Arc<Board, Global>>,
}

impl Clock for AskedClock {
    ghost told = { λ _. None };

    fn now_ms(&mut self) -> u64 {
        match &self.board {
            Some(board) if board.count(ASKED) >= PATIENCE => LATE,
            _ => 0,
        }
    }

    fn another(&self) -> AskedClock {
        let board = match &self.board {
            Some(board) => Arc::try_clone(board).ok(),
            None => None,
        };
        AskedClock { board }
    }

    fn pause(&mut self, _ms: u32) {}
}

/// Starts each job in a thread, but for one, which it refuses.
#[derive(Drop)]
pub struct Jobs<H> {
    rt: H,
    asked: AtomicU64,
    refused: Option<u64>,
    faults: u64,
}

impl<H> Jobs<H> {
    pub fn new(rt: H, refused: Option<u64>) -> Jobs<H> {
        Jobs {
            rt,
            asked: AtomicU64::new(0),
            refused,
            faults: 0,
        }
    }
}

impl<H: Threads> Spawner for Jobs<H> {
    type Rt = H;

    ghost faults = { λ s. s.faults };

    fn threads(&self) -> Option<&H> {
        let number = self.asked.fetch_add(1, Ordering::SeqCst);
        if self.refused == Some(number) {
            return None;
        }
        Some(&self.rt)
    }

    fn refuse(&mut self)
        ensures later { self.old.faults ≤ self.new.faults }
        ensures rises { Rose self.old.faults self.new.faults }
    {
        self.faults = self.faults.saturating_add(1);
    }
}

/// Holds link 0 before each part until link 1 has a reply.
#[derive(Drop)]
pub struct HeldLink {
    pub board: Arc<Board, Global>,
}

impl Gate for HeldLink {
    fn at(&self, place: GatePlace) {
        match place {
            GatePlace::Part { link: 0 } => {
                self.board.wait(RELEASED);
            }
            GatePlace::Replied { link: 1 } => self.board.put(RELEASED, 1),
            _ => {}
        }
    }
}

/// Holds link 1 before each part until link 0 has a reply and clocks were asked many times more. The next reply of link
/// 0 has to come before any of them is late.
#[derive(Drop)]
pub struct HeldProduce {
    pub board: Arc<Board, Global>,
}

impl HeldProduce {
    /// Link 0 has a reply.
    fn replied(&self) {
        let asked = self.board.told(ASKED);
        if self.board.told(RELEASED) == 0 {
            self.board.put(RELEASED, asked.saturating_add(MORE));
        } else if asked >= PATIENCE {
            self.board
                .fail("a fetch that waits isn't woken by a produce");
        }
    }
}

impl Gate for HeldProduce {
    fn at(&self, place: GatePlace) {
        match place {
            GatePlace::Part { link: 1 } => {
                let asked = self.board.wait(RELEASED);
                self.board.wait_for_asks(asked);
            }
            GatePlace::Replied { link: 0 } => self.replied(),
            _ => {}
        }
    }
}

/// Hears the number of each link: they go up from 0. Each link asks for one part, and has its reply before the next one
/// asks.
#[derive(Drop)]
pub struct LinkNumbers {
    pub board: Arc<Board, Global>,
}

impl LinkNumbers {
    /// How many replies there were before this place, which is one of that link.
    fn hear(&self, link: u32) -> u64 {
        let replied = self.board.told(HEARD);
        if u64::from(link) != replied {
            self.board.fail("a link has another number");
        }
        replied
    }
}

impl Gate for LinkNumbers {
    fn at(&self, place: GatePlace) {
        match place {
            GatePlace::Part { link } => {
                self.hear(link);
            }
            GatePlace::Replied { link } => {
                let replied = self.hear(link);
                self.board.put(HEARD, replied.saturating_add(1));
            }
        }
    }
}
