ghost use Rattle.std.specs.Prelude.{◌≡◌, ◌≤◌, ◌^◌, [], ◌∷◌};
ghost use Rattle.edge_io.specs.Causes.{raised};
ghost use Rattle.edge_io.specs.Serving.{TellsMore};
ghost use Rattle.edge_mem.specs.Clocks.{moment_at, told_by, after_one};

use edge_io::Clock;
use std::marker::Model;

/// A clock that goes on by one step at each answer: the answer numbered i, from 0 on, is its first moment plus i
/// times its step, at most 2^62. It tells its answers as long as there are fewer than `u64::MAX`. A pause passes at
/// once.
#[derive(Drop)]
pub struct MemClock {
    first: u64,
    step: u64,
    calls: u64,
}

impl Model for MemClock {
    ghost use Rattle.edge_mem.specs.Clocks.{Ticking};

    ghost Value = { Ticking };

    ghost view = { λ c. record { first = c.first; step = c.step; calls = c.calls } };
}

impl MemClock {
    /// A clock that has given no answer. Both numbers are milliseconds.
    pub fn new(first: u64, step: u64) -> MemClock
        ensures { result ≡ record { first = first; step = step; calls = 0 } }
    {
        MemClock {
            first,
            step,
            calls: 0,
        }
    }
}

impl Clock for MemClock {
    ghost told = { told_by };

    fn now_ms(&mut self) -> u64
        ensures bound { result ≤ 2 ^ 62 }
        ensures told { TellsMore (told_by self.old) (told_by self.new) (result ∷ []) }
        ensures answer { result ≡ moment_at self.old self.old.calls }
        ensures after { self.new ≡ after_one self.old }
    {
        let calls = self.calls;
        self.calls = calls.saturating_add(1);
        self.first
            .saturating_add(calls.saturating_mul(self.step))
            .min(1 << 62)
    }

    fn another(&self) -> MemClock
        ensures fresh { result ≡ record { first = self.now.first; step = self.now.step; calls = 0 } }
        ensures told { told_by result ≡ Some [] }
    {
        MemClock::new(self.first, self.step)
    }

    fn pause(&mut self, _ms: u32)
        ensures { self.new ≡ self.old }
    {}
}
