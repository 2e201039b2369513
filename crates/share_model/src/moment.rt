ghost use Rattle.std.specs.Prelude.{◌≡◌, ◌≤◌, ◌^◌};

use std::marker::Model;

/// A moment in milliseconds, at most 2^62. A contract sees the number.
#[derive(Drop)]
pub struct Moment {
    ms: u64,
}

impl Model for Moment {
    ghost use Rattle.std.specs.Prelude.{◌≤◌, ◌^◌, ℕ};

    ghost Value = { ℕ };

    ghost view = { λ m. m.ms };

    ghost invariant = { λ m. m.ms ≤ 2 ^ 62 };
}

impl Moment {
    pub fn new(ms: u64) -> Moment
        requires { ms ≤ 2 ^ 62 }
        ensures { result ≡ ms }
    {
        Moment { ms }
    }

    pub fn ms(&self) -> u64
        ensures is { result ≡ self.now }
        ensures bounded { result ≤ 2 ^ 62 }
    {
        self.ms
    }
}
