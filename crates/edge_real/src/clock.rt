ghost use Rattle.std.specs.Prelude.{◌≤◌, ◌^◌, None};

use crate::notices::SocketNotices;
use edge_io::Clock as Moments;
use std::thread;
use std::time::{Clock, Duration, SystemTime};

/// The system's clock, in milliseconds since 1970. Where it can't be read, it answers the moment that it read last, 0
/// at first. It tells no answers; each pause is told to a program's notices.
#[derive(Drop)]
pub struct SystemClock<R, N> {
    rt: R,
    notices: N,
    last: u64,
}

impl<R, N> SystemClock<R, N> {
    pub fn new(rt: R, notices: N) -> SystemClock<R, N> {
        SystemClock {
            rt,
            notices,
            last: 0,
        }
    }
}

// The number, at most 2^62.
fn bounded(ms: u128) -> u64
    ensures { result ≤ 2 ^ 62 }
{
    let most: u64 = 1 << 62;
    match u64::try_from(ms) {
        Ok(ms) => ms.min(most),
        Err(_) => most,
    }
}

fn read<R: Clock>(rt: &R) -> Option<u64> {
    let now = SystemTime::now(rt).ok()?;
    let since = now.duration_since(SystemTime::UNIX_EPOCH).ok()?;
    Some(bounded(since.as_millis()))
}

impl<R: Clock + Copy, N: SocketNotices> Moments for SystemClock<R, N> {
    ghost told = { λ _. None };

    fn now_ms(&mut self) -> u64 {
        if let Some(now) = read(&self.rt) {
            self.last = now;
        }
        bounded(u128::from(self.last))
    }

    fn another(&self) -> SystemClock<R, N> {
        SystemClock {
            rt: self.rt,
            notices: self.notices.for_clock(),
            last: self.last,
        }
    }

    fn pause(&mut self, ms: u32) {
        self.notices.pausing();
        thread::sleep(&self.rt, Duration::from_millis(u64::from(ms)));
    }
}
