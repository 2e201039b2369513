ghost use Rattle.std.specs.Prelude.{◌≡◌, ◌≤◌};
ghost use Rattle.edge_io.specs.Causes.{Rose, raised};

use crate::fault::{SystemCall, SystemFault};
use edge_io::Spawner;
use std::marker::Model;
use std::thread::Threads;
use std_io::io::last_error;

/// Starts each job in a thread of the system, and counts those for which there was none.
#[derive(Drop)]
pub struct ThreadSpawner<R> {
    rt: R,
    faults: u64,
    last: Option<SystemFault>,
}

impl<R> Model for ThreadSpawner<R> {
    ghost use Rattle.std.specs.Prelude.{ℕ};

    ghost Value = { ℕ };

    ghost view = { λ s. s.faults };
}

impl<R> ThreadSpawner<R> {
    /// A spawner that has refused no job.
    pub fn new(rt: R) -> ThreadSpawner<R>
        ensures { result ≡ 0 }
    {
        ThreadSpawner {
            rt,
            faults: 0,
            last: None,
        }
    }

    /// What the system said when it started no thread for the last job that was refused.
    pub fn last_fault(&self) -> Option<SystemFault> {
        self.last
    }
}

impl<R: Threads> Spawner for ThreadSpawner<R> {
    type Rt = R;

    ghost faults = { λ s. s };

    fn threads(&self) -> Option<&R> {
        Some(&self.rt)
    }

    fn refuse(&mut self)
        ensures later { self.old ≤ self.new }
        ensures rises { Rose self.old self.new }
        ensures counted { self.new ≡ raised self.old }
    {
        // Nothing has called the system since it refused the thread.
        self.last = Some(SystemFault {
            call: SystemCall::StartThread,
            error: last_error(),
        });
        self.faults = self.faults.saturating_add(1);
    }
}
