ghost use Rattle.std.specs.Prelude.{◌≡◌, ◌≤◌, IsNone};
ghost use Rattle.edge_io.specs.Causes.{Rose, raised};

use edge_io::Spawner;
use std::marker::{Model, PhantomData};
use std::thread::Threads;

/// A spawner that refuses each job.
#[derive(Drop)]
pub struct FailingSpawner<R> {
    of: PhantomData<R>,
    faults: u64,
}

impl<R> Model for FailingSpawner<R> {
    ghost use Rattle.std.specs.Prelude.{ℕ};

    ghost Value = { ℕ };

    ghost view = { λ s. s.faults };
}

impl<R> FailingSpawner<R> {
    /// A spawner that has refused no job yet.
    pub fn new() -> FailingSpawner<R>
        ensures { result ≡ 0 }
    {
        FailingSpawner {
            of: PhantomData,
            faults: 0,
        }
    }
}

impl<R: Threads> Spawner for FailingSpawner<R> {
    type Rt = R;

    ghost faults = { λ s. s };

    fn threads(&self) -> Option<&R>
        ensures { IsNone result }
    {
        None
    }

    fn refuse(&mut self)
        ensures later { self.old ≤ self.new }
        ensures rises { Rose self.old self.new }
        ensures counted { self.new ≡ raised self.old }
    {
        self.faults = self.faults.saturating_add(1);
    }
}
