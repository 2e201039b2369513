// One shard as a broker holds it.
ghost use Rattle.std.specs.Prelude.{◌≡◌};
ghost use Rattle.broker_hosts.specs.Hosts.{IsOpen, IsOpenState, states_at, states_in};

use edge_io::Disk;
use foreign_coord::ForeignShard;
use share_coord::States;
use share_model::Name;
use share_part::{PartConf, PartShard};
use window_runs::WindowRuns;

/// The shard of foreign state as a broker holds it.
#[derive(Drop)]
pub enum ForeignSlot<D: Disk> {
    /// It can be called.
    Open(ForeignShard<D>),
    /// Its two disks, after a restart that failed.
    Shut(D, D),
    /// Nothing, within a call alone.
    Gone,
}

/// The shard of a hosted partition as a broker holds it.
#[derive(Drop)]
pub enum PartState<D: Disk> {
    /// It can be called.
    Open(PartShard<D, WindowRuns>),
    /// Its disks, after a restart that failed: that of its log, and the two of its states.
    Shut(D, D, D),
    /// Nothing, within a call alone.
    Gone,
}

/// A hosted partition: its topic's name, what its shard is configured with, and the shard.
#[derive(Drop)]
pub struct PartSlot<D: Disk> {
    pub topic: Name,
    pub conf: PartConf,
    pub state: PartState<D>,
}

impl<D: Disk> ForeignSlot<D> {
    /// What is stored of partitions that aren't hosted, in the order of the keys.
    pub fn states(&self) -> States<'_>
        requires { IsOpen self.now }
        ensures { result ≡ states_at self.now }
    {
        match self {
            ForeignSlot::Open(shard) => shard.states(),
            _ => unreachable!(),
        }
    }
}

impl<D: Disk> PartSlot<D> {
    /// What is stored of the partition's groups, in byte order of the groups.
    pub fn states(&self) -> States<'_>
        requires { IsOpenState self.now.state }
        ensures { result ≡ states_in self.now.state }
    {
        match &self.state {
            PartState::Open(part) => part.states(),
            _ => unreachable!(),
        }
    }
}
