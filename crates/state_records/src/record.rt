ghost use Rattle.std.specs.Prelude.{◌≡◌};

use crate::lent::LentState;
use share_model::{Key, RunList};
use std::marker::Model;

/// The state of a share partition, as a journal keeps it.
///
/// `snapshot` counts the key's snapshots. The epochs are at least 0, `start` is an offset or -1, and
/// the runs are canonical, with offsets below 2^63 and counts below 2^15. `complete` is how many rows of
/// the key are acknowledged or archived once the record is done, where it is of version 1; it is `None`
/// exactly for version 0. A contract sees the record of the fields.
#[derive(Debug, Drop)]
pub struct KeyState {
    pub key: Key,
    pub snapshot: u64,
    pub state_epoch: i32,
    pub leader_epoch: i32,
    pub start: i64,
    pub complete: Option<u64>,
    pub runs: RunList,
}

impl Model for KeyState {
    ghost use Rattle.state_records.specs.States.{StateParts, IsEpoch, IsStart, AreStoredRuns};

    ghost Value = { StateParts };

    ghost view = { λ s. record {
      key = s.key;
      snapshot = s.snapshot;
      state_epoch = s.state_epoch;
      leader_epoch = s.leader_epoch;
      start = s.start;
      complete = s.complete;
      runs = s.runs;
    } };

    ghost invariant = { λ s. IsEpoch s.state_epoch × IsEpoch s.leader_epoch × IsStart s.start × AreStoredRuns s.runs };
}

impl KeyState {
    /// The state, lent.
    pub fn lend(&self) -> LentState<'_>
        ensures { result ≡ self.now }
    {
        LentState {
            key: &self.key,
            snapshot: self.snapshot,
            state_epoch: self.state_epoch,
            leader_epoch: self.leader_epoch,
            start: self.start,
            complete: self.complete,
            runs: self.runs.as_slice(),
        }
    }
}

/// A record of the state journal.
#[derive(Drop)]
pub enum StateRecord {
    /// The key has this state, whatever it had before.
    Snapshot(KeyState),
    /// Both epochs become these, the start becomes this one unless it is -1, and the rows of these
    /// runs change.
    Update(KeyState),
    /// The key is gone.
    Removal { key: Key },
    /// The journal that begins with this is of this generation.
    Head { generation: u64 },
    /// The snapshots behind the head are all that there are.
    Seal,
}
