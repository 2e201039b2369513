ghost use Rattle.std.specs.Prelude.{◌≡◌};

use share_model::{Key, Run};
use std::marker::Model;

/// The state of a share partition from where it stands: what [`KeyState`](crate::KeyState) has, lent, with the same
/// ranges, and fewer than 2^32 runs. A contract sees the record of the fields.
#[derive(Drop)]
pub struct LentState<'a> {
    pub key: &'a Key,
    pub snapshot: u64,
    pub state_epoch: i32,
    pub leader_epoch: i32,
    pub start: i64,
    pub complete: Option<u64>,
    pub runs: &'a [Run],
}

impl<'a> Model for LentState<'a> {
    ghost use Rattle.std.specs.Prelude.{◌<◌, ◌^◌, length};
    ghost use Rattle.state_records.specs.States.{StateParts, IsEpoch, IsStart, AreStoredRuns};

    ghost Value = { StateParts };

    ghost view = { λ s. record {
      key = s.key.now;
      snapshot = s.snapshot;
      state_epoch = s.state_epoch;
      leader_epoch = s.leader_epoch;
      start = s.start;
      complete = s.complete;
      runs = s.runs.now;
    } };

    ghost invariant = { λ s. IsEpoch s.state_epoch × IsEpoch s.leader_epoch × IsStart s.start × AreStoredRuns s.runs.now
        × (length s.runs.now < 2 ^ 32) };
}

impl<'a> LentState<'a> {
    ghost use Rattle.state_records.specs.Spelling.{version_of};

    // How many rows are complete, if that is told.
    pub(crate) fn complete(&self) -> Option<u64>
        ensures { result ≡ self.now.complete }
    {
        self.complete
    }

    // The version of its records.
    pub(crate) fn version(&self) -> u8
        ensures { result ≡ version_of self.now.complete }
    {
        match self.complete() {
            None => 0,
            Some(_) => 1,
        }
    }
}
