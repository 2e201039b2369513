ghost use Rattle.std.specs.Prelude.{◌≡◌, ◌≤◌, OnOk};

use crate::rows::{canonical, complete_of, cut_at, set_room};
use offset_runs::Runs;
use share_model::NoMemory;
use std::marker::Model;

/// The state of a key: KIP-932's epochs and start offset of a share partition, and its stored rows.
///
/// The epochs are at least 0, `start` is an offset or -1, `complete` is how many rows are acknowledged or archived, and
/// the rows are at most 1000000 runs, with offsets below 2^63 and counts below 2^15. A contract sees the record of the
/// fields but `complete`, which is `complete_rows` of the runs; and beside it for how many runs the rows have memory.
#[derive(Drop)]
pub struct StateView {
    pub state_epoch: i32,
    pub leader_epoch: i32,
    pub start: i64,
    pub complete: u64,
    pub runs: Runs,
}

impl Model for StateView {
    ghost use Rattle.std.specs.Prelude.{◌≡◌};
    ghost use Rattle.offset_runs.specs.Changes.{room_of};
    ghost use Rattle.offset_runs.specs.Complete.{complete_rows};
    ghost use Rattle.share_coord.specs.Views.{IsKeptState, ViewParts};

    ghost Value = { ViewParts };

    ghost view = { λ v. record {
      state = record { state_epoch = v.state_epoch; leader_epoch = v.leader_epoch; start = v.start; runs = v.runs.list };
      room = room_of v.runs;
    } };

    ghost invariant = { λ v. IsKeptState (record { state_epoch = v.state_epoch; leader_epoch = v.leader_epoch; start = v.start; runs = v.runs.list })
        × (v.complete ≡ complete_rows v.runs.list) };
}

impl StateView {
    ghost use Rattle.offset_runs.specs.Complete.{complete_rows};
    ghost use Rattle.share_coord.specs.Raising.{raised_to, rises};
    ghost use Rattle.share_coord.specs.Views.{IsKeptState};

    /// How many rows are acknowledged or archived.
    pub fn complete(&self) -> u64
        ensures { result ≡ complete_rows self.now.state.runs }
    {
        self.complete
    }

    /// For how many runs its rows have memory.
    pub fn room(&self) -> u64
        ensures { result ≡ self.now.room }
    {
        self.runs.room()
    }

    /// Sets memory aside, so that its rows have it for so many runs. After want of memory all is as it was.
    pub fn reserve(&mut self, room: u32) -> Result<(), NoMemory>
        ensures ok { OnOk result (room ≤ self.new.room) }
        ensures state { self.new.state ≡ self.old.state }
        ensures kept { self.old.room ≤ self.new.room }
    {
        set_room(&mut self.runs, room)
    }

    /// Lets the state start at an offset, where it starts below it; its rows below that go. It takes no memory. Whether
    /// it started below.
    pub fn raise(&mut self, start: i64) -> bool
        ensures state { self.new.state ≡ raised_to start self.old.state }
        ensures told { result ≡ rises start self.old.state }
        ensures room { self.old.room ≤ self.new.room }
    {
        let rises = self.start < start;
        if !rises {
            return false;
        }
        cut_at(&mut self.runs, start);
        canonical(&self.runs);
        let complete = complete_of(&self.runs);
        self.complete = complete;
        self.start = start;
        true
    }

    /// The numbers are in their ranges, as those of each state that is kept are.
    pub fn known(&self)
        ensures { IsKeptState self.now.state }
    {
        let _ = &self.state_epoch;
    }
}

/// What a store keeps of a key: its state, how many snapshots it had before the last one, and how many updates since,
/// counted up to 500.
#[derive(Drop)]
pub struct Kept {
    pub view: StateView,
    pub snapshot: u64,
    pub updates: u16,
    /// Whether its start was raised since a record of it was written.
    pub raised: bool,
    /// Whether it was since a call stored it: then its next update tells its start.
    pub tells: bool,
}

impl Kept {
    ghost use Rattle.share_coord.specs.Calls.{counted};
    ghost use Rattle.share_coord.specs.Recorded.{start_told};
    ghost use Rattle.share_coord.specs.Tables.{shown};
    ghost use Rattle.share_coord.specs.Unwritten.{raised_kept};

    // The start that its next record tells: that of a key that was raised also where it stays.
    pub(crate) fn start_told(&self, start: i64) -> i64
        ensures { result ≡ start_told (shown self.now) start }
    {
        if self.tells && start < 0 {
            return self.view.start;
        }
        start
    }

    // How many updates count before a record that leaves this start. One that lowers a start which was raised since the
    // last record is a snapshot, since an update would bring back rows that went.
    pub(crate) fn counted(&self, start: i64) -> u16
        ensures { result ≡ (counted (shown self.now) start).updates }
    {
        if self.raised && start < self.view.start {
            return 500;
        }
        self.updates
    }

    // Lets its state start at an offset, where it starts below it.
    pub(crate) fn raise(&mut self, start: i64)
        ensures kept { shown self.new ≡ raised_kept start (shown self.old) }
        ensures room { self.old.view.room ≤ self.new.view.room }
    {
        let rises = self.view.raise(start);
        if !rises {
            return;
        }
        self.raised = true;
        self.tells = true;
    }
}
