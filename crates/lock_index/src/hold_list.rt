ghost use Rattle.std.specs.Prelude.{◌≡◌, ◌≤◌, ◌<◌, ◌+◌, [], length, set, OnOk, OnErr, IsOk, Some};
ghost use Rattle.std.specs.List.{insert, remove, slice_get};

use crate::run::HoldRun;
use crate::steps::Steps;
use share_model::NoMemory;
use std::alloc::Global;
use std::marker::Model;
use std::sync::ledger::Ledger;

/// Runs of held offsets, and room for more. Only `set`, `put_at` and `take_at` change them, and each of these is a
/// step, as `at` is.
///
/// A contract sees the runs, and the room: how many runs there can be with no memory.
#[derive(Drop)]
pub struct HoldList {
    runs: Vec<HoldRun>,
}

impl Model for HoldList {
    ghost use Rattle.std.specs.Prelude.{vec_capacity};
    ghost use Rattle.lock_index.specs.Runs.{RunsInRoom};

    ghost Value = { RunsInRoom };

    ghost view = { λ l. record { runs = l.runs.items; room = vec_capacity l.runs } };
}

impl HoldList {
    /// No runs. It takes no memory.
    pub fn new(alloc: Global) -> HoldList
        ensures { result.runs ≡ [] }
    {
        HoldList {
            runs: Vec::new(alloc),
        }
    }

    /// The runs, in order. Looking through them is no step.
    pub fn list(&self) -> &[HoldRun]
        ensures { result.now ≡ self.now.runs }
    {
        &self.runs
    }

    /// Makes room for at least `n` runs in all. After want of memory the list is as it was. It is no step.
    pub fn reserve(&mut self, n: u32) -> Result<(), NoMemory>
        ensures ok { OnOk result (n ≤ self.new.room) }
        ensures runs { self.new.runs ≡ self.old.runs }
        ensures room { self.old.room ≤ self.new.room }
        ensures keeps { OnErr result (self.new ≡ self.old) }
        ensures spared { n ≤ self.old.room → IsOk result }
    {
        self.runs
            .reserve((n as usize).saturating_sub(self.runs.len()))?;
        Ok(())
    }

    /// The run at a place. It is a step.
    pub fn at<L: Ledger>(&self, place: u32, steps: &mut Steps<L>) -> &HoldRun
        requires { place < length self.now.runs }
        ensures run { slice_get self.now.runs place ≡ Some result.now }
        ensures step { steps.new ≡ steps.old + 1 }
    {
        steps.tick();
        &self.runs[place as usize]
    }

    /// Puts a run in the place of another one. It is a step, and takes no memory.
    pub fn set<L: Ledger>(&mut self, place: u32, run: HoldRun, steps: &mut Steps<L>)
        requires { place < length self.old.runs }
        ensures runs { self.new.runs ≡ set self.old.runs place run }
        ensures room { self.new.room ≡ self.old.room }
        ensures step { steps.new ≡ steps.old + 1 }
    {
        steps.tick();
        self.runs[place as usize] = run;
    }

    /// Puts a run before the one at a place, or behind all. It is a step, and takes no memory.
    pub fn put_at<L: Ledger>(&mut self, place: u32, run: HoldRun, steps: &mut Steps<L>)
        requires place { place ≤ length self.old.runs }
        requires room { length self.old.runs < self.old.room }
        ensures runs { self.new.runs ≡ insert self.old.runs place run }
        ensures room { self.old.room ≤ self.new.room }
        ensures step { steps.new ≡ steps.old + 1 }
    {
        steps.tick();
        if let Err(_) = self.runs.insert(place as usize, run) {
            unreachable!()
        }
    }

    /// Takes the run at a place away. It is a step, and takes no memory.
    pub fn take_at<L: Ledger>(&mut self, place: u32, steps: &mut Steps<L>) -> HoldRun
        requires { place < length self.old.runs }
        ensures run { slice_get self.old.runs place ≡ Some result }
        ensures runs { self.new.runs ≡ remove self.old.runs place }
        ensures room { self.new.room ≡ self.old.room }
        ensures step { steps.new ≡ steps.old + 1 }
    {
        steps.tick();
        self.runs.remove(place as usize)
    }
}
