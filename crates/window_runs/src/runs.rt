ghost use Rattle.std.specs.Prelude.{◌≡◌, ◌≤◌, ◌+◌, ◌*◌, ◌-◌, ◌^◌, ◌<◌, ℕ, List, [], length, OnOk, OnErr, IsOk};
ghost use Rattle.std.specs.Option.{option_copied};
ghost use Rattle.std.specs.BTreeMap.{insert_entry};
ghost use Rattle.std.specs.Ordering.{nat_cmp};
ghost use Rattle.share_model.specs.Held.{hold_at, without_range, IsLeastDue};
ghost use Rattle.lock_index.specs.Runs.{IsRunList, met_count};
ghost use Rattle.lock_index.specs.Windows.{IsRising, IsRunFrom, holding};
ghost use Rattle.lock_index.specs.declared.run.HoldRun.{HoldRun};

use crate::put::put_run;
use crate::range::end_range;
use crate::search::{find_at, find_run};
use lock_index::{HoldList, HoldRun, LockIndex, Steps, Window};
use share_model::{Hold, NoMemory};
use std::alloc::Global;
use std::marker::{Brand, Model};
use std::sync::ledger::{Blank, Ledger};

/// A window as the runs of what is held: consecutive offsets that are held in one way are one entry, and the ends of
/// locks are looked up by run. A look-up takes the logarithm of the number of runs; a change moves the runs behind
/// it.
///
/// Both lists have room for as many runs as offsets are held, so that a range which splits a run takes no memory.
#[derive(Drop)]
pub struct WindowRuns {
    list: HoldList,
    index: LockIndex,
    // How many offsets are held, and how many can be with no memory.
    count: u32,
    room: u32,
}

impl Model for WindowRuns {
    ghost use Rattle.std.specs.Prelude.{◌-◌};
    ghost use Rattle.lock_index.specs.Runs.{held_of};
    ghost use Rattle.lock_index.specs.Windows.{WindowParts};
    ghost use Rattle.window_runs.specs.Kept.{IsKept};

    ghost Value = { WindowParts };

    ghost view = { λ w. record { held = held_of w.list.runs; spare = w.room - w.count } };

    ghost invariant = { λ w. IsKept w.list w.index w.count w.room };
}

impl WindowRuns {
    // Makes room for so many more held offsets.
    fn make_room(&mut self, n: u32) -> Result<(), NoMemory>
        ensures ok { OnOk result (n ≤ self.new.spare) }
        ensures held { self.new.held ≡ self.old.held }
        ensures spare { self.old.spare ≤ self.new.spare }
        ensures keeps { OnErr result (self.new.spare ≡ self.old.spare) }
        ensures spared { n ≤ self.old.spare → IsOk result }
    {
        if n <= self.room - self.count {
            return Ok(());
        }
        let Some(room) = self.count.checked_add(n) else {
            return Err(NoMemory);
        };
        self.list.reserve(room)?;
        self.index.reserve(room)?;
        self.room = room;
        Ok(())
    }

    // Ends what is held in a range.
    fn end<L: Ledger>(&mut self, first: u64, last: u64, steps: &mut Steps<L>)
        ensures held { self.new.held ≡ without_range first last self.old.held }
        ensures spare { self.old.spare ≤ self.new.spare }
        ensures at_most { (runs : List HoldRun) → IsRunList self.old.held runs → steps.new ≤ steps.old + 3 * met_count first last runs }
        ensures at_least { (runs : List HoldRun) → IsRunList self.old.held runs → steps.old + met_count first last runs ≤ steps.new }
    {
        if last < first {
            return;
        }
        let gone = end_range(&mut self.list, &mut self.index, first, last, steps);
        self.count -= gone as u32;
    }

    // Holds the offsets of a run in place of older holds of them, where there is room.
    fn put<L: Ledger>(&mut self, run: HoldRun, steps: &mut Steps<L>)
        requires order { run.first ≤ run.last }
        requires spare { (run.last + 1) - run.first ≤ self.old.spare }
        ensures held { self.new.held ≡ holding run.first ((run.last + 1) - run.first) run.hold self.old.held }
        ensures spare { self.old.spare ≤ self.new.spare + ((run.last + 1) - run.first) }
    {
        let gone = end_range(&mut self.list, &mut self.index, run.first, run.last, steps);
        let n = (run.last - run.first) as u32 + 1;
        put_run(&mut self.list, &mut self.index, run, steps);
        self.count = self.count - gone as u32 + n;
    }

    // The same, where nobody counts steps.
    fn end_uncounted<L: Ledger>(&mut self, first: u64, last: u64, blank: Blank)
        requires name { blank.name ≡ L.name }
        requires parts { blank.parts ≡ L.parts }
        requires some { 0 < blank.parts }
        ensures held { self.new.held ≡ without_range first last self.old.held }
        ensures spare { self.old.spare ≤ self.new.spare }
    {
        let mut steps = Steps::<L>::new(blank);
        self.end(first, last, &mut steps);
    }

    fn put_uncounted<L: Ledger>(&mut self, run: HoldRun, blank: Blank)
        requires name { blank.name ≡ L.name }
        requires parts { blank.parts ≡ L.parts }
        requires some { 0 < blank.parts }
        requires order { run.first ≤ run.last }
        requires spare { (run.last + 1) - run.first ≤ self.old.spare }
        ensures held { self.new.held ≡ holding run.first ((run.last + 1) - run.first) run.hold self.old.held }
        ensures spare { self.old.spare ≤ self.new.spare + ((run.last + 1) - run.first) }
    {
        let mut steps = Steps::<L>::new(blank);
        self.put(run, &mut steps);
    }

    // Holds the offsets of a run in place of older holds of them, with memory for what there is no room for.
    fn put_all(&mut self, run: HoldRun) -> Result<(), NoMemory>
        requires { run.first ≤ run.last }
        ensures ok { OnOk result (self.new.held ≡ holding run.first ((run.last + 1) - run.first) run.hold self.old.held) }
        ensures spends { OnOk result (self.old.spare ≤ self.new.spare + ((run.last + 1) - run.first)) }
        ensures err { OnErr result (self.new.held ≡ self.old.held) }
        ensures keeps { OnErr result (self.new.spare ≡ self.old.spare) }
        ensures spared { (run.last + 1) - run.first ≤ self.old.spare → IsOk result }
    {
        let _ = &self.list;
        let behind = run.last - run.first;
        if behind >= u64::from(u32::MAX) {
            return Err(NoMemory);
        }
        self.make_room(behind as u32 + 1)?;
        self.put_uncounted::<Brand>(run, Blank::new(1));
        Ok(())
    }
}

impl Window for WindowRuns {
    ghost held = { λ w. w.held };

    ghost spare = { λ w. w.spare };

    fn new(alloc: Global) -> WindowRuns {
        WindowRuns {
            list: HoldList::new(alloc),
            index: LockIndex::new(alloc),
            count: 0,
            room: 0,
        }
    }

    fn known(&self) {
        let _ = &self.list;
    }

    fn count(&self) -> u64 {
        self.count as u64
    }

    fn look(&self, offset: u64) -> Option<&Hold> {
        find_at(self.list.list(), offset)
    }

    fn run_from(&self, from: u64) -> Option<&HoldRun> {
        find_run(self.list.list(), from)
    }

    fn list(&self) -> &[HoldRun] {
        self.list.list()
    }

    fn due(&self, now: u64) -> Option<u64> {
        self.index.due(now)
    }

    fn reserve(&mut self, n: u32) -> Result<(), NoMemory> {
        self.make_room(n)
    }

    fn hold(&mut self, offset: u64, hold: Hold) -> Result<(), NoMemory> {
        self.put_all(HoldRun {
            first: offset,
            last: offset,
            hold,
        })
    }

    fn hold_range(&mut self, first: u64, last: u64, hold: Hold) -> Result<(), NoMemory> {
        if last < first {
            return Ok(());
        }
        self.put_all(HoldRun { first, last, hold })
    }

    fn end_hold(&mut self, first: u64, last: u64) {
        self.end_uncounted::<Brand>(first, last, Blank::new(1));
    }

    fn end_hold_counted<L: Ledger>(&mut self, first: u64, last: u64, steps: &mut Steps<L>) {
        self.end(first, last, steps);
    }
}
