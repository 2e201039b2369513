// Changes of one run, in the list and in the index beside it.
ghost use Rattle.std.specs.Prelude.{◌≡◌, ◌≤◌, ◌<◌, ◌+◌, ◌-◌, Some, length, set};
ghost use Rattle.std.specs.List.{insert, remove, slice_get};
ghost use Rattle.lock_index.specs.Runs.{IsCanonical};
ghost use Rattle.window_runs.specs.Kept.{HasFirst, indexed};

use lock_index::{HoldList, HoldRun, LockIndex, Steps};
use std::sync::ledger::Ledger;

// Takes a run away.
pub(crate) fn drop_run<L: Ledger>(
    list: &mut HoldList,
    index: &mut LockIndex,
    place: u32,
    steps: &mut Steps<L>,
)
    requires place { place < length list.old.runs }
    requires paired { index.old.pairs ≡ indexed list.old.runs }
    ensures runs { list.new.runs ≡ remove list.old.runs place }
    ensures paired { index.new.pairs ≡ indexed list.new.runs }
    ensures list_room { list.old.room ≤ list.new.room }
    ensures index_room { index.old.room ≤ index.new.room }
    ensures step { steps.new ≡ steps.old + 1 }
{
    let run = list.take_at(place, steps);
    index.take(run.hold.end, run.first);
}

// Lets a run end at another offset.
pub(crate) fn end_at<L: Ledger>(
    list: &mut HoldList,
    index: &mut LockIndex,
    place: u32,
    run: HoldRun,
    last: u64,
    steps: &mut Steps<L>,
)
    requires run { slice_get list.old.runs place ≡ Some run }
    requires paired { index.old.pairs ≡ indexed list.old.runs }
    ensures runs { list.new.runs ≡ set list.old.runs place (record run { last = last }) }
    ensures paired { index.new.pairs ≡ indexed list.new.runs }
    ensures list_room { list.old.room ≤ list.new.room }
    ensures index_room { index.old.room ≤ index.new.room }
    ensures step { steps.new ≡ steps.old + 1 }
{
    list.set(place, HoldRun { last, ..run }, steps);
}

// Lets a run begin at a later one of its offsets.
pub(crate) fn begin_at<L: Ledger>(
    list: &mut HoldList,
    index: &mut LockIndex,
    place: u32,
    run: HoldRun,
    first: u64,
    steps: &mut Steps<L>,
)
    requires canonical { IsCanonical list.old.runs }
    requires run { slice_get list.old.runs place ≡ Some run }
    requires behind { run.first < first }
    requires within { first ≤ run.last }
    requires room { length list.old.runs ≤ index.old.room }
    requires paired { index.old.pairs ≡ indexed list.old.runs }
    ensures runs { list.new.runs ≡ set list.old.runs place (record run { first = first }) }
    ensures paired { index.new.pairs ≡ indexed list.new.runs }
    ensures list_room { list.old.room ≤ list.new.room }
    ensures index_room { index.old.room ≤ index.new.room }
    ensures step { steps.new ≡ steps.old + 1 }
{
    list.set(place, HoldRun { first, ..run }, steps);
    index.take(run.hold.end, run.first);
    index.put(run.hold.end, first);
}

// Puts a run in its place. None begins where it does.
pub(crate) fn add_run<L: Ledger>(
    list: &mut HoldList,
    index: &mut LockIndex,
    place: u32,
    run: HoldRun,
    steps: &mut Steps<L>,
)
    requires place { place ≤ length list.old.runs }
    requires absent { HasFirst list.old.runs run.first → ⊥ }
    requires list_room { length list.old.runs < list.old.room }
    requires index_room { length list.old.runs < index.old.room }
    requires paired { index.old.pairs ≡ indexed list.old.runs }
    ensures runs { list.new.runs ≡ insert list.old.runs place run }
    ensures paired { index.new.pairs ≡ indexed list.new.runs }
    ensures list_room { list.old.room ≤ list.new.room }
    ensures index_room { index.old.room ≤ index.new.room }
    ensures step { steps.new ≡ steps.old + 1 }
{
    let first = run.first;
    let end = run.hold.end;
    list.put_at(place, run, steps);
    index.put(end, first);
}
