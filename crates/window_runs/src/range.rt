// Ends what is held in a range.
ghost use Rattle.std.specs.Prelude.{◌≡◌, ◌≤◌, ◌<◌, ◌+◌, ◌-◌, ◌*◌, ◌^◌, ◌++◌, suc, Some, length, min, max, take, drop};
ghost use Rattle.std.specs.List.{slice_get};
ghost use Rattle.lock_index.specs.Runs.{IsCanonical, held_of, met_count};
ghost use Rattle.lock_index.specs.declared.run.HoldRun.{HoldRun};
ghost use Rattle.window_runs.specs.Cuts.{cut, cut_run};
ghost use Rattle.window_runs.specs.Kept.{HasRoom, indexed};

use crate::edit::{add_run, begin_at, drop_run, end_at};
use crate::search::{count_begun, count_ended};
use lock_index::{HoldList, HoldRun, LockIndex, Steps};
use std::sync::ledger::Ledger;

// How many offsets of a run lie in a range that it meets.
fn overlap(run: &HoldRun, first: u64, last: u64) -> u64
    requires order { first ≤ last }
    requires some { run.now.first ≤ run.now.last }
    requires begins { run.now.first ≤ last }
    requires ends { first ≤ run.now.last }
    requires few { (run.now.last + 1) - run.now.first < 2 ^ 32 }
    ensures { result ≡ (min run.now.last last + 1) - max run.now.first first }
{
    run.last.min(last) - run.first.max(first) + 1
}

// Leaves what a run holds before and behind a range within it.
fn split_run<L: Ledger>(
    list: &mut HoldList,
    index: &mut LockIndex,
    place: u32,
    run: HoldRun,
    first: u64,
    last: u64,
    steps: &mut Steps<L>,
)
    requires canonical { IsCanonical list.old.runs }
    requires run { slice_get list.old.runs place ≡ Some run }
    requires before { run.first < first }
    requires order { first ≤ last }
    requires behind { last < run.last }
    requires few { length list.old.runs < 2 ^ 32 }
    requires list_room { length list.old.runs < list.old.room }
    requires index_room { length list.old.runs < index.old.room }
    requires paired { index.old.pairs ≡ indexed list.old.runs }
    ensures runs { list.new.runs ≡ take place list.old.runs ++ (cut_run first last run ++ drop (suc place) list.old.runs) }
    ensures paired { index.new.pairs ≡ indexed list.new.runs }
    ensures list_room { list.old.room ≤ list.new.room }
    ensures index_room { index.old.room ≤ index.new.room }
    ensures steps { steps.new ≡ steps.old + 2 }
{
    let right = HoldRun {
        first: last + 1,
        ..run
    };
    end_at(list, index, place, run, first - 1, steps);
    add_run(list, index, place + 1, right, steps);
}

// Takes a range out of a run that it meets.
fn cut_run<L: Ledger>(
    list: &mut HoldList,
    index: &mut LockIndex,
    place: u32,
    run: HoldRun,
    first: u64,
    last: u64,
    steps: &mut Steps<L>,
)
    requires canonical { IsCanonical list.old.runs }
    requires run { slice_get list.old.runs place ≡ Some run }
    requires order { first ≤ last }
    requires begins { run.first ≤ last }
    requires ends { first ≤ run.last }
    requires room { HasRoom list.old index.old }
    requires paired { index.old.pairs ≡ indexed list.old.runs }
    ensures runs { list.new.runs ≡ take place list.old.runs ++ (cut_run first last run ++ drop (suc place) list.old.runs) }
    ensures paired { index.new.pairs ≡ indexed list.new.runs }
    ensures list_room { list.old.room ≤ list.new.room }
    ensures index_room { index.old.room ≤ index.new.room }
    ensures at_most { steps.new ≤ steps.old + 2 }
    ensures at_least { steps.old ≤ steps.new }
{
    if run.first < first {
        if last < run.last {
            split_run(list, index, place, run, first, last, steps);
        } else {
            end_at(list, index, place, run, first - 1, steps);
        }
    } else if last < run.last {
        begin_at(list, index, place, run, last + 1, steps);
    } else {
        drop_run(list, index, place, steps);
    }
}

// Takes a range out of the run at a place, which it meets, and tells how many offsets are no longer held.
fn cut_at<L: Ledger>(
    list: &mut HoldList,
    index: &mut LockIndex,
    place: u32,
    first: u64,
    last: u64,
    steps: &mut Steps<L>,
) -> u64
    requires place { place < length list.old.runs }
    requires canonical { IsCanonical list.old.runs }
    requires order { first ≤ last }
    requires begins { (run : HoldRun) → slice_get list.old.runs place ≡ Some run → run.first ≤ last }
    requires ends { (run : HoldRun) → slice_get list.old.runs place ≡ Some run → first ≤ run.last }
    requires room { HasRoom list.old index.old }
    requires paired { index.old.pairs ≡ indexed list.old.runs }
    ensures runs { (run : HoldRun) → slice_get list.old.runs place ≡ Some run →
        list.new.runs ≡ take place list.old.runs ++ (cut_run first last run ++ drop (suc place) list.old.runs) }
    ensures gone { result + length (held_of list.new.runs) ≡ length (held_of list.old.runs) }
    ensures paired { index.new.pairs ≡ indexed list.new.runs }
    ensures list_room { list.old.room ≤ list.new.room }
    ensures index_room { index.old.room ≤ index.new.room }
    ensures at_most { steps.new ≤ steps.old + 3 }
    ensures at_least { steps.old + 1 ≤ steps.new }
{
    let run = *list.at(place, steps);
    let gone = overlap(&run, first, last);
    cut_run(list, index, place, run, first, last, steps);
    gone
}

// Ends what is held from one offset to another, and tells how many offsets these were. It goes from behind, so that
// what lies behind the range moves alone.
pub(crate) fn end_range<L: Ledger>(
    list: &mut HoldList,
    index: &mut LockIndex,
    first: u64,
    last: u64,
    steps: &mut Steps<L>,
) -> u64
    requires canonical { IsCanonical list.old.runs }
    requires order { first ≤ last }
    requires room { HasRoom list.old index.old }
    requires paired { index.old.pairs ≡ indexed list.old.runs }
    ensures runs { list.new.runs ≡ cut first last list.old.runs }
    ensures gone { result + length (held_of list.new.runs) ≡ length (held_of list.old.runs) }
    ensures paired { index.new.pairs ≡ indexed list.new.runs }
    ensures list_room { list.old.room ≤ list.new.room }
    ensures index_room { index.old.room ≤ index.new.room }
    ensures at_most { steps.new ≤ steps.old + 3 * met_count first last list.old.runs }
    ensures at_least { steps.old + met_count first last list.old.runs ≤ steps.new }
{
    let start = count_ended(list.list(), first);
    let end = count_begun(list.list(), last);
    let mut place = end;
    let mut gone = 0;
    while start < place {
        place -= 1;
        gone += cut_at(list, index, place as u32, first, last, steps);
    }
    gone
}
