// Holds what isn't held yet.
ghost use Rattle.std.specs.Prelude.{◌≡◌, ◌↔◌, ◌≤◌, ◌<◌, ◌+◌, ◌-◌, ◌^◌, ℕ, suc, Some, None, IsTrue, length, take, drop};
ghost use Rattle.std.specs.List.{slice_get};
ghost use Rattle.share_model.specs.Held.{hold_at};
ghost use Rattle.lock_index.specs.Runs.{IsCanonical, held_of};
ghost use Rattle.lock_index.specs.Windows.{holding};
ghost use Rattle.lock_index.specs.declared.run.HoldRun.{HoldRun};
ghost use Rattle.window_runs.specs.Kept.{indexed};
ghost use Rattle.window_runs.specs.Puts.{GoesOn, IsPutBehind};

use crate::edit::{add_run, drop_run, end_at};
use crate::search::count_ended;
use lock_index::{HoldList, HoldRun, LockIndex, Steps};
use share_model::Hold;
use std::sync::ledger::Ledger;

// Whether two offsets are held in one way.
fn is_same(hold: &Hold, other: &Hold) -> bool
    ensures { IsTrue result ↔ (other.now ≡ hold.now) }
{
    hold.end == other.end
        && hold.count == other.count
        && hold.member.as_bytes() == other.member.as_bytes()
}

// Whether a run begins right behind another one and is held in the same way, so that the two are one run.
fn touches(run: &HoldRun, next: &HoldRun) -> bool
    requires { run.now.last < next.now.first }
    ensures { IsTrue result ↔ ((next.now.first ≡ run.now.last + 1) × (next.now.hold ≡ run.now.hold)) }
{
    next.first - run.last == 1 && is_same(&run.hold, &next.hold)
}

// Whether a run goes on with another one, which lies behind all runs before a place: with the last of these.
fn goes_on(runs: &[HoldRun], place: usize, run: &HoldRun) -> bool
    requires within { place ≤ length runs.now }
    requires before { (k : ℕ) (x : HoldRun) → slice_get runs.now k ≡ Some x → k < place → x.last < run.now.first }
    ensures { GoesOn runs.now place run.now result }
{
    place > 0 && touches(&runs[place - 1], run)
}

// Puts a run where nothing is held, behind those that end before it, and tells its place. Where it goes on with the
// last of these, that one is made longer.
fn put_behind<L: Ledger>(
    list: &mut HoldList,
    index: &mut LockIndex,
    place: u32,
    run: HoldRun,
    steps: &mut Steps<L>,
) -> u32
    requires canonical { IsCanonical list.old.runs }
    requires order { run.first ≤ run.last }
    requires within { place ≤ length list.old.runs }
    requires before { (k : ℕ) (x : HoldRun) → slice_get list.old.runs k ≡ Some x → k < place → x.last < run.first }
    requires behind { (k : ℕ) (x : HoldRun) → slice_get list.old.runs k ≡ Some x → place ≤ k → run.last < x.first }
    requires list_room { length list.old.runs < list.old.room }
    requires index_room { length list.old.runs < index.old.room }
    requires paired { index.old.pairs ≡ indexed list.old.runs }
    ensures runs { IsPutBehind list.old.runs place run list.new.runs result }
    ensures paired { index.new.pairs ≡ indexed list.new.runs }
    ensures list_room { list.old.room ≤ list.new.room }
    ensures index_room { index.old.room ≤ index.new.room }
{
    if goes_on(list.list(), place as usize, &run) {
        let before = *list.at(place - 1, steps);
        end_at(list, index, place - 1, before, run.last, steps);
        return place - 1;
    }
    add_run(list, index, place, run, steps);
    place
}

// Makes one run of that at a place and the next, where they touch.
fn join_next<L: Ledger>(
    list: &mut HoldList,
    index: &mut LockIndex,
    place: u32,
    steps: &mut Steps<L>,
)
    requires place { place < length list.old.runs }
    requires few { length list.old.runs < 2 ^ 32 }
    requires front { IsCanonical (take (suc place) list.old.runs) }
    requires back { IsCanonical (drop (suc place) list.old.runs) }
    requires apart { (x y : HoldRun) → slice_get list.old.runs place ≡ Some x → slice_get list.old.runs (suc place) ≡ Some y → x.last < y.first }
    requires paired { index.old.pairs ≡ indexed list.old.runs }
    ensures canonical { IsCanonical list.new.runs }
    ensures held { held_of list.new.runs ≡ held_of list.old.runs }
    ensures paired { index.new.pairs ≡ indexed list.new.runs }
    ensures list_room { list.old.room ≤ list.new.room }
    ensures index_room { index.old.room ≤ index.new.room }
{
    if place as usize + 1 == list.list().len() {
        return;
    }
    let run = *list.at(place, steps);
    let next = *list.at(place + 1, steps);
    if touches(&run, &next) {
        end_at(list, index, place, run, next.last, steps);
        drop_run(list, index, place + 1, steps);
    }
}

// Holds offsets of which none is held.
pub(crate) fn put_run<L: Ledger>(
    list: &mut HoldList,
    index: &mut LockIndex,
    run: HoldRun,
    steps: &mut Steps<L>,
)
    requires canonical { IsCanonical list.old.runs }
    requires order { run.first ≤ run.last }
    requires free { (offset : ℕ) → run.first ≤ offset → offset ≤ run.last → hold_at (held_of list.old.runs) offset ≡ None }
    requires few { length list.old.runs + 1 < 2 ^ 32 }
    requires list_room { length list.old.runs < list.old.room }
    requires index_room { length list.old.runs < index.old.room }
    requires paired { index.old.pairs ≡ indexed list.old.runs }
    ensures canonical { IsCanonical list.new.runs }
    ensures held { held_of list.new.runs ≡ holding run.first ((run.last + 1) - run.first) run.hold (held_of list.old.runs) }
    ensures more { length (held_of list.new.runs) ≡ length (held_of list.old.runs) + ((run.last + 1) - run.first) }
    ensures paired { index.new.pairs ≡ indexed list.new.runs }
    ensures list_room { list.old.room ≤ list.new.room }
    ensures index_room { index.old.room ≤ index.new.room }
{
    let place = count_ended(list.list(), run.first);
    let place = put_behind(list, index, place as u32, run, steps);
    join_next(list, index, place, steps);
}
