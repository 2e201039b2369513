// Releases records that are held: those of a member, and those whose lock has ended.
ghost use Rattle.std.specs.Prelude.{◌≡◌, ◌≤◌, ◌<◌, ◌^◌, ℕ, List, Some, true, IsSome, IfSome, IfNone};
ghost use Rattle.std.specs.BTreeMap.{is_at};
ghost use Rattle.std.specs.Cmp.Lexicographic.{slice_cmp};
ghost use Rattle.std.specs.Map.{lookup};
ghost use Rattle.std.specs.Ordering.{nat_cmp};
ghost use Rattle.coord_checkpoint.specs.Disks.{HasFailed};
ghost use Rattle.topic_conf.specs.Configs.{IsLimit};
ghost use Rattle.offset_runs.specs.Changes.{room_of};
ghost use Rattle.part_log.specs.Logs.{IsStoredLog, log_in};
ghost use Rattle.share_model.specs.ForeignRules.{share_state_at};
ghost use Rattle.share_part.specs.Following.{fault_of};
ghost use Rattle.share_part.specs.Hosting.{AreHosted, HoldsWell, key_of};
ghost use Rattle.share_coord.specs.States.{states_of};
ghost use Rattle.share_part.specs.Releasing.{AreChosen, AreLeft, Counts, IsNextChosen, ReleasesGroup, chosen_count, fault_in};
ghost use Rattle.share_part.specs.declared.settle.Moved.{Moved};
ghost use Rattle.share_part.specs.Settling.{AreBelow, held_after, is_chosen, releasing};
ghost use Rattle.share_part.specs.Shards.{held_in, with_held};
ghost use Rattle.share_part.specs.Storing.{AreCanonical, StoresGroup};
ghost use Rattle.share_part.specs.Failures.{RunOnBoth};
ghost use Rattle.lock_index.specs.Windows.{IsRising};

use crate::conf::PartConf;
use crate::fetch::start_of;
use crate::settle::{Moved, Whose, is_chosen, release};
use crate::storing::store_change;
use edge_io::Disk;
use lock_index::{Steps, Window};
use offset_runs::Runs;
use part_log::PartLog;
use share_coord::Coord;
use share_model::{Name, StoreFault, ThenOutcome};
use std::collections::BTreeMap;
use std::marker::Brand;
use std::sync::ledger::{Blank, Ledger};

/// What became of the releases of a group.
#[derive(Clone, Copy)]
pub enum Released {
    /// So many records were released, and that is stored. Where these are none, nothing was written.
    Done(u64),
    /// The releases couldn't be stored, and nothing was released.
    Store(StoreFault),
}

/// What a visit is told of them.
pub fn outcome_of(released: Released) -> ThenOutcome
    ensures { fault_of result ≡ fault_in released }
{
    match released {
        Released::Done(_) => ThenOutcome::Done,
        Released::Store(fault) => ThenOutcome::Store(fault),
    }
}

// The least held offset from `from` on that is released. `None` where there is none.
fn next_chosen<W: Window>(window: &W, whose: &Whose, mut from: u64) -> Option<u64>
    requires { AreBelow (W.held window.now) }
    ensures some { IfSome result (IsNextChosen (is_chosen whose.now) (W.held window.now) from) }
    ensures none { IfNone result ((to : ℕ) → AreLeft (is_chosen whose.now) (W.held window.now) from to) }
    ensures below { IfSome result (λ offset. offset < 2 ^ 62) }
{
    while let Some(run) = window.run_from(from) {
        if is_chosen(whose, &run.hold) {
            return Some(run.first.max(from));
        }
        from = run.last + 1;
    }
    None
}

// How far all that is held from an offset on is released.
fn last_chosen<W: Window>(window: &W, whose: &Whose, first: u64) -> u64
    requires held { AreBelow (W.held window.now) }
    requires below { first < 2 ^ 62 }
    requires chosen { AreChosen (is_chosen whose.now) (W.held window.now) first first }
    ensures from { first ≤ result }
    ensures below { result < 2 ^ 62 }
    ensures chosen { AreChosen (is_chosen whose.now) (W.held window.now) first result }
{
    let mut last = first;
    while let Some(run) = window.run_from(last + 1) {
        if !is_chosen(whose, &run.hold) {
            return last;
        }
        last = run.last;
    }
    last
}

// Ends the holds that are released, a stretch of held offsets at a time, and tells how many these are.
fn end_chosen<W: Window, L: Ledger>(window: &mut W, whose: &Whose, steps: &mut Steps<L>) -> u64
    requires { AreBelow (W.held window.old) }
    ensures held { W.held window.new ≡ held_after (releasing (is_chosen whose.now) (W.held window.old)) (W.held window.old) }
    ensures count { result ≡ chosen_count whose.now (W.held window.old) }
{
    window.known();
    let before = window.count();
    let mut from = 0;
    while let Some(first) = next_chosen(window, whose, from) {
        let last = last_chosen(window, whose, first);
        window.end_hold_counted(first, last, steps);
        from = last + 1;
    }
    before - window.count()
}

// The same in a ledger of its own.
fn end_in_ledger<W: Window, L: Ledger>(window: &mut W, whose: &Whose, blank: Blank) -> u64
    requires name { blank.name ≡ L.name }
    requires parts { blank.parts ≡ L.parts }
    requires some { 0 < blank.parts }
    requires below { AreBelow (W.held window.old) }
    ensures held { W.held window.new ≡ held_after (releasing (is_chosen whose.now) (W.held window.old)) (W.held window.old) }
    ensures count { result ≡ chosen_count whose.now (W.held window.old) }
{
    let mut steps = Steps::<L>::new(blank);
    end_chosen(window, whose, &mut steps)
}

// Ends the holds that are released of a group whose window is there, and tells how many these are. It takes no memory.
fn end_released<W: Window>(windows: &mut BTreeMap<Name, W>, group: &Name, whose: &Whose) -> u64
    requires there { IsSome (lookup (is_at (slice_cmp nat_cmp group.now)) windows.old.entries) }
    requires below { AreBelow (held_in W.held windows.old.entries group.now) }
    ensures held { (other : List ℕ) → held_in W.held windows.new.entries other ≡ with_held (held_in W.held windows.old.entries) group.now
        (held_after (releasing (is_chosen whose.now) (held_in W.held windows.old.entries group.now)) (held_in W.held windows.old.entries group.now))
        other }
    ensures count { result ≡ chosen_count whose.now (held_in W.held windows.old.entries group.now) }
{
    match windows.get_mut(group) {
        Some(window) => end_in_ledger::<W, Brand>(window, whose, Blank::new(1)),
        None => unreachable!(),
    }
}

// What the releases of a group store, with the rows that are put. `None` where there are none.
fn judge_release<D: Disk, W: Window>(
    rows: &mut Runs,
    conf: &PartConf,
    log: &PartLog<D>,
    states: &Coord<D>,
    windows: &BTreeMap<Name, W>,
    group: &Name,
    whose: &Whose,
) -> Option<Moved>
    requires sound { IsStoredLog log.now.batches }
    requires hosted { AreHosted conf.now (log_in log.now) (states_of states.now.entries) }
    requires well { HoldsWell log.now.batches (share_state_at (states_of states.now.entries) (key_of conf.now group.now))
        (held_in W.held windows.now.entries group.now) }
    requires room { 4000 ≤ room_of rows.old }
    ensures judged { ReleasesGroup conf.now.limit (releasing (is_chosen whose.now) (held_in W.held windows.now.entries group.now))
        log.now.batches (held_in W.held windows.now.entries group.now)
        (share_state_at (states_of states.now.entries) (key_of conf.now group.now)) rows.new.list result }
    ensures canonical { (moved : Moved) → result ≡ Some moved →
        AreCanonical (share_state_at (states_of states.now.entries) (key_of conf.now group.now)) }
    ensures room { room_of rows.old ≤ room_of rows.new }
    ensures below { AreBelow (held_in W.held windows.now.entries group.now) }
    ensures rising { IsRising (held_in W.held windows.now.entries group.now) }
{
    let Some(window) = windows.get(group) else {
        return None;
    };
    window.known();
    match states.look(&conf.key(group)) {
        Some(view) => {
            // what is stored is canonical
            let _stored = view.runs.list();
            release(
                rows,
                log,
                start_of(view),
                &view.runs,
                window,
                whose,
                conf.limit(),
            )
        }
        None => None,
    }
}

/// Releases records that a group holds: the releases are stored by one write, and then their holds end. Where there
/// are none, nothing is written. Their rows are put into `rows`, which has memory for those of all that a group holds.
/// It takes no memory. A checkpoint that is due is tried before the write.
///
/// After a store fault the table is as it was.
pub fn release_held<D: Disk, W: Window>(
    rows: &mut Runs,
    conf: &PartConf,
    log: &PartLog<D>,
    states: &mut Coord<D>,
    windows: &mut BTreeMap<Name, W>,
    group: &Name,
    whose: &Whose,
) -> Released
    requires sound { IsStoredLog log.now.batches }
    requires limit { IsLimit conf.now.limit }
    requires hosted { AreHosted conf.now (log_in log.now) (states_of states.old.entries) }
    requires well { HoldsWell log.now.batches (share_state_at (states_of states.old.entries) (key_of conf.now group.now))
        (held_in W.held windows.old.entries group.now) }
    requires scratch { 4000 ≤ room_of rows.old }
    requires room { 6000 ≤ states.old.room }
    ensures once { StoresGroup D.seen (HasFailed D.seen) conf.now log.now.batches
        group.now (releasing (is_chosen whose.now) (held_in W.held windows.old.entries group.now)) (held_in W.held windows.old.entries group.now)
        true states.old states.new
        ((other : List ℕ) → held_in W.held windows.new.entries other ≡ held_in W.held windows.old.entries other)
        ((other : List ℕ) → held_in W.held windows.new.entries other ≡ with_held (held_in W.held windows.old.entries) group.now
        (held_after (releasing (is_chosen whose.now) (held_in W.held windows.old.entries group.now)) (held_in W.held windows.old.entries group.now))
        other) (fault_in result) }
    ensures count { Counts whose.now (held_in W.held windows.old.entries group.now) result }
    ensures scratch { room_of rows.old ≤ room_of rows.new }
    ensures room { states.new.room ≡ states.old.room }
    ensures runs { RunOnBoth D.seen states.old states.new }
    ensures range { IsLimit conf.now.limit }
{
    let judged = judge_release(rows, conf, log, states, windows, group, whose);
    let Some(moved) = judged else {
        return Released::Done(0);
    };
    let key = conf.key(group);
    let fault = store_change(states, &key, moved.start, rows.list(), true);
    if let Some(fault) = fault {
        return Released::Store(fault);
    }
    Released::Done(end_released(windows, group, whose))
}
