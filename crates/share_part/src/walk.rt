// The acquisition walk. It goes by the runs of what is held and stored, and by batches.
ghost use Rattle.std.specs.Prelude.{◌≡◌, ◌≤◌, ◌<◌, ◌^◌, ◌+◌, ◌++◌, ℕ, IfOk, OnOk, IfSome, None, vec_len};
ghost use Rattle.share_model.specs.Held.{Held, hold_at};
ghost use Rattle.share_model.specs.Logs.{IsSlot};
ghost use Rattle.share_model.specs.Runs.{IsCanonical};
ghost use Rattle.share_model.specs.declared.row.RowState.TheVariants.{Available};
ghost use Rattle.part_log.specs.Logs.{IsStoredLog};
ghost use Rattle.share_part.specs.Collecting.{Collects, GoesOver, IsPlanOf, IsStretch, LieAtSlots, left_by};
ghost use Rattle.share_part.specs.Offering.{least_available};
ghost use Rattle.share_part.specs.Slots.{next_slot};
ghost use Rattle.share_part.specs.Tables.{MayGoOut, one_more};
ghost use Rattle.share_part.specs.Walks.{Walk, acquired};

use crate::advance::run_from;
use crate::collector::Collector;
use crate::limits::Limits;
use crate::plan::Plan;
use edge_io::Disk;
use lock_index::Window;
use offset_runs::Runs;
use part_log::PartLog;
use share_model::{NoMemory, RowState, Run};
use std::alloc::Global;

/// How many slots from the start of a table a walk goes over.
pub const WINDOW_SLOTS: u32 = 2000;

// How far offsets from one on go out alike, and with which delivery count. Without one they don't go out: they are
// held, acknowledged or archived.
#[derive(Clone, Copy)]
struct Stretch {
    last: u64,
    count: Option<u16>,
}

// The delivery count with which a record goes out that is stored in this state, if it does.
fn delivery_of(state: RowState, count: u16) -> Option<u16>
    requires { state ≡ Available → count ≤ 9 }
    ensures value { result ≡ one_more state count }
    ensures few { IfSome result (λ count. count ≤ 10) }
{
    match state {
        RowState::Available => Some(count + 1),
        RowState::Acknowledged => None,
        RowState::Archived => None,
    }
}

// How far offsets go out alike of which nothing is held up to `last`, by what is stored of them.
fn stretch_stored(rows: &Runs, slot: u64, last: u64) -> Stretch
    requires rows { MayGoOut rows.now.list }
    requires order { slot ≤ last }
    ensures { (held : Held) → ((offset : ℕ) → slot ≤ offset → offset ≤ last → hold_at held offset ≡ None) →
        IsStretch rows.now.list held slot result.last result.count }
{
    let Some(run) = run_from(rows.list(), slot) else {
        return Stretch {
            last,
            count: Some(1),
        };
    };
    if slot < run.first {
        return Stretch {
            last: last.min(run.first - 1),
            count: Some(1),
        };
    }
    Stretch {
        last: last.min(run.last),
        count: delivery_of(run.state, run.count),
    }
}

// How far offsets from one on go out alike.
fn stretch_from<W: Window>(rows: &Runs, window: &W, slot: u64) -> Stretch
    requires { MayGoOut rows.now.list }
    ensures { IsStretch rows.now.list (W.held window.now) slot result.last result.count }
{
    let Some(run) = window.run_from(slot) else {
        return stretch_stored(rows, slot, u64::MAX);
    };
    if slot < run.first {
        return stretch_stored(rows, slot, run.first - 1);
    }
    Stretch {
        last: run.last,
        count: None,
    }
}

// The same once rows are laid over what is held and stored, which end the holds of their offsets.
fn stretch_laid<W: Window>(changed: &[Run], rows: &Runs, window: &W, slot: u64) -> Stretch
    requires canonical { IsCanonical changed.now }
    requires changed { MayGoOut changed.now }
    requires rows { MayGoOut rows.now.list }
    ensures { IsStretch (changed.now ++ rows.now.list) (left_by changed.now (W.held window.now))
        slot result.last result.count }
{
    let Some(run) = run_from(changed, slot) else {
        return stretch_from(rows, window, slot);
    };
    if slot < run.first {
        let stretch = stretch_from(rows, window, slot);
        return Stretch {
            last: stretch.last.min(run.first - 1),
            count: stretch.count,
        };
    }
    Stretch {
        last: run.last,
        count: delivery_of(run.state, run.count),
    }
}

// The slots from one on, as many as go out alike, and at most so many. Tells how many. `None` where the walk ends at
// the first.
fn step<D: Disk, W: Window>(
    collector: &mut Collector,
    log: &PartLog<D>,
    changed: &[Run],
    rows: &Runs,
    window: &W,
    slot: u64,
    most: u32,
) -> Result<Option<u32>, NoMemory>
    requires sound { IsStoredLog log.now.batches }
    requires above { log.now.start ≤ slot }
    requires slot { IsSlot log.now.batches slot }
    requires rows { MayGoOut rows.now.list }
    requires canonical { IsCanonical changed.now }
    requires changed { MayGoOut changed.now }
    requires lie { LieAtSlots log.now.batches (changed.now ++ rows.now.list) (left_by changed.now (W.held window.now)) }
    requires most { 1 ≤ most }
    ensures goes { IfOk result (λ on. (start : ℕ) (walk : Walk) → Collects log.now.batches collector.old walk →
        GoesOver log.now.batches
        (record { start = start; rows = changed.now ++ rows.now.list; held = left_by changed.now (W.held window.now) }) collector.new walk slot on) }
    ensures most { IfOk result (λ on. IfSome on (λ n. n ≤ most)) }
    ensures grants { OnOk result (vec_len collector.new.grants ≤ vec_len collector.old.grants + 1) }
{
    let stretch = stretch_laid(changed, rows, window, slot);
    let Some(count) = stretch.count else {
        let more = u64::from(most - 1).min(stretch.last - slot);
        return Ok(Some(more as u32 + 1));
    };
    collector.take(log, slot, stretch.last, count, most)
}

// A slot lies below 2^62.
pub fn next_slot<D: Disk>(log: &PartLog<D>, from: u64) -> Option<u64>
    requires sound { IsStoredLog log.now.batches }
    requires above { log.now.start ≤ from }
    ensures later { IfSome result (λ slot. from ≤ slot) }
    ensures value { result ≡ next_slot log.now.batches from }
    ensures slot { IfSome result (λ slot. IsSlot log.now.batches slot × (slot < 2 ^ 62)) }
{
    log.next_slot(from)
}

// What a walk over the first slots from a start takes.
fn collect<D: Disk, W: Window>(
    alloc: Global,
    log: &PartLog<D>,
    start: u64,
    changed: &[Run],
    rows: &Runs,
    window: &W,
    limits: Limits,
) -> Result<Collector, NoMemory>
    requires sound { IsStoredLog log.now.batches }
    requires above { log.now.start ≤ start }
    requires rows { MayGoOut rows.now.list }
    requires canonical { IsCanonical changed.now }
    requires changed { MayGoOut changed.now }
    requires lie { LieAtSlots log.now.batches (changed.now ++ rows.now.list) (left_by changed.now (W.held window.now)) }
    ensures takes { IfOk result (λ c. Collects log.now.batches c
        (acquired log.now.batches
        (record { start = start; rows = changed.now ++ rows.now.list; held = left_by changed.now (W.held window.now) }) limits)) }
    ensures grants { IfOk result (λ c. vec_len c.grants ≤ 2000) }
{
    let mut collector = Collector::new(alloc, limits);
    let mut from = start;
    let mut left = WINDOW_SLOTS;
    while left > 0 {
        let Some(slot) = next_slot(log, from) else {
            return Ok(collector);
        };
        let Some(n) = step(&mut collector, log, changed, rows, window, slot, left)? else {
            return Ok(collector);
        };
        from = slot + u64::from(n);
        left -= n;
    }
    Ok(collector)
}

/// The least slot that a walk over a table with this start, these rows and these holds would take first. It costs the
/// runs and the batches that it walks, and takes no memory.
pub fn least_available<D: Disk, W: Window>(
    log: &PartLog<D>,
    start: u64,
    rows: &Runs,
    window: &W,
) -> Option<u64>
    requires sound { IsStoredLog log.now.batches }
    requires above { log.now.start ≤ start }
    requires rows { MayGoOut rows.now.list }
    requires lie { LieAtSlots log.now.batches rows.now.list (W.held window.now) }
    ensures { result ≡ least_available log.now.batches
        (record { start = start; rows = rows.now.list; held = W.held window.now }) }
{
    let mut from = start;
    let mut left = WINDOW_SLOTS;
    while left > 0 {
        let Some(slot) = next_slot(log, from) else {
            return None;
        };
        let stretch = stretch_from(rows, window, slot);
        if stretch.count.is_some() {
            return Some(slot);
        }
        let n = u64::from(left - 1).min(stretch.last - slot) as u32 + 1;
        from = slot + u64::from(n);
        left -= n;
    }
    None
}

/// What a fetch will take of a table with this start, these rows and these holds, once `changed` is laid over the rows
/// and ends the holds of its offsets. It costs the runs and the batches that it walks.
pub fn plan_laid<D: Disk, W: Window>(
    alloc: Global,
    log: &PartLog<D>,
    start: u64,
    changed: &[Run],
    rows: &Runs,
    window: &W,
    limits: Limits,
) -> Result<Plan, NoMemory>
    requires sound { IsStoredLog log.now.batches }
    requires above { log.now.start ≤ start }
    requires rows { MayGoOut rows.now.list }
    requires canonical { IsCanonical changed.now }
    requires changed { MayGoOut changed.now }
    requires lie { LieAtSlots log.now.batches (changed.now ++ rows.now.list) (left_by changed.now (W.held window.now)) }
    ensures is { IfOk result (λ plan. IsPlanOf log.now.batches plan
        (acquired log.now.batches
        (record { start = start; rows = changed.now ++ rows.now.list; held = left_by changed.now (W.held window.now) }) limits)) }
    ensures grants { IfOk result (λ plan. vec_len plan.grants ≤ 2001) }
{
    collect(alloc, log, start, changed, rows, window, limits)?.finish()
}

/// What a fetch will take of a table with this start, these rows and these holds.
pub fn plan<D: Disk, W: Window>(
    alloc: Global,
    log: &PartLog<D>,
    start: u64,
    rows: &Runs,
    window: &W,
    limits: Limits,
) -> Result<Plan, NoMemory>
    requires sound { IsStoredLog log.now.batches }
    requires above { log.now.start ≤ start }
    requires rows { MayGoOut rows.now.list }
    requires lie { LieAtSlots log.now.batches rows.now.list (W.held window.now) }
    ensures is { IfOk result (λ plan. IsPlanOf log.now.batches plan
        (acquired log.now.batches (record { start = start; rows = rows.now.list; held = W.held window.now }) limits)) }
    ensures grants { IfOk result (λ plan. vec_len plan.grants ≤ 2001) }
{
    plan_laid(alloc, log, start, &[], rows, window, limits)
}
