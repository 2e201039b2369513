// The rows that a write leaves.
ghost use Rattle.std.specs.Prelude.{◌≡◌, ◌≤◌, ℕ, List, [], None, length, IfOk, IsOk, OnOk, if◌then◌else◌};
ghost use Rattle.share_model.specs.Runs.{IsCanonical, row_at};
ghost use Rattle.share_model.specs.ForeignRules.{size_of};
ghost use Rattle.share_model.specs.ShareStates.{AreWritten, AreLaid, is_below, start_after};
ghost use Rattle.share_model.specs.declared.run.Run.{Run};
ghost use Rattle.offset_runs.specs.Changes.{room_of};
ghost use Rattle.offset_runs.specs.Complete.{complete_rows};
ghost use Rattle.state_records.specs.States.{AreStoredRuns};

use flex_fields::Items;
use offset_runs::Runs;
use share_model::{NoMemory, Run};
use std::alloc::Global;

// So many runs are put one after another; more are halved.
const FEW: usize = 32;

// The list of runs is canonical.
pub(crate) fn canonical(runs: &Runs)
    ensures { IsCanonical runs.now.list }
{
    let _list = runs.list();
}

#[tactic(auto, using(crate::proofs::Written::or_none, crate::proofs::Written::puts_next))]
fn put_all(alloc: Global, runs: &[Run]) -> Result<Runs, NoMemory>
    ensures { IfOk result (λ written. AreWritten runs.now written.list) }
{
    let mut out = Runs::new(alloc);
    for run in runs {
        out.put_range(run.first, run.last, run.row())?;
    }
    canonical(&out);
    Ok(out)
}

// The rows that runs write, a later one winning. Each run is moved once for each halving.
pub(crate) fn written(alloc: Global, runs: &[Run]) -> Result<Runs, NoMemory>
    ensures { IfOk result (λ written. AreWritten runs.now written.list) }
{
    if runs.len() <= FEW {
        return put_all(alloc, runs);
    }
    let (front, back) = runs.split_at(runs.len() / 2);
    let mut out = written(alloc, front)?;
    let behind = written(alloc, back)?;
    out.merge_from(&behind)?;
    canonical(&out);
    Ok(out)
}

// The start that this one leaves.
pub(crate) fn start_after(old: i64, given: i64) -> i64
    ensures { result ≡ start_after old given }
{
    if given < 0 { old } else { given }
}

// Sets memory aside, so that there is some for so many runs. After want of memory all is as it was.
pub(crate) fn set_room(runs: &mut Runs, room: u32) -> Result<(), NoMemory>
    ensures ok { OnOk result (room ≤ room_of runs.new) }
    ensures list { runs.new.list ≡ runs.old.list }
    ensures kept { room_of runs.old ≤ room_of runs.new }
    ensures spared { room ≤ room_of runs.old → IsOk result }
{
    let count = runs.list().len();
    if room as usize <= count {
        return Ok(());
    }
    runs.reserve((room as usize - count) as u32)
}

// No rows, with memory for so many runs.
pub(crate) fn empty_rows(alloc: Global, room: u32) -> Result<Runs, NoMemory>
    ensures { IfOk result (λ rows. (rows.list ≡ []) × (room ≤ room_of rows)) }
{
    let mut rows = Runs::new(alloc);
    set_room(&mut rows, room)?;
    Ok(rows)
}

// Takes the rows below a start away.
pub(crate) fn cut_at(runs: &mut Runs, start: i64)
    ensures rows { (offset : ℕ) → row_at runs.new.list offset ≡ (if is_below offset start then None else row_at runs.old.list offset) }
    ensures few { length runs.new.list ≤ length runs.old.list }
    ensures room { room_of runs.old ≤ room_of runs.new }
{
    if start > 0 {
        runs.cut_below(start as u64);
    }
}

// These rows over those, from a start on, with memory for so many runs.
pub(crate) fn laid(
    alloc: Global,
    under: &Runs,
    over: &Runs,
    start: i64,
    room: u32,
) -> Result<Runs, NoMemory>
    requires { length under.now.list ≤ 1000000 }
    ensures laid { IfOk result (λ laid. AreLaid start under.now.list over.now.list laid.list) }
    ensures room { IfOk result (λ laid. room ≤ room_of laid) }
{
    let copy = under.list().to_vec(alloc)?;
    let mut out = Runs::from_list(Items::new(copy));
    out.merge_from(over)?;
    cut_at(&mut out, start);
    set_room(&mut out, room)?;
    canonical(&out);
    Ok(out)
}

// The offset of a start, or 0 where none was given.
fn offset_of(start: i64) -> u64
    ensures { result ≡ size_of start }
{
    if start < 0 { 0 } else { start as u64 }
}

// How many rows are complete once others are laid over these from a start on; so many of these are.
pub(crate) fn complete_after(under: &Runs, complete: u64, over: &Runs, start: i64) -> u64
    requires now { complete ≡ complete_rows under.now.list }
    requires under { AreStoredRuns under.now.list }
    requires over { AreStoredRuns over.now.list }
    ensures { (laid : List Run) → AreLaid start under.now.list over.now.list laid → result ≡ complete_rows laid }
{
    under.complete_laid(complete, over, offset_of(start))
}

/// How many rows are complete: acknowledged or archived. It goes over all runs.
pub fn complete_of(runs: &Runs) -> u64
    requires { AreStoredRuns runs.now.list }
    ensures { result ≡ complete_rows runs.now.list }
{
    runs.complete()
}
