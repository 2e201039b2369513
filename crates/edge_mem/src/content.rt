// A content, and the steps that were done to it.
ghost use Rattle.std.specs.Prelude.{◌≡◌, ◌≤◌, ◌+◌, ◌-◌, ◌∷◌, ◌++◌};
ghost use Rattle.std.specs.Prelude.{ℕ, List, [], length, take, drop, IfOk, OnOk, OnErr, true, false};
ghost use Rattle.edge_io.specs.Disk.{written};
ghost use Rattle.edge_mem.specs.Events.{Event, Wrote, CutTo, Kept, replay, done};
ghost use Rattle.edge_mem.specs.Steps.{Joins, Marked, changes, event_of};

use crate::change::{Change, Step};
use std::alloc::{AllocError, Global};

// Puts bytes over those that are there.
fn put(content: &mut [u8], place: usize, bytes: &[u8])
    requires { place + length bytes.now ≤ length content.old }
    ensures { content.new ≡ written place bytes.now content.old }
{
    let (_, rest) = content.split_at_mut(place);
    let (target, _) = rest.split_at_mut(bytes.len());
    target.copy_from_slice(bytes);
}

// Puts bytes over those that are there, and past the end.
#[tactic(auto, using(crate::proofs::Contents::written_parts))]
pub fn write_over(content: &mut Vec<u8>, place: usize, bytes: &[u8]) -> Result<(), AllocError>
    requires { place ≤ length content.old.items }
    ensures ok { OnOk result (content.new.items ≡ written place bytes.now content.old.items) }
    ensures err { OnErr result (content.new.items ≡ content.old.items) }
{
    let overlap = bytes.len().min(content.len() - place);
    let (over, beyond) = bytes.split_at(overlap);
    content.extend_from_slice(beyond)?;
    put(content, place, over);
    Ok(())
}

// Does a step again.
fn redo(content: &mut Vec<u8>, change: &Change) -> Result<(), AllocError>
    ensures ok { OnOk result (content.new.items ≡ done (event_of change.now) content.old.items) }
{
    match change {
        Change::Write { place, bytes } => {
            if *place <= content.len() {
                write_over(content, *place, bytes)
            } else {
                content.extend_from_slice(bytes)
            }
        }
        Change::Cut { to } => {
            content.truncate(*to);
            Ok(())
        }
        Change::Loss { .. } => Ok(()),
    }
}

// The content after the first steps.
pub fn redone(
    alloc: Global,
    first: &[u8],
    steps: &[Step],
    count: usize,
) -> Result<Vec<u8>, AllocError>
    ensures { IfOk result (λ v. v.items ≡ replay (take count (changes steps.now)) first.now) }
{
    let mut content = first.to_vec(alloc)?;
    let mut rest = steps;
    let mut left = count;
    while left > 0 {
        let Some((step, after)) = rest.split_first() else {
            return Ok(content);
        };
        redo(&mut content, &step.change)?;
        rest = after;
        left -= 1;
    }
    Ok(content)
}

// Adds a step that is not synced.
pub fn push_step(log: &mut Vec<Step>, change: Change) -> Result<(), AllocError>
    ensures ok { OnOk result (Joins log.old.items (event_of change) log.new.items) }
    ensures err { OnErr result (log.new.items ≡ log.old.items) }
{
    log.push(Step {
        change,
        synced: false,
    })?;
    Ok(())
}

// Writes, and keeps the step.
pub fn write_step(
    alloc: Global,
    log: &mut Vec<Step>,
    content: &mut Vec<u8>,
    place: usize,
    bytes: &[u8],
) -> Result<(), AllocError>
    requires { place ≤ length content.old.items }
    ensures log { OnOk result (Joins log.old.items (Wrote place bytes.now) log.new.items) }
    ensures content { OnOk result (content.new.items ≡ written place bytes.now content.old.items) }
    ensures log_err { OnErr result (log.new.items ≡ log.old.items) }
    ensures content_err { OnErr result (content.new.items ≡ content.old.items) }
{
    let copy = bytes.to_vec(alloc)?;
    let len = log.len();
    push_step(log, Change::Write { place, bytes: copy })?;
    if let Err(failed) = write_over(content, place, bytes) {
        log.truncate(len);
        return Err(failed);
    }
    Ok(())
}

// Cuts, and keeps the step.
pub fn cut_step(log: &mut Vec<Step>, content: &mut Vec<u8>, to: usize) -> Result<(), AllocError>
    ensures log { OnOk result (Joins log.old.items (CutTo to) log.new.items) }
    ensures content { OnOk result (content.new.items ≡ take to content.old.items) }
    ensures log_err { OnErr result (log.new.items ≡ log.old.items) }
    ensures content_err { OnErr result (content.new.items ≡ content.old.items) }
{
    push_step(log, Change::Cut { to })?;
    content.truncate(to);
    Ok(())
}

// Marks the last step as synced.
#[tactic(auto, using(crate::proofs::Marks::unmarked))]
pub fn mark(log: &mut Vec<Step>)
    ensures { Marked log.old.items log.new.items }
{
    let len = log.len();
    if len > 0 {
        log[len - 1].synced = true;
    }
}

// The content after the first steps that a choice keeps, behind those that were synced.
pub fn after_loss(
    alloc: Global,
    era: &[u8],
    log: &[Step],
    start: usize,
    kept: usize,
    choice: u64,
) -> Result<Vec<u8>, AllocError>
    requires begins { start ≤ length log.now }
    requires kept { kept ≤ length log.now - start }
    ensures { IfOk result (λ v. v.items ≡ replay (take (kept + choice) (changes (drop start log.now))) era.now) }
{
    let (_, since) = log.split_at(start);
    let more = (choice as usize).min(since.len() - kept);
    redone(alloc, era, since, kept + more)
}
