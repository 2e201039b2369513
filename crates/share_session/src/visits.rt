// Lists of visits.
ghost use Rattle.std.specs.Prelude.{◌≡◌, ◌++◌, ℕ, nat_eq, false, map, IfOk, OnOk, if◌then◌else◌};
ghost use Rattle.std.specs.List.{IsDistinct};
ghost use Rattle.share_session.specs.declared.step.Purpose.TheVariants.{Nothing, Fetch};
ghost use Rattle.share_session.specs.Requests.{acks_for, has};
ghost use Rattle.share_session.specs.Plans.{visit, release, shards_of, without_shards, turned, fetch_visit, fetch_visits};

use crate::step::{Caller, Purpose, VisitPlan, no_acks};
use indexmap::{IndexMap, IndexSet};
use share_model::{AckList, NoMemory};
use std::alloc::Global;

/// The visits of one purpose to all of these partitions, with their acknowledgements.
pub fn visits_of(
    alloc: Global,
    caller: &Caller,
    purpose: Purpose,
    wanted: IndexMap<u32, AckList>,
) -> Result<VisitPlan, NoMemory>
    ensures { IfOk result (λ plan. plan.items ≡ map (λ w. visit caller.now purpose w.1 w.0) wanted.entries) }
{
    let mut plan = Vec::with_capacity(alloc, wanted.len())?;
    for (shard, acks) in wanted {
        plan.push(caller.visit(shard, purpose, acks))?;
    }
    Ok(plan)
}

/// More visits behind those of the list.
pub fn append(list: &mut VisitPlan, mut more: VisitPlan) -> Result<(), NoMemory>
    ensures { OnOk result (list.new.items ≡ list.old.items ++ more.items) }
{
    list.append(&mut more)?;
    Ok(())
}

/// The releases on these partitions.
pub fn releases(alloc: Global, caller: &Caller, shards: &[u32]) -> Result<VisitPlan, NoMemory>
    ensures { IfOk result (λ plan. plan.items ≡ map (release caller.now) shards.now) }
{
    let mut plan = Vec::with_capacity(alloc, shards.len())?;
    for shard in shards {
        plan.push(caller.release(alloc, *shard))?;
    }
    Ok(plan)
}

// Whether the request names the partition of this shard.
fn is_wanted(wanted: &IndexMap<u32, AckList>, shard: u32) -> bool
    ensures { result ≡ has (shards_of wanted.now.entries) shard }
{
    wanted.contains_key(&shard)
}

/// The releases on those of these partitions that the request doesn't name.
pub fn other_releases(
    alloc: Global,
    caller: &Caller,
    shards: &[u32],
    wanted: &IndexMap<u32, AckList>,
) -> Result<VisitPlan, NoMemory>
    ensures { IfOk result (λ plan. plan.items ≡ map (release caller.now) (without_shards (shards_of wanted.now.entries) shards.now)) }
{
    let mut plan = Vec::with_capacity(alloc, shards.len())?;
    for shard in shards {
        if !is_wanted(wanted, *shard) {
            plan.push(caller.release(alloc, *shard))?;
        }
    }
    Ok(plan)
}

// Takes the acknowledgements for the partition of this shard.
fn take_acks(alloc: Global, wanted: &mut IndexMap<u32, AckList>, shard: u32) -> AckList
    ensures taken { result ≡ acks_for wanted.old.entries shard }
    ensures others { (other : ℕ) → nat_eq shard other ≡ false → acks_for wanted.new.entries other ≡ acks_for wanted.old.entries other }
{
    match wanted.swap_remove(&shard) {
        Some(acks) => acks,
        None => no_acks(alloc),
    }
}

// What a fetch does at the partition of this shard.
fn fetch_purpose(forgotten: &IndexSet<u32>, shard: u32) -> Purpose
    ensures { result ≡ (if has forgotten.now.keys shard then Nothing else Fetch) }
{
    if forgotten.contains(&shard) {
        Purpose::Nothing
    } else {
        Purpose::Fetch
    }
}

// The visits begin at the place that the epoch tells.
fn turn(plan: &mut VisitPlan, epoch: i32)
    ensures { plan.new.items ≡ turned epoch plan.old.items }
{
    if !plan.is_empty() {
        let place = epoch.unsigned_abs() as usize % plan.len();
        plan.rotate_left(place);
    }
}

/// The visits of a fetch to these partitions, of which none stands twice.
pub fn fetch_visits(
    alloc: Global,
    caller: &Caller,
    epoch: i32,
    wanted: IndexMap<u32, AckList>,
    forgotten: &IndexSet<u32>,
    list: &[u32],
) -> Result<VisitPlan, NoMemory>
    requires { IsDistinct nat_eq list.now }
    ensures { IfOk result (λ plan. plan.items ≡ fetch_visits caller.now epoch wanted.entries forgotten.now.keys list.now) }
{
    let mut wanted = wanted;
    let mut plan = Vec::with_capacity(alloc, list.len())?;
    for shard in list {
        let acks = take_acks(alloc, &mut wanted, *shard);
        plan.push(caller.visit(*shard, fetch_purpose(forgotten, *shard), acks))?;
    }
    turn(&mut plan, epoch);
    Ok(plan)
}
