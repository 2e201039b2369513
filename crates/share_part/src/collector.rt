// What a walk takes, as many slots of a batch at once as go out alike.
ghost use Rattle.std.specs.Prelude.{◌≡◌, ◌≤◌, ◌<◌, ◌^◌, ◌+◌, ◌-◌, ℕ, List, Option, IfOk, IfSome, OnOk, vec_len, true};
ghost use Rattle.share_model.specs.Logs.{Batch, IsSlot};
ghost use Rattle.part_log.specs.Logs.{IsStoredLog};
ghost use Rattle.share_part.specs.Collecting.{Collects, CoversSlot, GoOut, Goes, GoesOver, IsNewest, IsPlanOf, with_slots};
ghost use Rattle.share_part.specs.Slots.{batch_at};
ghost use Rattle.share_part.specs.Tables.{Table};
ghost use Rattle.share_part.specs.Walks.{Walk, begun, in_answer, joins, with_batch_of};

use crate::budget::Budget;
use crate::limits::Limits;
use crate::plan::Plan;
use edge_io::Disk;
use part_log::{BatchPlace, PartLog};
use share_model::{Grant, NoMemory};
use std::alloc::Global;

/// What a walk has taken: the grants that are closed and the one that may still grow, and the batches, of which the
/// newest is known by its place.
#[derive(Drop)]
pub struct Collector {
    pub budget: Budget,
    pub newest: Option<BatchPlace>,
    pub grants: Vec<Grant>,
    pub growing: Option<Grant>,
    pub numbers: Vec<u64>,
}

// Whether the newest batch of the answer covers a slot.
fn is_in_answer(newest: Option<BatchPlace>, slot: u64) -> bool
    ensures value { (b : Option Batch) → IsNewest newest b → result ≡ in_answer b slot }
    ensures there { result ≡ true → CoversSlot slot newest }
{
    match newest {
        Some(place) => place.base <= slot && slot <= place.last,
        None => false,
    }
}

// Whether a grant goes on with this slot and this count.
fn goes_on(grant: Grant, slot: u64, count: u16) -> bool
    ensures { (last : ℕ) → result ≡ joins grant (record { first = slot; last = last; count = count }) }
{
    slot > grant.last && slot - grant.last == 1 && count == grant.count
}

impl Collector {
    /// Nothing is taken. It takes no memory.
    pub fn new(alloc: Global, limits: Limits) -> Collector
        ensures begins { (log : List Batch) → Collects log result (begun limits) }
        ensures grants { vec_len result.grants ≡ 0 }
    {
        Collector {
            budget: Budget::new(limits),
            newest: None,
            grants: Vec::new(alloc),
            growing: None,
            numbers: Vec::new(alloc),
        }
    }

    // Makes the batch of a slot one of the answer's. False where it can't be.
    fn include<D: Disk>(&mut self, log: &PartLog<D>, slot: u64) -> Result<bool, NoMemory>
        requires sound { IsStoredLog log.now.batches }
        requires above { log.now.start ≤ slot }
        requires slot { IsSlot log.now.batches slot }
        ensures goes { IfOk result (λ on. (walk : Walk) → Collects log.now.batches self.old walk →
            Goes log.now.batches self.new walk on (with_batch_of walk slot (batch_at log.now.batches slot))) }
        ensures records { OnOk result (self.new.budget.records ≡ self.old.budget.records) }
        ensures grants { OnOk result (vec_len self.new.grants ≡ vec_len self.old.grants) }
        ensures there { IfOk result (λ on. on ≡ true → CoversSlot slot self.new.newest) }
    {
        if is_in_answer(self.newest, slot) {
            return Ok(true);
        }
        let Some(place) = log.batch_of(slot) else {
            unreachable!()
        };
        let Some(budget) = self.budget.with_batch(place.size) else {
            return Ok(false);
        };
        self.numbers.push(place.number)?;
        self.newest = Some(place);
        self.budget = budget;
        Ok(true)
    }

    // Takes the slots from one to another with this delivery count; their batch is one of the answer's.
    fn add(&mut self, slot: u64, last: u64, count: u16) -> Result<(), NoMemory>
        requires order { slot ≤ last }
        requires records { (last + 1) - slot ≤ self.old.budget.records }
        requires count { count ≤ 10 }
        ensures takes { OnOk result ((log : List Batch) (walk : Walk) → last < 2 ^ 62 →
            Collects log self.old walk → Collects log self.new (with_slots slot ((last + 1) - slot) count walk)) }
        ensures grants { OnOk result (vec_len self.new.grants ≤ vec_len self.old.grants + 1) }
    {
        self.budget = self.budget.with_records((last - slot) as u32 + 1);
        let grant = Grant {
            first: slot,
            last,
            count,
        };
        let Some(before) = self.growing else {
            self.growing = Some(grant);
            return Ok(());
        };
        if goes_on(before, slot, count) {
            self.growing = Some(Grant {
                first: before.first,
                last,
                count,
            });
            return Ok(());
        }
        self.grants.push(before)?;
        self.growing = Some(grant);
        Ok(())
    }

    // The last slot that can be taken with one whose batch is the newest of the answer: of that batch, up to `last`,
    // within the records that are left, and among so many slots.
    fn last_taken(&self, slot: u64, last: u64, most: u32) -> u64
        requires there { CoversSlot slot self.now.newest }
        requires order { slot ≤ last }
        requires records { 1 ≤ self.now.budget.records }
        requires most { 1 ≤ most }
        ensures order { slot ≤ result }
        ensures upto { result ≤ last }
        ensures covered { (offset : ℕ) → slot ≤ offset → offset ≤ result → CoversSlot offset self.now.newest }
        ensures records { (result + 1) - slot ≤ self.now.budget.records }
        ensures most { (result + 1) - slot ≤ most }
    {
        let Some(place) = self.newest else {
            unreachable!()
        };
        let more = u64::from(self.budget.records.min(most) - 1);
        slot.saturating_add(more).min(last).min(place.last)
    }

    /// Takes slots from one on up to `last`, which go out with this delivery count: as many of them as lie in its
    /// batch and within the limits, and at most so many. Tells how many. `None` where the walk ends at the first, and
    /// then nothing is taken.
    pub fn take<D: Disk>(
        &mut self,
        log: &PartLog<D>,
        slot: u64,
        last: u64,
        count: u16,
        most: u32,
    ) -> Result<Option<u32>, NoMemory>
        requires sound { IsStoredLog log.now.batches }
        requires above { log.now.start ≤ slot }
        requires slot { IsSlot log.now.batches slot }
        requires order { slot ≤ last }
        requires count { count ≤ 10 }
        requires most { 1 ≤ most }
        ensures goes { IfOk result (λ on. (table : Table) (walk : Walk) → GoOut table slot last count → Collects log.now.batches self.old walk →
            GoesOver log.now.batches table self.new walk slot on) }
        ensures most { IfOk result (λ on. IfSome on (λ n. n ≤ most)) }
        ensures grants { OnOk result (vec_len self.new.grants ≤ vec_len self.old.grants + 1) }
    {
        if self.budget.records == 0 {
            return Ok(None);
        }
        if !self.include(log, slot)? {
            return Ok(None);
        }
        let to = self.last_taken(slot, last, most);
        self.add(slot, to, count)?;
        Ok(Some((to - slot) as u32 + 1))
    }

    /// What is taken, as a plan.
    pub fn finish(self) -> Result<Plan, NoMemory>
        ensures is { IfOk result (λ plan. (log : List Batch) (walk : Walk) → Collects log self walk → IsPlanOf log plan walk) }
        ensures grants { IfOk result (λ plan. vec_len plan.grants ≤ vec_len self.grants + 1) }
    {
        let Collector {
            budget,
            mut grants,
            growing,
            numbers,
            ..
        } = self;
        if let Some(grant) = growing {
            grants.push(grant)?;
        }
        Ok(Plan {
            grants,
            numbers,
            count: budget.count,
            size: budget.size,
        })
    }
}
