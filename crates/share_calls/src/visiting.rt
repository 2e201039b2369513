ghost use Rattle.std.specs.Prelude.{◌≡◌, ◌++◌, map, IfOk, OnOk};
ghost use Rattle.share_calls.specs.Visits.{visit_of, untold, told_rows};

use crate::kept_step::KeptStep;
use crate::partition::PartitionId;
use call_fold::Entry;
use share_model::{NoMemory, Then, Visit};
use share_session::{PlanStep, VisitPlan};
use std::alloc::Global;
use std::collections::VecDeque;

/// A visit that is asked, and the partition by which the reply tells it; a release of the partitions that a session
/// had isn't told.
#[derive(Drop)]
pub struct Visiting {
    pub step: KeptStep,
    pub told: Option<PartitionId>,
}

/// The visit of a step, with what follows its acknowledgements.
pub fn visit_of(alloc: Global, step: &PlanStep, then: Then) -> Result<Visit, NoMemory>
    ensures { IfOk result (λ visit. visit ≡ visit_of step.now then) }
{
    Ok(Visit {
        group: step.group,
        member: step.member,
        acks: step.acks.copied(alloc)?,
        then,
    })
}

/// Steps are put behind what is left; none of them is told.
pub fn push_untold<R: Drop>(
    alloc: Global,
    steps: VisitPlan,
    left: &mut VecDeque<Entry<Visiting, Option<R>>>,
) -> Result<(), NoMemory>
    ensures { OnOk result (left.new.items ≡ left.old.items ++ map untold steps.items) }
{
    for step in steps {
        let step = KeptStep::new(alloc, step)?;
        left.push_back(Entry::Ask(Visiting { step, told: None }))?;
    }
    Ok(())
}

/// The rows that are told.
pub fn told_rows<R: Drop>(alloc: Global, rows: VecDeque<Option<R>>) -> Result<VecDeque<R>, NoMemory>
    ensures { IfOk result (λ told. told.items ≡ told_rows rows.items) }
{
    let mut told = VecDeque::with_capacity(alloc, rows.len())?;
    for row in rows {
        if let Some(row) = row {
            told.push_back(row)?;
        }
    }
    Ok(told)
}
