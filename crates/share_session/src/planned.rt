ghost use Rattle.std.specs.Prelude.{◌≡◌, IfOk};

use crate::change::SessionChange;
use crate::step::VisitPlan;
use crate::visits::append;
use share_model::NoMemory;

/// What a share request asks for: its steps, in the order of the three lists, and what becomes of the session.
#[derive(Drop)]
pub struct Planned {
    /// The releases of the list that the session had before it starts anew. The reply doesn't tell them.
    pub released: VisitPlan,
    /// The steps that the reply tells, one for each of its entries of hosted partitions.
    pub told: VisitPlan,
    /// The releases of the other partitions of a session that is closed. The reply doesn't tell them.
    pub closed: VisitPlan,
    pub change: SessionChange,
}

impl Planned {
    ghost use Rattle.share_session.specs.Plans.{plan_of, steps_of};

    /// The steps in one list, and what becomes of the session.
    pub fn into_parts(self) -> Result<(VisitPlan, SessionChange), NoMemory>
        ensures steps { IfOk result (λ r. r.0.items ≡ steps_of (plan_of self)) }
        ensures change { IfOk result (λ r. r.1 ≡ self.change) }
    {
        let Planned {
            released,
            told,
            closed,
            change,
        } = self;
        let mut steps = released;
        append(&mut steps, told)?;
        append(&mut steps, closed)?;
        Ok((steps, change))
    }
}
