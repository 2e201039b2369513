ghost use Rattle.std.specs.Prelude.{◌≡◌, IfOk};

use share_model::NoMemory;
use share_session::PlanStep;
use std::alloc::Global;
use std::marker::Model;

/// A step of a plan that stands apart: it has two names in itself, for which an entry without a step needs no room. A
/// contract sees the step.
#[derive(Drop)]
pub struct KeptStep {
    step: Box<PlanStep>,
}

impl Model for KeptStep {
    ghost use Rattle.share_session.specs.declared.step.PlanStep.{PlanStep};

    ghost Value = { PlanStep };

    ghost view = { λ k. k.step.value };
}

impl KeptStep {
    /// The step, apart.
    pub fn new(alloc: Global, step: PlanStep) -> Result<KeptStep, NoMemory>
        ensures { IfOk result (λ kept. kept ≡ step) }
    {
        let step = Box::new(alloc, step)?;
        Ok(KeptStep { step })
    }

    /// The step, lent.
    pub fn step(&self) -> &PlanStep
        ensures { result.now ≡ self.now }
    {
        self.step.as_ref()
    }
}
