ghost use Rattle.std.specs.Prelude.{◌≡◌, []};

use flex_fields::Items;
use share_model::{AckList, Name};
use std::alloc::Global;

/// The member of a group that a request comes from.
#[derive(Clone, Copy)]
pub struct Caller {
    pub group: Name,
    pub member: Name,
}

/// What a visit does at a partition behind its acknowledgements.
#[derive(Clone, Copy)]
pub enum Purpose {
    /// Nothing.
    Nothing,
    /// It releases all that the member holds.
    Release,
    /// It acquires records.
    Fetch,
}

/// A visit to a hosted partition, by the number of its shard.
#[derive(Drop)]
pub struct PlanStep {
    pub shard: u32,
    pub group: Name,
    pub member: Name,
    pub purpose: Purpose,
    pub acks: AckList,
}

/// Visits in their order.
pub type VisitPlan = Vec<PlanStep>;

impl Caller {
    ghost use Rattle.share_session.specs.Plans.{visit, release};

    /// A visit of this member.
    pub fn visit(&self, shard: u32, purpose: Purpose, acks: AckList) -> PlanStep
        ensures { result ≡ visit self.now purpose acks shard }
    {
        PlanStep {
            shard,
            group: self.group,
            member: self.member,
            purpose,
            acks,
        }
    }

    /// A visit that releases what this member holds.
    pub fn release(&self, alloc: Global, shard: u32) -> PlanStep
        ensures { result ≡ release self.now shard }
    {
        self.visit(shard, Purpose::Release, no_acks(alloc))
    }
}

/// No acknowledgements. It takes no memory.
pub fn no_acks(alloc: Global) -> AckList
    ensures { result ≡ [] }
{
    AckList::new(Items::new(Vec::new(alloc)))
}
