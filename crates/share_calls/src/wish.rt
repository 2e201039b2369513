// For what a fetch waits before its first visit.
ghost use Rattle.std.specs.Prelude.{◌≡◌, map, filter, find, IfOk};
ghost use Rattle.std.specs.Option.{option_copied};
ghost use Rattle.share_session.specs.Plans.{shard_of};
ghost use Rattle.share_calls.specs.Wishes.{acquires, may_wait, wish_of};

use msgs_share::ShareFetchRequest;
use share_model::{Name, NoMemory};
use share_session::{PlanStep, Purpose, has_batches};
use std::alloc::Global;
use std::marker::Model;

const LONGEST_WAIT: u32 = 60_000;

/// Numbers of shards. A contract sees them as a list.
#[derive(Drop)]
pub struct ShardList {
    shards: Vec<u32>,
}

impl Model for ShardList {
    ghost use Rattle.std.specs.Prelude.{List, ℕ};

    ghost Value = { List ℕ };

    ghost view = { λ l. l.shards.items };
}

impl ShardList {
    /// The numbers.
    pub fn as_slice(&self) -> &[u32]
        ensures { result.now ≡ self.now }
    {
        &self.shards
    }
}

/// What a fetch waits for: a record for its group on one of these shards, for so many milliseconds at most.
#[derive(Drop)]
pub struct WaitWish {
    pub group: Name,
    /// Those of its visits that acquire, in their order.
    pub shards: ShardList,
    pub wait_ms: u32,
}

fn acquires(step: &PlanStep) -> bool
    ensures { result ≡ acquires step.now }
{
    match step.purpose {
        Purpose::Fetch => true,
        Purpose::Nothing | Purpose::Release => false,
    }
}

// The first visit that acquires.
fn first_acquiring(steps: &[PlanStep]) -> Option<&PlanStep>
    ensures { option_copied result ≡ find acquires steps.now }
{
    steps.iter().find(|step| acquires(step))
}

// The shards of the visits that acquire.
fn acquiring(alloc: Global, steps: &[PlanStep]) -> Result<ShardList, NoMemory>
    ensures { IfOk result (λ shards. shards ≡ map shard_of (filter acquires steps.now)) }
{
    let mut shards = Vec::with_capacity(alloc, steps.len())?;
    for step in steps {
        if acquires(step) {
            shards.push(step.shard)?;
        }
    }
    Ok(ShardList { shards })
}

// Whether the request lets its fetch wait.
fn may_wait(request: &ShareFetchRequest) -> bool
    ensures { result ≡ may_wait request.now }
{
    !has_batches(request.topics.as_slice())
        && request.max_wait_ms > 0
        && request.min_bytes > 0
        && request.max_records > 0
}

/// What a fetch that isn't refused waits for, if it waits, by the visits that its reply tells.
pub fn wish_of(
    alloc: Global,
    request: &ShareFetchRequest,
    steps: &[PlanStep],
) -> Result<Option<WaitWish>, NoMemory>
    ensures { IfOk result (λ wish. wish ≡ wish_of request.now steps.now) }
{
    if !may_wait(request) {
        return Ok(None);
    }
    let Some(first) = first_acquiring(steps) else {
        return Ok(None);
    };
    Ok(Some(WaitWish {
        group: first.group,
        shards: acquiring(alloc, steps)?,
        wait_ms: request.max_wait_ms.unsigned_abs().min(LONGEST_WAIT),
    }))
}
