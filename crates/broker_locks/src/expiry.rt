// Turns in which acquisition locks and sessions of members expire.
ghost use Rattle.std.specs.Prelude.{◌≡◌, ◌<◌, ◌≤◌, ◌+◌, ◌^◌, length};
ghost use Rattle.edge_io.specs.Names.{most_partitions};
ghost use Rattle.broker_locks.specs.Acting.{ActsByMembers, ActsByPart, AreOf, HostsAll, StayOf};
ghost use Rattle.broker_locks.specs.Expiring.{Expires, IsTurn, expiry_told, starved, stored_not, tick_told};

use crate::parts::{act_on_members, act_on_part};
use crate::shared::{Passes, Shared};
use broker_shards::{MembersAsk, MembersEvent, MembersTold, Moment, PartAsk, PartEvent, PartTold};
use edge_io::{Clock, Disk};
use share_model::{ExpireAnswer, NoMemory};
use std::sync::Wait;

/// What a turn came to.
#[derive(Clone, Copy)]
pub struct TurnAnswer {
    /// How many of its acts gave records back that couldn't be stored.
    pub faults: u32,
    /// How many of its acts found no memory.
    pub no_memory: u32,
}

// Whether records were given back.
fn has_freed(answer: &ExpireAnswer) -> bool {
    match answer {
        ExpireAnswer::Done { freed } => *freed > 0,
        ExpireAnswer::Store { freed, .. } => *freed > 0,
    }
}

// Expires one partition.
fn expire_part<R: Wait, D: Disk>(
    rt: &R,
    shared: &Shared<D>,
    passes: &mut Passes<D>,
    now: u64,
    shard: u32,
) -> Result<ExpireAnswer, NoMemory>
    requires of { AreOf shared.now passes.old }
    requires early { now ≤ 2 ^ 62 }
    requires there { shard < length shared.now.parts }
    ensures stay { StayOf shared.now passes.old passes.new }
    ensures acts { ActsByPart D.seen shared.now shard (record { now = now; ask = PartAsk.Expire })
        (expiry_told result) passes.old passes.new }
{
    let event = PartEvent {
        now: Moment::new(now),
        ask: PartAsk::Expire,
    };
    let told = match act_on_part(rt, shared, passes, shard, event) {
        Ok(told) => told,
        Err(fault) => return Err(fault),
    };
    let PartTold::Expire(answer) = told else {
        unreachable!()
    };
    if has_freed(&answer) {
        shared.room.wake(rt, shard as usize);
    }
    Ok(answer)
}

// Removes the members whose session has ended: how many there were.
fn tick<R: Wait, D: Disk>(
    rt: &R,
    shared: &Shared<D>,
    passes: &mut Passes<D>,
    now: u64,
) -> Result<u64, NoMemory>
    requires of { AreOf shared.now passes.old }
    requires early { now ≤ 2 ^ 62 }
    ensures stay { StayOf shared.now passes.old passes.new }
    ensures acts { ActsByMembers shared.now (record { now = now; ask = MembersAsk.Tick })
        (tick_told result) passes.old passes.new }
{
    let event = MembersEvent {
        now: Moment::new(now),
        ask: MembersAsk::Tick,
    };
    match act_on_members(rt, shared, passes, event) {
        Ok(MembersTold::Ticked(count)) => return Ok(count),
        Ok(MembersTold::Heartbeat(_)) => unreachable!(),
        Err(fault) => return Err(fault),
    }
}

// Counts what an expiry answered.
fn counted(so_far: TurnAnswer, answer: &Result<ExpireAnswer, NoMemory>) -> TurnAnswer
    requires faults { so_far.faults < 2 ^ 31 }
    requires no_memory { so_far.no_memory < 2 ^ 31 }
    ensures faults { result.faults ≡ so_far.faults + stored_not answer.now }
    ensures no_memory { result.no_memory ≡ so_far.no_memory + starved answer.now }
{
    match answer {
        Ok(ExpireAnswer::Done { .. }) => so_far,
        Ok(ExpireAnswer::Store { .. }) => TurnAnswer {
            faults: so_far.faults + 1,
            no_memory: so_far.no_memory,
        },
        Err(NoMemory) => TurnAnswer {
            faults: so_far.faults,
            no_memory: so_far.no_memory + 1,
        },
    }
}

// How many partitions are hosted.
fn hosted_partitions<D: Disk>(shared: &Shared<D>) -> u32
    requires { HostsAll shared.now.conf shared.now }
    ensures count { result ≡ length shared.now.parts }
    ensures few { result ≤ most_partitions }
{
    let _topics = shared.conf.topics();
    shared.parts.len() as u32
}

// Expires each hosted partition once. One that finds no memory doesn't keep the next ones from it.
fn expire_parts<R: Wait, D: Disk, C: Clock>(
    rt: &R,
    shared: &Shared<D>,
    passes: &mut Passes<D>,
    clock: &mut C,
) -> TurnAnswer
    requires of { AreOf shared.now passes.old }
    requires hosts { HostsAll shared.now.conf shared.now }
    ensures stay { StayOf shared.now passes.old passes.new }
    ensures expired { Expires D.seen shared.now (length shared.now.parts) result
        passes.old passes.new (C.told clock.old) (C.told clock.new) }
    ensures few { (result.faults ≤ most_partitions) × (result.no_memory ≤ most_partitions) }
{
    let mut answer = TurnAnswer {
        faults: 0,
        no_memory: 0,
    };
    for shard in 0..hosted_partitions(shared) {
        let now = clock.now_ms();
        let told = expire_part(rt, shared, passes, now, shard);
        answer = counted(answer, &told);
    }
    answer
}

/// Expires each hosted partition once and ticks the members once, each at a moment of its own. An act that finds no
/// memory leaves the others as they are, and is counted. Those that wait for a moment up to the last one are woken, and
/// those that look at their peers.
pub fn expiry_turn<R: Wait, D: Disk, C: Clock>(
    rt: &R,
    broker: &Shared<D>,
    passes: &mut Passes<D>,
    clock: &mut C,
) -> TurnAnswer
    requires of { AreOf broker.now passes.old }
    requires hosts { HostsAll broker.now.conf broker.now }
    ensures stay { StayOf broker.now passes.old passes.new }
    ensures turn { IsTurn D.seen broker.now result passes.old passes.new (C.told clock.old) (C.told clock.new) }
{
    let TurnAnswer { faults, no_memory } = expire_parts(rt, broker, passes, clock);
    let now = clock.now_ms();
    broker.room.wake_turn(rt, now);
    match tick(rt, broker, passes, now) {
        Ok(_) => TurnAnswer { faults, no_memory },
        Err(NoMemory) => TurnAnswer {
            faults,
            no_memory: no_memory + 1,
        },
    }
}
