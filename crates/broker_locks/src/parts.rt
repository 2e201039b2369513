// The parts of connections, done through the passes of one thread.
ghost use Rattle.std.specs.Prelude.{◌≡◌, ◌≢◌, ◌<◌, ◌≤◌, ◌^◌, All, IfOk, OnErr, Ok, length};
ghost use Rattle.std.specs.List.{AllZip};
ghost use Rattle.call_fold.specs.Parts.{IsAnswerTo, IsTellable};
ghost use Rattle.conn_core.specs.HostedShards.{IsHostedPart};
ghost use Rattle.shard_lock.specs.Passes.{IsOf};
ghost use Rattle.broker_shards.specs.Acts.{ActsMembers};
ghost use Rattle.broker_shards.specs.Histories.{IsToldOf};
ghost use Rattle.broker_locks.specs.Acting.{ActsByForeign, ActsByMembers, ActsByPart, ActsPlace, AreOf, DoesByPart};
ghost use Rattle.broker_locks.specs.Waiting.{LooksAt};
ghost use Rattle.broker_locks.specs.Acting.{DoesPart, FailsByPart, FailsPart, FitsAsk, StayOf};

use crate::shared::{Passes, Shared};
use broker_shards::{
    ForeignEvent, MembersAsk, MembersEvent, MembersTold, Moment, PartAsk, PartEvent, PartHost,
    PartTold,
};
use call_fold::{Part, PartAnswer};
use edge_io::Disk;
use msgs_group::{HeartbeatReply, HeartbeatRequest};
use shard_lock::{Pass, Shard, ShardLock};
use share_model::{ForeignAnswer, Name, NoMemory, Offer, Then};
use std::sync::Wait;

// One act through the pass at a place.
fn act_at<R: Wait, S: Shard>(
    rt: &R,
    locks: &Vec<ShardLock<S>>,
    passes: &mut Vec<Pass<S>>,
    place: usize,
    event: S::Event,
) -> S::Answer
    requires of { AllZip IsOf locks.now.items passes.old.items }
    requires there { place < length locks.now.items }
    ensures { ActsPlace S.acts locks.now.items place event result passes.old.items passes.new.items }
{
    locks[place].act(rt, &mut passes[place], event)
}

// The offer that was told.
fn told_offer(answer: Result<PartTold, NoMemory>) -> Offer
    requires told { (offer : _) × (answer ≡ Ok (PartTold.Offer offer)) }
    ensures { answer ≡ Ok (PartTold.Offer result) }
{
    let Ok(PartTold::Offer(offer)) = answer else {
        unreachable!()
    };
    offer
}

/// What a partition would give a group: one act of its pass, which leaves the partition as it was. One that isn't
/// hosted has nothing.
pub(crate) fn offer_at<R: Wait, D: Disk>(
    rt: &R,
    shared: &Shared<D>,
    parts: &mut Vec<Pass<PartHost<D>>>,
    shard: u32,
    group: Name,
) -> Offer
    requires of { AllZip IsOf shared.now.parts parts.old.items }
    ensures of { AllZip IsOf shared.now.parts parts.new.items }
    ensures looks { LooksAt D.seen shared.now group shard result parts.old.items parts.new.items }
{
    let event = PartEvent {
        now: Moment::new(0),
        ask: PartAsk::Offer(group),
    };
    if shard as usize >= shared.parts.len() {
        return Offer::Nothing;
    }
    told_offer(act_at(rt, &shared.parts, parts, shard as usize, event))
}

/// One act on a hosted partition.
pub fn act_on_part<R: Wait, D: Disk>(
    rt: &R,
    shared: &Shared<D>,
    passes: &mut Passes<D>,
    shard: u32,
    event: PartEvent,
) -> Result<PartTold, NoMemory>
    requires of { AreOf shared.now passes.old }
    requires there { shard < length shared.now.parts }
    ensures stay { StayOf shared.now passes.old passes.new }
    ensures acts { ActsByPart D.seen shared.now shard event result passes.old passes.new }
    ensures fits { IfOk result (IsToldOf event.ask) }
{
    match act_at(rt, &shared.parts, &mut passes.parts, shard as usize, event) {
        Ok(told) => return Ok(told),
        Err(fault) => return Err(fault),
    }
}

/// One act on the members of all groups.
pub fn act_on_members<R: Wait, D: Disk>(
    rt: &R,
    shared: &Shared<D>,
    passes: &mut Passes<D>,
    event: MembersEvent,
) -> Result<MembersTold, NoMemory>
    requires of { AreOf shared.now passes.old }
    ensures stay { StayOf shared.now passes.old passes.new }
    ensures acts { ActsByMembers shared.now event result passes.old passes.new }
    ensures fits { (old : _) × (new : _) × ActsMembers old event result new }
{
    match shared.members.act(rt, &mut passes.members, event) {
        Ok(told) => return Ok(told),
        Err(fault) => return Err(fault),
    }
}

// One act on foreign state.
fn act_on_foreign<R: Wait, D: Disk>(
    rt: &R,
    shared: &Shared<D>,
    passes: &mut Passes<D>,
    event: ForeignEvent,
) -> Result<ForeignAnswer, NoMemory>
    requires of { AreOf shared.now passes.old }
    ensures stay { StayOf shared.now passes.old passes.new }
    ensures acts { ActsByForeign D.seen shared.now event result passes.old passes.new }
    ensures fits { IfOk result (λ told. All IsTellable told.runs) }
{
    match shared.foreign.act(rt, &mut passes.foreign, event) {
        Ok(told) => return Ok(told),
        Err(fault) => return Err(fault),
    }
}

// Whether what is asked may make a record available to others.
fn may_free(ask: &PartAsk) -> bool {
    match ask {
        PartAsk::Visit(visit) => {
            !visit.acks.as_slice().is_empty() || !matches!(visit.then, Then::Fetch { .. })
        }
        PartAsk::Produce(_) | PartAsk::Delete(_) => true,
        PartAsk::Look(_) | PartAsk::Offer(_) | PartAsk::Expire => false,
    }
}

// What a hosted partition answers to a part. Whoever waits for the partition is woken by what may change it.
fn ask_part<R: Wait, D: Disk>(
    rt: &R,
    shared: &Shared<D>,
    passes: &mut Passes<D>,
    now: u64,
    shard: u32,
    ask: PartAsk,
) -> Result<PartAnswer, NoMemory>
    requires of { AreOf shared.now passes.old }
    requires early { now ≤ 2 ^ 62 }
    requires there { shard < length shared.now.parts }
    requires asked { ask ≢ PartAsk.Expire }
    requires for_good { (group : _) → ask ≢ PartAsk.Offer group }
    ensures stay { StayOf shared.now passes.old passes.new }
    ensures ok { IfOk result (λ answer.
        DoesByPart D.seen shared.now shard (record { now = now; ask = ask }) answer passes.old passes.new) }
    ensures err { OnErr result (FailsByPart D.seen shared.now shard (record { now = now; ask = ask }) passes.old passes.new) }
    ensures fits { IfOk result (FitsAsk ask) }
{
    let frees = may_free(&ask);
    let event = PartEvent {
        now: Moment::new(now),
        ask,
    };
    let told = act_on_part(rt, shared, passes, shard, event);
    if frees {
        shared.room.wake(rt, shard as usize);
    }
    match told {
        Ok(PartTold::Visit(told)) => return Ok(PartAnswer::Visit(told)),
        Ok(PartTold::Produce(told)) => return Ok(PartAnswer::Produce(told)),
        Ok(PartTold::Delete(told)) => return Ok(PartAnswer::Delete(told)),
        Ok(PartTold::Look(told)) => return Ok(PartAnswer::Look(told)),
        Ok(PartTold::Offer(_)) => unreachable!(),
        Ok(PartTold::Expire(_)) => unreachable!(),
        Err(fault) => return Err(fault),
    }
}

// What the members of all groups answer to a heartbeat.
fn heartbeat<R: Wait, D: Disk>(
    rt: &R,
    shared: &Shared<D>,
    passes: &mut Passes<D>,
    now: u64,
    request: HeartbeatRequest,
) -> Result<HeartbeatReply, NoMemory>
    requires of { AreOf shared.now passes.old }
    requires early { now ≤ 2 ^ 62 }
    ensures stay { StayOf shared.now passes.old passes.new }
    ensures ok { IfOk result (λ told.
        DoesPart D.seen shared.now (Part.Heartbeat request) now (PartAnswer.Heartbeat told) passes.old passes.new) }
    ensures err { OnErr result (FailsPart D.seen shared.now (Part.Heartbeat request) now passes.old passes.new) }
{
    let event = MembersEvent {
        now: Moment::new(now),
        ask: MembersAsk::Heartbeat(request),
    };
    match act_on_members(rt, shared, passes, event) {
        Ok(MembersTold::Heartbeat(reply)) => return Ok(reply),
        Ok(MembersTold::Ticked(_)) => unreachable!(),
        Err(fault) => return Err(fault),
    }
}

/// Does a part at this moment.
pub fn do_part<R: Wait, D: Disk>(
    rt: &R,
    shared: &Shared<D>,
    passes: &mut Passes<D>,
    now: u64,
    part: Part,
) -> Result<PartAnswer, NoMemory>
    requires of { AreOf shared.now passes.old }
    requires early { now ≤ 2 ^ 62 }
    requires hosted { IsHostedPart (length shared.now.parts) part }
    ensures stay { StayOf shared.now passes.old passes.new }
    ensures ok { IfOk result (λ answer. DoesPart D.seen shared.now part now answer passes.old passes.new) }
    ensures err { OnErr result (FailsPart D.seen shared.now part now passes.old passes.new) }
    ensures fits { IfOk result (IsAnswerTo part) }
{
    match part {
        Part::Foreign(op) => match act_on_foreign(rt, shared, passes, ForeignEvent { op }) {
            Ok(told) => return Ok(PartAnswer::Foreign(told)),
            Err(fault) => return Err(fault),
        },
        Part::Produce { shard, batch } => {
            return ask_part(rt, shared, passes, now, shard, PartAsk::Produce(batch));
        }
        Part::Delete { shard, to } => {
            return ask_part(rt, shared, passes, now, shard, PartAsk::Delete(to));
        }
        Part::Visit { shard, visit } => {
            return ask_part(rt, shared, passes, now, shard, PartAsk::Visit(visit));
        }
        Part::Look { shard, group } => {
            return ask_part(rt, shared, passes, now, shard, PartAsk::Look(group));
        }
        Part::Heartbeat(request) => match heartbeat(rt, shared, passes, now, request) {
            Ok(told) => return Ok(PartAnswer::Heartbeat(told)),
            Err(fault) => return Err(fault),
        },
    }
}
