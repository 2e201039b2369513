// The shard of a hosted partition behind a lock.
ghost use Rattle.std.specs.Prelude.{◌≤◌, ◌^◌};
ghost use Rattle.broker_shards.specs.Acts.{ActsOnPart, GoesOnPart, LeavesUnused};
ghost use Rattle.broker_shards.specs.Crashes.{FoundWithin};
ghost use Rattle.broker_shards.specs.Hosts.{holding};

use crate::told::{looked, produced};
use call_fold::{Looked, Produced};
use edge_io::Disk;
use shard_lock::Shard;
use share_model::{
    Blob, DeleteAnswer, ExpireAnswer, Moment, Name, NoMemory, Offer, Visit, VisitAnswer,
};
use share_part::{PartConf, PartShard};
use std::alloc::Global;
use std::marker::Model;
use window_runs::WindowRuns;

/// The window in which a partition keeps what each group holds.
pub type PartWindow = WindowRuns;

/// What is asked of a hosted partition.
#[derive(Drop)]
pub enum PartAsk {
    /// A member's acknowledgements, and what follows them.
    Visit(Visit),
    /// A record batch for the log, as a producer sends it.
    Produce(Blob),
    /// The records below an offset are to be deleted, -1 standing for the log's end.
    Delete(i64),
    /// The stored state of a group.
    Look(Name),
    /// What a fetch of a group would find now. Its moment is 0.
    Offer(Name),
    /// All records whose acquisition lock has ended are to be given back.
    Expire,
}

/// An event on a hosted partition.
#[derive(Drop)]
pub struct PartEvent {
    pub now: Moment,
    pub ask: PartAsk,
}

/// What a hosted partition tells of what it was asked.
#[derive(Drop)]
pub enum PartTold {
    Visit(VisitAnswer),
    Produce(Produced),
    Delete(DeleteAnswer),
    Look(Looked),
    Offer(Offer),
    Expire(ExpireAnswer),
}

/// A hosted partition: the name of its topic, what its shard is configured with, and the shard.
#[derive(Drop)]
pub struct PartHost<D: Disk> {
    pub topic: Name,
    pub conf: PartConf,
    pub part: PartShard<D, PartWindow>,
    pub alloc: Global,
}

impl<D: Disk> Model for PartHost<D> {
    ghost use Rattle.broker_shards.specs.Hosts.{Host};

    ghost Value = { Host D };

    ghost view = { λ h. record { topic = h.topic; conf = h.conf; part = h.part } };
}

fn visit<D: Disk>(
    now: u64,
    visit: &Visit,
    part: &mut PartShard<D, PartWindow>,
) -> Result<PartTold, NoMemory>
    requires { now ≤ 2 ^ 62 }
    ensures acts { ActsOnPart D.seen holding now (PartAsk.Visit visit.now) part.old result part.new }
    ensures goes_on { GoesOnPart D.seen holding part.old part.new }
    ensures within { FoundWithin D.seen holding now (PartAsk.Visit visit.now) part.old part.new }
    ensures unused { LeavesUnused (PartAsk.Visit visit.now) part.old part.new }
{
    match part.visit(now, visit) {
        Ok(answer) => return Ok(PartTold::Visit(answer)),
        Err(fault) => return Err(fault),
    }
}

fn produce<D: Disk>(
    now: u64,
    batch: &[u8],
    part: &mut PartShard<D, PartWindow>,
) -> Result<PartTold, NoMemory>
    requires { now ≤ 2 ^ 62 }
    ensures acts { ActsOnPart D.seen holding now (PartAsk.Produce batch.now) part.old result part.new }
    ensures goes_on { GoesOnPart D.seen holding part.old part.new }
    ensures within { FoundWithin D.seen holding now (PartAsk.Produce batch.now) part.old part.new }
    ensures unused { LeavesUnused (PartAsk.Produce batch.now) part.old part.new }
{
    let added = part.produce(now, batch);
    match produced(added) {
        Ok(told) => return Ok(PartTold::Produce(told)),
        Err(fault) => return Err(fault),
    }
}

fn delete<D: Disk>(
    now: u64,
    to: i64,
    part: &mut PartShard<D, PartWindow>,
) -> Result<PartTold, NoMemory>
    requires { now ≤ 2 ^ 62 }
    ensures acts { ActsOnPart D.seen holding now (PartAsk.Delete to) part.old result part.new }
    ensures goes_on { GoesOnPart D.seen holding part.old part.new }
    ensures within { FoundWithin D.seen holding now (PartAsk.Delete to) part.old part.new }
    ensures unused { LeavesUnused (PartAsk.Delete to) part.old part.new }
{
    Ok(PartTold::Delete(part.delete(now, to)))
}

fn look<D: Disk>(
    alloc: Global,
    group: &Name,
    part: &PartShard<D, PartWindow>,
) -> Result<PartTold, NoMemory>
    ensures acts { (now : _) → ActsOnPart D.seen holding now (PartAsk.Look group.now) part.now result part.now }
    ensures within { (now : _) → FoundWithin D.seen holding now (PartAsk.Look group.now) part.now part.now }
{
    match looked(alloc, group, part) {
        Ok(told) => return Ok(PartTold::Look(told)),
        Err(fault) => return Err(fault),
    }
}

fn offer<D: Disk>(group: &Name, part: &PartShard<D, PartWindow>) -> Result<PartTold, NoMemory>
    ensures acts { (now : _) → ActsOnPart D.seen holding now (PartAsk.Offer group.now) part.now result part.now }
    ensures within { (now : _) → FoundWithin D.seen holding now (PartAsk.Offer group.now) part.now part.now }
{
    Ok(PartTold::Offer(part.offer(group)))
}

fn expire<D: Disk>(now: u64, part: &mut PartShard<D, PartWindow>) -> Result<PartTold, NoMemory>
    requires { now ≤ 2 ^ 62 }
    ensures acts { ActsOnPart D.seen holding now PartAsk.Expire part.old result part.new }
    ensures goes_on { GoesOnPart D.seen holding part.old part.new }
    ensures within { FoundWithin D.seen holding now PartAsk.Expire part.old part.new }
    ensures unused { LeavesUnused PartAsk.Expire part.old part.new }
{
    match part.expire(now) {
        Ok(answer) => return Ok(PartTold::Expire(answer)),
        Err(fault) => return Err(fault),
    }
}

/// Does what is asked of the shard of a hosted partition, at this moment.
pub fn act_on_part<D: Disk>(
    alloc: Global,
    now: u64,
    ask: &PartAsk,
    part: &mut PartShard<D, PartWindow>,
) -> Result<PartTold, NoMemory>
    requires { now ≤ 2 ^ 62 }
    ensures acts { ActsOnPart D.seen holding now ask.now part.old result part.new }
    ensures goes_on { GoesOnPart D.seen holding part.old part.new }
    ensures within { FoundWithin D.seen holding now ask.now part.old part.new }
    ensures unused { LeavesUnused ask.now part.old part.new }
{
    match ask {
        PartAsk::Visit(asked) => visit(now, asked, part),
        PartAsk::Produce(batch) => produce(now, batch.as_slice(), part),
        PartAsk::Delete(to) => delete(now, *to, part),
        PartAsk::Look(group) => look(alloc, group, &*part),
        PartAsk::Offer(group) => offer(group, &*part),
        PartAsk::Expire => expire(now, part),
    }
}

impl<D: Disk> Shard for PartHost<D> {
    type Event = PartEvent;

    type Answer = Result<PartTold, NoMemory>;

    ghost use Rattle.broker_shards.specs.Acts.{ActsPart};

    ghost acts = { ActsPart D.seen };

    fn act(&mut self, event: &PartEvent) -> Result<PartTold, NoMemory> {
        act_on_part(self.alloc, event.now.ms(), &event.ask, &mut self.part)
    }
}
