// Acts of the shard in one of the slots of hosted partitions, by its number.
ghost use Rattle.std.specs.Prelude.{◌≡◌, ◌≢◌, ◌⊎◌, ◌<◌, ◌≤◌, ◌^◌, IfOk, OnErr, OnOk, length};
ghost use Rattle.broker_model.specs.Hosted.{ChangesAt};
ghost use Rattle.broker_model.specs.Shards.{PartCall};
ghost use Rattle.broker_shards.specs.Acts.{asked_by};
ghost use Rattle.broker_shards.specs.Acts.PartDeed.{Calls};
ghost use Rattle.broker_shards.specs.Histories.{IsToldOf};
ghost use Rattle.broker_core.specs.PartCalls.{IsCall};
ghost use Rattle.broker_hosts.specs.Hosts.{AreApart, AreOpen, AreOpenParts, IsOpenState};
ghost use Rattle.broker_core.specs.Calls.{DidPart, HaltsBy, HaltsSlot};
ghost use Rattle.broker_core.specs.Calls.{LeadsBy, LeadsSlot, StaysOpen};
ghost use Rattle.broker_hosts.specs.Hosts.{parts_of};

use broker_hosts::{Hosts, PartSlot, PartState};
use broker_shards::{PartAsk, PartTold, act_on_part};
use edge_io::Disk;
use share_model::NoMemory;
use std::alloc::Global;

// Does what is asked of the shard in a slot. Where a disk has found no memory, it answers want of memory.
fn act_in<D: Disk>(
    alloc: Global,
    now: u64,
    ask: &PartAsk,
    slot: &mut PartSlot<D>,
) -> Result<PartTold, NoMemory>
    requires now { now ≤ 2 ^ 62 }
    requires call { (group : _) → ask.now ≢ PartAsk.Offer group }
    requires open { IsOpenState slot.old.state }
    ensures ok { IfOk result (λ told. (did : PartCall) × IsCall ask.now told did
        × LeadsSlot D.seen now did slot.old slot.new) }
    ensures stopped { OnErr result (HaltsSlot D.seen now
        (λ did. ask.now ≡ asked_by (Calls did)) slot.old slot.new) }
{
    match &mut slot.state {
        PartState::Open(part) => {
            let told = act_on_part(alloc, now, ask, part)?;
            if part.starved() {
                return Err(NoMemory);
            }
            Ok(told)
        }
        _ => unreachable!(),
    }
}

fn act_among<D: Disk>(
    alloc: Global,
    now: u64,
    shard: u32,
    ask: &PartAsk,
    parts: &mut Vec<PartSlot<D>>,
) -> Result<PartTold, NoMemory>
    requires now { now ≤ 2 ^ 62 }
    requires call { (group : _) → ask.now ≢ PartAsk.Offer group }
    requires open { AreOpenParts parts.old.items }
    ensures ok { IfOk result (λ told. (did : PartCall) × IsCall ask.now told did
        × ChangesAt shard (LeadsSlot D.seen now did) parts.old.items parts.new.items) }
    ensures stopped { OnErr result ((parts.new.items ≡ parts.old.items) ⊎ ChangesAt shard (HaltsSlot D.seen now
        (λ did. ask.now ≡ asked_by (Calls did))) parts.old.items parts.new.items) }
{
    // Each shard that is asked is there.
    let Some(slot) = parts.get_mut(shard as usize) else {
        return Err(NoMemory);
    };
    act_in(alloc, now, ask, slot)
}

/// Does what is asked of the shard with this number, at this moment. Where a disk has found no memory, it answers want
/// of memory.
pub fn act_at<D: Disk>(
    alloc: Global,
    now: u64,
    shard: u32,
    ask: &PartAsk,
    hosts: &mut Hosts<D>,
) -> Result<PartTold, NoMemory>
    requires now { now ≤ 2 ^ 62 }
    requires call { (group : _) → ask.now ≢ PartAsk.Offer group }
    requires open { AreOpen (parts_of hosts.old) }
    requires apart { AreApart (parts_of hosts.old) }
    ensures ok { IfOk result (λ told. (did : PartCall) × IsCall ask.now told did
        × LeadsBy D.seen (parts_of hosts.old) (parts_of hosts.new)
        (λ counts ends. DidPart counts ends now shard did)) }
    ensures stopped { OnErr result (HaltsBy D.seen (parts_of hosts.old) (parts_of hosts.new)
        (λ counts ends a call b. (did : PartCall) × (ask.now ≡ asked_by (Calls did))
        × DidPart counts ends now shard did a call b)) }
    ensures fits { IfOk result (IsToldOf ask.now) }
    ensures there { OnOk result (shard < length hosts.old.parts.items) }
    ensures stays { StaysOpen D.seen (parts_of hosts.old) (parts_of hosts.new) }
{
    act_among(alloc, now, shard, ask, &mut hosts.parts)
}
