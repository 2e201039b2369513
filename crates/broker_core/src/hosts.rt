// The parts that the shards do.
ghost use Rattle.std.specs.Prelude.{◌≡◌, ◌≢◌, ◌≤◌, ◌<◌, ◌^◌, Some, IfOk, OnErr, OnOk, length};
ghost use Rattle.call_fold.specs.Parts.{IsAnswerTo};
ghost use Rattle.call_fold.specs.declared.part.Part.{Part};
ghost use Rattle.call_fold.specs.declared.part.PartAnswer.{PartAnswer};
ghost use Rattle.broker_shards.specs.Answering.{part_asking};
ghost use Rattle.broker_hosts.specs.Hosts.{AreApart, AreOpen, parts_of};
ghost use Rattle.broker_core.specs.Calls.{Did, HaltsBy, IsThere, LeadsBy, StaysOpen};

use crate::calls::act_at;
use broker_hosts::{ForeignSlot, Hosts};
use broker_shards::{
    MembersAsk, MembersTold, PartAsk, ShardAsk, act_on_foreign, act_on_members, answer_of, ask_of,
};
use conn_core::{Part, PartAnswer};
use edge_io::Disk;
use share_model::NoMemory;
use std::alloc::Global;

// What a hosted partition answers to a part.
fn ask_part<D: Disk>(
    alloc: Global,
    now: u64,
    shard: u32,
    ask: PartAsk,
    hosts: &mut Hosts<D>,
) -> Result<PartAnswer, NoMemory>
    requires now { now ≤ 2 ^ 62 }
    requires open { AreOpen (parts_of hosts.old) }
    requires apart { AreApart (parts_of hosts.old) }
    requires asked { ask ≢ PartAsk.Expire }
    requires call { (group : _) → ask ≢ PartAsk.Offer group }
    ensures ok { IfOk result (λ answer. (part : Part) → part_asking shard ask ≡ Some part →
        LeadsBy D.seen (parts_of hosts.old) (parts_of hosts.new) (λ counts ends. Did counts ends now part answer)) }
    ensures stopped { OnErr result ((part : Part) → part_asking shard ask ≡ Some part →
        HaltsBy D.seen (parts_of hosts.old) (parts_of hosts.new)
        (λ counts ends a call b. (answer : PartAnswer) × Did counts ends now part answer a call b)) }
    ensures fair { IfOk result (λ answer. (part : Part) → part_asking shard ask ≡ Some part →
        IsAnswerTo part answer) }
    ensures there { OnOk result (shard < length hosts.old.parts.items) }
    ensures stays { StaysOpen D.seen (parts_of hosts.old) (parts_of hosts.new) }
{
    let told = act_at(alloc, now, shard, &ask, hosts)?;
    match answer_of(told) {
        Some(answer) => Ok(answer),
        None => unreachable!(),
    }
}

/// Does a part on its shard, at this moment. Where a disk has found no memory, it answers want of memory.
pub fn act<D: Disk>(
    alloc: Global,
    now: u64,
    part: Part,
    hosts: &mut Hosts<D>,
) -> Result<PartAnswer, NoMemory>
    requires now { now ≤ 2 ^ 62 }
    requires open { AreOpen (parts_of hosts.old) }
    requires apart { AreApart (parts_of hosts.old) }
    ensures ok { IfOk result (λ answer. LeadsBy D.seen (parts_of hosts.old) (parts_of hosts.new)
        (λ counts ends. Did counts ends now part answer)) }
    ensures stopped { OnErr result (HaltsBy D.seen (parts_of hosts.old) (parts_of hosts.new)
        (λ counts ends a call b. (answer : PartAnswer)
        × Did counts ends now part answer a call b)) }
    ensures fair { IfOk result (IsAnswerTo part) }
    ensures there { OnOk result (IsThere (length hosts.old.parts.items) part) }
    ensures stays { StaysOpen D.seen (parts_of hosts.old) (parts_of hosts.new) }
{
    match ask_of(part) {
        ShardAsk::Part(shard, ask) => ask_part(alloc, now, shard, ask, hosts),
        ShardAsk::Heartbeat(request) => {
            let ask = MembersAsk::Heartbeat(request);
            match act_on_members(now, &ask, &mut hosts.members.members)? {
                MembersTold::Heartbeat(reply) => Ok(PartAnswer::Heartbeat(reply)),
                MembersTold::Ticked(_) => unreachable!(),
            }
        }
        ShardAsk::Foreign(op) => match &mut hosts.foreign {
            ForeignSlot::Open(shard) => {
                let answer = act_on_foreign(&op, shard)?;
                if shard.starved() {
                    return Err(NoMemory);
                }
                Ok(PartAnswer::Foreign(answer))
            }
            _ => unreachable!(),
        },
    }
}
