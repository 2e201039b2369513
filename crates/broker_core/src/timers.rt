// Locks and memberships that end by the clock.
ghost use Rattle.std.specs.Prelude.{◌≡◌, ◌≤◌, ◌<◌, ◌^◌, ℕ, List, Some, IfOk, OnErr, OnOk, All, length};
ghost use Rattle.session_script.specs.declared.event.Outcome.{Outcome};
ghost use Rattle.session_script.specs.Output.{IsTold};
ghost use Rattle.share_model.specs.declared.visit.ExpireAnswer.{ExpireAnswer};
ghost use Rattle.topic_conf.specs.declared.topic.Topic.{Topic};
ghost use Rattle.topic_conf.specs.Topics.{partitions, shard_named};
ghost use Rattle.conn_core.specs.Conns.{ConnParts};
ghost use Rattle.broker_model.specs.Shards.{StepsShards};
ghost use Rattle.broker_model.specs.Shards.ShardCall.{CallMembers};
ghost use Rattle.broker_model.specs.Shards.MembersCall.{Ticks};
ghost use Rattle.broker_model.specs.Shards.PartCall.{Expires};
ghost use Rattle.broker_model.specs.Steps.{ExpiresAt};
ghost use Rattle.broker_hosts.specs.Hosts.{AreApart, AreOpen, parts_of};
ghost use Rattle.broker_core.specs.Calls.{DidPart, ExpiresShard, HaltsBy, LeadsBy, StaysOpen};

use crate::calls::act_at;
use crate::told::{fault_of_expiry, told};
use broker_hosts::Hosts;
use broker_shards::{MembersAsk, PartAsk, PartTold, act_on_members};
use edge_io::Disk;
use session_script::Outcome;
use share_model::{ExpireAnswer, Name, NoMemory};
use std::alloc::Global;
use topic_conf::Config;

// An expiry of the shard with this number.
fn expire_at<D: Disk>(
    alloc: Global,
    now: u64,
    shard: u32,
    hosts: &mut Hosts<D>,
) -> Result<ExpireAnswer, NoMemory>
    requires now { now ≤ 2 ^ 62 }
    requires open { AreOpen (parts_of hosts.old) }
    requires apart { AreApart (parts_of hosts.old) }
    ensures ok { IfOk result (λ answer. LeadsBy D.seen (parts_of hosts.old) (parts_of hosts.new)
        (λ counts ends. DidPart counts ends now shard (Expires answer))) }
    ensures stopped { OnErr result (HaltsBy D.seen (parts_of hosts.old) (parts_of hosts.new)
        (λ counts ends a call b. (answer : ExpireAnswer) × DidPart counts ends now shard (Expires answer) a call b)) }
    ensures there { OnOk result (shard < length hosts.old.parts.items) }
    ensures stays { StaysOpen D.seen (parts_of hosts.old) (parts_of hosts.new) }
{
    let ask = PartAsk::Expire;
    let done = act_at(alloc, now, shard, &ask, hosts)?;
    let PartTold::Expire(answer) = done else {
        unreachable!()
    };
    Ok(answer)
}

// The locks of the partition with this shard that have ended are released.
fn expire_shard<D: Disk>(
    alloc: Global,
    shard: u32,
    now: u64,
    hosts: &mut Hosts<D>,
) -> Result<Vec<Outcome>, NoMemory>
    requires now { now ≤ 2 ^ 62 }
    requires open { AreOpen (parts_of hosts.old) }
    requires apart { AreApart (parts_of hosts.old) }
    ensures ok { IfOk result (λ outcomes. LeadsBy D.seen (parts_of hosts.old) (parts_of hosts.new)
        (λ counts ends. ExpiresShard counts ends now shard outcomes.items)) }
    ensures stopped { OnErr result (HaltsBy D.seen (parts_of hosts.old) (parts_of hosts.new)
        (λ counts ends a call b. (outcomes : List Outcome)
        × ExpiresShard counts ends now shard outcomes a call b)) }
    ensures told { IfOk result (λ outcomes. (topics : List Topic) → length hosts.old.parts.items ≡ partitions topics →
        All (IsTold topics) outcomes.items) }
    ensures stays { StaysOpen D.seen (parts_of hosts.old) (parts_of hosts.new) }
{
    let answer = expire_at(alloc, now, shard, hosts)?;
    told(alloc, fault_of_expiry(shard, &answer))
}

/// The locks of a partition that have ended are released. Where it isn't hosted nothing happens.
pub fn expire<D: Disk>(
    alloc: Global,
    conf: &Config,
    topic: &Name,
    part: u32,
    now: u64,
    hosts: &mut Hosts<D>,
) -> Result<Vec<Outcome>, NoMemory>
    requires now { now ≤ 2 ^ 62 }
    requires open { AreOpen (parts_of hosts.old) }
    requires apart { AreApart (parts_of hosts.old) }
    requires hosted { length hosts.old.parts.items ≡ partitions conf.now.topics }
    ensures ok { IfOk result (λ outcomes. LeadsBy D.seen (parts_of hosts.old) (parts_of hosts.new)
        (λ counts ends a call b. (connections : List (ℕ × ConnParts))
        → ExpiresAt counts ends now
        (record { connections = connections; shards = a }) (shard_named topic.now part conf.now.topics) call outcomes.items
        (record { connections = connections; shards = b }))) }
    ensures stopped { OnErr result (HaltsBy D.seen (parts_of hosts.old) (parts_of hosts.new)
        (λ counts ends a call b. (outcomes : List Outcome) × ((connections : List (ℕ × ConnParts))
        → ExpiresAt counts ends now
        (record { connections = connections; shards = a }) (shard_named topic.now part conf.now.topics) call outcomes
        (record { connections = connections; shards = b })))) }
    ensures told { IfOk result (λ outcomes. All (IsTold conf.now.topics) outcomes.items) }
    ensures stays { StaysOpen D.seen (parts_of hosts.old) (parts_of hosts.new) }
{
    match conf.shard_of(topic.as_str(), part) {
        Some(shard) => expire_shard(alloc, shard, now, hosts),
        None => Ok(Vec::new(alloc)),
    }
}

/// Members that are heard of no longer are removed. It takes no memory.
pub fn tick<D: Disk>(now: u64, hosts: &mut Hosts<D>)
    requires open { AreOpen (parts_of hosts.old) }
    ensures ok { LeadsBy D.seen (parts_of hosts.old) (parts_of hosts.new)
        (λ counts ends a call b. (call ≡ Some (CallMembers Ticks)) × StepsShards counts ends now a (CallMembers Ticks) b) }
    ensures stays { StaysOpen D.seen (parts_of hosts.old) (parts_of hosts.new) }
{
    drop(act_on_members(now, &MembersAsk::Tick, &mut hosts.members.members));
}
