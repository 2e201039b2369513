ghost use Rattle.std.specs.Prelude.{◌≡◌, IfOk, OnErr, OnOk, [], min};
ghost use Rattle.share_members.specs.Groups.{Memberships};
ghost use Rattle.share_members.specs.Heartbeats.{heartbeat_step};
ghost use Rattle.share_members.specs.Expiry.{expire_step, groups_expired, removed};

use crate::group::Group;
use crate::heartbeat::heartbeat;
use flex_fields::NoMemory;
use msgs_group::{HeartbeatReply, HeartbeatRequest};
use share_model::Name;
use std::alloc::Global;
use std::collections::BTreeMap;
use std::marker::Model;
use topic_conf::{Config, TopicList};

/// The members of all share groups, in memory.
///
/// A contract sees the hosted topics, the clock, which is the greatest moment so far, and the groups that have
/// members, in byte order of their ids. They are whole (`AreWhole`), as `memberships_stay_whole` says.
#[derive(Drop)]
pub struct GroupShard {
    topics: TopicList,
    clock: u64,
    groups: BTreeMap<Name, Group>,
    alloc: Global,
}

impl Model for GroupShard {
    ghost use Rattle.share_members.specs.Groups.{Memberships};
    ghost use Rattle.share_members.specs.Whole.{AreWhole};

    ghost Value = { Memberships };

    ghost view = { λ s. record { topics = s.topics; clock = s.clock; groups = s.groups.entries } };

    ghost invariant = { λ s. AreWhole (record { topics = s.topics; clock = s.clock; groups = s.groups.entries }) };
}

// How many members' sessions have ended at this moment, up to 2^64 - 1.
fn due(groups: &BTreeMap<Name, Group>, moment: u64) -> u64
    ensures { result ≡ min (removed moment groups.now.entries) u64.MAX }
{
    let mut total: u64 = 0;
    for (_, group) in groups.iter() {
        total = total.saturating_add(group.due(moment) as u64);
    }
    total
}

// Removes the members whose sessions have ended, and the groups that have none then.
fn expire(groups: &mut BTreeMap<Name, Group>, moment: u64)
    ensures { groups.new.entries ≡ groups_expired moment groups.old.entries }
{
    groups.retain(|_, group| {
        group.expire(moment);
        group.has_members()
    });
}

impl GroupShard {
    /// The shard of a broker with this configuration: no groups, and the clock at 0.
    pub fn new(alloc: Global, conf: &Config) -> Result<GroupShard, NoMemory>
        ensures { IfOk result (λ shard. shard ≡ record { topics = conf.now.topics; clock = 0; groups = [] }) }
    {
        let topics = Vec::from_slice(alloc, conf.topics())?;
        let Some(topics) = TopicList::new(topics) else {
            unreachable!();
        };
        Ok(GroupShard {
            topics,
            clock: 0,
            groups: BTreeMap::new(alloc),
            alloc,
        })
    }

    /// Does a ShareGroupHeartbeat at this moment, in milliseconds: a member joins, starts again, stays or leaves, or
    /// the request is refused with code 42, 25, 81 or 110, the first of these that applies. A refused one raises the
    /// clock alone. A moment before the greatest so far counts as that one.
    ///
    /// Where memory runs out nothing has changed, not even the clock.
    pub fn heartbeat(
        &mut self,
        now: u64,
        request: &HeartbeatRequest,
    ) -> Result<HeartbeatReply, NoMemory>
        ensures told { IfOk result (λ reply. reply ≡ (heartbeat_step now request.now self.old).reply) }
        ensures after { OnOk result (self.new ≡ (heartbeat_step now request.now self.old).after) }
        ensures memory { OnErr result (self.new ≡ self.old) }
    {
        let moment = self.clock.max(now);
        let reply = heartbeat(
            self.alloc,
            self.topics.as_slice(),
            &mut self.groups,
            moment,
            request,
        )?;
        self.clock = moment;
        Ok(reply)
    }

    /// Removes the members whose last accepted heartbeat was 45000 ms ago or longer at this moment, in milliseconds,
    /// and forgets the groups that have none then. Each removal is a change of its group. It answers how many were
    /// removed, 2^64 - 1 where there were more. A moment before the greatest so far counts as that one, and a later
    /// one raises the clock.
    ///
    /// It takes no memory, and goes over the members once where nobody is removed, else twice.
    pub fn expire(&mut self, now: u64) -> u64
        ensures after { self.new ≡ expire_step now self.old }
        ensures removed { result ≡ min (removed self.new.clock self.old.groups) u64.MAX }
    {
        self.clock = self.clock.max(now);
        let total = due(&self.groups, self.clock);
        if total > 0 {
            expire(&mut self.groups, self.clock);
        }
        total
    }
}
