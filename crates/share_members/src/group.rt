ghost use Rattle.std.specs.Prelude.{◌≡◌, ◌≤◌, ◌==◌, IfOk, OnOk, OnErr, Some, None, not, length};
ghost use Rattle.std.specs.Option.{option_copied, unwrap_or};
ghost use Rattle.share_members.specs.Topics.{AreHosted};
ghost use Rattle.share_members.specs.Groups.{no_group, member_at, with_member};
ghost use Rattle.share_members.specs.Heartbeats.{no_member, member_refusal, left, member_after, stays};
ghost use Rattle.share_members.specs.Expiry.{later_epoch, due, group_expired};

use crate::member::Member;
use crate::places::Places;
use crate::plan::{next_epoch, planned};
use crate::refusal::member_refusal;
use flex_fields::NoMemory;
use msgs_group::{HeartbeatReply, HeartbeatRequest};
use share_model::{Code, Name};
use std::alloc::Global;
use std::collections::BTreeMap;
use std::marker::Model;
use topic_conf::Topic;

/// A group: its epoch, and its members in byte order of ids.
#[derive(Drop)]
pub struct Group {
    epoch: i32,
    members: BTreeMap<Name, Member>,
}

impl Model for Group {
    ghost use Rattle.share_members.specs.Groups.{GroupParts};

    ghost Value = { GroupParts };

    ghost view = { λ g. record { epoch = g.epoch; members = g.members.entries } };
}

// The epoch after so many changes.
fn later_epoch(changes: usize, epoch: i32) -> i32
    ensures { result ≡ later_epoch changes epoch }
{
    let mut later = epoch;
    for _ in 0..changes {
        later = next_epoch(later);
    }
    later
}

// Lets the member of this id take an accepted heartbeat in a group of this epoch; it joins where it isn't there.
// Where memory runs out nothing has changed.
fn renew(
    alloc: Global,
    members: &mut BTreeMap<Name, Member>,
    id: &Name,
    epoch: i32,
    change: Option<Places>,
    moment: u64,
) -> Result<(), NoMemory>
    ensures ok { OnOk result (members.new.entries ≡
        with_member id.now (member_after epoch change moment (unwrap_or (member_at id.now members.old.entries) no_member)) members.old.entries) }
    ensures err { OnErr result (members.new.entries ≡ members.old.entries) }
{
    if let Some(member) = members.get_mut(id) {
        member.renew(epoch, change, moment);
        return Ok(());
    }
    let mut member = Member::new(alloc);
    member.renew(epoch, change, moment);
    match members.insert(*id, member) {
        Ok(_) => Ok(()),
        Err(_) => Err(NoMemory),
    }
}

impl Group {
    /// A group that nobody has joined yet.
    pub fn new(alloc: Global) -> Group
        ensures { result ≡ no_group }
    {
        Group {
            epoch: 0,
            members: BTreeMap::new(alloc),
        }
    }

    /// Whether anybody is in it.
    pub fn has_members(&self) -> bool
        ensures { result ≡ not (length self.now.members == 0) }
    {
        !self.members.is_empty()
    }

    /// Why a valid heartbeat of this epoch is refused.
    pub fn refusal(&self, id: &Name, epoch: i32) -> Option<Code>
        ensures { result ≡ member_refusal epoch (member_at id.now self.now.members) (length self.now.members) }
    {
        member_refusal(epoch, self.members.get(id), self.members.len())
    }

    /// Lets a member leave, which is a change.
    pub fn leave(&mut self, id: &Name)
        ensures { self.new ≡ left id.now self.old }
    {
        self.members.remove(id);
        self.epoch = next_epoch(self.epoch);
    }

    /// Does an accepted heartbeat other than a leave. Where memory runs out nothing has changed.
    #[tactic(auto, unfolding(crate::specs::Heartbeats::stays))]
    pub fn stay(
        &mut self,
        alloc: Global,
        topics: &[Topic],
        id: &Name,
        moment: u64,
        request: &HeartbeatRequest,
    ) -> Result<HeartbeatReply, NoMemory>
        requires topics { AreHosted topics.now }
        requires id { id.now ≡ request.now.member_id }
        ensures told { IfOk result (λ reply. reply ≡ (stays topics.now moment request.now self.old).reply) }
        ensures after { OnOk result (self.new ≡ (stays topics.now moment request.now self.old).group) }
        ensures err { OnErr result (self.new ≡ self.old) }
    {
        let plan = planned(
            alloc,
            topics,
            self.epoch,
            &self.members,
            id,
            moment,
            request,
        )?;
        renew(
            alloc,
            &mut self.members,
            id,
            plan.epoch,
            plan.change,
            moment,
        )?;
        self.epoch = plan.epoch;
        Ok(plan.reply)
    }

    /// Removes the members whose session has ended, each of which is a change. It takes no memory.
    pub fn expire(&mut self, moment: u64)
        ensures { self.new ≡ group_expired moment self.old }
    {
        let before = self.members.len();
        self.members.retain(|_, member| !member.is_due(moment));
        self.epoch = later_epoch(before - self.members.len(), self.epoch);
    }

    /// How many members' sessions have ended.
    pub fn due(&self, moment: u64) -> usize
        ensures { result ≡ due moment self.now.members }
    {
        self.members
            .iter()
            .filter(|(_, member)| member.is_due(moment))
            .count()
    }
}
