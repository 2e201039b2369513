// The members of all groups behind a lock.
ghost use Rattle.broker_shards.specs.Acts.{ActsOnMembers};

use msgs_group::{HeartbeatReply, HeartbeatRequest};
use shard_lock::Shard;
use share_members::GroupShard;
use share_model::{Moment, NoMemory};

/// What is asked of the members of all groups.
#[derive(Drop)]
pub enum MembersAsk {
    /// A heartbeat of one member.
    Heartbeat(HeartbeatRequest),
    /// The members whose session has ended are to be removed.
    Tick,
}

/// An event on the members of all groups.
#[derive(Drop)]
pub struct MembersEvent {
    pub now: Moment,
    pub ask: MembersAsk,
}

/// What is told of it; of a tick how many members it removed, 2^64 - 1 where there were more.
#[derive(Drop)]
pub enum MembersTold {
    Heartbeat(HeartbeatReply),
    Ticked(u64),
}

/// The members of all groups.
#[derive(Drop)]
pub struct MembersHost {
    pub members: GroupShard,
}

fn heartbeat(
    now: u64,
    request: &HeartbeatRequest,
    members: &mut GroupShard,
) -> Result<MembersTold, NoMemory>
    ensures { ActsOnMembers now (MembersAsk.Heartbeat request.now) members.old result members.new }
{
    match members.heartbeat(now, request) {
        Ok(reply) => return Ok(MembersTold::Heartbeat(reply)),
        Err(fault) => return Err(fault),
    }
}

/// Does what is asked of the members of all groups, at this moment. A tick takes no memory.
pub fn act_on_members(
    now: u64,
    ask: &MembersAsk,
    members: &mut GroupShard,
) -> Result<MembersTold, NoMemory>
    ensures { ActsOnMembers now ask.now members.old result members.new }
{
    match ask {
        MembersAsk::Heartbeat(request) => heartbeat(now, request, members),
        MembersAsk::Tick => Ok(MembersTold::Ticked(members.expire(now))),
    }
}

impl Shard for MembersHost {
    type Event = MembersEvent;

    type Answer = Result<MembersTold, NoMemory>;

    ghost use Rattle.broker_shards.specs.Acts.{ActsMembers};

    ghost acts = { ActsMembers };

    fn act(&mut self, event: &MembersEvent) -> Result<MembersTold, NoMemory> {
        act_on_members(event.now.ms(), &event.ask, &mut self.members)
    }
}
