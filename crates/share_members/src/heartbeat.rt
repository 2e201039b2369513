ghost use Rattle.std.specs.Prelude.{◌≡◌, ◌≤◌, IfOk, IfErr, OnOk, OnErr, Some, None, not, length};
ghost use Rattle.std.specs.Option.{option_copied, unwrap_or};
ghost use Rattle.share_members.specs.Topics.{AreHosted};
ghost use Rattle.share_members.specs.Groups.{no_group, group_at, member_at, with_group};
ghost use Rattle.share_members.specs.Heartbeats.{refusal as request_refusal, member_refusal, left, leaves, stays, heartbeat_in};

use crate::group::Group;
use crate::refusal::{has_invalid_epoch, id_of, member_refusal};
use crate::reply::{accepted, refused};
use flex_fields::{NoMemory, Text};
use msgs_group::{HeartbeatReply, HeartbeatRequest};
use share_model::{Code, Name};
use std::alloc::Global;
use std::collections::BTreeMap;
use topic_conf::Topic;

// Why a valid heartbeat of this epoch is refused, by its group, where it is there.
fn refusal(group: Option<&Group>, id: &Name, epoch: i32) -> Option<Code>
    ensures { result ≡ member_refusal epoch (member_at id.now (unwrap_or (option_copied group.entry) no_group).members)
        (length (unwrap_or (option_copied group.entry) no_group).members) }
{
    match group {
        Some(group) => group.refusal(id, epoch),
        None => member_refusal(epoch, None, 0),
    }
}

// Takes a member out of its group, which is forgotten where nobody is left.
fn take_out(groups: &mut BTreeMap<Name, Group>, group: &Name, id: &Name)
    ensures { groups.new.entries ≡ with_group group.now (left id.now (group_at group.now groups.old.entries)) groups.old.entries }
{
    let Some(found) = groups.get_mut(group) else {
        return;
    };
    found.leave(id);
    let has_members = found.has_members();
    if !has_members {
        groups.remove(group);
    }
}

fn leave(
    alloc: Global,
    groups: &mut BTreeMap<Name, Group>,
    group: &Name,
    id: &Name,
    request: &HeartbeatRequest,
) -> Result<HeartbeatReply, NoMemory>
    requires { id.now ≡ request.now.member_id }
    ensures told { IfOk result (λ reply. reply ≡ (leaves request.now (group_at group.now groups.old.entries)).reply) }
    ensures after { OnOk result (groups.new.entries ≡
        with_group group.now (leaves request.now (group_at group.now groups.old.entries)).group groups.old.entries) }
    ensures err { OnErr result (groups.new.entries ≡ groups.old.entries) }
{
    let name = Text::new(alloc, request.member_id.as_str())?;
    take_out(groups, group, id);
    Ok(accepted(name, -1, 0, None))
}

// The first member of a group joins.
fn create(
    alloc: Global,
    topics: &[Topic],
    groups: &mut BTreeMap<Name, Group>,
    group: &Name,
    id: &Name,
    moment: u64,
    request: &HeartbeatRequest,
) -> Result<HeartbeatReply, NoMemory>
    requires topics { AreHosted topics.now }
    requires id { id.now ≡ request.now.member_id }
    ensures told { IfOk result (λ reply. reply ≡ (stays topics.now moment request.now no_group).reply) }
    ensures after { OnOk result (groups.new.entries ≡
        with_group group.now (stays topics.now moment request.now no_group).group groups.old.entries) }
    ensures err { OnErr result (groups.new.entries ≡ groups.old.entries) }
{
    let mut created = Group::new(alloc);
    let reply = created.stay(alloc, topics, id, moment, request)?;
    match groups.insert(*group, created) {
        Ok(_) => Ok(reply),
        Err(_) => Err(NoMemory),
    }
}

// The member is in the group after it.
fn stay(
    alloc: Global,
    topics: &[Topic],
    groups: &mut BTreeMap<Name, Group>,
    group: &Name,
    id: &Name,
    moment: u64,
    request: &HeartbeatRequest,
) -> Result<HeartbeatReply, NoMemory>
    requires topics { AreHosted topics.now }
    requires id { id.now ≡ request.now.member_id }
    ensures told { IfOk result (λ reply.
        reply ≡ (stays topics.now moment request.now (group_at group.now groups.old.entries)).reply) }
    ensures after { OnOk result (groups.new.entries ≡
        with_group group.now (stays topics.now moment request.now (group_at group.now groups.old.entries)).group groups.old.entries) }
    ensures err { OnErr result (groups.new.entries ≡ groups.old.entries) }
{
    match groups.get_mut(group) {
        Some(there) => there.stay(alloc, topics, id, moment, request),
        None => create(alloc, topics, groups, group, id, moment, request),
    }
}

// The ids of a heartbeat that is accepted, or why it is refused.
fn admit(groups: &BTreeMap<Name, Group>, request: &HeartbeatRequest) -> Result<(Name, Name), Code>
    ensures ids { IfOk result (λ ids. (ids.0 ≡ request.now.group_id) × (ids.1 ≡ request.now.member_id)) }
    ensures granted { IfOk result (λ _. request_refusal request.now (group_at request.now.group_id groups.now.entries) ≡ None) }
    ensures refused { IfErr result (λ code. request_refusal request.now (group_at request.now.group_id groups.now.entries) ≡ Some code) }
{
    let Some(group) = id_of(&request.group_id) else {
        return Err(Code::INVALID_REQUEST);
    };
    let Some(id) = id_of(&request.member_id) else {
        return Err(Code::INVALID_REQUEST);
    };
    if has_invalid_epoch(request) {
        return Err(Code::INVALID_REQUEST);
    }
    match refusal(groups.get(&group), &id, request.member_epoch) {
        Some(code) => Err(code),
        None => Ok((group, id)),
    }
}

/// Does a heartbeat at this moment, in milliseconds. Where memory runs out nothing has changed.
pub fn heartbeat(
    alloc: Global,
    topics: &[Topic],
    groups: &mut BTreeMap<Name, Group>,
    moment: u64,
    request: &HeartbeatRequest,
) -> Result<HeartbeatReply, NoMemory>
    requires { AreHosted topics.now }
    ensures told { IfOk result (λ reply. reply ≡ (heartbeat_in topics.now moment request.now groups.old.entries).reply) }
    ensures after { OnOk result (groups.new.entries ≡ (heartbeat_in topics.now moment request.now groups.old.entries).groups) }
    ensures err { OnErr result (groups.new.entries ≡ groups.old.entries) }
{
    let (group, id) = match admit(groups, request) {
        Ok(ids) => ids,
        Err(code) => return Ok(refused(code)),
    };
    if request.member_epoch == -1 {
        return leave(alloc, groups, &group, &id, request);
    }
    stay(alloc, topics, groups, &group, &id, moment, request)
}
