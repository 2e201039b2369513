ghost use Rattle.std.specs.Prelude.{◌≡◌, ◌≤◌, IfOk, Some, None, if◌then◌else◌, length};
ghost use Rattle.std.specs.Option.{option_copied, unwrap_or};
ghost use Rattle.std.specs.Ordering.{nat_cmp};
ghost use Rattle.std.specs.List.Sorted.{IsStrictlySortedBy};
ghost use Rattle.share_members.specs.Topics.{AreHosted};
ghost use Rattle.share_members.specs.declared.member.Member.{Member as Kept};
ghost use Rattle.share_members.specs.Groups.{member_at, with_member, next_epoch};
ghost use Rattle.share_members.specs.Assignments.{assignment};
ghost use Rattle.share_members.specs.Heartbeats.{no_member, new_subscription, epoch_after, tells_assignment, stays};

use crate::assignment::assignment;
use crate::member::Member;
use crate::places::Places;
use crate::reply::accepted;
use crate::subscription::new_subscription;
use flex_fields::{NoMemory, Text};
use msgs_group::{Assignment, HeartbeatReply, HeartbeatRequest};
use share_model::Name;
use std::alloc::Global;
use std::collections::BTreeMap;
use topic_conf::Topic;

/// When a member is to send its next heartbeat, in milliseconds.
const HEARTBEAT_INTERVAL: i32 = 5000;

/// What an accepted heartbeat brings: the epoch of its group after it, the member's subscription where it changes,
/// and the reply.
#[derive(Drop)]
pub struct Plan {
    pub epoch: i32,
    pub change: Option<Places>,
    pub reply: HeartbeatReply,
}

/// The epoch after a change.
pub fn next_epoch(epoch: i32) -> i32
    ensures { result ≡ next_epoch epoch }
{
    if epoch == i32::MAX { 1 } else { epoch + 1 }
}

fn epoch_after(change: &Option<Places>, epoch: i32) -> i32
    ensures { result ≡ epoch_after change.now epoch }
{
    match change {
        Some(_) => next_epoch(epoch),
        None => epoch,
    }
}

// Whether a member is told its assignment.
fn tells_assignment(asked: i32, before: i32, now: i32) -> bool
    ensures { result ≡ tells_assignment asked before now }
{
    before != now || asked == 0 || asked != now
}

// The epoch of a member.
fn epoch_of(member: Option<&Member>) -> i32
    ensures { result ≡ (unwrap_or (option_copied member.entry) no_member).epoch }
{
    match member {
        Some(member) => member.epoch,
        None => 0,
    }
}

// The topics of a member.
fn topics_of(member: Option<&Member>) -> &[u32]
    ensures topics { result.now ≡ (unwrap_or (option_copied member.entry) no_member).topics }
    ensures rising { IsStrictlySortedBy nat_cmp result.now }
{
    match member {
        Some(member) => member.topics.as_slice(),
        None => &[],
    }
}

// What the member subscribes to after the change.
fn subscription<'a>(change: &'a Option<Places>, member: Option<&'a Member>) -> &'a [u32]
    ensures topics { result.now ≡ unwrap_or change.now (unwrap_or (option_copied member.entry) no_member).topics }
    ensures rising { IsStrictlySortedBy nat_cmp result.now }
{
    match change {
        Some(topics) => topics.as_slice(),
        None => topics_of(member),
    }
}

// The assignment, where it is told.
fn told_assignment(
    alloc: Global,
    topics: &[Topic],
    members: &BTreeMap<Name, Member>,
    id: &Name,
    subscription: &[u32],
    told: bool,
) -> Result<Option<Assignment>, NoMemory>
    requires topics { AreHosted topics.now }
    requires rising { IsStrictlySortedBy nat_cmp subscription.now }
    ensures { (member : Kept) → member.topics ≡ subscription.now →
        IfOk result (λ assigned. assigned ≡ (if told
        then Some (assignment topics.now (with_member id.now member members.now.entries) id.now subscription.now) else None)) }
{
    if !told {
        return Ok(None);
    }
    let assigned = assignment(alloc, topics, members, id, subscription)?;
    Ok(Some(assigned))
}

/// Plans an accepted heartbeat other than a leave, in a group of this epoch and with these members. It takes the
/// memory of the reply.
#[tactic(auto, unfolding(crate::specs::Heartbeats::stays))]
pub fn planned(
    alloc: Global,
    topics: &[Topic],
    epoch: i32,
    members: &BTreeMap<Name, Member>,
    id: &Name,
    moment: u64,
    request: &HeartbeatRequest,
) -> Result<Plan, NoMemory>
    requires topics { AreHosted topics.now }
    requires id { id.now ≡ request.now.member_id }
    ensures change { IfOk result (λ plan.
        plan.change ≡ new_subscription topics.now request.now.subscribed_topic_names (member_at id.now members.now.entries)) }
    ensures epoch { IfOk result (λ plan. plan.epoch ≡ epoch_after plan.change epoch) }
    ensures reply { IfOk result (λ plan.
        plan.reply ≡ (stays topics.now moment request.now (record { epoch = epoch; members = members.now.entries })).reply) }
{
    let name = Text::new(alloc, request.member_id.as_str())?;
    let member = members.get(id);
    let change = new_subscription(alloc, topics, &request.subscribed_topic_names, member)?;
    let epoch = epoch_after(&change, epoch);
    let told = tells_assignment(request.member_epoch, epoch_of(member), epoch);
    let subscription = subscription(&change, member);
    let assigned = told_assignment(alloc, topics, members, id, subscription, told)?;
    Ok(Plan {
        epoch,
        change,
        reply: accepted(name, epoch, HEARTBEAT_INTERVAL, assigned),
    })
}
