ghost use Rattle.std.specs.Prelude.{◌≡◌, ◌≤◌, ◌+◌, ◌<◌, ◌^◌, ◌++◌, ◌&&◌, ℕ, pos, true, not, map, IfOk, length, count_by};
ghost use Rattle.std.specs.Ordering.{is_lt, is_gt, nat_cmp};
ghost use Rattle.std.specs.List.Sorted.{IsStrictlySortedBy};
ghost use Rattle.std.specs.Map.{keys_of};
ghost use Rattle.share_members.specs.Topics.{AreHosted};
ghost use Rattle.share_members.specs.declared.member.Member.{Member as Kept};
ghost use Rattle.share_members.specs.Groups.{id_cmp, with_member};
ghost use Rattle.share_members.specs.Assignments.{owns, share, has_place, subscribes, assigned_topic, assignment};

use crate::member::Member;
use crate::places::has_place;
use flex_fields::{Items, NoMemory};
use msgs_group::{AssignedTopic, Assignment};
use share_model::Name;
use std::alloc::Global;
use std::cmp::Ordering;
use std::collections::BTreeMap;
use topic_conf::Topic;

// Whether the subscriber of this number, of so many, has the partition, of so many.
fn owns(parts: u32, subscribers: usize, number: usize, partition: u32) -> bool
    requires parts { 1 ≤ parts }
    requires subscribers { number < subscribers }
    ensures { result ≡ owns parts subscribers number partition }
{
    let (parts, partition) = (parts as usize, partition as usize);
    if subscribers <= parts {
        partition % subscribers == number
    } else {
        number % parts == partition
    }
}

// The partitions of a topic that the subscriber has.
fn share(
    alloc: Global,
    parts: u32,
    subscribers: usize,
    number: usize,
) -> Result<Items<i32>, NoMemory>
    requires some { 1 ≤ parts }
    requires few { parts ≤ 64 }
    requires subscribers { number < subscribers }
    ensures { IfOk result (λ list. list ≡ map pos (share parts subscribers number)) }
{
    let mut list = Vec::new(alloc);
    for partition in 0..parts {
        if owns(parts, subscribers, number, partition) {
            list.push(partition as i32)?;
        }
    }
    Ok(Items::new(list))
}

// How many other subscribers of a topic come before an id, and how many behind it.
#[derive(Clone, Copy)]
struct Others {
    before: usize,
    behind: usize,
}

// Counts the subscribers of a topic on both sides of an id, in one pass.
fn count_others(members: &BTreeMap<Name, Member>, id: &Name, place: u32) -> Others
    ensures before { result.before ≡ count_by (λ member. is_lt (id_cmp member.0 id.now) && subscribes place member) members.now.entries }
    ensures behind { result.behind ≡ count_by (λ member. is_gt (id_cmp member.0 id.now) && subscribes place member) members.now.entries }
    ensures few { result.before + result.behind < 2 ^ 63 }
    ensures ordered { IsStrictlySortedBy id_cmp (keys_of members.now.entries) }
{
    let (mut before, mut behind) = (0, 0);
    for (other, member) in members.iter() {
        if member.topics.contains(place) {
            match other.cmp(id) {
                Ordering::Less => before += 1,
                Ordering::Equal => {}
                Ordering::Greater => behind += 1,
            }
        }
    }
    Others { before, behind }
}

// A topic with the partitions of the member of this id, which subscribes to it.
fn assigned_topic(
    alloc: Global,
    topic: &Topic,
    place: u32,
    members: &BTreeMap<Name, Member>,
    id: &Name,
) -> Result<AssignedTopic, NoMemory>
    requires some { 1 ≤ topic.now.parts }
    requires few { topic.now.parts ≤ 64 }
    ensures { (member : Kept) → subscribes place (id.now, member) ≡ true →
        IfOk result (λ assigned. assigned ≡ assigned_topic (with_member id.now member members.now.entries) id.now place topic.now) }
{
    let others = count_others(members, id, place);
    let subscribers = others.before + others.behind + 1;
    let partitions = share(alloc, topic.parts, subscribers, others.before)?;
    Ok(AssignedTopic {
        topic_id: topic.id,
        partitions,
    })
}

/// What the member of this id and with this subscription is to read, beside the other members. What `members` has of
/// it itself isn't looked at. It costs the partitions, and for each topic of the subscription a search in that of
/// each member.
pub fn assignment(
    alloc: Global,
    topics: &[Topic],
    members: &BTreeMap<Name, Member>,
    id: &Name,
    subscription: &[u32],
) -> Result<Assignment, NoMemory>
    requires topics { AreHosted topics.now }
    requires rising { IsStrictlySortedBy nat_cmp subscription.now }
    ensures { (member : Kept) → member.topics ≡ subscription.now →
        IfOk result (λ assigned.
        assigned ≡ assignment topics.now (with_member id.now member members.now.entries) id.now subscription.now) }
{
    let mut assigned = Vec::new(alloc);
    let mut place = 0;
    let mut rest = topics;
    while let Some((topic, others)) = rest.split_first() {
        if has_place(place, subscription) {
            assigned.push(assigned_topic(alloc, topic, place, members, id)?)?;
        }
        place += 1;
        rest = others;
    }
    Ok(Assignment {
        topic_partitions: Items::new(assigned),
    })
}
