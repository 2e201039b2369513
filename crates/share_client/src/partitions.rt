// The partitions that a member is to read, and those that a session has.
ghost use Rattle.std.specs.Prelude.{◌≡◌, ◌++◌, [], List, filter, flat_map, map, not, IfOk, OnOk};
ghost use Rattle.share_client.specs.Grants.{Named};
ghost use Rattle.share_client.specs.Partitions.{HasJust, Notes, forgotten_topic, fresh_partition, fresh_topic, is_named, names_in, outside, some_topic, topic_names, topic_outside};

use crate::items::items_of;
use flex_fields::Items;
use msgs_group::AssignedTopic;
use msgs_share::{SharePartition, ShareTopic};
use share_model::NoMemory;
use std::alloc::Global;
use std::collections::BTreeSet;
use uuid::Uuid;

// Notes the partitions of a topic.
fn note_topic(names: &mut BTreeSet<(Uuid, i32)>, topic: &AssignedTopic) -> Result<(), NoMemory>
    ensures { OnOk result (Notes names.old (topic_names topic.now) names.new) }
{
    let mut rest = topic.partitions.as_slice();
    while let Some((partition, others)) = rest.split_first() {
        names.insert((topic.topic_id, *partition))?;
        rest = others;
    }
    Ok(())
}

// The partitions of topics.
fn names_of(alloc: Global, topics: &[AssignedTopic]) -> Result<BTreeSet<(Uuid, i32)>, NoMemory>
    ensures { IfOk result (λ names. HasJust names (names_in topics.now)) }
{
    let mut names = BTreeSet::new(alloc);
    let mut rest = topics;
    while let Some((topic, others)) = rest.split_first() {
        note_topic(&mut names, topic)?;
        rest = others;
    }
    Ok(names)
}

// Whether a partition doesn't stand in a set.
fn is_outside(names: &BTreeSet<(Uuid, i32)>, name: (Uuid, i32)) -> bool
    ensures { (named : List Named) → HasJust names.now named → result ≡ not (is_named named name) }
{
    !names.contains(&name)
}

// The partitions of a topic that don't stand in a set.
fn partitions_outside(
    alloc: Global,
    names: &BTreeSet<(Uuid, i32)>,
    topic: &AssignedTopic,
) -> Result<Vec<i32>, NoMemory>
    ensures { IfOk result (λ partitions. (named : List Named) → HasJust names.now named → partitions.items ≡ filter (λ n. not (is_named named (topic.now.topic_id, n))) topic.now.partitions) }
{
    let mut partitions = Vec::new(alloc);
    let mut rest = topic.partitions.as_slice();
    while let Some((partition, others)) = rest.split_first() {
        if is_outside(names, (topic.topic_id, *partition)) {
            partitions.push(*partition)?;
        }
        rest = others;
    }
    Ok(partitions)
}

// Adds a topic, unless it has no partitions.
fn put_topic(
    topics: &mut Vec<AssignedTopic>,
    topic_id: Uuid,
    partitions: Vec<i32>,
) -> Result<(), NoMemory>
    ensures { OnOk result (topics.new.items ≡ topics.old.items ++ some_topic topic_id partitions.items) }
{
    if partitions.is_empty() {
        return Ok(());
    }
    topics.push(AssignedTopic {
        topic_id,
        partitions: items_of(partitions)?,
    })?;
    Ok(())
}

/// The partitions of topics that don't stand in others.
pub fn outside(
    alloc: Global,
    topics: &[AssignedTopic],
    others: &[AssignedTopic],
) -> Result<Vec<AssignedTopic>, NoMemory>
    ensures { IfOk result (λ found. found.items ≡ outside topics.now others.now) }
{
    let names = names_of(alloc, others)?;
    let mut found = Vec::new(alloc);
    let mut rest = topics;
    while let Some((topic, behind)) = rest.split_first() {
        let partitions = partitions_outside(alloc, &names, topic)?;
        put_topic(&mut found, topic.topic_id, partitions)?;
        rest = behind;
    }
    Ok(found)
}

/// A copy of topics.
pub fn copied(alloc: Global, topics: &[AssignedTopic]) -> Result<Items<AssignedTopic>, NoMemory>
    ensures { IfOk result (λ copy. copy ≡ topics.now) }
{
    let mut copy = Vec::new(alloc);
    let mut rest = topics;
    while let Some((topic, others)) = rest.split_first() {
        let partitions = Vec::from_slice(alloc, topic.partitions.as_slice())?;
        copy.push(AssignedTopic {
            topic_id: topic.topic_id,
            partitions: items_of(partitions)?,
        })?;
        rest = others;
    }
    items_of(copy)
}

// Partitions without acknowledgements.
fn fresh_partitions(alloc: Global, partitions: &[i32]) -> Result<Items<SharePartition>, NoMemory>
    ensures { IfOk result (λ fresh. fresh ≡ map fresh_partition partitions.now) }
{
    let mut fresh = Vec::new(alloc);
    let mut rest = partitions;
    while let Some((partition, others)) = rest.split_first() {
        fresh.push(SharePartition {
            partition_index: *partition,
            acknowledgement_batches: Items::new(Vec::new(alloc)),
        })?;
        rest = others;
    }
    items_of(fresh)
}

/// The partitions as a request names those that a session is to gain.
pub fn fresh_topics(
    alloc: Global,
    topics: &[AssignedTopic],
) -> Result<Vec<ShareTopic<SharePartition>>, NoMemory>
    ensures { IfOk result (λ fresh. fresh.items ≡ map fresh_topic topics.now) }
{
    let mut fresh = Vec::new(alloc);
    let mut rest = topics;
    while let Some((topic, others)) = rest.split_first() {
        fresh.push(ShareTopic {
            topic_id: topic.topic_id,
            partitions: fresh_partitions(alloc, topic.partitions.as_slice())?,
        })?;
        rest = others;
    }
    Ok(fresh)
}

/// The partitions as a request names those that a session is to forget.
pub fn forgotten_topics(
    alloc: Global,
    topics: &[AssignedTopic],
) -> Result<Items<ShareTopic<i32>>, NoMemory>
    ensures { IfOk result (λ forgotten. forgotten ≡ map forgotten_topic topics.now) }
{
    let mut forgotten = Vec::new(alloc);
    let mut rest = topics;
    while let Some((topic, others)) = rest.split_first() {
        let partitions = Vec::from_slice(alloc, topic.partitions.as_slice())?;
        forgotten.push(ShareTopic {
            topic_id: topic.topic_id,
            partitions: items_of(partitions)?,
        })?;
        rest = others;
    }
    items_of(forgotten)
}
