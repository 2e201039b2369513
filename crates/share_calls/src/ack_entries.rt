// The entries of a ShareAcknowledge.
ghost use Rattle.std.specs.Prelude.{◌≡◌, ◌++◌, IfOk, OnOk};
ghost use Rattle.share_session.specs.Requests.{topic_entries, entries};
ghost use Rattle.share_calls.specs.Acknowledge.{entry_at, steps_at, placed, steps_left};

use crate::ack_rows::acknowledged;
use crate::codes::unhosted_code;
use crate::kept_step::KeptStep;
use crate::partition::PartitionId;
use crate::visiting::Visiting;
use call_fold::Entry;
use msgs_share::{AcknowledgedPartition, SharePartition, ShareTopic};
use share_model::NoMemory;
use share_session::PlanStep;
use std::alloc::Global;
use std::collections::VecDeque;
use topic_conf::Config;
use uuid::Uuid;

/// A partition of a ShareAcknowledge: its row, or the visit that gives it. A release that isn't told has no row.
pub type AckEntry = Entry<Visiting, Option<AcknowledgedPartition>>;

// The entry of a partition: its row where it isn't hosted, and else the next visit.
fn next_entry(
    alloc: Global,
    conf: &Config,
    topic_id: Uuid,
    partition: &SharePartition,
    steps: &mut VecDeque<PlanStep>,
) -> Result<Option<AckEntry>, NoMemory>
    ensures entry { IfOk result (λ entry. entry ≡ entry_at conf.now.topics steps.old.items (topic_id, partition.now)) }
    ensures left { OnOk result (steps.new.items ≡ steps_at conf.now.topics steps.old.items (topic_id, partition.now)) }
{
    let index = partition.partition_index;
    if conf.find(topic_id, index).is_none() {
        let code = unhosted_code(conf, topic_id);
        return Ok(Some(Entry::Known(Some(acknowledged(index, code)))));
    }
    let Some(step) = steps.pop_front() else {
        return Ok(None);
    };
    let step = KeptStep::new(alloc, step)?;
    let told = Some(PartitionId { topic_id, index });
    Ok(Some(Entry::Ask(Visiting { step, told })))
}

fn place_topic(
    alloc: Global,
    conf: &Config,
    topic: &ShareTopic<SharePartition>,
    steps: &mut VecDeque<PlanStep>,
    left: &mut VecDeque<AckEntry>,
) -> Result<(), NoMemory>
    ensures left { OnOk result (left.new.items ≡ left.old.items ++ placed conf.now.topics steps.old.items (topic_entries topic.now)) }
    ensures steps { OnOk result (steps.new.items ≡ steps_left conf.now.topics steps.old.items (topic_entries topic.now)) }
{
    let partitions = topic.partitions.as_slice();
    left.reserve(partitions.len())?;
    for partition in partitions {
        if let Some(entry) = next_entry(alloc, conf, topic.topic_id, partition, steps)? {
            left.push_back(entry)?;
        }
    }
    Ok(())
}

/// The partitions of the topics are put behind what is left, each with its row or with the next of these visits.
pub fn place_all(
    alloc: Global,
    conf: &Config,
    topics: &[ShareTopic<SharePartition>],
    mut steps: VecDeque<PlanStep>,
    left: &mut VecDeque<AckEntry>,
) -> Result<(), NoMemory>
    ensures { OnOk result (left.new.items ≡ left.old.items ++ placed conf.now.topics steps.items (entries topics.now)) }
{
    for topic in topics {
        place_topic(alloc, conf, topic, &mut steps, left)?;
    }
    Ok(())
}
