// What makes a request one that no session may have.
ghost use Rattle.std.specs.Prelude.{◌≡◌, ◌||◌, ◌++◌, ℕ, List, IfOk, not, length, nat_eq};
ghost use Rattle.std.specs.List.{list_any};
ghost use Rattle.msgs_share.specs.declared.share_topic.SharePartition.{SharePartition};
ghost use Rattle.share_session.specs.Requests.{topic_entries, entries, has_repeat, has_batches};
ghost use Rattle.share_session.specs.Seen.{was_seen, repeats};

use msgs_share::{SharePartition, ShareTopic};
use share_model::NoMemory;
use std::alloc::Global;
use std::collections::BTreeSet;
use uuid::Uuid;

// Whether a partition of the topic was seen before. Those of the topic are seen from then on.
fn repeats_in(
    topic: &ShareTopic<SharePartition>,
    seen: &mut BTreeSet<(Uuid, i32)>,
) -> Result<bool, NoMemory>
    ensures { IfOk result (λ found. (rest : List (List ℕ × SharePartition)) →
        repeats (was_seen seen.old.keys) (topic_entries topic.now ++ rest) ≡ (found || repeats (was_seen seen.new.keys) rest)) }
{
    for partition in topic.partitions.as_slice() {
        let fresh = seen.insert((topic.topic_id, partition.partition_index))?;
        if !fresh {
            return Ok(true);
        }
    }
    Ok(false)
}

/// Whether a partition stands twice, hosted or not.
pub fn has_repeat(alloc: Global, topics: &[ShareTopic<SharePartition>]) -> Result<bool, NoMemory>
    ensures { IfOk result (λ found. found ≡ has_repeat (entries topics.now)) }
{
    let mut seen = BTreeSet::new(alloc);
    for topic in topics {
        let found = repeats_in(topic, &mut seen)?;
        if found {
            return Ok(true);
        }
    }
    Ok(false)
}

fn has_batches_in(topic: &ShareTopic<SharePartition>) -> bool
    ensures { result ≡ list_any (λ p. not (nat_eq (length p.acknowledgement_batches) 0)) topic.now.partitions }
{
    topic
        .partitions
        .as_slice()
        .iter()
        .any(|p| !p.acknowledgement_batches.as_slice().is_empty())
}

/// Whether there is an acknowledgement batch, for a hosted partition or another.
pub fn has_batches(topics: &[ShareTopic<SharePartition>]) -> bool
    ensures { result ≡ has_batches topics.now }
{
    topics.iter().any(has_batches_in)
}
