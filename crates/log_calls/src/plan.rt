// The entries of a Produce.
ghost use Rattle.std.specs.Prelude.{◌≡◌, ◌++◌, map, flat_map, IfOk, OnOk};
ghost use Rattle.log_calls.specs.Produce.{id_named, shard_in, fate, fate_of, entry_of, topic_entries, shape_of};

use crate::reply::code_row;
use crate::shape::NamedShape;
use call_fold::Entry;
use flex_fields::{Bytes, Items};
use msgs_base::{ProducePartition, ProducePartitionReply, ProduceTopic};
use share_model::{Code, NoMemory};
use std::alloc::Global;
use std::collections::VecDeque;
use topic_conf::Config;
use uuid::Uuid;

/// The records of a partition, which a log is asked to take as one batch.
#[derive(Drop)]
pub struct Offer {
    pub index: i32,
    pub shard: u32,
    pub batch: Bytes,
}

/// A plan of a Produce: the form of its reply, and its entries.
#[derive(Drop)]
pub struct Plan {
    pub shape: Items<NamedShape>,
    pub left: VecDeque<Entry<Offer, ProducePartitionReply>>,
}

// The id of the hosted topic of this name.
pub fn id_named(conf: &Config, name: &str) -> Option<Uuid>
    ensures { result ≡ id_named conf.now.topics name.now }
{
    let Some(place) = conf.by_name(name) else {
        return None;
    };
    match conf.topics().get(place as usize) {
        Some(topic) => Some(topic.id),
        None => None,
    }
}

// The number of the partition's shard, where it is hosted.
pub fn shard_in(conf: &Config, id: &Option<Uuid>, index: i32) -> Option<u32>
    ensures { result ≡ shard_in conf.now.topics id.now index }
{
    match id {
        Some(id) => conf.find(*id, index),
        None => None,
    }
}

// The entry of a partition; `id` is that of its topic, where that is hosted.
fn plan_partition(
    alloc: Global,
    conf: &Config,
    refusal: Option<Code>,
    id: &Option<Uuid>,
    partition: ProducePartition,
) -> Entry<Offer, ProducePartitionReply>
    ensures { result ≡ entry_of partition.index (fate refusal (shard_in conf.now.topics id.now partition.index) partition.records) }
{
    let ProducePartition { index, records } = partition;
    if let Some(code) = refusal {
        return Entry::Known(code_row(alloc, index, code));
    }
    let Some(shard) = shard_in(conf, id, index) else {
        return Entry::Known(code_row(alloc, index, Code::UNKNOWN_TOPIC_OR_PARTITION));
    };
    let Some(batch) = records else {
        return Entry::Known(code_row(alloc, index, Code::INVALID_RECORD));
    };
    Entry::Ask(Offer {
        index,
        shard,
        batch,
    })
}

fn plan_partitions(
    alloc: Global,
    conf: &Config,
    refusal: Option<Code>,
    id: &Option<Uuid>,
    partitions: Vec<ProducePartition>,
    left: &mut VecDeque<Entry<Offer, ProducePartitionReply>>,
) -> Result<(), NoMemory>
    ensures { OnOk result (left.new.items
        ≡ left.old.items ++ map (λ p. entry_of p.index (fate refusal (shard_in conf.now.topics id.now p.index) p.records)) partitions.items) }
{
    for partition in partitions {
        let entry = plan_partition(alloc, conf, refusal, id, partition);
        left.push_back(entry)?;
    }
    Ok(())
}

// The entries of one topic are put behind those that are left.
fn plan_topic(
    alloc: Global,
    conf: &Config,
    refusal: Option<Code>,
    topic: ProduceTopic,
    left: &mut VecDeque<Entry<Offer, ProducePartitionReply>>,
) -> Result<NamedShape, NoMemory>
    ensures shape { IfOk result (λ shape. shape ≡ shape_of topic) }
    ensures left { OnOk result (left.new.items ≡ left.old.items ++ topic_entries conf.now.topics refusal topic) }
{
    let ProduceTopic {
        name,
        partition_data,
    } = topic;
    let id = id_named(conf, name.as_str());
    let partitions = partition_data.into_vec();
    let count = partitions.len() as u32;
    plan_partitions(alloc, conf, refusal, &id, partitions, left)?;
    Ok(NamedShape { name, count })
}

/// The entries of the topics; a request that is refused has that code in each.
pub fn plan_topics(
    alloc: Global,
    conf: &Config,
    refusal: Option<Code>,
    topics: Items<ProduceTopic>,
) -> Result<Plan, NoMemory>
    ensures shape { IfOk result (λ plan. plan.shape ≡ map shape_of topics) }
    ensures left { IfOk result (λ plan. plan.left.items ≡ flat_map (topic_entries conf.now.topics refusal) topics) }
{
    let topics = topics.into_vec();
    let mut shape = Vec::with_capacity(alloc, topics.len())?;
    let mut left = VecDeque::new(alloc);
    for topic in topics {
        let one = plan_topic(alloc, conf, refusal, topic, &mut left)?;
        shape.push(one)?;
    }
    Ok(Plan {
        shape: Items::new(shape),
        left,
    })
}
