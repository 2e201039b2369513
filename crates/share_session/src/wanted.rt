// The hosted partitions that a request names, by their shards.
ghost use Rattle.std.specs.Prelude.{◌≡◌, [], map, nat_eq, false, IfOk, OnOk};
ghost use Rattle.std.specs.Int.{w8, cast_unsigned};
ghost use Rattle.std.specs.List.{filter_map};
ghost use Rattle.indexmap.specs.IndexMap as entry_map;
ghost use Rattle.indexmap.specs.IndexSet as key_set;
ghost use Rattle.share_session.specs.Requests.{topic_entries, entries, has_repeat, ack_batch, wanted_of, wanted_in, forgotten_of, forgotten_in};

use flex_fields::Items;
use indexmap::{IndexMap, IndexSet};
use msgs_share::{AcknowledgementBatch, SharePartition, ShareTopic};
use share_model::{AckBatch, AckList, Blob, NoMemory};
use std::alloc::Global;
use topic_conf::Config;

// The types, each as the byte of its number.
fn types_of(alloc: Global, types: &[i8]) -> Result<Blob, NoMemory>
    ensures { IfOk result (λ bytes. bytes ≡ map (cast_unsigned w8) types.now) }
{
    let mut bytes = Vec::with_capacity(alloc, types.len())?;
    for number in types {
        bytes.push(number.cast_unsigned())?;
    }
    Ok(Blob::new(bytes))
}

fn ack_batch(alloc: Global, batch: &AcknowledgementBatch) -> Result<AckBatch, NoMemory>
    ensures { IfOk result (λ b. b ≡ ack_batch batch.now) }
{
    Ok(AckBatch {
        first: batch.first_offset,
        last: batch.last_offset,
        types: types_of(alloc, batch.acknowledge_types.as_slice())?,
    })
}

// The acknowledgements for one partition. There is no memory for 2^32 types.
#[tactic(auto, using(crate::proofs::Lists::types_in_snoc))]
fn acks_of(alloc: Global, batches: &Items<AcknowledgementBatch>) -> Result<AckList, NoMemory>
    ensures { IfOk result (λ acks. acks ≡ map ack_batch batches.now) }
{
    let batches = batches.as_slice();
    let mut list = Vec::with_capacity(alloc, batches.len())?;
    let mut room = u32::MAX;
    for batch in batches {
        let count = batch.acknowledge_types.as_slice().len();
        if count > room as usize {
            return Err(NoMemory);
        }
        room -= count as u32;
        list.push(ack_batch(alloc, batch)?)?;
    }
    Ok(AckList::new(Items::new(list)))
}

fn want_topic(
    alloc: Global,
    conf: &Config,
    topic: &ShareTopic<SharePartition>,
    wanted: &mut IndexMap<u32, AckList>,
) -> Result<(), NoMemory>
    ensures { OnOk result (wanted.new.entries ≡ entry_map.insert_all nat_eq wanted.old.entries
        (filter_map (wanted_of conf.now.topics) (topic_entries topic.now))) }
{
    for partition in topic.partitions.as_slice() {
        if let Some(shard) = conf.find(topic.topic_id, partition.partition_index) {
            let acks = acks_of(alloc, &partition.acknowledgement_batches)?;
            wanted.insert(shard, acks)?;
        }
    }
    Ok(())
}

// The shards of the hosted partitions of the topics, with the acknowledgements for them. A shard that stands twice
// has the later ones, at the first place.
fn wanted_in(
    alloc: Global,
    conf: &Config,
    topics: &[ShareTopic<SharePartition>],
) -> Result<IndexMap<u32, AckList>, NoMemory>
    ensures { IfOk result (λ wanted. wanted.entries ≡ entry_map.insert_all nat_eq [] (wanted_in conf.now.topics topics.now)) }
{
    let mut wanted = IndexMap::new(alloc);
    for topic in topics {
        want_topic(alloc, conf, topic, &mut wanted)?;
    }
    Ok(wanted)
}

/// The shards of the hosted partitions of the topics, in which no partition stands twice, with the acknowledgements
/// for them.
pub fn wanted_once(
    alloc: Global,
    conf: &Config,
    topics: &[ShareTopic<SharePartition>],
) -> Result<IndexMap<u32, AckList>, NoMemory>
    requires { has_repeat (entries topics.now) ≡ false }
    ensures { IfOk result (λ wanted. wanted.entries ≡ wanted_in conf.now.topics topics.now) }
{
    let wanted = wanted_in(alloc, conf, topics)?;
    Ok(wanted)
}

fn forget_topic(
    conf: &Config,
    topic: &ShareTopic<i32>,
    forgotten: &mut IndexSet<u32>,
) -> Result<(), NoMemory>
    ensures { OnOk result (forgotten.new.keys ≡ key_set.insert_all nat_eq forgotten.old.keys
        (filter_map (forgotten_of conf.now.topics) (topic_entries topic.now))) }
{
    for partition in topic.partitions.as_slice() {
        if let Some(shard) = conf.find(topic.topic_id, *partition) {
            forgotten.insert(shard)?;
        }
    }
    Ok(())
}

/// The shards of the hosted partitions of the topics, each once.
pub fn forgotten_in(
    alloc: Global,
    conf: &Config,
    topics: &[ShareTopic<i32>],
) -> Result<IndexSet<u32>, NoMemory>
    ensures { IfOk result (λ forgotten. forgotten.keys ≡ forgotten_in conf.now.topics topics.now) }
{
    let mut forgotten = IndexSet::new(alloc);
    for topic in topics {
        forget_topic(conf, topic, &mut forgotten)?;
    }
    Ok(forgotten)
}
