// What a reply hands out: its records as lines of text, and how each granted offset is acknowledged.
ghost use Rattle.std.specs.Prelude.{◌≡◌, ◌≤◌, ◌+◌, ◌-◌, ◌∷◌, ◌++◌, [], ℕ, List, flat_map, map, length, IfOk, OnOk, ◌^◌, ◌<◌};
ghost use Rattle.std.specs.Option.{option_copied, option_map};
ghost use Rattle.rec_batch.specs.Batches.{at_least_zero};
ghost use Rattle.share_client.specs.Deliveries.{acknowledgements, deliveries, delivered, entry_acknowledged, entry_deliveries, run_acknowledged, run_deliveries, run_first, lines, runs_deliveries, slot_deliveries, slots_from, topic_acknowledged, type_of};
ghost use Rattle.share_client.specs.Grants.{AreStored, Batch, Entry, content_of, entries_of};
ghost use Rattle.share_client.specs.Readers.{Adds, AreSound, Hands, IsSound, LeftFrom, Rise};
ghost use Rattle.share_client.specs.Records.{OffsetRecord, all_records, found_at};

use crate::fetched::{LocatedFetch, LocatedPartition};
use crate::items::items_of;
use crate::located::Located;
use crate::page::{Page, PartitionName};
use crate::reader::{Reader, from_zero};
use flex_fields::Items;
use msgs_share::{AcknowledgementBatch, AcquiredRecords, Records, SharePartition, ShareTopic};
use share_model::NoMemory;
use std::alloc::Global;
use uuid::Uuid;

/// The acknowledgement types of an offset without a record, and of one whose record is taken.
const GAP: i8 = 0;

const ACCEPT: i8 = 1;

// Puts the record of an offset on the page, and gives the offset's acknowledgement type.
fn put_slot(
    alloc: Global,
    page: &mut Page,
    name: &PartitionName,
    offset: u64,
    acquired: &AcquiredRecords,
    found: Option<Option<&[u8]>>,
) -> Result<i8, NoMemory>
    ensures acknowledged { IfOk result (λ t. t ≡ type_of (option_map (λ v. option_copied v) found.entry)) }
    ensures added { OnOk result (Adds (delivered (name.now.topic, name.now.partition) acquired.now.delivery_count offset (option_map (λ v. option_copied v) found.entry)) page.old page.new) }
{
    match found {
        None => Ok(GAP),
        Some(value) => {
            page.put_line(alloc, name, offset, acquired.delivery_count, value)?;
            Ok(ACCEPT)
        }
    }
}

// The records of the offsets from `first` to `last`, and the acknowledgement type of each.
fn read_slots<'a>(
    alloc: Global,
    page: &mut Page,
    name: &PartitionName,
    reader: Reader<'a>,
    first: u64,
    last: u64,
    acquired: &AcquiredRecords,
) -> Result<(Vec<i8>, Reader<'a>), NoMemory>
    requires reader { (records : List OffsetRecord) × LeftFrom first records reader }
    requires order { first ≤ last }
    requires low { last < 2 ^ 63 }
    ensures acknowledged { IfOk result (λ x. (records : List OffsetRecord) → LeftFrom first records reader.entry →
        x.0.items ≡ map (λ s. type_of s.found) (slots_from records first (last + 1 - first))) }
    ensures added { OnOk result ((records : List OffsetRecord) → LeftFrom first records reader.entry →
        Adds (slot_deliveries (name.now.topic, name.now.partition) acquired.now.delivery_count (slots_from records first (last + 1 - first))) page.old page.new) }
    ensures left { IfOk result (λ x. (records : List OffsetRecord) → LeftFrom first records reader.entry → LeftFrom (last + 1) records x.1) }
{
    let mut types = Vec::new(alloc);
    let mut reader = reader;
    let mut offset = first;
    while offset <= last {
        let (found, after) = reader.find(offset);
        types.push(put_slot(alloc, page, name, offset, acquired, found)?)?;
        reader = after;
        offset += 1;
    }
    Ok((types, reader))
}

// The records of an element, and its acknowledgements.
fn read_run<'a>(
    alloc: Global,
    page: &mut Page,
    name: &PartitionName,
    reader: Reader<'a>,
    acquired: &AcquiredRecords,
) -> Result<(AcknowledgementBatch, Reader<'a>), NoMemory>
    requires reader { (records : List OffsetRecord) × LeftFrom (run_first acquired.now) records reader }
    requires order { run_first acquired.now ≤ at_least_zero acquired.now.last_offset }
    ensures acknowledged { IfOk result (λ x. (records : List OffsetRecord) → LeftFrom (run_first acquired.now) records reader.entry →
        x.0 ≡ run_acknowledged records acquired.now) }
    ensures added { OnOk result ((records : List OffsetRecord) → LeftFrom (run_first acquired.now) records reader.entry →
        Adds (run_deliveries (name.now.topic, name.now.partition) records acquired.now) page.old page.new) }
    ensures left { IfOk result (λ x. (records : List OffsetRecord) → LeftFrom (run_first acquired.now) records reader.entry →
        LeftFrom (at_least_zero acquired.now.last_offset + 1) records x.1) }
{
    let first = from_zero(acquired.first_offset);
    let last = from_zero(acquired.last_offset);
    let (types, after) = read_slots(alloc, page, name, reader, first, last, acquired)?;
    let batch = AcknowledgementBatch {
        first_offset: acquired.first_offset,
        last_offset: acquired.last_offset,
        acknowledge_types: items_of(types)?,
    };
    Ok((batch, after))
}

// The records of a partition's elements, and their acknowledgements.
fn read_runs(
    alloc: Global,
    page: &mut Page,
    name: &PartitionName,
    content: &[u8],
    acquired: &[Located<AcquiredRecords>],
) -> Result<Vec<AcknowledgementBatch>, NoMemory>
    requires stored { (found : List Batch) × AreStored 0 content.now found }
    requires rise { Rise 0 acquired.now }
    ensures acknowledged { IfOk result (λ batches. batches.items ≡ map (λ a. run_acknowledged (all_records content.now) a.item) acquired.now) }
    ensures added { OnOk result (Adds (runs_deliveries (name.now.topic, name.now.partition) (all_records content.now) acquired.now) page.old page.new) }
{
    let mut batches = Vec::new(alloc);
    let mut reader = Reader::new(content);
    let mut rest = acquired;
    while let Some((located, others)) = rest.split_first() {
        let (batch, after) = read_run(alloc, page, name, reader, &located.item)?;
        batches.push(batch)?;
        reader = after;
        rest = others;
    }
    Ok(batches)
}

// The bytes of the batches, which null has none of.
fn content_of(records: &Option<Located<Records>>) -> &[u8]
    ensures { result.now ≡ content_of records.now }
{
    match records {
        None => &[],
        Some(records) => records.item.as_slice(),
    }
}

/// What a reply hands out: its lines, and the acknowledgements of all that it grants.
#[derive(Drop)]
pub struct Handout {
    pub page: Page,
    pub topics: Vec<ShareTopic<SharePartition>>,
}

// One partition of a topic, with the acknowledgements for it.
fn topic_of(
    alloc: Global,
    name: &PartitionName,
    batches: Vec<AcknowledgementBatch>,
) -> Result<ShareTopic<SharePartition>, NoMemory>
    ensures { IfOk result (λ t. t ≡ record { topic_id = name.now.topic; partitions = record { partition_index = name.now.partition; acknowledgement_batches = batches.items } ∷ [] }) }
{
    let mut partitions = Vec::new(alloc);
    partitions.push(SharePartition {
        partition_index: name.partition,
        acknowledgement_batches: items_of(batches)?,
    })?;
    Ok(ShareTopic {
        topic_id: name.topic,
        partitions: items_of(partitions)?,
    })
}

// Adds the acknowledgements of a partition, where there are any.
fn put_topic(
    alloc: Global,
    topics: &mut Vec<ShareTopic<SharePartition>>,
    name: &PartitionName,
    batches: Vec<AcknowledgementBatch>,
) -> Result<(), NoMemory>
    ensures { OnOk result (topics.new.items ≡ topics.old.items ++ topic_acknowledged (name.now.topic, name.now.partition) batches.items) }
{
    if batches.is_empty() {
        return Ok(());
    }
    topics.push(topic_of(alloc, name, batches)?)?;
    Ok(())
}

// Hands out what a partition's entry grants.
fn read_entry(
    alloc: Global,
    handout: &mut Handout,
    topic: Uuid,
    located: &Located<LocatedPartition>,
) -> Result<(), NoMemory>
    requires { IsSound (topic, located.now) }
    ensures { OnOk result (Hands ((topic, located.now) ∷ []) handout.old handout.new) }
{
    let partition = &located.item;
    if partition.error_code != 0 {
        return Ok(());
    }
    let name = PartitionName {
        topic,
        partition: partition.partition_index,
    };
    let acquired = partition.acquired_records.as_slice();
    let content = content_of(&partition.records);
    let batches = read_runs(alloc, &mut handout.page, &name, content, acquired)?;
    put_topic(alloc, &mut handout.topics, &name, batches)?;
    Ok(())
}

// Hands out what the partitions of a topic grant.
#[tactic(auto, using(crate::proofs::Delivering::hands_from, crate::proofs::Delivering::hands_on, crate::proofs::Delivering::hands_all, crate::proofs::Delivering::first_sound))]
fn read_topic(
    alloc: Global,
    handout: &mut Handout,
    topic: &ShareTopic<Located<LocatedPartition>>,
) -> Result<(), NoMemory>
    requires { AreSound (entries_of topic.now) }
    ensures { OnOk result (Hands (entries_of topic.now) handout.old handout.new) }
{
    let mut rest = topic.partitions.as_slice();
    while let Some((located, others)) = rest.split_first() {
        read_entry(alloc, handout, topic.topic_id, located)?;
        rest = others;
    }
    Ok(())
}

#[tactic(auto, using(crate::proofs::Delivering::hands_from, crate::proofs::Delivering::hands_on, crate::proofs::Delivering::hands_all, crate::proofs::Delivering::front_sound))]
fn read_topics(
    alloc: Global,
    handout: &mut Handout,
    topics: &[ShareTopic<Located<LocatedPartition>>],
) -> Result<(), NoMemory>
    requires { AreSound (flat_map entries_of topics.now) }
    ensures { OnOk result (Hands (flat_map entries_of topics.now) handout.old handout.new) }
{
    let mut rest = topics;
    while let Some((topic, others)) = rest.split_first() {
        read_topic(alloc, handout, topic)?;
        rest = others;
    }
    Ok(())
}

/// What a reply hands out, whose partitions can be so.
pub fn read_grants(alloc: Global, reply: &LocatedFetch) -> Result<Handout, NoMemory>
    requires { AreSound (flat_map entries_of reply.now.responses) }
    ensures text { IfOk result (λ h. h.page.text ≡ lines (deliveries reply.now)) }
    ensures count { IfOk result (λ h. h.page.count ≡ length (deliveries reply.now)) }
    ensures topics { IfOk result (λ h. h.topics.items ≡ acknowledgements reply.now) }
{
    let mut handout = Handout {
        page: Page::new(alloc),
        topics: Vec::new(alloc),
    };
    read_topics(alloc, &mut handout, reply.responses.as_slice())?;
    Ok(handout)
}
