// ListOffsets.
ghost use Rattle.std.specs.Prelude.{◌≡◌, ◌++◌, ◌≤◌, ◌^◌, map, flat_map, take, drop, IfOk, OnOk};
ghost use Rattle.flex_fields.specs.Formats.{IsSpelling};
ghost use Rattle.msgs_admin.specs.ListOffsetsReply.{list_offsets_reply};
ghost use Rattle.log_calls.specs.Produce.{shard_in};
ghost use Rattle.describe_calls.specs.Offsets.{end_asked, found_row, offset_entries, offset_entry, offset_row, offsets_by_topic, offsets_reply, offsets_shape, refused_row};

use crate::hosted::{id_named, shard_in};
use call_fold::{Entry, next_rows};
use flex_fields::{Bytes, Items};
use log_calls::NamedShape;
use msgs_admin::{
    FoundOffset, ListOffsetsPartition, ListOffsetsReply, ListOffsetsRequest, NamedTopic,
    write_list_offsets_reply,
};
use share_model::{Code, NoMemory};
use std::alloc::Global;
use std::collections::VecDeque;
use topic_conf::Config;
use uuid::Uuid;

/// The timestamp that stands for a log's start.
const EARLIEST: i64 = -2;

/// The timestamp that stands for a log's end.
const LATEST: i64 = -1;

/// Where a log starts and where it ends, as its shard tells it. Each is at most 2^62.
#[derive(Clone, Copy)]
pub struct LogEnds {
    pub start: u64,
    pub end: u64,
}

/// Which end of a log is asked for.
#[derive(Clone, Copy)]
pub enum End {
    Earliest,
    Latest,
}

/// The shard of a partition is asked where its log starts and ends.
#[derive(Clone, Copy)]
pub struct OffsetAsk {
    pub index: i32,
    pub shard: u32,
    pub end: End,
}

/// A plan of a ListOffsets: the form of its reply, and its entries.
#[derive(Drop)]
pub struct OffsetsPlan {
    pub shape: Items<NamedShape>,
    pub left: VecDeque<Entry<OffsetAsk, FoundOffset>>,
}

// Which end a timestamp stands for.
fn end_asked(timestamp: i64) -> Option<End>
    ensures { result ≡ end_asked timestamp }
{
    if timestamp == EARLIEST {
        return Some(End::Earliest);
    }
    if timestamp == LATEST {
        return Some(End::Latest);
    }
    None
}

// What a reply tells of a partition by its code alone.
fn refused_row(index: i32, code: Code) -> FoundOffset
    ensures { result ≡ refused_row index code }
{
    FoundOffset {
        partition_index: index,
        error_code: code.0,
        timestamp: -1,
        offset: -1,
        leader_epoch: -1,
    }
}

// What it tells of one whose offset was found.
fn found_row(index: i32, offset: u64) -> FoundOffset
    requires { offset ≤ 2 ^ 62 }
    ensures { result ≡ found_row index offset }
{
    FoundOffset {
        partition_index: index,
        error_code: Code::NONE.0,
        timestamp: -1,
        offset: offset as i64,
        leader_epoch: 0,
    }
}

/// The row that the answer to a question makes.
pub fn offset_row(ask: OffsetAsk, ends: LogEnds) -> FoundOffset
    requires start { ends.start ≤ 2 ^ 62 }
    requires end { ends.end ≤ 2 ^ 62 }
    ensures { result ≡ offset_row ask ends }
{
    match ask.end {
        End::Earliest => found_row(ask.index, ends.start),
        End::Latest => found_row(ask.index, ends.end),
    }
}

// The entry of a partition; `id` is that of its topic, where that is hosted.
fn plan_partition(
    conf: &Config,
    id: &Option<Uuid>,
    partition: ListOffsetsPartition,
) -> Entry<OffsetAsk, FoundOffset>
    ensures { result ≡ offset_entry partition (shard_in conf.now.topics id.now partition.partition_index) }
{
    let index = partition.partition_index;
    let Some(shard) = shard_in(conf, id, index) else {
        return Entry::Known(refused_row(index, Code::UNKNOWN_TOPIC_OR_PARTITION));
    };
    match end_asked(partition.timestamp) {
        Some(end) => Entry::Ask(OffsetAsk { index, shard, end }),
        None => Entry::Known(refused_row(index, Code::INVALID_REQUEST)),
    }
}

fn plan_partitions(
    conf: &Config,
    id: &Option<Uuid>,
    partitions: Vec<ListOffsetsPartition>,
    left: &mut VecDeque<Entry<OffsetAsk, FoundOffset>>,
) -> Result<(), NoMemory>
    ensures { OnOk result (left.new.items
        ≡ left.old.items ++ map (λ p. offset_entry p (shard_in conf.now.topics id.now p.partition_index)) partitions.items) }
{
    for partition in partitions {
        let entry = plan_partition(conf, id, partition);
        left.push_back(entry)?;
    }
    Ok(())
}

// The entries of one topic are put behind those that are left.
fn plan_topic(
    conf: &Config,
    topic: NamedTopic<ListOffsetsPartition>,
    left: &mut VecDeque<Entry<OffsetAsk, FoundOffset>>,
) -> Result<NamedShape, NoMemory>
    ensures shape { IfOk result (λ shape. shape ≡ offsets_shape topic) }
    ensures left { OnOk result (left.new.items ≡ left.old.items ++ offset_entries conf.now.topics topic) }
{
    let NamedTopic { name, partitions } = topic;
    let id = id_named(conf, name.as_str());
    let partitions = partitions.into_vec();
    let count = partitions.len() as u32;
    plan_partitions(conf, &id, partitions, left)?;
    Ok(NamedShape { name, count })
}

/// The plan of a ListOffsets.
pub fn plan_offsets(
    alloc: Global,
    conf: &Config,
    request: ListOffsetsRequest,
) -> Result<OffsetsPlan, NoMemory>
    ensures shape { IfOk result (λ plan. plan.shape ≡ map offsets_shape request.topics) }
    ensures left { IfOk result (λ plan. plan.left.items ≡ flat_map (offset_entries conf.now.topics) request.topics) }
{
    let ListOffsetsRequest { topics, .. } = request;
    let topics = topics.into_vec();
    let mut shape = Vec::with_capacity(alloc, topics.len())?;
    let mut left = VecDeque::new(alloc);
    for topic in topics {
        let one = plan_topic(conf, topic, &mut left)?;
        shape.push(one)?;
    }
    Ok(OffsetsPlan {
        shape: Items::new(shape),
        left,
    })
}

// The rows of one topic.
fn topic_rows(
    alloc: Global,
    shape: NamedShape,
    rows: &mut VecDeque<FoundOffset>,
) -> Result<NamedTopic<FoundOffset>, NoMemory>
    ensures topic { IfOk result (λ topic. topic ≡ record { name = shape.name; partitions = take shape.count rows.old.items }) }
    ensures left { OnOk result (rows.new.items ≡ drop shape.count rows.old.items) }
{
    let NamedShape { name, count } = shape;
    let partitions = next_rows(alloc, count, rows)?;
    Ok(NamedTopic { name, partitions })
}

// The rows under their topics.
fn group_rows(
    alloc: Global,
    shape: Items<NamedShape>,
    mut rows: VecDeque<FoundOffset>,
) -> Result<Items<NamedTopic<FoundOffset>>, NoMemory>
    ensures { IfOk result (λ topics. topics ≡ offsets_by_topic shape rows.items) }
{
    let shape = shape.into_vec();
    let mut topics = Vec::with_capacity(alloc, shape.len())?;
    for one in shape {
        let topic = topic_rows(alloc, one, &mut rows)?;
        topics.push(topic)?;
    }
    Ok(Items::new(topics))
}

/// The body of the reply with these rows, one for each entry of the plan.
pub fn offsets_body(
    alloc: Global,
    shape: Items<NamedShape>,
    rows: VecDeque<FoundOffset>,
) -> Result<Bytes, NoMemory>
    ensures { IfOk result (λ body. body ≡ offsets_reply (offsets_by_topic shape rows.items)) }
{
    let reply = ListOffsetsReply {
        throttle_time_ms: 0,
        topics: group_rows(alloc, shape, rows)?,
    };
    write_list_offsets_reply(alloc, &reply)
}
