// DescribeShareGroupOffsets.
ghost use Rattle.std.specs.Prelude.{◌≡◌, ◌≤◌, ◌++◌, map, flat_map, take, drop, IfOk, OnOk};
ghost use Rattle.topic_conf.specs.Topics.{partitions};
ghost use Rattle.describe_calls.specs.Groups.{group_entries};
ghost use Rattle.describe_calls.specs.GroupOffsets.{all_topics, asked_offsets, asked_topic, come_to, described_offsets, described_partition, described_topic, entries_asked, group_offsets_reply, offsets_by_rows, offsets_of, table_at, whole_partition, whole_topic};

use crate::hosted::{id_named, shard_in};
use crate::looks::{
    GROUP_ID_NOT_FOUND, GroupAsk, GroupRow, TableRow, is_there, plan_group, shards_of,
};
use call_fold::{Entry, next_rows};
use flex_fields::{Bytes, Items, Text};
use log_calls::NamedShape;
use msgs_admin::{
    AskedGroup, DescribeOffsetsReply, DescribeOffsetsRequest, DescribedOffsets, DescribedPartition,
    DescribedTopic, NamedTopic, write_describe_offsets_reply,
};
use share_model::{Code, NoMemory};
use std::alloc::Global;
use std::collections::VecDeque;
use topic_conf::{Config, Topic};
use uuid::Uuid;

/// Where a group has come to that has no table.
const NO_TABLE: TableRow = TableRow {
    start: -1,
    lag: -1,
    held: None,
};

/// A partition of a request, and its shard. `None` where it isn't hosted.
#[derive(Clone, Copy)]
pub struct AskedPartition {
    pub index: i32,
    pub shard: Option<u32>,
}

/// A topic of a request, and its id. `None` where it isn't hosted.
#[derive(Drop)]
pub struct AskedTopic {
    pub name: Text,
    pub id: Option<Uuid>,
    pub partitions: Items<AskedPartition>,
}

/// A group of a request, with how many rows it has, and the topics that are asked for. `None` stands for all.
#[derive(Drop)]
pub struct AskedOffsets {
    pub shape: NamedShape,
    pub topics: Option<Items<AskedTopic>>,
}

/// A plan of a DescribeShareGroupOffsets: all hosted topics, the groups, and its entries.
#[derive(Drop)]
pub struct GroupOffsetsPlan {
    pub all: Items<AskedTopic>,
    pub groups: Items<AskedOffsets>,
    pub left: VecDeque<Entry<GroupAsk, GroupRow>>,
}

fn asked_topic(alloc: Global, conf: &Config, topic: NamedTopic<i32>) -> Result<AskedTopic, NoMemory>
    ensures { IfOk result (λ asked. asked ≡ asked_topic conf.now.topics topic) }
{
    let NamedTopic { name, partitions } = topic;
    let id = id_named(conf, name.as_str());
    let indexes = partitions.into_vec();
    let mut partitions = Vec::with_capacity(alloc, indexes.len())?;
    for index in indexes {
        let shard = shard_in(conf, &id, index);
        partitions.push(AskedPartition { index, shard })?;
    }
    Ok(AskedTopic {
        name,
        id,
        partitions: Items::new(partitions),
    })
}

fn asked_topics(
    alloc: Global,
    conf: &Config,
    topics: Items<NamedTopic<i32>>,
) -> Result<Items<AskedTopic>, NoMemory>
    ensures { IfOk result (λ asked. asked ≡ map (asked_topic conf.now.topics) topics) }
{
    let topics = topics.into_vec();
    let mut asked = Vec::with_capacity(alloc, topics.len())?;
    for topic in topics {
        asked.push(asked_topic(alloc, conf, topic)?)?;
    }
    Ok(Items::new(asked))
}

// A partition of a hosted topic.
fn whole_partition(conf: &Config, topic: Uuid, number: u32) -> AskedPartition
    requires { number ≤ 64 }
    ensures { result ≡ whole_partition conf.now.topics topic number }
{
    let index = number as i32;
    AskedPartition {
        index,
        shard: conf.find(topic, index),
    }
}

// A hosted topic with all its partitions.
fn whole_topic(alloc: Global, conf: &Config, topic: &Topic) -> Result<AskedTopic, NoMemory>
    requires { topic.now.parts ≤ 64 }
    ensures { IfOk result (λ whole. whole ≡ whole_topic conf.now.topics topic.now) }
{
    let mut partitions = Vec::with_capacity(alloc, topic.parts as usize)?;
    for number in 0..topic.parts {
        partitions.push(whole_partition(conf, topic.id, number))?;
    }
    Ok(AskedTopic {
        name: Text::new(alloc, topic.name.as_str())?,
        id: Some(topic.id),
        partitions: Items::new(partitions),
    })
}

// All hosted topics.
fn all_topics(alloc: Global, conf: &Config) -> Result<Items<AskedTopic>, NoMemory>
    ensures { IfOk result (λ asked. asked ≡ all_topics conf.now.topics) }
{
    let topics = conf.topics();
    let mut all = Vec::with_capacity(alloc, topics.len())?;
    for topic in topics {
        all.push(whole_topic(alloc, conf, topic)?)?;
    }
    Ok(Items::new(all))
}

// The questions about one group are put behind those that are left.
fn plan_one(
    alloc: Global,
    conf: &Config,
    shards: u32,
    group: AskedGroup,
    left: &mut VecDeque<Entry<GroupAsk, GroupRow>>,
) -> Result<AskedOffsets, NoMemory>
    requires { shards ≤ 64 }
    ensures asked { IfOk result (λ asked. asked ≡ asked_offsets conf.now.topics shards group) }
    ensures left { OnOk result (left.new.items ≡ left.old.items ++ entries_asked shards group) }
{
    let AskedGroup { group_id, topics } = group;
    let shape = plan_group(shards, group_id, left)?;
    let topics = match topics {
        None => None,
        Some(topics) => Some(asked_topics(alloc, conf, topics)?),
    };
    Ok(AskedOffsets { shape, topics })
}

/// The plan of a DescribeShareGroupOffsets.
pub fn plan_group_offsets(
    alloc: Global,
    conf: &Config,
    request: DescribeOffsetsRequest,
) -> Result<GroupOffsetsPlan, NoMemory>
    ensures all { IfOk result (λ plan. plan.all ≡ all_topics conf.now.topics) }
    ensures groups { IfOk result (λ plan. plan.groups ≡ map (asked_offsets conf.now.topics (partitions conf.now.topics)) request.groups) }
    ensures left { IfOk result (λ plan. plan.left.items ≡ flat_map (entries_asked (partitions conf.now.topics)) request.groups) }
{
    let DescribeOffsetsRequest { groups: asked } = request;
    let asked = asked.into_vec();
    let shards = shards_of(conf);
    let mut groups = Vec::with_capacity(alloc, asked.len())?;
    let mut left = VecDeque::new(alloc);
    for one in asked {
        let group = plan_one(alloc, conf, shards, one, &mut left)?;
        groups.push(group)?;
    }
    Ok(GroupOffsetsPlan {
        all: all_topics(alloc, conf)?,
        groups: Items::new(groups),
        left,
    })
}

// How far a group has come in the partition of this shard.
fn table_at(rows: &[GroupRow], shard: u32) -> TableRow
    ensures { result ≡ table_at rows.now shard }
{
    match rows.get(shard as usize + 1) {
        Some(GroupRow::Table(Some(table))) => *table,
        _ => NO_TABLE,
    }
}

// What a reply tells of a partition.
fn come_to(index: i32, code: Code, table: TableRow) -> DescribedPartition
    ensures { result ≡ come_to index code table }
{
    DescribedPartition {
        partition_index: index,
        start_offset: table.start,
        leader_epoch: 0,
        lag: table.lag,
        error_code: code.0,
        error_message: None,
        held: table.held,
    }
}

fn described_partition(rows: &[GroupRow], asked: AskedPartition) -> DescribedPartition
    ensures { result ≡ described_partition rows.now asked }
{
    match asked.shard {
        Some(shard) => come_to(asked.index, Code::NONE, table_at(rows, shard)),
        None => come_to(asked.index, Code::UNKNOWN_TOPIC_OR_PARTITION, NO_TABLE),
    }
}

fn described_topic(
    alloc: Global,
    rows: &[GroupRow],
    topic: &AskedTopic,
) -> Result<DescribedTopic, NoMemory>
    ensures { IfOk result (λ told. told ≡ described_topic rows.now topic.now) }
{
    let asked = topic.partitions.as_slice();
    let mut partitions = Vec::with_capacity(alloc, asked.len())?;
    for one in asked {
        partitions.push(described_partition(rows, *one))?;
    }
    Ok(DescribedTopic {
        topic_name: Text::new(alloc, topic.name.as_str())?,
        topic_id: topic.id.unwrap_or(Uuid::nil()),
        partitions: Items::new(partitions),
    })
}

fn described_topics(
    alloc: Global,
    rows: &[GroupRow],
    topics: &Items<AskedTopic>,
) -> Result<Items<DescribedTopic>, NoMemory>
    ensures { IfOk result (λ told. told ≡ map (described_topic rows.now) topics.now) }
{
    let topics = topics.as_slice();
    let mut told = Vec::with_capacity(alloc, topics.len())?;
    for topic in topics {
        told.push(described_topic(alloc, rows, topic)?)?;
    }
    Ok(Items::new(told))
}

// What a reply tells of a group with these rows.
fn described_offsets(
    alloc: Global,
    all: &Items<AskedTopic>,
    id: Text,
    topics: &Option<Items<AskedTopic>>,
    rows: &[GroupRow],
) -> Result<DescribedOffsets, NoMemory>
    ensures { IfOk result (λ told. told ≡ described_offsets all.now id topics.now rows.now) }
{
    if !is_there(rows) {
        return Ok(DescribedOffsets {
            group_id: id,
            topics: Items::new(Vec::new(alloc)),
            error_code: GROUP_ID_NOT_FOUND.0,
            error_message: None,
        });
    }
    let topics = match topics {
        None => described_topics(alloc, rows, all)?,
        Some(topics) => described_topics(alloc, rows, topics)?,
    };
    Ok(DescribedOffsets {
        group_id: id,
        topics,
        error_code: Code::NONE.0,
        error_message: None,
    })
}

// The next group takes its rows.
fn next_offsets(
    alloc: Global,
    all: &Items<AskedTopic>,
    asked: AskedOffsets,
    rows: &mut VecDeque<GroupRow>,
) -> Result<DescribedOffsets, NoMemory>
    ensures told { IfOk result (λ told. told ≡ offsets_of all.now asked (take asked.shape.count rows.old.items)) }
    ensures left { OnOk result (rows.new.items ≡ drop asked.shape.count rows.old.items) }
{
    let AskedOffsets { shape, topics } = asked;
    let NamedShape { name, count } = shape;
    let own = next_rows(alloc, count, rows)?;
    described_offsets(alloc, all, name, &topics, own.as_slice())
}

/// The body of the reply with these rows, one for each entry of the plan.
pub fn group_offsets_body(
    alloc: Global,
    all: &Items<AskedTopic>,
    asked: Items<AskedOffsets>,
    mut rows: VecDeque<GroupRow>,
) -> Result<Bytes, NoMemory>
    ensures { IfOk result (λ body. body ≡ group_offsets_reply (offsets_by_rows all.now asked rows.items)) }
{
    let asked = asked.into_vec();
    let mut groups = Vec::with_capacity(alloc, asked.len())?;
    for one in asked {
        let group = next_offsets(alloc, all, one, &mut rows)?;
        groups.push(group)?;
    }
    let reply = DescribeOffsetsReply {
        throttle_time_ms: 0,
        groups: Items::new(groups),
    };
    write_describe_offsets_reply(alloc, &reply)
}
