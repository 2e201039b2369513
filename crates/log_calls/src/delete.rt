// DeleteRecords.
ghost use Rattle.std.specs.Prelude.{◌≡◌, ◌++◌, ◌<◌, ◌^◌, map, take, drop, IfOk, OnOk};
ghost use Rattle.call_fold.specs.Parts.{HasTellableStart};
ghost use Rattle.log_calls.specs.Delete.{delete_acts, delete_reply, delete_row, delete_stage, refused_row, results_by_topic, target_entries, target_entry, target_shape};
ghost use Rattle.log_calls.specs.Produce.{shard_in};

use crate::plan::{id_named, shard_in};
use crate::shape::NamedShape;
use call_fold::{Asking, Call, Entry, Part, PartAnswer, Stage, go_on, next_rows};
use flex_fields::{Bytes, Items};
use msgs_base::{
    DeleteRecordsPartition, DeleteRecordsPartitionResult, DeleteRecordsReply, DeleteRecordsRequest,
    DeleteRecordsTopic, DeleteRecordsTopicResult, write_delete_records_reply,
};
use share_model::{Code, DeleteAnswer, NoMemory};
use std::alloc::Global;
use std::collections::VecDeque;
use topic_conf::Config;
use uuid::Uuid;

/// The offset below which the records of a partition are to go.
#[derive(Clone, Copy)]
pub struct Target {
    pub index: i32,
    pub shard: u32,
    pub offset: i64,
}

/// What a DeleteRecords keeps from entry to entry: the form of its request.
#[derive(Drop)]
pub struct DeleteHand {
    shape: Items<NamedShape>,
}

// What a reply tells of a partition by its code alone.
fn code_row(index: i32, code: Code) -> DeleteRecordsPartitionResult
    ensures { result ≡ refused_row index code }
{
    DeleteRecordsPartitionResult {
        partition_index: index,
        low_watermark: -1,
        error_code: code.0,
    }
}

// What it tells of a partition whose shard says this.
fn delete_row(index: i32, answer: DeleteAnswer) -> DeleteRecordsPartitionResult
    requires { HasTellableStart answer }
    ensures { result ≡ delete_row index answer }
{
    match answer {
        DeleteAnswer::Done { start } => DeleteRecordsPartitionResult {
            partition_index: index,
            low_watermark: start as i64,
            error_code: Code::NONE.0,
        },
        DeleteAnswer::OutOfRange { .. } => code_row(index, Code::OFFSET_OUT_OF_RANGE),
        DeleteAnswer::Store(_) => code_row(index, Code::KAFKA_STORAGE_ERROR),
    }
}

impl Call for DeleteHand {
    type Question = Target;

    type Row = DeleteRecordsPartitionResult;

    ghost acts = { delete_acts };

    fn part(&self, _: Global, question: &Target) -> Result<Part, NoMemory> {
        Ok(Part::Delete {
            shard: question.shard,
            to: question.offset,
        })
    }

    fn row(
        &mut self,
        _: Global,
        question: Target,
        answer: PartAnswer,
    ) -> Result<DeleteRecordsPartitionResult, NoMemory> {
        match answer {
            PartAnswer::Delete(answer) => Ok(delete_row(question.index, answer)),
            PartAnswer::Foreign(_)
            | PartAnswer::Produce(_)
            | PartAnswer::Visit(_)
            | PartAnswer::Look(_)
            | PartAnswer::Heartbeat(_) => unreachable!(),
        }
    }

    fn body(
        self,
        alloc: Global,
        rows: VecDeque<DeleteRecordsPartitionResult>,
    ) -> Result<Option<Bytes>, NoMemory>
        ensures { IfOk result (λ body. body ≡ delete_reply (results_by_topic self.shape rows.items)) }
    {
        delete_body(alloc, self.shape, rows)
    }
}

// The rows of one topic.
fn topic_results(
    alloc: Global,
    shape: NamedShape,
    rows: &mut VecDeque<DeleteRecordsPartitionResult>,
) -> Result<DeleteRecordsTopicResult, NoMemory>
    ensures topic { IfOk result (λ topic. topic ≡ record { name = shape.name; partitions = take shape.count rows.old.items }) }
    ensures left { OnOk result (rows.new.items ≡ drop shape.count rows.old.items) }
{
    let NamedShape { name, count } = shape;
    let partitions = next_rows(alloc, count, rows)?;
    Ok(DeleteRecordsTopicResult { name, partitions })
}

// The rows under their topics.
fn group_results(
    alloc: Global,
    shape: Items<NamedShape>,
    mut rows: VecDeque<DeleteRecordsPartitionResult>,
) -> Result<Items<DeleteRecordsTopicResult>, NoMemory>
    ensures { IfOk result (λ topics. topics ≡ results_by_topic shape rows.items) }
{
    let shape = shape.into_vec();
    let mut topics = Vec::with_capacity(alloc, shape.len())?;
    for one in shape {
        let topic = topic_results(alloc, one, &mut rows)?;
        topics.push(topic)?;
    }
    Ok(Items::new(topics))
}

fn delete_body(
    alloc: Global,
    shape: Items<NamedShape>,
    rows: VecDeque<DeleteRecordsPartitionResult>,
) -> Result<Option<Bytes>, NoMemory>
    ensures { IfOk result (λ body. body ≡ delete_reply (results_by_topic shape rows.items)) }
{
    let reply = DeleteRecordsReply {
        throttle_time_ms: 0,
        topics: group_results(alloc, shape, rows)?,
    };
    let body = write_delete_records_reply(alloc, &reply)?;
    Ok(Some(body))
}

// The entry of a partition; `id` is that of its topic, where that is hosted.
fn plan_partition(
    conf: &Config,
    id: &Option<Uuid>,
    partition: DeleteRecordsPartition,
) -> Entry<Target, DeleteRecordsPartitionResult>
    ensures { result ≡ target_entry partition (shard_in conf.now.topics id.now partition.partition_index) }
{
    let index = partition.partition_index;
    match shard_in(conf, id, index) {
        Some(shard) => Entry::Ask(Target {
            index,
            shard,
            offset: partition.offset,
        }),
        None => Entry::Known(code_row(index, Code::UNKNOWN_TOPIC_OR_PARTITION)),
    }
}

fn plan_partitions(
    conf: &Config,
    id: &Option<Uuid>,
    partitions: Vec<DeleteRecordsPartition>,
    left: &mut VecDeque<Entry<Target, DeleteRecordsPartitionResult>>,
) -> Result<(), NoMemory>
    ensures { OnOk result (left.new.items
        ≡ left.old.items ++ map (λ p. target_entry p (shard_in conf.now.topics id.now p.partition_index)) partitions.items) }
{
    for partition in partitions {
        let entry = plan_partition(conf, id, partition);
        left.push_back(entry)?;
    }
    Ok(())
}

// The entries of one topic are put behind those that are left.
fn plan_topic(
    conf: &Config,
    topic: DeleteRecordsTopic,
    left: &mut VecDeque<Entry<Target, DeleteRecordsPartitionResult>>,
) -> Result<NamedShape, NoMemory>
    ensures shape { IfOk result (λ shape. shape ≡ target_shape topic) }
    ensures left { OnOk result (left.new.items ≡ left.old.items ++ target_entries conf.now.topics topic) }
{
    let DeleteRecordsTopic { name, partitions } = topic;
    let id = id_named(conf, name.as_str());
    let partitions = partitions.into_vec();
    let count = partitions.len() as u32;
    plan_partitions(conf, &id, partitions, left)?;
    Ok(NamedShape { name, count })
}

/// A DeleteRecords begins.
pub fn delete_call(
    alloc: Global,
    conf: &Config,
    request: DeleteRecordsRequest,
) -> Result<Stage<Asking<DeleteHand, Target, DeleteRecordsPartitionResult>>, NoMemory>
    ensures { IfOk result (λ stage. stage ≡ delete_stage conf.now.topics request) }
{
    let DeleteRecordsRequest { topics, .. } = request;
    let topics = topics.into_vec();
    let mut shape = Vec::with_capacity(alloc, topics.len())?;
    let mut left = VecDeque::new(alloc);
    for topic in topics {
        let one = plan_topic(conf, topic, &mut left)?;
        shape.push(one)?;
    }
    let hand = DeleteHand {
        shape: Items::new(shape),
    };
    go_on(alloc, hand, left, VecDeque::new(alloc))
}
