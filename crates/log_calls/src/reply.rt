// The reply to Produce, which has the form of its request.
ghost use Rattle.std.specs.Prelude.{◌≡◌, ◌<◌, ◌^◌, take, drop, IfOk, OnOk};
ghost use Rattle.call_fold.specs.Parts.{HasTellableBase};
ghost use Rattle.log_calls.specs.Produce.{code_row, base_row, log_row, rows_by_topic, reply_of};

use crate::codes::batch_code;
use crate::shape::NamedShape;
use call_fold::{Produced, next_rows};
use flex_fields::{Bytes, Items, Version};
use msgs_base::{ProducePartitionReply, ProduceReply, ProduceTopicReply, write_produce_reply};
use share_model::{Code, NoMemory, Placed};
use std::alloc::Global;
use std::collections::VecDeque;

/// What a reply tells of a partition by its code alone.
pub fn code_row(alloc: Global, index: i32, code: Code) -> ProducePartitionReply
    ensures { result ≡ code_row index code }
{
    ProducePartitionReply {
        index,
        error_code: code.0,
        base_offset: -1,
        log_append_time_ms: -1,
        log_start_offset: -1,
        record_errors: Items::new(Vec::new(alloc)),
        error_message: None,
    }
}

// What it tells of a batch that is stored from this offset on.
fn base_row(alloc: Global, index: i32, placed: Placed) -> ProducePartitionReply
    requires { (placed.base < 2 ^ 63) × (placed.start < 2 ^ 63) }
    ensures { result ≡ base_row index placed }
{
    ProducePartitionReply {
        index,
        error_code: Code::NONE.0,
        base_offset: placed.base as i64,
        log_append_time_ms: -1,
        log_start_offset: placed.start as i64,
        record_errors: Items::new(Vec::new(alloc)),
        error_message: None,
    }
}

/// What a reply tells of a partition whose log says this.
pub fn log_row(alloc: Global, index: i32, produced: Produced) -> ProducePartitionReply
    requires { HasTellableBase produced }
    ensures { result ≡ log_row index produced }
{
    match produced {
        Produced::Base(placed) => base_row(alloc, index, placed),
        Produced::Batch(fault) => code_row(alloc, index, batch_code(fault)),
        Produced::Store(_) => code_row(alloc, index, Code::KAFKA_STORAGE_ERROR),
    }
}

// The rows of one topic.
fn topic_rows(
    alloc: Global,
    shape: NamedShape,
    rows: &mut VecDeque<ProducePartitionReply>,
) -> Result<ProduceTopicReply, NoMemory>
    ensures topic { IfOk result (λ topic. topic ≡ record { name = shape.name; partition_responses = take shape.count rows.old.items }) }
    ensures left { OnOk result (rows.new.items ≡ drop shape.count rows.old.items) }
{
    let NamedShape { name, count } = shape;
    let partition_responses = next_rows(alloc, count, rows)?;
    Ok(ProduceTopicReply {
        name,
        partition_responses,
    })
}

// The rows under their topics.
fn group_rows(
    alloc: Global,
    shape: Items<NamedShape>,
    mut rows: VecDeque<ProducePartitionReply>,
) -> Result<Items<ProduceTopicReply>, NoMemory>
    ensures { IfOk result (λ topics. topics ≡ rows_by_topic shape rows.items) }
{
    let shape = shape.into_vec();
    let mut topics = Vec::with_capacity(alloc, shape.len())?;
    for one in shape {
        let topic = topic_rows(alloc, one, &mut rows)?;
        topics.push(topic)?;
    }
    Ok(Items::new(topics))
}

/// The body of the reply with these rows in this version, where one is wanted.
pub fn produce_body(
    alloc: Global,
    version: Version,
    replies: bool,
    shape: Items<NamedShape>,
    rows: VecDeque<ProducePartitionReply>,
) -> Result<Option<Bytes>, NoMemory>
    ensures { IfOk result (λ body. body ≡ reply_of version replies (rows_by_topic shape rows.items)) }
{
    if !replies {
        return Ok(None);
    }
    let reply = ProduceReply {
        responses: group_rows(alloc, shape, rows)?,
        throttle_time_ms: 0,
    };
    let body = write_produce_reply(alloc, version, &reply)?;
    Ok(Some(body))
}
