// The reply to ShareAcknowledge, which has the form of its request.
ghost use Rattle.std.specs.Prelude.{◌≡◌, map, take, drop, IfOk, OnOk};
ghost use Rattle.share_calls.specs.Acknowledge.{acknowledged, shape_of, rows_by_topic};

use crate::fetched_row::leader;
use call_fold::next_rows;
use flex_fields::Items;
use msgs_share::{AcknowledgedPartition, SharePartition, ShareTopic};
use share_model::{Code, NoMemory};
use std::alloc::Global;
use std::collections::VecDeque;
use std::marker::Model;
use uuid::Uuid;

/// A topic of a request, and how many partitions it has there, fewer than 2^32 - 1.
#[derive(Drop)]
pub struct TopicShape {
    pub topic_id: Uuid,
    pub count: u32,
}

impl Model for TopicShape {
    ghost use Rattle.std.specs.Prelude.{◌+◌, ◌<◌, ◌^◌};
    ghost use Rattle.share_calls.specs.Shapes.{TopicShapeParts};

    ghost Value = { TopicShapeParts };

    ghost view = { λ s. record { topic_id = s.topic_id; count = s.count } };

    ghost invariant = { λ s. s.count + 1 < 2 ^ 32 };
}

/// What the reply tells of a partition.
pub fn acknowledged(index: i32, code: Code) -> AcknowledgedPartition
    ensures { result ≡ acknowledged index code }
{
    AcknowledgedPartition {
        partition_index: index,
        error_code: code.0,
        error_message: None,
        current_leader: leader(),
    }
}

fn shape_of(topic: &ShareTopic<SharePartition>) -> TopicShape
    ensures { result ≡ shape_of topic.now }
{
    TopicShape {
        topic_id: topic.topic_id,
        count: topic.partitions.as_slice().len() as u32,
    }
}

/// The form of a request with these topics.
pub fn shapes_of(
    alloc: Global,
    topics: &Items<ShareTopic<SharePartition>>,
) -> Result<Items<TopicShape>, NoMemory>
    ensures { IfOk result (λ shape. shape ≡ map shape_of topics.now) }
{
    let topics = topics.as_slice();
    let mut shape = Vec::with_capacity(alloc, topics.len())?;
    for topic in topics {
        shape.push(shape_of(topic))?;
    }
    Ok(Items::new(shape))
}

// The rows of one topic.
fn topic_rows(
    alloc: Global,
    shape: TopicShape,
    rows: &mut VecDeque<AcknowledgedPartition>,
) -> Result<ShareTopic<AcknowledgedPartition>, NoMemory>
    ensures topic { IfOk result (λ topic. topic ≡ record { topic_id = shape.topic_id; partitions = take shape.count rows.old.items }) }
    ensures left { OnOk result (rows.new.items ≡ drop shape.count rows.old.items) }
{
    let TopicShape { topic_id, count } = shape;
    let partitions = next_rows(alloc, count, rows)?;
    Ok(ShareTopic {
        topic_id,
        partitions,
    })
}

/// The rows under their topics.
pub fn group_rows(
    alloc: Global,
    shape: Items<TopicShape>,
    mut rows: VecDeque<AcknowledgedPartition>,
) -> Result<Items<ShareTopic<AcknowledgedPartition>>, NoMemory>
    ensures { IfOk result (λ topics. topics ≡ rows_by_topic shape rows.items) }
{
    let shape = shape.into_vec();
    let mut topics = Vec::with_capacity(alloc, shape.len())?;
    for one in shape {
        let topic = topic_rows(alloc, one, &mut rows)?;
        topics.push(topic)?;
    }
    Ok(Items::new(topics))
}
