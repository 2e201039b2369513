// The messages of the session.
ghost use Rattle.std.specs.Prelude.{◌≡◌, ◌<◌, ◌^◌, [], ◌∷◌, pos, IfOk};
ghost use Rattle.gen_load.specs.Frames.{ack_message, fetch_message, partition_with, produce_message, type_number};

use crate::counts::Member;
use crate::records::batch_of;
use flex_fields::{Items, NoMemory, Text};
use msgs_base::{ProducePartition, ProduceRequest, ProduceTopic};
use msgs_share::{
    AcknowledgementBatch, ShareAckRequest, ShareFetchRequest, SharePartition, ShareTopic,
};
use share_model::AckKind;
use std::alloc::Global;
use uuid::Uuid;

fn one<T: Drop>(alloc: Global, item: T) -> Result<Items<T>, NoMemory>
    ensures { IfOk result (λ items. items ≡ item ∷ []) }
{
    let mut list = Vec::new(alloc);
    list.push(item)?;
    Ok(Items::new(list))
}

/// The Produce of a round.
pub(crate) fn produce_message(alloc: Global, round: u32) -> Result<ProduceRequest, NoMemory>
    ensures { IfOk result (λ message. message ≡ produce_message round) }
{
    let topic = ProduceTopic {
        name: Text::new(alloc, "orders")?,
        partition_data: one(
            alloc,
            ProducePartition {
                index: 0,
                records: Some(batch_of(alloc, round)?),
            },
        )?,
    };
    Ok(ProduceRequest {
        transactional_id: None,
        acks: -1,
        timeout_ms: 30000,
        topic_data: one(alloc, topic)?,
    })
}

fn partition_with(
    alloc: Global,
    batches: Items<AcknowledgementBatch>,
) -> Result<Items<ShareTopic<SharePartition>>, NoMemory>
    ensures { IfOk result (λ topics. topics ≡ partition_with batches) }
{
    let partition = SharePartition {
        partition_index: 0,
        acknowledgement_batches: batches,
    };
    one(
        alloc,
        ShareTopic {
            topic_id: Uuid::from_bytes([0x22; 16]),
            partitions: one(alloc, partition)?,
        },
    )
}

/// A ShareFetch of a member.
pub(crate) fn fetch_message(
    alloc: Global,
    member: Member,
    epoch: u32,
) -> Result<ShareFetchRequest, NoMemory>
    requires { epoch < 2 ^ 31 }
    ensures { IfOk result (λ message. message ≡ fetch_message member epoch) }
{
    Ok(ShareFetchRequest {
        group_id: Some(Text::new(alloc, "g")?),
        member_id: Some(Text::new(alloc, member.id())?),
        share_session_epoch: epoch as i32,
        max_wait_ms: 0,
        min_bytes: 1,
        max_bytes: 1048576,
        max_records: 500,
        batch_size: 500,
        topics: partition_with(alloc, Items::new(Vec::new(alloc)))?,
        forgotten_topics_data: Items::new(Vec::new(alloc)),
    })
}

fn type_number(kind: AckKind) -> i8
    ensures { result ≡ pos (type_number kind) }
{
    match kind {
        AckKind::Gap => 0,
        AckKind::Accept => 1,
        AckKind::Release => 2,
        AckKind::Reject => 3,
    }
}

/// A ShareAcknowledge of a member: one type for the offsets from the first to the last.
pub(crate) fn ack_message(
    alloc: Global,
    member: Member,
    epoch: u32,
    kind: AckKind,
    first: u32,
    last: u32,
) -> Result<ShareAckRequest, NoMemory>
    requires { epoch < 2 ^ 31 }
    ensures { IfOk result (λ message. message ≡ ack_message member epoch kind first last) }
{
    let batch = AcknowledgementBatch {
        first_offset: i64::from(first),
        last_offset: i64::from(last),
        acknowledge_types: one(alloc, type_number(kind))?,
    };
    Ok(ShareAckRequest {
        group_id: Some(Text::new(alloc, "g")?),
        member_id: Some(Text::new(alloc, member.id())?),
        share_session_epoch: epoch as i32,
        topics: partition_with(alloc, one(alloc, batch)?)?,
    })
}
