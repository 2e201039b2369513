// What the reply to ShareFetch tells of its partitions.
ghost use Rattle.std.specs.Prelude.{◌≡◌, ◌++◌, ◌+◌, ◌<◌, ◌^◌, map, length, All, IfOk, OnOk};
ghost use Rattle.std.specs.List.{filter_map};
ghost use Rattle.call_fold.specs.Parts.{IsTellableGrant, IsTellableVisit};
ghost use Rattle.share_session.specs.Requests.{topic_entries, entries};
ghost use Rattle.share_calls.specs.Fetch.{acquired, fetch_row, unhosted_row, unhosted_of, known};

use crate::codes::{ack_code, fetch_code, unhosted_code};
use crate::fetched_row::{FetchedRow, leader};
use crate::partition::PartitionId;
use crate::visiting::Visiting;
use call_fold::Entry;
use flex_fields::Items;
use msgs_share::{AcquiredRecords, FetchedPartition, Records, SharePartition, ShareTopic};
use share_model::{Blob, Code, Grant, NoMemory, VisitAnswer};
use share_session::Purpose;
use std::alloc::Global;
use std::collections::VecDeque;
use topic_conf::Config;
use uuid::Uuid;

/// A partition of the reply, and its topic.
#[derive(Drop)]
pub struct FetchRow {
    pub topic_id: Uuid,
    pub partition: FetchedRow,
}

fn acquired(grant: &Grant) -> AcquiredRecords
    requires { IsTellableGrant grant.now }
    ensures { result ≡ acquired grant.now }
{
    AcquiredRecords {
        first_offset: grant.first as i64,
        last_offset: grant.last as i64,
        delivery_count: grant.count as i16,
    }
}

fn all_acquired(alloc: Global, grants: &[Grant]) -> Result<Items<AcquiredRecords>, NoMemory>
    requires tellable { All IsTellableGrant grants.now }
    requires few { length grants.now + 1 < 2 ^ 32 }
    ensures { IfOk result (λ records. records ≡ map acquired grants.now) }
{
    let mut records = Vec::with_capacity(alloc, grants.len())?;
    for grant in grants {
        records.push(acquired(grant))?;
    }
    Ok(Items::new(records))
}

/// The most bytes whose number and one have 32 bits.
const MOST_BYTES: usize = u32::MAX as usize - 1;

// Batches as a field of the reply. More bytes than its length can say are as many as no memory holds.
fn records_of(batches: Blob) -> Result<Records, NoMemory>
    ensures { IfOk result (λ records. records ≡ batches) }
{
    let bytes = batches.into_vec();
    if bytes.len() > MOST_BYTES {
        return Err(NoMemory);
    }
    Ok(Items::new(bytes))
}

/// The row of a visited partition.
pub fn fetch_row(
    alloc: Global,
    purpose: Purpose,
    id: PartitionId,
    answer: VisitAnswer,
) -> Result<FetchRow, NoMemory>
    requires { IsTellableVisit answer }
    ensures { IfOk result (λ row. row ≡ fetch_row purpose answer id) }
{
    let acquired_records = all_acquired(alloc, answer.grants.as_slice())?;
    let VisitAnswer {
        ack,
        then,
        batches,
        ..
    } = answer;
    let told = FetchedPartition {
        partition_index: id.index,
        error_code: fetch_code(purpose, then).0,
        error_message: None,
        acknowledge_error_code: ack_code(ack).0,
        acknowledge_error_message: None,
        current_leader: leader(),
        records: Some(records_of(batches)?),
        acquired_records,
    };
    Ok(FetchRow {
        topic_id: id.topic_id,
        partition: FetchedRow::visited(alloc, told)?,
    })
}

// The row of a partition that isn't hosted.
fn unhosted_row(alloc: Global, code: Code, topic_id: Uuid, partition: &SharePartition) -> FetchRow
    ensures { result ≡ unhosted_row code (topic_id, partition.now) }
{
    let ack = if partition.acknowledgement_batches.as_slice().is_empty() {
        Code::NONE
    } else {
        code
    };
    FetchRow {
        topic_id,
        partition: FetchedRow::refused(alloc, partition.partition_index, code, ack),
    }
}

// The row of a partition, unless it is hosted.
fn unhosted_of(
    alloc: Global,
    conf: &Config,
    topic_id: Uuid,
    partition: &SharePartition,
) -> Option<FetchRow>
    ensures { result ≡ unhosted_of conf.now.topics (topic_id, partition.now) }
{
    match conf.find(topic_id, partition.partition_index) {
        Some(_) => None,
        None => {
            let code = unhosted_code(conf, topic_id);
            Some(unhosted_row(alloc, code, topic_id, partition))
        }
    }
}

fn push_unhosted(
    alloc: Global,
    conf: &Config,
    topic: &ShareTopic<SharePartition>,
    left: &mut VecDeque<Entry<Visiting, Option<FetchRow>>>,
) -> Result<(), NoMemory>
    ensures { OnOk result (left.new.items ≡ left.old.items ++ map known (filter_map (unhosted_of conf.now.topics) (topic_entries topic.now))) }
{
    let partitions = topic.partitions.as_slice();
    left.reserve(partitions.len())?;
    for partition in partitions {
        if let Some(row) = unhosted_of(alloc, conf, topic.topic_id, partition) {
            left.push_back(Entry::Known(Some(row)))?;
        }
    }
    Ok(())
}

/// The rows of the partitions that aren't hosted are put behind what is left.
pub fn push_all_unhosted(
    alloc: Global,
    conf: &Config,
    topics: &[ShareTopic<SharePartition>],
    left: &mut VecDeque<Entry<Visiting, Option<FetchRow>>>,
) -> Result<(), NoMemory>
    ensures { OnOk result (left.new.items ≡ left.old.items ++ map known (filter_map (unhosted_of conf.now.topics) (entries topics.now))) }
{
    for topic in topics {
        push_unhosted(alloc, conf, topic, left)?;
    }
    Ok(())
}
