ghost use Rattle.std.specs.Prelude.{IfOk};
ghost use Rattle.flex_fields.specs.Formats.{ReadsWhole, IsSpelling};
ghost use Rattle.msgs_share.specs.ShareFetchReply.{acquired_records, fetched_partition, share_fetch_reply};

use crate::nodes::{CurrentLeader, NodeEndpoint};
use crate::records::{LentRecords, NullRecords, Records};
use crate::share_topic::ShareTopic;
use flex_fields::{
    Bytes, Cursor, Items, NoMemory, Out, Text, Wire, WireFault, put_fields, put_structure,
    read_whole, take_fields, take_structure, write_whole,
};
use std::alloc::Global;

/// Offsets that were acquired, `first_offset` and `last_offset` with them, and how often their records were delivered.
#[derive(Clone, Copy, Debug)]
pub struct AcquiredRecords {
    pub first_offset: i64,
    pub last_offset: i64,
    pub delivery_count: i16,
}

/// What became of one partition: its acknowledgements, and the records that were acquired with the batches that have
/// them.
#[derive(Debug, Drop)]
pub struct FetchedPartition {
    pub partition_index: i32,
    pub error_code: i16,
    pub error_message: Option<Text>,
    pub acknowledge_error_code: i16,
    pub acknowledge_error_message: Option<Text>,
    pub current_leader: CurrentLeader,
    pub records: Option<Records>,
    pub acquired_records: Items<AcquiredRecords>,
}

/// What a ShareFetch gave, or an error.
#[derive(Debug, Drop)]
pub struct ShareFetchReply {
    pub throttle_time_ms: i32,
    pub error_code: i16,
    pub error_message: Option<Text>,
    pub acquisition_lock_timeout_ms: i32,
    pub responses: Items<ShareTopic<FetchedPartition>>,
    pub node_endpoints: Items<NodeEndpoint>,
}

impl Wire for AcquiredRecords {
    ghost format = { acquired_records };

    #[tactic(auto, unfolding(crate::specs::ShareFetchReply::acquired_records))]
    fn take(alloc: Global, cursor: &mut Cursor<'_>) -> Result<Self, WireFault> {
        take_structure!(
            alloc,
            cursor,
            AcquiredRecords {
                first_offset,
                last_offset,
                delivery_count
            }
        )
    }

    fn put(&self, out: &mut Out) -> Result<(), NoMemory> {
        put_structure!(out, self, [first_offset, last_offset, delivery_count])
    }
}

impl Wire for FetchedPartition {
    ghost format = { fetched_partition };

    #[tactic(auto, unfolding(crate::specs::ShareFetchReply::fetched_partition))]
    fn take(alloc: Global, cursor: &mut Cursor<'_>) -> Result<Self, WireFault> {
        let (partition_index, (error_code, (error_message, acknowledged))) = take_fields(
            alloc, cursor,
        )?;
        let (acknowledge_error_code, (acknowledge_error_message, fetched)) = acknowledged;
        let (current_leader, (records, acquired_records)) = fetched;
        let records = NullRecords::into_records(records);
        Ok(FetchedPartition {
            partition_index,
            error_code,
            error_message,
            acknowledge_error_code,
            acknowledge_error_message,
            current_leader,
            records,
            acquired_records,
        })
    }

    fn put(&self, out: &mut Out) -> Result<(), NoMemory> {
        let records = LentRecords {
            records: &self.records,
        };
        let fetched = (&self.current_leader, (records, &self.acquired_records));
        let acknowledged = (
            &self.acknowledge_error_code,
            (&self.acknowledge_error_message, fetched),
        );
        let answered = (&self.error_code, (&self.error_message, acknowledged));
        put_fields(out, (&self.partition_index, answered))
    }
}

impl Wire for ShareFetchReply {
    ghost format = { share_fetch_reply };

    #[tactic(auto, unfolding(crate::specs::ShareFetchReply::share_fetch_reply))]
    fn take(alloc: Global, cursor: &mut Cursor<'_>) -> Result<Self, WireFault> {
        take_structure!(
            alloc,
            cursor,
            ShareFetchReply {
                throttle_time_ms,
                error_code,
                error_message,
                acquisition_lock_timeout_ms,
                responses,
                node_endpoints
            }
        )
    }

    fn put(&self, out: &mut Out) -> Result<(), NoMemory> {
        put_structure!(
            out,
            self,
            [
                throttle_time_ms,
                error_code,
                error_message,
                acquisition_lock_timeout_ms,
                responses,
                node_endpoints
            ]
        )
    }
}

/// Reads the body of the reply to ShareFetch. Places count from its first byte.
pub fn read_share_fetch_reply(alloc: Global, bytes: &[u8]) -> Result<ShareFetchReply, WireFault>
    ensures { ReadsWhole share_fetch_reply bytes.now result }
{
    read_whole(alloc, bytes)
}

/// Writes the body of the reply to ShareFetch.
pub fn write_share_fetch_reply(alloc: Global, message: &ShareFetchReply) -> Result<Bytes, NoMemory>
    ensures { IfOk result (IsSpelling share_fetch_reply message.now) }
{
    write_whole(alloc, message)
}
