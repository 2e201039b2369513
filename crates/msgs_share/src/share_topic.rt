ghost use Rattle.msgs_share.specs.ShareTopic.{acknowledgement_batch, share_partition, share_topic};

use flex_fields::{Cursor, Items, NoMemory, Out, Wire, WireFault, put_structure, take_structure};
use std::alloc::Global;
use uuid::Uuid;

/// Offsets, `first_offset` and `last_offset` with them, and what is said of their records: one type for each, or one
/// for all.
#[derive(Debug, Drop)]
pub struct AcknowledgementBatch {
    pub first_offset: i64,
    pub last_offset: i64,
    pub acknowledge_types: Items<i8>,
}

/// A partition of a request, and the acknowledgements for it.
#[derive(Debug, Drop)]
pub struct SharePartition {
    pub partition_index: i32,
    pub acknowledgement_batches: Items<AcknowledgementBatch>,
}

/// What is said of the partitions of one topic.
#[derive(Debug, Drop)]
pub struct ShareTopic<P> {
    pub topic_id: Uuid,
    pub partitions: Items<P>,
}

impl Wire for AcknowledgementBatch {
    ghost format = { acknowledgement_batch };

    #[tactic(auto, unfolding(crate::specs::ShareTopic::acknowledgement_batch))]
    fn take(alloc: Global, cursor: &mut Cursor<'_>) -> Result<Self, WireFault> {
        take_structure!(
            alloc,
            cursor,
            AcknowledgementBatch {
                first_offset,
                last_offset,
                acknowledge_types
            }
        )
    }

    fn put(&self, out: &mut Out) -> Result<(), NoMemory> {
        put_structure!(out, self, [first_offset, last_offset, acknowledge_types])
    }
}

impl Wire for SharePartition {
    ghost format = { share_partition };

    #[tactic(auto, unfolding(crate::specs::ShareTopic::share_partition))]
    fn take(alloc: Global, cursor: &mut Cursor<'_>) -> Result<Self, WireFault> {
        take_structure!(
            alloc,
            cursor,
            SharePartition {
                partition_index,
                acknowledgement_batches
            }
        )
    }

    fn put(&self, out: &mut Out) -> Result<(), NoMemory> {
        put_structure!(out, self, [partition_index, acknowledgement_batches])
    }
}

impl<P: Wire> Wire for ShareTopic<P> {
    ghost format = { share_topic P.format };

    #[tactic(auto, unfolding(crate::specs::ShareTopic::share_topic))]
    fn take(alloc: Global, cursor: &mut Cursor<'_>) -> Result<Self, WireFault> {
        take_structure!(
            alloc,
            cursor,
            ShareTopic {
                topic_id,
                partitions
            }
        )
    }

    fn put(&self, out: &mut Out) -> Result<(), NoMemory> {
        put_structure!(out, self, [topic_id, partitions])
    }
}
