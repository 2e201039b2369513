ghost use Rattle.msgs_admin.specs.DescribedPartition.{described_partition, OthersRead};

use crate::held_records::{HeldRecords, HeldTag, LentHeld};
use flex_fields::{Cursor, NoMemory, Out, Put, Text, Wire, WireFault};
use std::alloc::Global;

/// How far a group has come with a partition, or an error. Other clients than this project's don't see what is held.
#[derive(Debug, Drop)]
pub struct DescribedPartition {
    pub partition_index: i32,
    pub start_offset: i64,
    pub leader_epoch: i32,
    pub lag: i64,
    pub error_code: i16,
    pub error_message: Option<Text>,
    pub held: Option<HeldRecords>,
}

impl Wire for DescribedPartition {
    ghost format = { described_partition };

    #[tactic(auto, unfolding(crate::specs::DescribedPartition::described_partition))]
    fn take(alloc: Global, cursor: &mut Cursor<'_>) -> Result<Self, WireFault> {
        let (fields, held) = Wire::take(alloc, cursor)?;
        let (partition_index, (start_offset, (leader_epoch, (lag, answered)))) = fields;
        let (error_code, error_message) = answered;
        let held = HeldTag::into_held(held);
        Ok(DescribedPartition {
            partition_index,
            start_offset,
            leader_epoch,
            lag,
            error_code,
            error_message,
            held,
        })
    }

    fn put(&self, out: &mut Out) -> Result<(), NoMemory> {
        let held = LentHeld { held: self.held };
        let answered = (&self.error_code, &self.error_message);
        let come = (
            &self.start_offset,
            (&self.leader_epoch, (&self.lag, answered)),
        );
        ((&self.partition_index, come), held).put_behind(out)
    }
}

/// A client that follows Kafka's schema, and skips each tag, reads the same fields.
pub fn other_clients_read_the_fields()
    ensures { OthersRead }
{}
