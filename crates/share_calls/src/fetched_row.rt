// A partition of the reply to ShareFetch, as it is kept until the reply is written.
ghost use Rattle.std.specs.Prelude.{◌≡◌, IfOk};
ghost use Rattle.msgs_share.specs.ShareFetchReply.{fetched_partition};
ghost use Rattle.share_calls.specs.FetchedRows.{leader, refused};

use flex_fields::{Cursor, Items, Out, Wire, WireFault};
use msgs_share::{CurrentLeader, FetchedPartition};
use share_model::{Code, NoMemory};
use std::alloc::Global;
use std::marker::Model;

/// What is kept of a partition.
#[derive(Drop)]
enum Kept {
    /// Of one that isn't hosted its number, its code, and the code of its acknowledgements.
    Refused { index: i32, code: i16, ack: i16 },
    /// Of one that was visited all that the reply tells.
    Visited(Box<FetchedPartition>),
}

/// What the reply tells of a partition. One that isn't hosted takes a few bytes. A contract sees what is told.
#[derive(Drop)]
pub struct FetchedRow {
    alloc: Global,
    kept: Kept,
}

impl Model for FetchedRow {
    ghost use Rattle.msgs_share.specs.declared.share_fetch_reply.FetchedPartition.{FetchedPartition};
    ghost use Rattle.share_calls.specs.FetchedRows.{told_of};

    ghost Value = { FetchedPartition };

    ghost view = { λ r. told_of r.kept };
}

/// The leader of each partition: this broker.
pub fn leader() -> CurrentLeader
    ensures { result ≡ leader }
{
    CurrentLeader {
        leader_id: 1,
        leader_epoch: 0,
    }
}

// What the reply tells of a partition that isn't hosted. It takes no memory.
fn told_of_refused(alloc: Global, index: i32, code: i16, ack: i16) -> FetchedPartition
    ensures { result ≡ refused index code ack }
{
    FetchedPartition {
        partition_index: index,
        error_code: code,
        error_message: None,
        acknowledge_error_code: ack,
        acknowledge_error_message: None,
        current_leader: leader(),
        records: Some(Items::new(Vec::new(alloc))),
        acquired_records: Items::new(Vec::new(alloc)),
    }
}

impl FetchedRow {
    /// A partition that isn't hosted, with its code and that of its acknowledgements.
    pub fn refused(alloc: Global, index: i32, code: Code, ack: Code) -> FetchedRow
        ensures { result ≡ refused index code.0 ack.0 }
    {
        FetchedRow {
            alloc,
            kept: Kept::Refused {
                index,
                code: code.0,
                ack: ack.0,
            },
        }
    }

    /// A partition that was visited.
    pub fn visited(alloc: Global, told: FetchedPartition) -> Result<FetchedRow, NoMemory>
        ensures { IfOk result (λ row. row ≡ told) }
    {
        let told = Box::new(alloc, told)?;
        Ok(FetchedRow {
            alloc,
            kept: Kept::Visited(told),
        })
    }
}

impl Wire for FetchedRow {
    ghost format = { fetched_partition };

    fn take(alloc: Global, cursor: &mut Cursor<'_>) -> Result<Self, WireFault> {
        let told = FetchedPartition::take(alloc, cursor)?;
        match FetchedRow::visited(alloc, told) {
            Ok(row) => Ok(row),
            Err(NoMemory) => Err(WireFault::NoMemory),
        }
    }

    fn put(&self, out: &mut Out) -> Result<(), NoMemory> {
        match &self.kept {
            Kept::Refused { index, code, ack } => {
                told_of_refused(self.alloc, *index, *code, *ack).put(out)
            }
            Kept::Visited(told) => told.as_ref().put(out),
        }
    }
}
