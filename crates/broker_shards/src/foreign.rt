// The shard of foreign state behind a lock.
ghost use Rattle.edge_io.specs.Armed.{RunsOn};
ghost use Rattle.broker_shards.specs.Acts.{ActsOnForeign};
ghost use Rattle.broker_shards.specs.Crashes.{FoundOnForeign};

use edge_io::Disk;
use foreign_coord::ForeignShard;
use shard_lock::Shard;
use share_model::{ForeignAnswer, ForeignOp, NoMemory};

/// A call on the state of partitions that this broker doesn't host. It has no moment.
#[derive(Drop)]
pub struct ForeignEvent {
    pub op: ForeignOp,
}

/// The shard of foreign state.
#[derive(Drop)]
pub struct ForeignHost<D: Disk> {
    pub foreign: ForeignShard<D>,
}

/// Does a call on foreign state.
pub fn act_on_foreign<D: Disk>(
    op: &ForeignOp,
    foreign: &mut ForeignShard<D>,
) -> Result<ForeignAnswer, NoMemory>
    ensures acts { ActsOnForeign D.seen op.now foreign.old result foreign.new }
    ensures first { RunsOn D.seen foreign.old.journal.first.disk foreign.new.journal.first.disk }
    ensures second { RunsOn D.seen foreign.old.journal.second.disk foreign.new.journal.second.disk }
    ensures within { FoundOnForeign D.seen op.now foreign.old foreign.new }
{
    match foreign.act(op) {
        Ok(answer) => return Ok(answer),
        Err(fault) => return Err(fault),
    }
}

impl<D: Disk> Shard for ForeignHost<D> {
    type Event = ForeignEvent;

    type Answer = Result<ForeignAnswer, NoMemory>;

    ghost use Rattle.broker_shards.specs.Acts.{ActsForeign};

    ghost acts = { ActsForeign D.seen };

    fn act(&mut self, event: &ForeignEvent) -> Result<ForeignAnswer, NoMemory> {
        act_on_foreign(&event.op, &mut self.foreign)
    }
}
