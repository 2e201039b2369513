// Restarts of the shard of foreign state on its two disks.
ghost use Rattle.std.specs.Prelude.{◌≡◌, ◌≢◌, ◌⊎◌, IfOk, IfErr, MatchResult};
ghost use Rattle.edge_io.specs.Causes.{Rose};
ghost use Rattle.foreign_coord.specs.Shards.{ForeignShardState};
ghost use Rattle.broker_hosts.specs.Carried.{IsCarried, GoesOn};
ghost use Rattle.broker_hosts.specs.Openings.{ImagesStandAs};
ghost use Rattle.broker_core.specs.Restarts.{IsRestartedShard, IsNotRestarted};

use broker_hosts::{CoreOpen, fault_of_call, open_foreign};
use edge_io::Disk;
use foreign_coord::ForeignShard;
use std::alloc::Global;

/// Loses the power of both disks of a shard, and opens it again. They come back at an `Err`.
pub fn restart<D: Disk>(
    alloc: Global,
    shard: ForeignShard<D>,
    choice: u64,
) -> Result<ForeignShard<D>, (D, D, CoreOpen)>
    ensures ok { IfOk result (λ new. (s : ForeignShardState) → IsCarried D.seen shard s →
        IsRestartedShard D.seen choice shard s new) }
    ensures err { IfErr result (λ e. (s : ForeignShardState) → IsCarried D.seen shard s →
        IsNotRestarted D.seen s e.0 e.1 × (e.2 ≡ CoreOpen.NoMemory)) }
    ensures images { MatchResult result
        (λ new. ImagesStandAs D.seen shard.journal.first.disk shard.journal.second.disk new.journal.first.disk new.journal.second.disk)
        (λ e. ImagesStandAs D.seen shard.journal.first.disk shard.journal.second.disk e.0 e.1) }
    ensures device { IfErr result (λ e. e.2 ≡ CoreOpen.Device →
        Rose (D.seen shard.journal.first.disk).faults (D.seen e.0).faults ⊎ Rose (D.seen shard.journal.second.disk).faults (D.seen e.1).faults) }
    ensures no_bay { IfErr result (λ e. e.2 ≢ CoreOpen.Bay) }
    ensures first { MatchResult result (λ new. GoesOn D.seen shard.journal.first.disk new.journal.first.disk)
        (λ e. GoesOn D.seen shard.journal.first.disk e.0) }
    ensures second { MatchResult result (λ new. GoesOn D.seen shard.journal.second.disk new.journal.second.disk)
        (λ e. GoesOn D.seen shard.journal.second.disk e.1) }
{
    let (mut first, mut second) = shard.into_disks();
    if let Err(_) = first.power_loss(choice) {
        let fault = fault_of_call(&first);
        return Err((first, second, fault));
    }
    if let Err(_) = second.power_loss(choice) {
        let fault = fault_of_call(&second);
        return Err((first, second, fault));
    }
    open_foreign(alloc, first, second)
}
