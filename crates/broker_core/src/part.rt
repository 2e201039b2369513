// Restarts of the shard of a hosted partition on its three disks.
ghost use Rattle.std.specs.Prelude.{◌≡◌, ◌≢◌, ◌⊎◌, IfOk, IfErr, MatchResult};
ghost use Rattle.edge_io.specs.Causes.{Rose};
ghost use Rattle.edge_io.specs.Names.{IsTopicName};
ghost use Rattle.share_part.specs.Shards.{PartShardState};
ghost use Rattle.broker_hosts.specs.Carried.{GoesOn, IsPartCarried};
ghost use Rattle.broker_hosts.specs.Hosts.{PartStandsAlone};
ghost use Rattle.broker_hosts.specs.Openings.{PartImagesStandAs};
ghost use Rattle.broker_core.specs.Restarts.{IsRestartedPart};

use crate::fault::lose;
use broker_hosts::{CoreOpen, open_part};
use edge_io::Disk;
use share_model::Name;
use share_part::{PartConf, PartShard};
use std::alloc::Global;
use window_runs::WindowRuns;

/// Loses the power of a partition's three disks, and opens it again. They come back at an `Err`.
pub fn restart_part<D: Disk>(
    alloc: Global,
    topic: &Name,
    conf: PartConf,
    part: PartShard<D, WindowRuns>,
    choice: u64,
) -> Result<PartShard<D, WindowRuns>, ((D, D, D), CoreOpen)>
    requires { IsTopicName topic.now }
    ensures ok { IfOk result (λ new. (s : PartShardState) → IsPartCarried D.seen conf part s →
        IsRestartedPart D.seen choice conf part s new) }
    ensures err { IfErr result (λ e. (s : PartShardState) → IsPartCarried D.seen conf part s →
        PartStandsAlone D.seen conf s e.0.0 e.0.1 e.0.2 × (e.1 ≡ CoreOpen.NoMemory)) }
    ensures images { MatchResult result
        (λ new. PartImagesStandAs D.seen part.log.journal.disk part.states.journal.first.disk part.states.journal.second.disk
        new.log.journal.disk new.states.journal.first.disk new.states.journal.second.disk)
        (λ e. PartImagesStandAs D.seen part.log.journal.disk part.states.journal.first.disk part.states.journal.second.disk e.0.0 e.0.1 e.0.2) }
    ensures device { IfErr result (λ e. e.1 ≡ CoreOpen.Device → Rose (D.seen part.log.journal.disk).faults (D.seen e.0.0).faults
        ⊎ (Rose (D.seen part.states.journal.first.disk).faults (D.seen e.0.1).faults ⊎ Rose (D.seen part.states.journal.second.disk).faults (D.seen e.0.2).faults)) }
    ensures no_bay { IfErr result (λ e. e.1 ≢ CoreOpen.Bay) }
    ensures log { MatchResult result (λ new. GoesOn D.seen part.log.journal.disk new.log.journal.disk)
        (λ e. GoesOn D.seen part.log.journal.disk e.0.0) }
    ensures first { MatchResult result (λ new. GoesOn D.seen part.states.journal.first.disk new.states.journal.first.disk)
        (λ e. GoesOn D.seen part.states.journal.first.disk e.0.1) }
    ensures second { MatchResult result (λ new. GoesOn D.seen part.states.journal.second.disk new.states.journal.second.disk)
        (λ e. GoesOn D.seen part.states.journal.second.disk e.0.2) }
{
    let (mut log, mut first, mut second) = part.into_disks();
    if let Err(fault) = lose(choice, &mut log) {
        return Err(((log, first, second), fault));
    }
    if let Err(fault) = lose(choice, &mut first) {
        return Err(((log, first, second), fault));
    }
    if let Err(fault) = lose(choice, &mut second) {
        return Err(((log, first, second), fault));
    }
    open_part(alloc, topic, conf, (log, first, second))
}
