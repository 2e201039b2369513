// A server, from the opening of its shards to their closing.
ghost use Rattle.std.specs.Prelude.{◌≡◌, ◌<◌, ◌+◌, ◌^◌, [], List, ℕ};
ghost use Rattle.edge_io.specs.Bays.{SameSlot};
ghost use Rattle.broker_model.specs.Hosted.{IsTaken};
ghost use Rattle.broker_hosts.specs.Bays.{AreOut, TellsStill};
ghost use Rattle.broker_run.specs.Homes.{HasLinksEnd};
ghost use Rattle.broker_locks.specs.Opening.{IsRefused};
ghost use Rattle.broker_run.specs.Server.{EndsServing, Serves};
ghost use Rattle.broker_run.specs.Working.{HasWorked};

use crate::jobs::{LinksEnd, serve_links};
use crate::owned::{JobOwned, JobShared};
use broker_hosts::CoreOpen;
use broker_locks::{close_shared, open_shared};
use edge_io::{Bay, Clock, Disk, Gate, Listener, Spawner};
use std::alloc::Global;
use std::sync::Wait;
use topic_conf::Config;

/// What became of a server.
#[derive(Drop)]
pub enum Served {
    /// Its shards weren't opened, or memory ran out before the first job was started: no link was served.
    Refused(CoreOpen),
    /// It served links until this end, and its disks are back.
    Ended(LinksEnd),
}

/// Opens the shards of a broker over the disks of a bay, serves so many links by so many workers, with the expiry of
/// locks beside them, and puts the disks back once every job has ended.
///
/// After a refusal other than for want of memory each disk is back in the bay, and no link was taken.
pub fn serve<
    R: Wait + Clone + JobShared,
    D: Disk + JobOwned,
    B: Bay<D = D>,
    C: Clock + JobOwned,
    L: Listener,
    P: Spawner,
    G: Gate + JobShared,
>(
    rt: &R,
    alloc: Global,
    conf: Config,
    workers: u32,
    accept: u32,
    bay: &mut B,
    clock: &C,
    listener: &mut L,
    spawner: &mut P,
    gate: G,
) -> Served
where
    L::L: JobOwned,
    requires out { AreOut B.seen [] bay.old }
    requires few { workers + 1 < 2 ^ 32 }

    // The disks stand for what legal histories leave of the opening, whose entries are those of served links and of
    // turns of expiries; or the opening was refused. Behind want of memory nothing is said of its disks then.
    ensures serves { EndsServing result (λ fault. IsRefused B.seen D.seen conf bay.old fault bay.new)
        (λ end. Serves B.seen D.seen (HasWorked D.seen L.L.left L.L.held C.told) conf bay.old bay.new
        × HasLinksEnd end accept (L.given listener.old) (L.given listener.new) (L.done listener.new)
        (L.faults listener.old) (L.faults listener.new) (P.faults spawner.old) (P.faults spawner.new)) }

    // Where it was refused, no link was taken and no job was started.
    ensures unserved { EndsServing result (λ fault. (listener.new ≡ listener.old) × (spawner.new ≡ spawner.old))
        (λ end. Unit {0}) }

    // A disk that the bay told it tells still.
    ensures told { TellsStill B.seen bay.old bay.new }

    // A disk that isn't the broker's is as it was.
    ensures others { (name : List ℕ) → (IsTaken conf name → ⊥) → SameSlot B.seen name bay.old bay.new }
{
    let (shared, passes) = match open_shared(alloc, bay, conf, workers + 1) {
        Ok(opened) => opened,
        Err(fault) => return Served::Refused(fault),
    };
    let Some((end, shared, passes)) = serve_links(
        rt, alloc, shared, passes, accept, clock, listener, spawner, gate,
    ) else {
        return Served::Refused(CoreOpen::NoMemory);
    };
    close_shared(shared, passes, bay);
    Served::Ended(end)
}
