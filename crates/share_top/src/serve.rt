// A server: the broker is opened over the bay, serves links, and puts its disks back.
ghost use Rattle.std.specs.Prelude.{◌≡◌, ◌≢◌, ◌≤◌};
ghost use Rattle.edge_io.specs.Bays.{IsSound};
ghost use Rattle.broker_model.specs.Hosted.{IsTaken};
ghost use Rattle.broker_run.specs.Working.{HasWorked};
ghost use Rattle.share_top.specs.Apart.{LeavesOthers};
ghost use Rattle.share_top.specs.Changes.{bay_change, listener_change, output_change, spawner_change};
ghost use Rattle.share_top.specs.Loading.{NoneIsOut};
ghost use Rattle.share_top.specs.Servers.{IsServe, ServesTo};
ghost use Rattle.share_top.specs.Sessions.{HoldsStates};

use crate::refusal::refuse;
use crate::status::Status;
use crate::words::ServeWords;
use broker_run::{JobOwned, JobShared, LinksEnd, Served};
use edge_io::{Bay, Clock, Disk, Listener, NoGate, Sink, Spawner};
use std::alloc::Global;
use std::sync::Wait;

// The status of a server whose links were served to this end.
fn status_of(end: LinksEnd) -> Status
    ensures { ServesTo end result }
{
    match end {
        LinksEnd::Served => Status::Done,
        LinksEnd::Listener => Status::Listener,
        LinksEnd::Refused => Status::Spawner,
        LinksEnd::NoMemory => Status::NoMemory,
    }
}

/// Opens the broker over the bay, serves as many links as the words say, and puts the disks back.
pub fn serve<
    R: Wait + Clone + JobShared,
    O: Sink,
    D: Disk + JobOwned,
    B: Bay<D = D>,
    C: Clock + JobOwned,
    L: Listener,
    P: Spawner,
>(
    rt: &R,
    alloc: Global,
    words: ServeWords,
    output: &mut O,
    bay: &mut B,
    clock: &C,
    listener: &mut L,
    spawner: &mut P,
) -> Status
where
    L::L: JobOwned,
    requires home { NoneIsOut B.seen bay.old }
    requires few { words.workers ≤ 256 }
    ensures serve { IsServe (bay_change B.seen D.seen bay.old bay.new)
        (output_change O.held O.faults output.old output.new) record {
          listener = listener_change L.given L.done L.faults listener.old listener.new;
          spawner = spawner_change P.faults spawner.old spawner.new;
          Worked = HasWorked D.seen L.L.left L.L.held C.told;
        } words result }
    ensures back { result ≢ Status.NoMemory → NoneIsOut B.seen bay.new }
    ensures counted { result ≢ Status.WriteFault → O.faults output.new ≡ O.faults output.old }

    // Disks that stand for logs and states are never damaged, and those of a sound bay never fail the opening.
    ensures recovers { HoldsStates (bay_change B.seen D.seen bay.old bay.new) words.conf → result ≢ Status.Damaged }
    ensures sound { IsSound B.seen D.seen bay.old → result ≢ Status.Device }

    // A disk that isn't the broker's is as it was.
    ensures others { LeavesOthers (bay_change B.seen D.seen bay.old bay.new) (IsTaken words.conf) }
{
    let ServeWords {
        conf,
        workers,
        accept,
        ..
    } = words;
    match broker_run::serve(
        rt, alloc, conf, workers, accept, bay, clock, listener, spawner, NoGate,
    ) {
        Served::Refused(fault) => refuse(alloc, fault, output),
        Served::Ended(end) => status_of(end),
    }
}
