// A share consumer: it takes records from a broker, and writes a line for each.
ghost use Rattle.std.specs.Prelude.{◌≡◌, ◌≢◌};
ghost use Rattle.share_top.specs.Changes.{listener_change, output_change, spawner_change};
ghost use Rattle.share_top.specs.Consumers.{ConsumesRecords, consume_status};

use crate::status::Status;
use broker_run::{JobOwned, JobShared};
use consume_run::{ConsumeEnd, consume};
use edge_io::{Clock, Listener, Sink, Spawner};
use share_client::ClientConf;
use std::alloc::Global;
use std::sync::Wait;

// The status of a consumer that ended so.
fn status_of(end: ConsumeEnd) -> Status
    ensures { result ≡ consume_status end }
{
    match end {
        ConsumeEnd::Done => Status::Done,
        ConsumeEnd::Refused { .. } => Status::Refused,
        ConsumeEnd::Strange { .. } => Status::Strange,
        ConsumeEnd::Unacknowledged | ConsumeEnd::NoLink => Status::Lost,
        ConsumeEnd::Output => Status::WriteFault,
        ConsumeEnd::Listener => Status::Listener,
        ConsumeEnd::Spawner => Status::Spawner,
        ConsumeEnd::NoMemory => Status::NoMemory,
    }
}

/// Takes as many records as the words say, and writes a line for each.
pub fn consume_records<
    R: Wait + Clone + JobShared,
    O: Sink,
    C: Clock + JobOwned,
    L: Listener,
    P: Spawner,
>(
    rt: &R,
    alloc: Global,
    conf: ClientConf,
    output: &mut O,
    clock: &C,
    listener: &mut L,
    spawner: &mut P,
) -> Status
where
    L::L: JobOwned,
    ensures records { ConsumesRecords (output_change O.held O.faults output.old output.new)
        (listener_change L.given L.done L.faults listener.old listener.new)
        (spawner_change P.faults spawner.old spawner.new) conf result }
    ensures counted { result ≢ Status.WriteFault → O.faults output.new ≡ O.faults output.old }
{
    let end = consume(rt, alloc, conf, output, clock, listener, spawner);
    status_of(end)
}
