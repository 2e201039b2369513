// Why a broker was not opened, told as the last line and the status.
ghost use Rattle.std.specs.Prelude.{◌≡◌, ◌≢◌};
ghost use Rattle.share_top.specs.Changes.{output_change};
ghost use Rattle.share_top.specs.Going.{IsRefusal};

use crate::status::Status;
use broker_hosts::CoreOpen;
use edge_io::Sink;
use session_script::{LineFault, write_damaged};
use std::alloc::Global;

/// Tells why a broker was not opened. A disk that isn't store text has a last line of its own.
pub fn refuse<O: Sink>(alloc: Global, fault: CoreOpen, output: &mut O) -> Status
    ensures refusal { IsRefusal fault (output_change O.held O.faults output.old output.new) result }
    ensures counted { result ≢ Status.WriteFault → O.faults output.new ≡ O.faults output.old }
{
    match fault {
        CoreOpen::Damaged { disk, place } => match write_damaged(alloc, &disk, place, output) {
            Ok(()) => Status::Damaged,
            Err(LineFault::Write) => Status::WriteFault,
            Err(LineFault::NoMemory) => Status::NoMemory,
        },
        CoreOpen::Device => Status::Device,
        CoreOpen::Bay => Status::Device,
        CoreOpen::NoMemory => Status::NoMemory,
    }
}
