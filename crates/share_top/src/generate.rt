// The script of a number.
ghost use Rattle.std.specs.Prelude.{◌≡◌, ◌≢◌, ◌≤◌};
ghost use Rattle.share_top.specs.Changes.{output_change};
ghost use Rattle.share_top.specs.Generating.{Generates};

use crate::status::Status;
use edge_io::Sink;
use gen_load::{GenFault, write_script};
use std::alloc::Global;

/// Writes the script of so many rounds.
pub fn generate<O: Sink>(alloc: Global, n: u32, output: &mut O) -> Status
    requires { (1 ≤ n) × (n ≤ 100000) }
    ensures written { Generates (output_change O.held O.faults output.old output.new) n result }
    ensures counted { result ≢ Status.WriteFault → O.faults output.new ≡ O.faults output.old }
{
    match write_script(alloc, n, output) {
        Ok(()) => Status::Done,
        Err(GenFault::Write) => Status::WriteFault,
        Err(GenFault::NoMemory) => Status::NoMemory,
    }
}
