// The script, piece by piece.
ghost use Rattle.std.specs.Prelude.{◌≡◌, ◌≤◌, IfOk};
ghost use Rattle.std.specs.List.{flat_map};
ghost use Rattle.session_script.specs.Script.{line_of};
ghost use Rattle.text_pieces.specs.Pieces.{WritesPieces};
ghost use Rattle.gen_load.specs.Session.{none_yet, opened};
ghost use Rattle.gen_load.specs.Scripts.{script_of};

use crate::counts::Counts;
use crate::lines::{put_end, put_opened};
use crate::script::Script;
use edge_io::Sink;
use flex_fields::NoMemory;
use std::alloc::Global;
use text_pieces::{GenFault, Pieces};

// Before the first round.
fn begin(alloc: Global) -> Result<Script, NoMemory>
    ensures text { IfOk result (λ script. script.text ≡ flat_map line_of opened) }
    ensures counts { IfOk result (λ script. script.counts ≡ none_yet) }
{
    let mut text = Pieces::new(alloc);
    put_opened(&mut text)?;
    let counts = Counts {
        frames: 0,
        first: 0,
        end: 0,
        asked_a: 0,
        asked_b: 0,
    };
    Ok(Script { counts, text })
}

/// Writes the script of a number of rounds, in pieces of 65536 bytes and more. At an `Err` the sink has taken a front
/// of it.
pub fn write_script<O: Sink>(alloc: Global, n: u32, output: &mut O) -> Result<(), GenFault>
    requires { (1 ≤ n) × (n ≤ 100000) }
    ensures { WritesPieces (O.held output.old) (O.held output.new) (O.faults output.old) (O.faults output.new)
        (script_of n) result }
{
    let Ok(mut script) = begin(alloc) else {
        return Err(GenFault::NoMemory);
    };
    for done in 0..n {
        let Ok(()) = script.round(alloc, done + 1) else {
            return Err(GenFault::NoMemory);
        };
        match script.text.hand_full(output) {
            Ok(()) => {}
            Err(fault) => return Err(fault),
        }
    }
    let Ok(()) = put_end(&mut script.text) else {
        return Err(GenFault::NoMemory);
    };
    script.text.hand_on(output)
}
