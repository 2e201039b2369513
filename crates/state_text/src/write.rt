// Tables and keys with their runs, piece by piece.
ghost use Rattle.std.specs.Prelude.{◌++◌};
ghost use Rattle.text_pieces.specs.Pieces.{WritesPieces};
ghost use Rattle.state_text.specs.Texts.{foreign_text, run_lines, table_text};

use crate::lines::{put_foreign, put_run, put_table};
use edge_io::Sink;
use share_coord::StateView;
use share_model::{Key, Name, Run};
use std::alloc::Global;
use text_pieces::{GenFault, Pieces};

// What waits, and the lines of runs behind it.
fn write_runs<O: Sink>(mut text: Pieces, runs: &[Run], output: &mut O) -> Result<(), GenFault>
    ensures { WritesPieces (O.held output.old) (O.held output.new) (O.faults output.old) (O.faults output.new)
        (text ++ run_lines runs.now) result }
{
    let mut rest = runs;
    while let Some((run, others)) = rest.split_first() {
        rest = others;
        let Ok(()) = put_run(&mut text, run) else {
            return Err(GenFault::NoMemory);
        };
        match text.hand_full(output) {
            Ok(()) => {}
            Err(fault) => return Err(fault),
        }
    }
    text.hand_on(output)
}

/// Writes a group's table on a partition of this topic: its line, and a line for each run. At an `Err` the sink has
/// taken a front of this text.
pub fn write_table<O: Sink>(
    alloc: Global,
    group: &Name,
    topic: &str,
    part: u32,
    view: &StateView,
    output: &mut O,
) -> Result<(), GenFault>
    ensures { WritesPieces (O.held output.old) (O.held output.new) (O.faults output.old) (O.faults output.new)
        (table_text group.now topic.now part view.now.state) result }
{
    let mut text = Pieces::new(alloc);
    let Ok(()) = put_table(&mut text, group, topic, part, view) else {
        return Err(GenFault::NoMemory);
    };
    write_runs(text, view.runs.list(), output)
}

/// Writes the state of a key of a partition that isn't hosted: its line, and a line for each run. At an `Err` the
/// sink has taken a front of this text.
pub fn write_foreign<O: Sink>(
    alloc: Global,
    key: &Key,
    view: &StateView,
    output: &mut O,
) -> Result<(), GenFault>
    ensures { WritesPieces (O.held output.old) (O.held output.new) (O.faults output.old) (O.faults output.new)
        (foreign_text key.now view.now.state) result }
{
    let mut text = Pieces::new(alloc);
    let Ok(()) = put_foreign(&mut text, key, view) else {
        return Err(GenFault::NoMemory);
    };
    write_runs(text, view.runs.list(), output)
}
