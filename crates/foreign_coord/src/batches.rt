// The runs that state batches stand for.
ghost use Rattle.std.specs.Prelude.{◌≡◌, IfOk, map};
ghost use Rattle.std.specs.Option.{option_map};
ghost use Rattle.share_model.specs.ForeignRules.{run_of, runs_of};

use share_model::{NoMemory, RowState, Run, StateBatch};
use std::alloc::Global;

// The run of a batch, if it isn't bad.
fn run_of(batch: &StateBatch) -> Option<Run>
    ensures { result ≡ run_of batch.now }
{
    if 0 <= batch.first && (batch.first <= batch.last && (0 <= batch.state && 0 <= batch.count)) {
        match RowState::from_number(batch.state as u8) {
            Some(state) => Some(Run {
                first: batch.first as u64,
                last: batch.last as u64,
                state,
                count: batch.count as u16,
            }),
            None => None,
        }
    } else {
        None
    }
}

// The runs of all batches, in their order, if none is bad.
pub fn runs_of(alloc: Global, batches: &[StateBatch]) -> Result<Option<Vec<Run>>, NoMemory>
    ensures { IfOk result (λ runs. option_map (λ v. v.items) runs ≡ runs_of batches.now) }
{
    let mut runs = Vec::with_capacity(alloc, batches.len())?;
    for batch in batches {
        match run_of(batch) {
            Some(run) => runs.push(run)?,
            None => return Ok(None),
        }
    }
    Ok(Some(runs))
}
