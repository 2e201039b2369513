// What a reply tells, and what a request tells, of the rows of a partition.
ghost use Rattle.std.specs.Prelude.{◌≡◌, All, map, IfOk};
ghost use Rattle.call_fold.specs.Parts.{IsTellable};
ghost use Rattle.state_calls.specs.Told.{batch_of, batch_in, code_row};

use flex_fields::Items;
use msgs_state::{PartitionResult, StateBatch};
use share_model::{Code, NoMemory, Run, RunList, StateBatch as Batch, StateBatchList};
use std::alloc::Global;

fn batch_of(run: Run) -> StateBatch
    requires { IsTellable run }
    ensures { result ≡ batch_of run }
{
    StateBatch {
        first_offset: run.first as i64,
        last_offset: run.last as i64,
        delivery_state: run.state.number() as i8,
        delivery_count: run.count as i16,
    }
}

/// The batches of a reply for these runs, which a reply can tell.
pub fn batches_of(alloc: Global, runs: &RunList) -> Result<Items<StateBatch>, NoMemory>
    requires { All IsTellable runs.now }
    ensures { IfOk result (λ batches. batches ≡ map batch_of runs.now) }
{
    let runs = runs.as_slice();
    let mut batches = Vec::with_capacity(alloc, runs.len())?;
    for run in runs {
        batches.push(batch_of(*run))?;
    }
    Ok(Items::new(batches))
}

fn batch_in(batch: StateBatch) -> Batch
    ensures { result ≡ batch_in batch }
{
    Batch {
        first: batch.first_offset,
        last: batch.last_offset,
        state: batch.delivery_state,
        count: batch.delivery_count,
    }
}

/// The batches of a request, not yet judged.
pub fn batches_in(alloc: Global, batches: &Items<StateBatch>) -> Result<StateBatchList, NoMemory>
    ensures { IfOk result (λ list. list ≡ map batch_in batches.now) }
{
    let batches = batches.as_slice();
    let mut list = Vec::with_capacity(alloc, batches.len())?;
    for batch in batches {
        list.push(batch_in(*batch))?;
    }
    Ok(Items::new(list))
}

/// What a reply tells of a partition by its code alone.
pub fn code_row(partition: i32, code: Code) -> PartitionResult
    ensures { result ≡ code_row partition code }
{
    PartitionResult {
        partition,
        error_code: code.0,
        error_message: None,
    }
}
