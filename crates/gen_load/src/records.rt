// The batch of a round.
ghost use Rattle.std.specs.Prelude.{◌≡◌, IfOk};
ghost use Rattle.std.specs.Fmt.{decimal};
ghost use Rattle.rec_batch.specs.Written.{batch_bytes};
ghost use Rattle.gen_load.specs.Frames.{batch_size, records_of};

use flex_fields::{Bytes, NoMemory};
use itoa::Buffer;
use rec_batch::{Rec, write_batch};
use share_model::Blob;
use std::alloc::Global;

// A number in decimal digits.
fn decimal_blob(alloc: Global, number: u32) -> Result<Blob, NoMemory>
    ensures { IfOk result (λ blob. blob ≡ decimal number) }
{
    let mut digits = Buffer::new();
    let bytes = Vec::from_slice(alloc, digits.format(number).as_bytes())?;
    Ok(Blob::new(bytes))
}

/// How many records the batch of a round has.
pub(crate) fn batch_size(round: u32) -> u32
    ensures { result ≡ batch_size round }
{
    1 + round % 5
}

fn records_of(alloc: Global, round: u32) -> Result<Vec<Rec>, NoMemory>
    ensures { IfOk result (λ records. records.items ≡ records_of round) }
{
    let size = batch_size(round);
    let mut records = Vec::with_capacity(alloc, size as usize)?;
    for _ in 0..size {
        let value = decimal_blob(alloc, round)?;
        records.push(Rec {
            key: None,
            value: Some(value),
        })?;
    }
    Ok(records)
}

/// The batch of a round.
pub(crate) fn batch_of(alloc: Global, round: u32) -> Result<Bytes, NoMemory>
    ensures { IfOk result (λ batch. batch ≡ batch_bytes (records_of round)) }
{
    let records = records_of(alloc, round)?;
    let batch = write_batch(alloc, &records)?;
    Ok(Bytes::new(batch.into_vec()))
}
