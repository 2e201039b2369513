ghost use Rattle.std.specs.Prelude.{◌≡◌, ◌<◌, ◌+◌, ◌^◌, ◌↔◌, ℕ, List, length, position, is_none, IsTrue, IsOk, OnOk, IfOk, IfErr};
ghost use Rattle.share_model.specs.Acks.{kind_of, types_in};
ghost use Rattle.ack_ranges.specs.Batches.{HasRange, HasCount, AreWellFormed, IsWellFormed};
ghost use Rattle.ack_ranges.specs.Faults.{IsFirstFault, IsSortedAt};
ghost use Rattle.ack_ranges.specs.Pieces.{ArePieces};
ghost use Rattle.ack_ranges.specs.declared.piece.Piece.{Piece};

use crate::walk::Pieces;
use share_model::{AckBatch, AckFault, AckKind};

// Whether a batch has offsets, in order.
fn has_range(batch: &AckBatch) -> bool
    ensures { IsTrue result ↔ HasRange batch.now }
{
    0 <= batch.first && batch.first <= batch.last
}

// Whether a batch begins behind the one before its place.
fn is_sorted_at(batches: &[AckBatch], number: usize, batch: &AckBatch) -> bool
    requires { number < length batches.now }
    ensures { IsTrue result ↔ IsSortedAt batches.now number batch.now }
{
    number == 0 || batches[number - 1].last < batch.first
}

// Whether a batch has one type for all of its offsets, or one for each.
fn has_count(batch: &AckBatch) -> bool
    requires { HasRange batch.now }
    ensures { IsTrue result ↔ HasCount batch.now }
{
    let count = batch.types.as_slice().len();
    count == 1 || (batch.last - batch.first) as u64 + 1 == count as u64
}

// The first type that is no kind.
fn find_bad_type(types: &[u8]) -> Option<usize>
    ensures { result ≡ position (λ number. is_none (kind_of number)) types.now }
{
    types
        .iter()
        .position(|number| AckKind::from_number(*number).is_none())
}

// Judges the batch at a place, where those before it are well formed.
fn judge_at(batches: &[AckBatch], number: usize) -> Result<(), AckFault>
    requires within { number < length batches.now }
    requires few { length batches.now < 2 ^ 32 }
    requires few_types { types_in batches.now < 2 ^ 32 }
    requires before { AreWellFormed batches.now number }
    ensures ok { OnOk result (AreWellFormed batches.now (number + 1)) }
    ensures err { IfErr result (λ fault. IsFirstFault batches.now fault) }
{
    let batch = &batches[number];
    let place = number as u32;
    if !has_range(batch) {
        return Err(AckFault::BadRange { batch: place });
    }
    if !is_sorted_at(batches, number, batch) {
        return Err(AckFault::Unsorted { batch: place });
    }
    if !has_count(batch) {
        return Err(AckFault::BadCount { batch: place });
    }
    match find_bad_type(batch.types.as_slice()) {
        Some(index) => Err(AckFault::BadType {
            batch: place,
            index: index as u32,
        }),
        None => Ok(()),
    }
}

// Judges the batches one after another.
fn judge(batches: &[AckBatch]) -> Result<(), AckFault>
    requires few { length batches.now < 2 ^ 32 }
    requires few_types { types_in batches.now < 2 ^ 32 }
    ensures ok { OnOk result (IsWellFormed batches.now) }
    ensures err { IfErr result (λ fault. IsFirstFault batches.now fault) }
{
    for number in 0..batches.len() {
        judge_at(batches, number)?;
    }
    Ok(())
}

/// How many pieces well-formed batches have, or the first fault of batches that aren't well formed.
///
/// The offsets of a batch aren't negative and are in order, and they lie behind those of the batch before it; the
/// number of types is 1 or that of the offsets, and each type is 0, 1, 2 or 3. It takes no memory, and time for each
/// batch and each type.
pub fn check(batches: &[AckBatch]) -> Result<u32, AckFault>
    requires few { length batches.now < 2 ^ 32 }
    requires few_types { types_in batches.now < 2 ^ 32 }
    ensures ok { OnOk result (IsWellFormed batches.now) }
    ensures count { IfOk result (λ count. (pieces : List Piece) × ArePieces batches.now pieces × (length pieces ≡ count)) }
    ensures fault { IfErr result (λ fault. IsFirstFault batches.now fault) }
    ensures taken { IsWellFormed batches.now → IsOk result }
{
    judge(batches)?;
    Ok(Pieces::new(batches).count())
}
