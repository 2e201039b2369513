ghost use Rattle.std.specs.Prelude.{◌≡◌, ◌≤◌, ◌<◌, ◌^◌, ◌↔◌, ◌+ℤ◌, ◌≤ℤ◌, ◌<ℤ◌, pos, length, IsTrue, IsOk, IfOk, IfErr, MatchOption, List};
ghost use Rattle.rec_batch.specs.Fields.{base_offset, last_offset_delta, record_count, records_part};
ghost use Rattle.rec_batch.specs.Grammar.{Record};
ghost use Rattle.rec_batch.specs.Batches.{Accepts, IsBadRecord, IsBatch, IsFirstFault, OffsetsAgree, at_least_zero};
ghost use Rattle.rec_batch.specs.Verdicts.{HasFields, HasSize, Walks};

use crate::form::{BatchView, Form};
use crate::header::{
    BASE_OFFSET, HEADER_SIZE, LAST_OFFSET_DELTA, RECORD_COUNT, check_fields, check_size, i32_at,
    i64_at,
};
use crate::walk::walk;
use share_model::BatchFault;

// Offsets of a log are below this.
const OFFSETS: u64 = 1 << 62;

// What the header of a stored batch says of its offsets.
fn stored_agree(base: i64, last: i64) -> bool
    ensures { IsTrue result ↔ ((pos 0 ≤ℤ last) × (pos 0 ≤ℤ base) × ((base +ℤ last) <ℤ pos (2 ^ 62))) }
{
    if last < 0 || base < 0 {
        return false;
    }
    base as u64 + (last as u64) < OFFSETS
}

// What the header says of the offsets of so many records.
fn offsets_agree(bytes: &[u8], form: Form, count: u32) -> bool
    requires { 61 ≤ length bytes.now }
    ensures { IsTrue result ↔ OffsetsAgree form bytes.now count }
{
    let last = i64::from(i32_at(bytes, LAST_OFFSET_DELTA));
    match form {
        Form::Produced => 0 < count && last + 1 == i64::from(count),
        Form::Stored => stored_agree(i64_at(bytes, BASE_OFFSET), last),
    }
}

fn base_of(bytes: &[u8]) -> u64
    requires { 61 ≤ length bytes.now }
    ensures { result ≡ at_least_zero (base_offset bytes.now) }
{
    let base = i64_at(bytes, BASE_OFFSET);
    if base < 0 { 0 } else { base as u64 }
}

fn last_delta_of(bytes: &[u8]) -> u32
    requires { 61 ≤ length bytes.now }
    ensures { result ≡ at_least_zero (last_offset_delta bytes.now) }
{
    let last = i32_at(bytes, LAST_OFFSET_DELTA);
    if last < 0 { 0 } else { last as u32 }
}

// The number of records, unless it is below 0.
fn count_of(bytes: &[u8]) -> Option<u32>
    requires { 61 ≤ length bytes.now }
    ensures { MatchOption result (record_count bytes.now <ℤ pos 0) (λ n. record_count bytes.now ≡ pos n) }
{
    let count = i32_at(bytes, RECORD_COUNT);
    if count < 0 { None } else { Some(count as u32) }
}

// Whether the offset deltas of so many records follow; else the index of the record that isn't one.
fn walk_batch(bytes: &[u8], form: Form, count: u32) -> Result<bool, u32>
    requires { 61 ≤ length bytes.now }
    ensures ok { IfOk result (Walks form (last_offset_delta bytes.now) (records_part bytes.now) count) }
    ensures err { IfErr result (IsBadRecord (records_part bytes.now) count) }
{
    let (_, content) = bytes.split_at(HEADER_SIZE);
    walk(form, i32_at(bytes, LAST_OFFSET_DELTA), count, content)
}

// The records and their offsets, of a batch whose header is right.
fn read_content(bytes: &[u8], form: Form) -> Result<BatchView, BatchFault>
    requires size { HasSize bytes.now }
    requires fields { HasFields bytes.now }
    ensures accepted { IfOk result (Accepts form bytes.now) }
    ensures refused { IfErr result (IsFirstFault form bytes.now) }
{
    let Some(count) = count_of(bytes) else {
        return Err(BatchFault::BadRecord { index: 0 });
    };
    let follow = match walk_batch(bytes, form, count) {
        Ok(follow) => follow,
        Err(index) => return Err(BatchFault::BadRecord { index }),
    };
    if !follow {
        return Err(BatchFault::BadDeltas);
    }
    if !offsets_agree(bytes, form, count) {
        return Err(BatchFault::BadDeltas);
    }
    Ok(BatchView {
        base: base_of(bytes),
        last_delta: last_delta_of(bytes),
        count,
        size: bytes.len() as u32,
    })
}

fn judge(bytes: &[u8], form: Form) -> Result<BatchView, BatchFault>
    ensures accepted { IfOk result (Accepts form bytes.now) }
    ensures refused { IfErr result (IsFirstFault form bytes.now) }
{
    check_size(bytes)?;
    check_fields(bytes)?;
    read_content(bytes, form)
}

/// Reads the bytes as one batch of this form, in one pass over its records.
///
/// What isn't one is refused with the first fault in the order of `BatchFault`. It takes no memory.
pub fn read_batch(bytes: &[u8], form: Form) -> Result<BatchView, BatchFault>
    ensures accepted { IfOk result (Accepts form bytes.now) }
    ensures only { (records : List Record) → IsBatch form bytes.now records → IsOk result }
    ensures refused { IfErr result (IsFirstFault form bytes.now) }
{
    judge(bytes, form)
}
