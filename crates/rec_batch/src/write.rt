ghost use Rattle.std.specs.Prelude.{◌≡◌, ◌+◌, ◌≤◌, ◌<◌, ◌^◌, ◌++◌, pos, length, IsTrue, ◌↔◌, OnOk, IfOk, MatchBool, MatchOption};
ghost use Rattle.flex_fields.specs.Writing.{groups_of, varint_bytes, zigzag};
ghost use Rattle.crc_castagnoli.specs.Division.{crc_of};
ghost use Rattle.rec_batch.specs.Written.{batch_bytes, body_bytes, checked_bytes, nullable_bytes, record_bytes, records_from, records_bytes};
ghost use Rattle.rec_batch.specs.Batches.{IsBatch, max_size};

use crate::form::Form;
use crate::header::{HEADER_SIZE, MAX_SIZE};
use crate::rec::Rec;
use crc_castagnoli::crc32c;
use flex_fields::{Bytes, NoMemory, Out};
use share_model::Blob;
use std::alloc::Global;

// How many groups of seven bits a number takes, of which `more` may follow the first.
#[tactic(auto, unfolding(flex_fields::specs::Writing::groups_of))]
fn groups_len(more: u32, value: u64) -> u32
    requires { more < 10 }
    ensures len { result ≡ length (groups_of more value) }
    ensures few { result ≤ more + 1 }
{
    if more == 0 || value < 128 {
        1
    } else {
        1 + groups_len(more - 1, value / 128)
    }
}

fn varint_len(value: u32) -> u32
    requires { value < 2 ^ 31 }
    ensures len { result ≡ length (varint_bytes (pos value)) }
    ensures few { result ≤ 5 }
{
    groups_len(4, 2 * u64::from(value))
}

#[tactic(auto, unfolding(crate::specs::Written::nullable_bytes))]
fn put_nullable(out: &mut Out, content: &Option<Blob>) -> Result<(), NoMemory>
    requires { length (nullable_bytes content.now) < 2 ^ 31 }
    ensures { OnOk result (out.new ≡ out.old ++ nullable_bytes content.now) }
{
    match content {
        None => out.put_varint(-1),
        Some(content) => {
            let content = content.as_slice();
            out.put_varint(content.len() as i32)?;
            out.put_slice(content)
        }
    }
}

#[tactic(auto, unfolding(crate::specs::Written::nullable_bytes, flex_fields::specs::Writing::groups_of))]
fn nullable_len(content: &Option<Blob>) -> u32
    requires { length (nullable_bytes content.now) < 2 ^ 31 }
    ensures { result ≡ length (nullable_bytes content.now) }
{
    match content {
        None => 1,
        Some(content) => {
            let content = content.as_slice();
            varint_len(content.len() as u32) + content.len() as u32
        }
    }
}

// Three bytes are the attributes, the timestamp delta and the number of headers, all 0.
#[tactic(auto, unfolding(crate::specs::Written::body_bytes, flex_fields::specs::Writing::groups_of))]
fn body_len(delta: u32, entry: &Rec) -> u32
    requires few { delta < 2 ^ 31 }
    requires small { length (body_bytes delta entry.now) < 2 ^ 31 }
    ensures { result ≡ length (body_bytes delta entry.now) }
{
    3 + varint_len(delta) + nullable_len(&entry.key) + nullable_len(&entry.value)
}

// Whether a key or a value alone is not too long for a batch.
#[tactic(auto, unfolding(crate::specs::Written::nullable_bytes, flex_fields::specs::Writing::groups_of))]
fn is_small(content: &Option<Blob>) -> bool
    ensures { MatchBool result (length (nullable_bytes content.now) ≤ max_size + 5) (max_size < length (nullable_bytes content.now)) }
{
    match content {
        None => true,
        Some(content) => {
            let content = content.as_slice();
            content.len() <= MAX_SIZE && 0 < varint_len(content.len() as u32)
        }
    }
}

#[tactic(auto, using(crate::proofs::WrittenSizes::body_size))]
fn has_small_body(delta: u32, entry: &Rec) -> bool
    requires { delta < 2 ^ 31 }
    ensures { MatchBool result (length (body_bytes delta entry.now) < 2 ^ 30) (max_size < length (body_bytes delta entry.now)) }
{
    is_small(&entry.key) & is_small(&entry.value)
}

// The bytes that are left of this room behind one more record.
#[tactic(auto, using(crate::proofs::WrittenSizes::record_length))]
fn room_after(room: u32, delta: u32, entry: &Rec) -> Option<u32>
    requires few { delta < 2 ^ 31 }
    requires within { room ≤ max_size }
    ensures { MatchOption result (room < length (record_bytes delta entry.now)) (λ left. left + length (record_bytes delta entry.now) ≡ room) }
{
    if !has_small_body(delta, entry) {
        return None;
    }
    let body = body_len(delta, entry);
    room.checked_sub(varint_len(body) + body)
}

/// Whether one batch has room for these records: at most 1048588 bytes, with its header.
pub fn fits_batch(records: &[Rec]) -> bool
    ensures { IsTrue result ↔ (length (batch_bytes records.now) ≤ max_size) }
{
    let mut room = (MAX_SIZE - HEADER_SIZE) as u32;
    let mut rest = records;
    let mut delta = 0;
    while let Some((first, others)) = rest.split_first() {
        let Some(left) = room_after(room, delta, first) else {
            return false;
        };
        room = left;
        delta += 1;
        rest = others;
    }
    true
}

#[tactic(auto, unfolding(crate::specs::Written::body_bytes))]
fn put_body(out: &mut Out, delta: u32, entry: &Rec) -> Result<(), NoMemory>
    requires few { delta < 2 ^ 31 }
    requires small { length (body_bytes delta entry.now) < 2 ^ 31 }
    ensures { OnOk result (out.new ≡ out.old ++ body_bytes delta entry.now) }
{
    out.put_i8(0)?;
    out.put_varlong(0)?;
    out.put_varint(delta as i32)?;
    put_nullable(out, &entry.key)?;
    put_nullable(out, &entry.value)?;
    out.put_varint(0)?;
    Ok(())
}

#[tactic(auto, unfolding(crate::specs::Written::record_bytes))]
fn put_record(out: &mut Out, delta: u32, entry: &Rec) -> Result<(), NoMemory>
    requires few { delta < 2 ^ 31 }
    requires small { length (record_bytes delta entry.now) < 2 ^ 31 }
    ensures { OnOk result (out.new ≡ out.old ++ record_bytes delta entry.now) }
{
    out.put_varint(body_len(delta, entry) as i32)?;
    put_body(out, delta, entry)?;
    Ok(())
}

fn put_records(out: &mut Out, records: &[Rec]) -> Result<(), NoMemory>
    requires { length (records_bytes 0 records.now) < 2 ^ 31 }
    ensures { OnOk result (out.new ≡ out.old ++ records_bytes 0 records.now) }
{
    let mut rest = records;
    let mut delta = 0;
    while let Some((first, others)) = rest.split_first() {
        put_record(out, delta, first)?;
        delta += 1;
        rest = others;
    }
    Ok(())
}

// From the attributes on, what the checksum is over.
#[tactic(auto, unfolding(crate::specs::Written::checked_bytes))]
fn checked_part(alloc: Global, records: &[Rec]) -> Result<Bytes, NoMemory>
    requires few { length records.now < 2 ^ 31 }
    requires some { 0 < length records.now }
    requires small { length (records_bytes 0 records.now) < 2 ^ 31 }
    ensures { IfOk result (λ bytes. bytes ≡ checked_bytes records.now) }
{
    let count = records.len() as i32;
    let mut out = Out::new(alloc);
    out.put_i16(0)?;
    out.put_i32(count - 1)?;
    out.put_i64(0)?;
    out.put_i64(0)?;
    out.put_i64(-1)?;
    out.put_i16(-1)?;
    out.put_i32(-1)?;
    out.put_i32(count)?;
    put_records(&mut out, records)?;
    Ok(out.into_bytes())
}

#[tactic(auto, unfolding(crate::specs::Written::batch_bytes))]
fn whole(alloc: Global, records: &[Rec]) -> Result<Blob, NoMemory>
    requires some { 0 < length records.now }
    requires size { length (batch_bytes records.now) ≤ max_size }
    ensures value { IfOk result (λ batch. batch ≡ batch_bytes records.now) }
    ensures checksum { IfOk result (λ batch. crc_of (checked_bytes records.now) < 2 ^ 32) }
{
    let checked = checked_part(alloc, records)?;
    let checked = checked.as_slice();
    let checksum = crc32c(checked);
    let mut out = Out::new(alloc);
    out.put_i64(0)?;
    out.put_i32(9 + checked.len() as i32)?;
    out.put_i32(0)?;
    out.put_i8(2)?;
    out.put_slice(&checksum.to_be_bytes())?;
    out.put_slice(checked)?;
    Ok(Blob::new(out.into_bytes().into_vec()))
}

/// Writes one batch with these records, at the offset deltas from 0 on.
///
/// Its base offset, leader epoch, attributes and timestamps are 0; its producer's id, epoch and first
/// sequence number are -1; its records have no headers. There is at least one record, and they fit one
/// batch, which `fits_batch` tells.
pub fn write_batch(alloc: Global, records: &[Rec]) -> Result<Blob, NoMemory>
    requires some { 0 < length records.now }
    requires size { length (batch_bytes records.now) ≤ max_size }
    ensures value { IfOk result (λ batch. batch ≡ batch_bytes records.now) }
    ensures stands { IfOk result (λ batch. (form : Form) → IsBatch form batch (records_from 0 records.now)) }
{
    whole(alloc, records)
}
