// The records of a partition's batches, one after another.
ghost use Rattle.std.specs.Prelude.{◌≡◌, ◌≤◌, ◌<◌, ◌+◌, ◌^◌, ℕ, List, length, flat_map, IfSome, IfNone, nat_lt, ◌==◌};
ghost use Rattle.std.specs.Option.{option_map, option_copied};
ghost use Rattle.rec_batch.specs.Batches.{at_least_zero};
ghost use Rattle.rec_batch.specs.Fields.{base_offset, record_count};
ghost use Rattle.share_client.specs.Grants.{AreStored, Batch};
ghost use Rattle.rec_batch.specs.Grammar.{Record};
ghost use Rattle.rec_batch.specs.Places.{ShowsValue};
ghost use Rattle.share_client.specs.Readers.{IsSettled, Left};
ghost use Rattle.share_client.specs.Records.{OffsetRecord, first_at, found_at, from_offset, shown_batch};

use crate::batches::size_in;
use rec_batch::{RecordAt, record_at};

/// The place of the first record of a batch.
const FIRST: usize = 61;

/// The place of the number of records, and the place behind it.
const COUNT: usize = 57;

/// A place before a record of a batch, behind which further batches stand.
#[derive(Clone, Copy)]
pub struct Reader<'a> {
    pub batch: &'a [u8],
    pub place: u32,
    /// How many records are left of the batch.
    pub left: u32,
    /// The batch's first offset.
    pub base: u64,
    pub rest: &'a [u8],
}

/// The number, or 0 below it.
pub fn from_zero(number: i64) -> u64
    ensures is { result ≡ at_least_zero number }
    ensures low { result < 2 ^ 63 }
{
    if number < 0 { 0 } else { number as u64 }
}

fn count_from_zero(number: i32) -> u32
    ensures { result ≡ at_least_zero number }
{
    if number < 0 { 0 } else { number as u32 }
}

fn signed_base(bytes: &[u8]) -> i64
    requires { 61 ≤ length bytes.now }
    ensures { result ≡ base_offset bytes.now }
{
    let (field, _) = bytes.split_at(8);
    i64::from_be_bytes([
        field[0], field[1], field[2], field[3], field[4], field[5], field[6], field[7],
    ])
}

fn signed_count(bytes: &[u8]) -> i32
    requires { 61 ≤ length bytes.now }
    ensures { result ≡ record_count bytes.now }
{
    let (_, field) = bytes.split_at(COUNT);
    i32::from_be_bytes([field[0], field[1], field[2], field[3]])
}

impl<'a> Reader<'a> {
    /// Before all records of these batches.
    pub fn new(batches: &'a [u8]) -> Reader<'a>
        ensures { (found : List Batch) → AreStored 0 batches.now found → Left result (flat_map shown_batch found) }
    {
        Reader {
            batch: &[],
            place: 0,
            left: 0,
            base: 0,
            rest: batches,
        }
    }
}

// At the first record of the next batch.
fn opened<'a>(reader: Reader<'a>) -> Reader<'a>
    requires batches { (records : List OffsetRecord) × Left reader records }
    requires end { reader.left ≡ 0 }
    requires more { 1 ≤ length reader.rest.now }
    ensures same { (records : List OffsetRecord) → Left reader.entry records → Left result records }
    ensures shorter { length result.rest.now + result.left < length reader.entry.rest.now }
{
    let Some(size) = size_in(reader.rest) else {
        unreachable!()
    };
    let (batch, rest) = reader.rest.split_at(size);
    let base = from_zero(signed_base(batch));
    let left = count_from_zero(signed_count(batch));
    Reader {
        batch,
        place: FIRST as u32,
        left,
        base,
        rest,
    }
}

// Whether a record's offset is below another one.
fn is_below(base: u64, delta: u32, offset: u64) -> bool
    ensures { result ≡ nat_lt (base + delta) offset }
{
    match offset.checked_sub(base) {
        Some(distance) => u64::from(delta) < distance,
        None => false,
    }
}

fn is_at(base: u64, delta: u32, offset: u64) -> bool
    ensures { result ≡ (base + delta == offset) }
{
    match offset.checked_sub(base) {
        Some(distance) => u64::from(delta) == distance,
        None => false,
    }
}

// The reader one step on, unless it is at the end or before a record that isn't below the offset.
fn stepped<'a>(reader: Reader<'a>, offset: u64) -> Option<Reader<'a>>
    requires { (records : List OffsetRecord) × Left reader records }
    ensures some { IfSome result (λ next. (records : List OffsetRecord) → Left reader.entry records →
        (rest : List OffsetRecord) × Left next rest × (from_offset offset records ≡ from_offset offset rest)) }
    ensures shorter { IfSome result (λ next. length next.rest.now + next.left < length reader.entry.rest.now + reader.entry.left) }
    ensures none { IfNone result ((records : List OffsetRecord) → Left reader.entry records → from_offset offset records ≡ records) }
    ensures settled { IfNone result (IsSettled reader.entry) }
{
    if reader.left == 0 {
        if reader.rest.is_empty() {
            return None;
        }
        return Some(opened(reader));
    }
    let found = record_at(reader.batch, reader.place);
    if !is_below(reader.base, found.delta, offset) {
        return None;
    }
    Some(Reader {
        place: found.next,
        left: reader.left - 1,
        ..reader
    })
}

// Before the first record that isn't below the offset, or at the end.
fn sought<'a>(reader: Reader<'a>, offset: u64) -> Reader<'a>
    requires { (records : List OffsetRecord) × Left reader records }
    ensures sought { (records : List OffsetRecord) → Left reader.entry records → Left result (from_offset offset records) }
    ensures settled { IsSettled result }
{
    let mut reader = reader;
    while let Some(next) = stepped(reader, offset) {
        reader = next;
    }
    reader
}

// The bytes of a record's value.
fn value_of(batch: &[u8], found: RecordAt) -> Option<&[u8]>
    requires { (r : Record) × ShowsValue batch.now r found }
    ensures { (r : Record) → ShowsValue batch.now r found → option_copied result ≡ r.value }
{
    let (place, len) = found.value?;
    let (_, rest) = batch.split_at(place as usize);
    let (value, _) = rest.split_at(len as usize);
    Some(value)
}

// The value of the next record, if it stands at the offset.
fn value_at<'a>(reader: Reader<'a>, offset: u64) -> Option<Option<&'a [u8]>>
    requires left { (records : List OffsetRecord) × Left reader records }
    requires settled { IsSettled reader }
    ensures { (records : List OffsetRecord) → Left reader.entry records → option_map (λ v. option_copied v) result ≡ first_at offset records }
{
    if reader.left == 0 {
        return None;
    }
    let found = record_at(reader.batch, reader.place);
    if !is_at(reader.base, found.delta, offset) {
        return None;
    }
    Some(value_of(reader.batch, found))
}

impl<'a> Reader<'a> {
    /// The value of the record at an offset, if one stands there, and the reader before it.
    pub fn find(self, offset: u64) -> (Option<Option<&'a [u8]>>, Reader<'a>)
        requires { (records : List OffsetRecord) × Left self records }
        ensures found { (records : List OffsetRecord) → Left self.entry records → option_map (λ v. option_copied v) result.0 ≡ found_at records offset }
        ensures left { (records : List OffsetRecord) → Left self.entry records → Left result.1 (from_offset offset records) }
    {
        let reader = sought(self, offset);
        (value_at(reader, offset), reader)
    }
}
