// The header of a batch, and its faults in their order.
ghost use Rattle.std.specs.Prelude.{◌≡◌, ◌+◌, ◌≤◌, length, OnOk, IfErr};
ghost use Rattle.std.specs.Int.{w8, w16, w32, w64};
ghost use Rattle.rec_batch.specs.Fields.{signed_at, unsigned_at};
ghost use Rattle.rec_batch.specs.Verdicts.{HasFields, HasSize, IsFieldFault, IsSizeFault};

use crc_castagnoli::crc32c;
use share_model::BatchFault;

/// The most bytes that a batch may have.
pub const MAX_SIZE: usize = 1048588;

/// The number of bytes before the records.
pub const HEADER_SIZE: usize = 61;

/// The number of bytes before and with the length field, which counts those behind it.
pub const LENGTH_END: i64 = 12;

pub const BASE_OFFSET: usize = 0;

pub const LENGTH: usize = 8;

pub const MAGIC: usize = 16;

pub const CHECKSUM: usize = 17;

pub const ATTRIBUTES: usize = 21;

pub const LAST_OFFSET_DELTA: usize = 23;

pub const PRODUCER_ID: usize = 43;

pub const RECORD_COUNT: usize = 57;

const COMPRESSION: u16 = 0b111;

const TRANSACTIONAL: u16 = 1 << 4;

const CONTROL: u16 = 1 << 5;

fn i8_at(bytes: &[u8], place: usize) -> i8
    requires { place + 1 ≤ length bytes.now }
    ensures { result ≡ signed_at w8 place bytes.now }
{
    let (_, field) = bytes.split_at(place);
    i8::from_be_bytes([field[0]])
}

fn u16_at(bytes: &[u8], place: usize) -> u16
    requires { place + 2 ≤ length bytes.now }
    ensures { result ≡ unsigned_at w16 place bytes.now }
{
    let (_, field) = bytes.split_at(place);
    u16::from_be_bytes([field[0], field[1]])
}

fn u32_at(bytes: &[u8], place: usize) -> u32
    requires { place + 4 ≤ length bytes.now }
    ensures { result ≡ unsigned_at w32 place bytes.now }
{
    let (_, field) = bytes.split_at(place);
    u32::from_be_bytes([field[0], field[1], field[2], field[3]])
}

pub fn i32_at(bytes: &[u8], place: usize) -> i32
    requires { place + 4 ≤ length bytes.now }
    ensures { result ≡ signed_at w32 place bytes.now }
{
    let (_, field) = bytes.split_at(place);
    i32::from_be_bytes([field[0], field[1], field[2], field[3]])
}

pub fn i64_at(bytes: &[u8], place: usize) -> i64
    requires { place + 8 ≤ length bytes.now }
    ensures { result ≡ signed_at w64 place bytes.now }
{
    let (_, field) = bytes.split_at(place);
    i64::from_be_bytes([
        field[0], field[1], field[2], field[3], field[4], field[5], field[6], field[7],
    ])
}

/// The first fault of the batch's size.
pub fn check_size(bytes: &[u8]) -> Result<(), BatchFault>
    ensures ok { OnOk result (HasSize bytes.now) }
    ensures err { IfErr result (IsSizeFault bytes.now) }
{
    if bytes.len() > MAX_SIZE {
        return Err(BatchFault::TooLarge);
    }
    if bytes.len() < HEADER_SIZE {
        return Err(BatchFault::Short);
    }
    if i32_at(bytes, LENGTH) as i64 + LENGTH_END != bytes.len() as i64 {
        return Err(BatchFault::Short);
    }
    Ok(())
}

/// The first fault of a header's fields.
pub fn check_fields(bytes: &[u8]) -> Result<(), BatchFault>
    requires { 61 ≤ length bytes.now }
    ensures ok { OnOk result (HasFields bytes.now) }
    ensures err { IfErr result (IsFieldFault bytes.now) }
{
    if i8_at(bytes, MAGIC) != 2 {
        return Err(BatchFault::BadMagic);
    }
    let (_, checked) = bytes.split_at(ATTRIBUTES);
    if u32_at(bytes, CHECKSUM) != crc32c(checked) {
        return Err(BatchFault::BadCrc);
    }
    let attributes = u16_at(bytes, ATTRIBUTES);
    if attributes & COMPRESSION != 0 {
        return Err(BatchFault::Compressed);
    }
    if attributes & TRANSACTIONAL != 0 {
        return Err(BatchFault::Transactional);
    }
    if attributes & CONTROL != 0 {
        return Err(BatchFault::Control);
    }
    if i64_at(bytes, PRODUCER_ID) != -1 {
        return Err(BatchFault::HasProducer);
    }
    Ok(())
}
