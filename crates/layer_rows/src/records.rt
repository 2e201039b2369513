// Records of the state journal.
use crate::plain::{fault_text, plain, word};
use share_model::Room;
use state_records::{StateRecord, read_record, record_len, write_into, write_record};
use std::alloc::Global;
use std::io;

/// Whether some proper front of the bytes is read.
fn is_front_read(alloc: Global, bytes: &[u8]) -> bool {
    for length in 0..bytes.len().min(200) {
        let (front, _) = bytes.split_at(length);
        if read_record(alloc, front).is_ok() {
            return true;
        }
    }
    false
}

/// What a record is.
fn record_text(alloc: Global, record: &StateRecord) -> io::Result<String> {
    let (kind, text) = match record {
        StateRecord::Snapshot(state) => ("snapshot", plain(alloc, state)),
        StateRecord::Update(state) => ("update", plain(alloc, state)),
        StateRecord::Removal { key } => ("removal", plain(alloc, key)),
        StateRecord::Head { generation } => ("head", plain(alloc, generation)),
        StateRecord::Seal => return Ok(format!(in alloc; "seal")?),
    };
    let text = text?;
    Ok(format!(in alloc; "{kind} {text}")?)
}

/// Whether a record is written as these bytes behind others, in memory that is set aside for it.
fn is_written_behind(alloc: Global, record: &StateRecord, bytes: &[u8]) -> bool {
    let size = record_len(record);
    let mut out = Room::new(alloc);
    if size > 1 << 30 || out.append(b"front ").is_err() || out.reserve(size as u32).is_err() {
        return false;
    }
    write_into(record, &mut out);
    match out.as_slice().strip_prefix(b"front ") {
        Some(written) => written == bytes,
        None => false,
    }
}

/// Whether a record is written as these bytes.
fn is_written(alloc: Global, record: &StateRecord, bytes: &[u8]) -> bool {
    match write_record(alloc, record) {
        Ok(written) => written.as_slice() == bytes,
        Err(_) => false,
    }
}

/// What a record is that was read of these bytes, and what doesn't hold of it.
fn told(alloc: Global, record: &StateRecord, bytes: &[u8]) -> io::Result<String> {
    let mut text = record_text(alloc, record)?;
    if !is_written(alloc, record, bytes) || !is_written_behind(alloc, record, bytes) {
        text.push_str(", and it is written otherwise")?;
    }
    if is_front_read(alloc, bytes) {
        text.push_str(", and a front of it is read")?;
    }
    Ok(text)
}

/// What bytes are read as, and written.
pub fn record_told(alloc: Global, bytes: &[u8]) -> io::Result<String> {
    match read_record(alloc, bytes) {
        Ok(record) => told(alloc, &record, bytes),
        Err(fault) => fault_text(alloc, &fault),
    }
}

/// The bytes of an update whose runs are so many offsets, each second one from 0 on, acknowledged with count 1.
fn update_of(alloc: Global, number: u32) -> io::Result<Vec<u8>> {
    let mut bytes = Vec::new(alloc);
    bytes.extend_from_slice(b"\x01\x00\x00\x01g")?;
    bytes.extend_from_slice(&[17; 16])?;
    bytes.extend_from_slice(&[0; 28])?;
    bytes.extend_from_slice(&number.to_be_bytes())?;
    for place in 0..number {
        let offset = (u64::from(place) * 2).to_be_bytes();
        bytes.extend_from_slice(&offset)?;
        bytes.extend_from_slice(&offset)?;
        bytes.extend_from_slice(&[2, 0, 1])?;
    }
    Ok(bytes)
}

/// How an update with so many runs is written.
pub fn update_told(alloc: Global, number: &str) -> io::Result<String> {
    let bytes = update_of(alloc, number.parse().unwrap_or(0))?;
    match read_record(alloc, &bytes) {
        Ok(record) if is_written(alloc, &record, &bytes) => {
            let behind = is_written_behind(alloc, &record, &bytes);
            let size = bytes.len();
            Ok(format!(in alloc; "{size} bytes, behind others {behind}")?)
        }
        _ => word(alloc, "otherwise"),
    }
}
