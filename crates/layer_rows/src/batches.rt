// Record batches.
use crate::plain::{fault_text, hex_text, word};
use rec_batch::{BatchView, Form, Rec, fits_batch, place_batch, read_batch, write_batch};
use row_text::bytes_of;
use share_model::Blob;
use std::alloc::Global;
use std::io;

/// A key or value: its bytes, or `null`, which is no bytes.
fn part_of(alloc: Global, text: &str) -> io::Result<Option<Blob>> {
    match bytes_of(alloc, text)? {
        Some(bytes) => Ok(Some(Blob::new(bytes))),
        None => Ok(None),
    }
}

/// The record of a key and a value.
pub fn record_of(alloc: Global, text: &str) -> io::Result<Rec> {
    let (key, value) = text.split_once(' ').unwrap_or((text, ""));
    let key = part_of(alloc, key)?;
    let value = part_of(alloc, value)?;
    Ok(Rec { key, value })
}

fn view_text(alloc: Global, view: &BatchView) -> io::Result<String> {
    let (base, last_delta) = (view.base, view.last_delta);
    let (count, size) = (view.count, view.size);
    Ok(format!(in alloc; "base {base} last-delta {last_delta} records {count} size {size}")?)
}

/// What bytes are read as.
pub fn batch_told(alloc: Global, bytes: &[u8], form: Form) -> io::Result<String> {
    match read_batch(bytes, form) {
        Ok(view) => view_text(alloc, &view),
        Err(fault) => fault_text(alloc, &fault),
    }
}

/// The bytes of the batch of these records, or how it is read.
pub fn made_told(alloc: Global, kind: &str, records: &[Rec]) -> io::Result<String> {
    if records.is_empty() || !fits_batch(records) {
        return word(alloc, "none");
    }
    match write_batch(alloc, records) {
        Ok(batch) => match kind {
            "batch" => hex_text(alloc, batch.as_slice()),
            _ => batch_told(alloc, batch.as_slice(), Form::Produced),
        },
        Err(_) => word(alloc, "no memory"),
    }
}

/// The batch of these bytes, once it has a place.
pub fn placed_told(alloc: Global, bytes: &[u8], base: u64) -> io::Result<String> {
    let mut placed = bytes.to_vec(alloc)?;
    if placed.len() < 61 || base >= 1 << 62 {
        return word(alloc, "no place");
    }
    place_batch(&mut placed, base);
    hex_text(alloc, placed.as_slice())
}

/// Makes a bit of the byte at a place another.
fn flip(bytes: &mut [u8], place: usize, bit: u8) {
    if let Some(byte) = bytes.get_mut(place) {
        *byte ^= bit;
    }
}

/// Whether some bit of this byte can be another and the batch is read still. The bytes are then as they were.
fn is_read_flipped(bytes: &mut [u8], place: usize) -> bool {
    for bit in [1, 2, 4, 8, 16, 32, 64, 128] {
        flip(bytes, place, bit);
        let is_read = read_batch(bytes, Form::Produced).is_ok();
        flip(bytes, place, bit);
        if is_read {
            return true;
        }
    }
    false
}

/// Adds a place to those before it.
fn push_place(alloc: Global, places: &mut String, place: usize) -> io::Result<()> {
    let blank = if places.is_empty() { "" } else { " " };
    let text = format!(in alloc; "{blank}{place}")?;
    Ok(places.push_str(text.as_str())?)
}

/// The places of the bytes that aren't checked, of which some bit can be another.
pub fn unchecked_told(alloc: Global, bytes: &[u8]) -> io::Result<String> {
    let mut places = String::new(alloc);
    let mut flipped = bytes.to_vec(alloc)?;
    for place in 0..bytes.len().min(200) {
        if is_read_flipped(&mut flipped, place) {
            push_place(alloc, &mut places, place)?;
        }
    }
    Ok(places)
}
