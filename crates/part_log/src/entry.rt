// What a frame says, and the buffer of an append.
ghost use Rattle.std.specs.Prelude.{◌≡◌, ◌≢◌, ◌+◌, ◌<◌, ◌≤◌, ◌^◌, length, IfOk, MatchOption, List};
ghost use Rattle.std.specs.Int.{w64, to_be_bytes};
ghost use Rattle.gate_journal.specs.Frames.{frame_in};
ghost use Rattle.rec_batch.specs.Placing.{placed};
ghost use Rattle.share_model.specs.Logs.{Batch};
ghost use Rattle.part_log.specs.Batches.{IsStored, batch_in};
ghost use Rattle.part_log.specs.Holding.{entry_of};

use gate_journal::buffer_of;
use log_index::Entry;
use rec_batch::{Form, place_batch, read_batch};
use std::alloc::{AllocError, Global};

/// The frame in a buffer.
pub fn inner(buffer: &[u8]) -> &[u8]
    requires { 5 ≤ length buffer.now }
    ensures { result.now ≡ frame_in buffer.now }
{
    let (_, behind) = buffer.split_at(4);
    let (frame, _) = behind.split_at(behind.len() - 1);
    frame
}

/// The batch of a frame at a place, if it is one that a log keeps and begins at this end of the log or behind it.
pub fn next_entry(place: u64, frame: &[u8], end: u64) -> Option<Entry>
    ensures { MatchOption result ((b : Batch) → b.bytes ≡ frame.now → IsStored b → b.base < end)
        (λ e. (e ≡ entry_of (place, frame.now)) × IsStored (batch_in frame.now) × (end ≤ (batch_in frame.now).base)) }
{
    let Ok(view) = read_batch(frame, Form::Stored) else {
        return None;
    };
    if view.base < end {
        return None;
    }
    Some(Entry {
        base: view.base,
        last: view.base + u64::from(view.last_delta),
        size: frame.len() as u32,
        place,
    })
}

/// The offset that a mark says. `None` where the frame isn't one of eight bytes.
pub fn mark_in(frame: &[u8]) -> Option<u64>
    ensures { MatchOption result (length frame.now ≢ 8)
        (λ start. (frame.now ≡ to_be_bytes w64 start) × (start < 2 ^ 64)) }
{
    if frame.len() != 8 {
        return None;
    }
    let mut eight = [0; 8];
    eight.copy_from_slice(frame);
    Some(u64::from_be_bytes(eight))
}

/// The buffer of a mark.
pub fn mark_buffer(start: u64) -> [u8; 13]
    ensures frame { frame_in result ≡ to_be_bytes w64 start }
    ensures len { length result ≡ 13 }
{
    let mut buffer = [0; 13];
    let (_, behind) = buffer.split_at_mut(4);
    let (frame, _) = behind.split_at_mut(8);
    frame.copy_from_slice(&start.to_be_bytes());
    buffer
}

// Gives the batch in a buffer its place in a log.
fn place_inner(buffer: &mut [u8], base: u64)
    requires size { 66 ≤ length buffer.old }
    requires below { base < 2 ^ 62 }
    ensures frame { frame_in buffer.new ≡ placed base (frame_in buffer.old) }
    ensures len { length buffer.new ≡ length buffer.old }
{
    let (_, behind) = buffer.split_at_mut(4);
    let len = behind.len() - 1;
    let (frame, _) = behind.split_at_mut(len);
    place_batch(frame, base);
}

/// The buffer of an append of this batch, at its place in a log.
pub fn placed_copy(alloc: Global, frame: &[u8], base: u64) -> Result<Vec<u8>, AllocError>
    requires few { length frame.now < 2 ^ 32 }
    requires size { 61 ≤ length frame.now }
    requires below { base < 2 ^ 62 }
    ensures { IfOk result (λ v. (frame_in v.items ≡ placed base frame.now) × (length v.items ≡ length frame.now + 5)) }
{
    let mut buffer = buffer_of(alloc, frame)?;
    place_inner(&mut buffer, base);
    Ok(buffer)
}
