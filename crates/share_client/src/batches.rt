// The record batches of a partition in a reply.
ghost use Rattle.std.specs.Prelude.{◌≡◌, ◌≤◌, ◌<◌, ◌+◌, ◌^◌, ◌<ℤ◌, length, pos, MatchOption, IfNone, IfSome, IfOk, IfErr};
ghost use Rattle.rec_batch.specs.Fields.{batch_length};
ghost use Rattle.share_client.specs.declared.fault.ClientFault.TheVariants.{Strange};
ghost use Rattle.share_client.specs.Frames.{within};
ghost use Rattle.share_client.specs.Grants.{BeginsNone};
ghost use Rattle.share_client.specs.Spans.{AreSpans, IsBrokenAt, IsInFront, IsSized};

use crate::fault::{ClientFault, strange};
use rec_batch::{Form, read_batch};
use std::alloc::Global;

/// The offsets of a batch, `base` and `last` with them.
#[derive(Clone, Copy)]
pub struct Span {
    pub base: u64,
    pub last: u64,
}

/// The number of bytes before a batch's records.
const HEADER_SIZE: usize = 61;

/// The place of the field that counts the bytes behind it, and the place behind that field.
const LENGTH: usize = 8;

const LENGTH_END: usize = 12;

// What a batch says of its length, without the bytes up to that field.
fn signed_length(bytes: &[u8]) -> i32
    requires { 61 ≤ length bytes.now }
    ensures { result ≡ batch_length bytes.now }
{
    let (_, field) = bytes.split_at(LENGTH);
    i32::from_be_bytes([field[0], field[1], field[2], field[3]])
}

// The same, unless it is below 0.
fn length_in(bytes: &[u8]) -> Option<u32>
    requires { 61 ≤ length bytes.now }
    ensures { MatchOption result (batch_length bytes.now <ℤ pos 0) (λ n. batch_length bytes.now ≡ pos n) }
{
    let length = signed_length(bytes);
    if length < 0 {
        None
    } else {
        Some(length as u32)
    }
}

/// How many bytes the batch in front has, if one stands there.
#[tactic(auto, using(crate::proofs::Walking::sized_short, crate::proofs::Walking::sized_below, crate::proofs::Walking::sized_more, crate::proofs::Walking::sized_is))]
pub fn size_in(bytes: &[u8]) -> Option<usize>
    ensures { IsSized bytes.now result }
{
    if bytes.len() < HEADER_SIZE {
        return None;
    }
    let Some(length) = length_in(bytes) else {
        return None;
    };
    let size = length as usize + LENGTH_END;
    if bytes.len() < size {
        return None;
    }
    Some(size)
}

// The offsets of the stored batch in front, and what follows it. `None` where none begins at `next` or above.
#[tactic(auto, using(crate::proofs::Walking::begins_unsized, crate::proofs::Walking::begins_refused, crate::proofs::Walking::begins_low, crate::proofs::Walking::begins_here, crate::proofs::Walking::begins_within))]
fn front(bytes: &[u8], next: u64) -> Option<(Span, &[u8])>
    ensures none { IfNone result (BeginsNone next bytes.now) }
    ensures some { IfSome result (λ x. IsInFront next bytes.now x.0 x.1.now) }
    ensures low { IfSome result (λ x. x.0.last < 2 ^ 62) }
{
    let size = size_in(bytes)?;
    let (front, rest) = bytes.split_at(size);
    let Ok(view) = read_batch(front, Form::Stored) else {
        return None;
    };
    if view.base < next {
        return None;
    }
    let last = view.base + u64::from(view.last_delta);
    Some((
        Span {
            base: view.base,
            last,
        },
        rest,
    ))
}

// The place so many bytes behind a place of a frame, at which something stands that can't be.
fn strange_behind(place: u64, count: usize) -> ClientFault
    ensures { result ≡ Strange (within (place + count)) }
{
    if place < 4294967295 && count < 4294967295 {
        strange(place + count as u64)
    } else {
        ClientFault::Strange { place: 4294967295 }
    }
}

/// The offsets of the stored batches that these bytes are. They begin at this place of a frame.
#[tactic(auto, using(crate::proofs::Walking::walk_starts, crate::proofs::Walking::walk_goes_on, crate::proofs::Walking::walk_ends, crate::proofs::Walking::walk_breaks, crate::proofs::Walking::shrinks))]
pub fn spans(alloc: Global, place: u64, records: &[u8]) -> Result<Vec<Span>, ClientFault>
    ensures ok { IfOk result (λ spans. AreSpans records.now spans.items) }
    ensures err { IfErr result (IsBrokenAt place records.now) }
{
    let mut spans = Vec::new(alloc);
    let mut next = 0;
    let mut rest = records;
    while !rest.is_empty() {
        let Some((span, behind)) = front(rest, next) else {
            return Err(strange_behind(place, records.len() - rest.len()));
        };
        match spans.push(span) {
            Ok(()) => {}
            Err(_) => return Err(ClientFault::NoMemory),
        }
        next = span.last + 1;
        rest = behind;
    }
    Ok(spans)
}
