// Acknowledgement batches, and their pieces.
ghost use Rattle.std.specs.Prelude.{◌≡◌, IfSome};
ghost use Rattle.share_model.specs.Acks.{types_in};
ghost use Rattle.ack_ranges.specs.Batches.{IsWellFormed};

use crate::plain::{debug_text, is_text, word};
use ack_ranges::{Piece, Pieces, check};
use flex_fields::Items;
use share_model::{AckBatch, AckList, Blob};
use std::alloc::Global;
use std::io;

/// Types with commas between them. A word that is none isn't one of them.
fn types_of(alloc: Global, numbers: &str) -> io::Result<Vec<u8>> {
    let mut types = Vec::new(alloc);
    for number in numbers.split(',') {
        if let Ok(number) = number.parse() {
            types.push(number)?;
        }
    }
    Ok(types)
}

/// Adds the batch of `FIRST..LAST:TYPE,TYPE`. Another word adds none.
fn push_batch(alloc: Global, batches: &mut Vec<AckBatch>, text: &str) -> io::Result<()> {
    let (offsets, numbers) = text.split_once(':').unwrap_or((text, ""));
    let (first, last) = offsets.split_once("..").unwrap_or((offsets, ""));
    if let (Ok(first), Ok(last)) = (first.parse(), last.parse()) {
        let types = Blob::new(types_of(alloc, numbers)?);
        batches.push(AckBatch { first, last, types })?;
    }
    Ok(())
}

/// The batches of words.
pub fn batches_of(alloc: Global, words: &str) -> io::Result<Vec<AckBatch>> {
    let mut batches = Vec::new(alloc);
    for word in words.split(' ') {
        push_batch(alloc, &mut batches, word)?;
    }
    Ok(batches)
}

/// How many types batches have. `None` where they are too many.
pub fn type_count(batches: &[AckBatch]) -> Option<u32>
    ensures { IfSome result (λ count. count ≡ types_in batches.now) }
{
    let Some((batch, others)) = batches.split_first() else {
        return Some(0);
    };
    let count = u32::try_from(batch.types.as_slice().len()).ok()?;
    type_count(others)?.checked_add(count)
}

/// Adds a piece.
fn push_piece(alloc: Global, text: &mut String, piece: &Piece) -> io::Result<()> {
    let Piece { first, last, kind } = piece;
    let piece = format!(in alloc; ", {kind:?} {first} to {last}")?;
    Ok(text.push_str(piece.as_str())?)
}

/// The pieces of well-formed batches.
fn pieces_text(alloc: Global, batches: &[AckBatch], count: u32) -> io::Result<String>
    requires { IsWellFormed batches.now }
{
    let mut text = format!(in alloc; "{count} pieces")?;
    let mut pieces = Pieces::new(batches);
    for _ in 0..count {
        if let Some(piece) = pieces.next_piece() {
            push_piece(alloc, &mut text, &piece)?;
        }
    }
    if pieces.next_piece().is_some() {
        text.push_str(" and more")?;
    }
    Ok(text)
}

/// What batches are: their pieces, or the first fault.
fn told(alloc: Global, words: &str) -> io::Result<String> {
    let batches = batches_of(alloc, words)?;
    if type_count(&batches).is_none() || batches.len() >= 1 << 31 {
        return word(alloc, "too many");
    }
    let list = AckList::new(Items::new(batches));
    let batches = list.as_slice();
    match check(batches) {
        Ok(count) => pieces_text(alloc, batches, count),
        Err(fault) => debug_text(alloc, &fault),
    }
}

/// What the batches of words are.
pub fn ack_told(alloc: Global, words: &str) -> io::Result<String> {
    let told = told(alloc, words)?;
    is_text(alloc, words, told.as_str())
}
