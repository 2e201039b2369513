ghost use Rattle.std.specs.Prelude.{◌≡◌, ◌+◌, ◌<◌, ◌≤◌, ◌^◌, ◌∷◌, ◌++◌, [], length, slice_get, Some, IsSome, IfSome, IfNone};
ghost use Rattle.std.specs.Option.{ForSome, option_to_list};
ghost use Rattle.share_model.specs.Acks.{kind_of, types_in};
ghost use Rattle.ack_ranges.specs.Batches.{IsSound, IsWellFormed};
ghost use Rattle.ack_ranges.specs.Pieces.{ArePieces};
ghost use Rattle.ack_ranges.specs.Walking.{joined, kind_number, spans_in, touches};

use crate::piece::Piece;
use share_model::{AckBatch, AckKind};
use std::marker::Model;

// Spans of one kind, one for a batch with one type and else one for each type. A contract sees those that are left.
#[derive(Drop)]
struct Spans<'a> {
    // How many types of the first batch were read.
    place: usize,
    batches: &'a [AckBatch],
}

impl<'a> Model for Spans<'a> {
    ghost use Rattle.std.specs.Prelude.{List};
    ghost use Rattle.ack_ranges.specs.declared.piece.Piece.{Piece};
    ghost use Rattle.ack_ranges.specs.Walking.{spans_left, StandsIn};

    ghost Value = { List Piece };

    ghost view = { λ s. spans_left s.place s.batches.now };

    ghost invariant = { λ s. StandsIn s.place s.batches.now };
}

// The kind of a type of a batch that is well formed.
fn sound_kind(number: u8) -> AckKind
    requires { IsSome (kind_of number) }
    ensures { kind_of number ≡ Some result }
{
    match AckKind::from_number(number) {
        Some(kind) => kind,
        None => unreachable!(),
    }
}

// The span that belongs to a type of a batch.
fn span_at(batch: &AckBatch, place: usize) -> Piece
    requires sound { IsSound batch.now }
    requires within { place < length batch.now.types }
    ensures span { slice_get (spans_in batch.now) place ≡ Some result }
    ensures below { result.last < 2 ^ 63 }
{
    let types = batch.types.as_slice();
    let kind = sound_kind(types[place]);
    let first = batch.first as u64;
    let last = batch.last as u64;
    if types.len() == 1 {
        return Piece { first, last, kind };
    }
    let offset = first + place as u64;
    Piece {
        first: offset,
        last: offset,
        kind,
    }
}

impl<'a> Spans<'a> {
    // Reads a span.
    fn next_span(&mut self) -> Option<Piece>
        ensures some { IfSome result (λ span. self.old ≡ span ∷ self.new) }
        ensures none { IfNone result (self.old ≡ []) }
        ensures end { IfNone result (self.new ≡ []) }
        ensures below { IfSome result (λ span. span.last < 2 ^ 63) }
    {
        let Some((batch, rest)) = self.batches.split_first() else {
            return None;
        };
        let span = span_at(batch, self.place);
        let count = batch.types.as_slice().len();
        if self.place + 1 < count {
            self.place += 1;
            return Some(span);
        }
        self.batches = rest;
        self.place = 0;
        Some(span)
    }
}

// The number of a kind in messages.
fn number_of(kind: AckKind) -> u8
    ensures { result ≡ kind_number kind }
{
    match kind {
        AckKind::Gap => 0,
        AckKind::Accept => 1,
        AckKind::Release => 2,
        AckKind::Reject => 3,
    }
}

// Whether a span begins right behind a piece, with its kind.
fn touches(piece: &Piece, span: &Piece) -> bool
    ensures { result ≡ touches piece.now span.now }
{
    piece.last < span.first
        && span.first - piece.last == 1
        && number_of(piece.kind) == number_of(span.kind)
}

// The span that is read next.
fn first_span(ahead: Option<Piece>, spans: &mut Spans<'_>) -> Option<Piece>
    requires { ForSome ahead (λ span. span.last < 2 ^ 63) }
    ensures some { IfSome result (λ span. option_to_list ahead ++ spans.old ≡ span ∷ spans.new) }
    ensures none { IfNone result (option_to_list ahead ++ spans.old ≡ []) }
    ensures end { IfNone result (spans.new ≡ []) }
    ensures below { IfSome result (λ span. span.last < 2 ^ 63) }
{
    if ahead.is_some() {
        return ahead;
    }
    spans.next_span()
}

// A span and those behind it that touch, as one piece, and the first span that doesn't touch it.
fn join_spans(first: Piece, spans: &mut Spans<'_>) -> (Piece, Option<Piece>)
    requires { first.last < 2 ^ 63 }
    ensures joined { joined (first ∷ spans.old) ≡ result.0 ∷ joined (option_to_list result.1 ++ spans.new) }
    ensures below { result.0.last < 2 ^ 63 }
    ensures ahead { IfSome result.1 (λ span. span.last < 2 ^ 63) }
{
    let mut piece = first;
    while let Some(span) = spans.next_span() {
        if !touches(&piece, &span) {
            return (piece, Some(span));
        }
        piece.last = span.last;
    }
    (piece, None)
}

/// The pieces of well-formed batches, one after another in order. A contract sees those that are left.
#[derive(Drop)]
pub struct Pieces<'a> {
    // The span that was read ahead.
    ahead: Option<Piece>,
    spans: Spans<'a>,
}

impl<'a> Model for Pieces<'a> {
    ghost use Rattle.std.specs.Prelude.{List, ◌++◌, ◌<◌, ◌^◌, IfSome};
    ghost use Rattle.std.specs.Option.{option_to_list};
    ghost use Rattle.ack_ranges.specs.declared.piece.Piece.{Piece};
    ghost use Rattle.ack_ranges.specs.Walking.{joined};

    ghost Value = { List Piece };

    ghost view = { λ p. joined (option_to_list p.ahead ++ p.spans) };

    ghost invariant = { λ p. IfSome p.ahead (λ span. span.last < 2 ^ 63) };
}

impl<'a> Pieces<'a> {
    /// The pieces of these batches. It takes no memory, and reads nothing yet.
    pub fn new(batches: &'a [AckBatch]) -> Pieces<'a>
        requires { IsWellFormed batches.now }
        ensures pieces { ArePieces batches.now result }
        ensures few { length result ≤ types_in batches.now }
    {
        Pieces {
            ahead: None,
            spans: Spans { place: 0, batches },
        }
    }

    /// The next piece. `None` where none is left.
    pub fn next_piece(&mut self) -> Option<Piece>
        ensures some { IfSome result (λ piece. self.old ≡ piece ∷ self.new) }
        ensures none { IfNone result (self.old ≡ []) }
        ensures end { IfNone result (self.new ≡ []) }
        ensures below { IfSome result (λ piece. piece.last < 2 ^ 63) }
    {
        let ahead = self.ahead.take();
        let Some(first) = first_span(ahead, &mut self.spans) else {
            return None;
        };
        let (piece, ahead) = join_spans(first, &mut self.spans);
        self.ahead = ahead;
        Some(piece)
    }

    /// How many pieces are left.
    pub fn count(mut self) -> u32
        requires { length self < 2 ^ 32 }
        ensures { result ≡ length self.entry }
    {
        let mut count = 0;
        while let Some(_) = self.next_piece() {
            count += 1;
        }
        count
    }
}
