// What acknowledgements say of the offsets from a log's start on.
ghost use Rattle.std.specs.Prelude.{◌≡◌, ◌<◌, ◌^◌, ◌∷◌, ◌++◌, [], IfSome, IfNone};
ghost use Rattle.std.specs.Option.{option_to_list};
ghost use Rattle.ack_ranges.specs.Batches.{IsWellFormed};
ghost use Rattle.share_part.specs.Named.{AreNamed, cut_piece, pieces_from};

use ack_ranges::{Piece, Pieces};
use share_model::AckBatch;
use std::marker::Model;

// What is left of a piece from an offset on. `None` where nothing is.
fn cut_piece(piece: Piece, start: u64) -> Option<Piece>
    ensures { result ≡ cut_piece start piece }
{
    if start <= piece.last {
        return Some(Piece {
            first: piece.first.max(start),
            last: piece.last,
            kind: piece.kind,
        });
    }
    None
}

// The first piece of what is said from an offset on; those below are passed over.
fn first_from(pieces: &mut Pieces<'_>, start: u64) -> Option<Piece>
    ensures pieces { pieces_from start pieces.old ≡ option_to_list result ++ pieces.new }
    ensures below { IfSome result (λ piece. piece.last < 2 ^ 63) }
{
    while let Some(piece) = pieces.next_piece() {
        let cut = cut_piece(piece, start);
        if cut.is_some() {
            return cut;
        }
    }
    None
}

/// The pieces of what well-formed acknowledgements say from an offset on, one after another in order. A contract sees
/// those that are left.
#[derive(Drop)]
pub struct Named<'a> {
    // The one that the offset may have cut.
    first: Option<Piece>,
    rest: Pieces<'a>,
}

impl<'a> Model for Named<'a> {
    ghost use Rattle.std.specs.Prelude.{List, ◌++◌, ◌<◌, ◌^◌, IfSome};
    ghost use Rattle.std.specs.Option.{option_to_list};
    ghost use Rattle.ack_ranges.specs.declared.piece.Piece.{Piece};

    ghost Value = { List Piece };

    ghost view = { λ n. option_to_list n.first ++ n.rest };

    ghost invariant = { λ n. IfSome n.first (λ piece. piece.last < 2 ^ 63) };
}

impl<'a> Named<'a> {
    /// What these batches say from an offset on. It takes no memory, and goes past the pieces below the offset.
    pub fn new(batches: &'a [AckBatch], start: u64) -> Named<'a>
        requires { IsWellFormed batches.now }
        ensures { AreNamed start batches.now result }
    {
        let mut rest = Pieces::new(batches);
        let first = first_from(&mut rest, start);
        Named { first, rest }
    }

    /// The next piece. `None` where none is left.
    pub fn next_piece(&mut self) -> Option<Piece>
        ensures some { IfSome result (λ piece. self.old ≡ piece ∷ self.new) }
        ensures none { IfNone result (self.old ≡ []) }
        ensures below { IfSome result (λ piece. piece.last < 2 ^ 63) }
    {
        match self.first.take() {
            Some(piece) => Some(piece),
            None => self.rest.next_piece(),
        }
    }
}
