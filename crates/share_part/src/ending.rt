// Ends the holds that acts were stored of.
ghost use Rattle.std.specs.Prelude.{◌≡◌, ◌≤◌, ◌<◌, ℕ, List, IsSome};
ghost use Rattle.std.specs.BTreeMap.{is_at};
ghost use Rattle.std.specs.Cmp.Lexicographic.{slice_cmp};
ghost use Rattle.std.specs.Map.{lookup};
ghost use Rattle.std.specs.Ordering.{nat_cmp};
ghost use Rattle.ack_ranges.specs.Batches.{IsWellFormed};
ghost use Rattle.ack_ranges.specs.Pieces.{piece_at};
ghost use Rattle.share_part.specs.Foreseeing.{HasSpare};
ghost use Rattle.share_part.specs.Named.{named_from};
ghost use Rattle.share_part.specs.Settling.{held_after};
ghost use Rattle.share_part.specs.Shards.{held_in, with_held};

use crate::named::Named;
use lock_index::{Steps, Window};
use share_model::{AckBatch, Name};
use std::collections::BTreeMap;
use std::marker::Brand;
use std::sync::ledger::{Blank, Ledger};

// Ends the holds of the offsets of pieces.
fn end_pieces<W: Window, L: Ledger>(window: &mut W, mut pieces: Named<'_>, steps: &mut Steps<L>)
    ensures held { W.held window.new ≡ held_after (piece_at pieces.entry) (W.held window.old) }
    ensures spare { W.spare window.old ≤ W.spare window.new }
{
    while let Some(piece) = pieces.next_piece() {
        window.end_hold_counted(piece.first, piece.last, steps);
    }
}

// The same in a ledger of its own.
fn end_in_ledger<W: Window, L: Ledger>(window: &mut W, pieces: Named<'_>, blank: Blank)
    requires name { blank.name ≡ L.name }
    requires parts { blank.parts ≡ L.parts }
    requires some { 0 < blank.parts }
    ensures held { W.held window.new ≡ held_after (piece_at pieces.entry) (W.held window.old) }
    ensures spare { W.spare window.old ≤ W.spare window.new }
{
    let mut steps = Steps::<L>::new(blank);
    end_pieces(window, pieces, &mut steps);
}

/// Ends the holds of the offsets that well-formed acknowledgements name from one on, for a group whose window is there.
/// It takes no memory.
pub fn end_acknowledged<W: Window>(
    windows: &mut BTreeMap<Name, W>,
    group: &Name,
    batches: &[AckBatch],
    start: u64,
)
    requires there { IsSome (lookup (is_at (slice_cmp nat_cmp group.now)) windows.old.entries) }
    requires well_formed { IsWellFormed batches.now }
    ensures spare { (n : ℕ) → HasSpare W.spare windows.old.entries group.now n →
        HasSpare W.spare windows.new.entries group.now n }
    ensures held { (other : List ℕ) → held_in W.held windows.new.entries other ≡ with_held (held_in W.held windows.old.entries) group.now
        (held_after (named_from start batches.now) (held_in W.held windows.old.entries group.now)) other }
{
    match windows.get_mut(group) {
        Some(window) => end_in_ledger::<W, Brand>(
            window,
            Named::new(batches, start),
            Blank::new(1),
        ),
        None => unreachable!(),
    }
}
