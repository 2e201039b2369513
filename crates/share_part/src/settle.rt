// What acts on a table store.
ghost use Rattle.std.specs.Prelude.{◌≡◌, ◌↔◌, ◌≤◌, ◌<◌, ◌+◌, ◌*◌, ◌^◌, ℕ, [], IfSome, IfNone, length, None, IsTrue};
ghost use Rattle.ack_ranges.specs.Batches.{IsWellFormed};
ghost use Rattle.ack_ranges.specs.Pieces.{IsCanonical as AreCanonical, piece_at};
ghost use Rattle.part_log.specs.Logs.{IsStoredLog};
ghost use Rattle.share_model.specs.Held.{Held, hold_at};
ghost use Rattle.offset_runs.specs.Changes.{room_of};
ghost use Rattle.share_part.specs.Acting.{AreDoneTo, AreHeldSo, AreRows, AreRowsTo, Comes, Ends, HasSpareFrom, IsHeldTo, IsSaid};
ghost use Rattle.share_part.specs.Named.{named_from};
ghost use Rattle.share_part.specs.Releasing.{ReleasesTable};
ghost use Rattle.share_part.specs.Settling.{Acts, AreBelow, IsChange, IsHeldBy, Judges, change_of, is_chosen, releasing, settled};

use crate::advance::advance;
use crate::named::Named;
use ack_ranges::Piece;
use edge_io::Disk;
use lock_index::Window;
use offset_runs::Runs;
use part_log::PartLog;
use share_model::{AckBatch, AckKind, Hold, Name, Row, RowState};

/// Where a table's start goes by acts. `None` where it stays.
#[derive(Clone, Copy)]
pub struct Moved {
    pub start: Option<u64>,
}

/// What acknowledgements come to. All of them are done, or none.
#[derive(Clone, Copy)]
pub enum Judged {
    /// The member doesn't hold this offset, the least such one.
    NotHeld(u64),
    /// The rows that were put are to be stored, with the start.
    Changes(Moved),
}

/// Whose records are released.
#[derive(Clone, Copy)]
pub enum Whose {
    /// Those that a member holds.
    Member(Name),
    /// Those whose lock has ended by a moment, in milliseconds.
    Due(u64),
}

// What an act stores of a record that is held with this delivery count.
fn settled(limit: u16, kind: AckKind, count: u16) -> Row
    ensures { result ≡ settled limit kind count }
{
    let state = match kind {
        AckKind::Accept => RowState::Acknowledged,
        AckKind::Gap => RowState::Archived,
        AckKind::Reject => RowState::Archived,
        AckKind::Release => {
            if limit <= count {
                RowState::Archived
            } else {
                RowState::Available
            }
        }
    };
    Row { state, count }
}

// Whether a hold is the member's.
fn is_held_by(hold: &Hold, member: &Name) -> bool
    ensures { IsTrue result ↔ (hold.now.member ≡ member.now) }
{
    hold.member.as_bytes() == member.as_bytes()
}

// How far a member holds offsets in one way, and with which delivery count.
#[derive(Clone, Copy)]
struct Stretch {
    last: u64,
    count: u16,
}

// The offsets from one on that a member holds in one way. `None` where it doesn't hold that one.
fn stretch_held<W: Window>(window: &W, member: &Name, offset: u64) -> Option<Stretch>
    ensures some { IfSome result (λ s. IsHeldTo member.now (W.held window.now) offset s.last s.count) }
    ensures none { IfNone result (IsHeldBy member.now (hold_at (W.held window.now) offset) → ⊥) }
{
    let Some(run) = window.run_from(offset) else {
        return None;
    };
    if offset < run.first {
        return None;
    }
    if is_held_by(&run.hold, member) {
        return Some(Stretch {
            last: run.last,
            count: run.hold.count,
        });
    }
    None
}

// Does what a piece says, run by run of what is held. An offset that the member doesn't hold ends it, and is told.
fn act_on_piece<W: Window>(
    rows: &mut Runs,
    window: &W,
    member: &Name,
    limit: u16,
    piece: Piece,
) -> Option<u64>
    requires order { piece.first ≤ piece.last }
    requires below { piece.last < 2 ^ 63 }
    requires spare { HasSpareFrom (W.held window.now) piece.first rows.old.spare }
    ensures done { (acts : Acts) → AreDoneTo limit member.now acts (W.held window.now) piece.first rows.old.list → IsSaid piece acts →
        Comes limit member.now acts (W.held window.now) (piece.last + 1) rows.new.list result }
    ensures spare { result ≡ None → HasSpareFrom (W.held window.now) (piece.last + 1) rows.new.spare }
    ensures room { room_of rows.old ≤ room_of rows.new }
{
    let mut from = piece.first;
    while from <= piece.last {
        let Some(stretch) = stretch_held(window, member, from) else {
            return Some(from);
        };
        let last = stretch.last.min(piece.last);
        rows.put_reserved(from, last, settled(limit, piece.kind, stretch.count));
        from = last + 1;
    }
    None
}

// Does what pieces say, from no rows on. The least offset that the member doesn't hold ends it, and is told.
fn act_on_pieces<W: Window>(
    rows: &mut Runs,
    window: &W,
    member: &Name,
    limit: u16,
    mut pieces: Named<'_>,
) -> Option<u64>
    requires none { rows.old.list ≡ [] }
    requires pieces { AreCanonical pieces }
    requires spare { HasSpareFrom (W.held window.now) 0 rows.old.spare }
    ensures done { Ends limit member.now (piece_at pieces.entry) (W.held window.now) rows.new.list result }
    ensures room { room_of rows.old ≤ room_of rows.new }
{
    while let Some(piece) = pieces.next_piece() {
        let missing = act_on_piece(rows, window, member, limit, piece);
        if missing.is_some() {
            return missing;
        }
    }
    None
}

/// Whether a hold is one that is released.
pub fn is_chosen(whose: &Whose, hold: &Hold) -> bool
    ensures { result ≡ is_chosen whose.now hold.now }
{
    match whose {
        Whose::Member(member) => is_held_by(hold, member),
        Whose::Due(now) => hold.end <= *now,
    }
}

// Stores the release of offsets that are held in one way, where these are released.
fn release_run(rows: &mut Runs, first: u64, last: u64, hold: &Hold, whose: &Whose, limit: u16)
    requires order { first ≤ last }
    requires spare { 2 ≤ rows.old.spare }
    ensures rows { (held : Held) → AreHeldSo held first last hold.now →
        AreRowsTo limit (releasing (is_chosen whose.now) held) held first rows.old.list →
        AreRowsTo limit (releasing (is_chosen whose.now) held) held (last + 1) rows.new.list }
    ensures spare { rows.old.spare ≤ rows.new.spare + 2 }
    ensures room { room_of rows.old ≤ room_of rows.new }
{
    if !is_chosen(whose, hold) {
        return;
    }
    rows.put_reserved(first, last, settled(limit, AckKind::Release, hold.count));
}

// Stores the releases, from no rows on, run by run of what is held.
fn release_all<W: Window>(rows: &mut Runs, window: &W, whose: &Whose, limit: u16)
    requires none { rows.old.list ≡ [] }
    requires below { AreBelow (W.held window.now) }
    requires spare { HasSpareFrom (W.held window.now) 0 rows.old.spare }
    ensures rows { AreRows limit (releasing (is_chosen whose.now) (W.held window.now)) (W.held window.now) rows.new.list }
    ensures room { room_of rows.old ≤ room_of rows.new }
{
    let mut from = 0;
    while let Some(run) = window.run_from(from) {
        release_run(rows, run.first.max(from), run.last, &run.hold, whose, limit);
        from = run.last + 1;
    }
}

// Where the start goes once acts store these rows, of which those below it go.
fn moved_by<D: Disk>(log: &PartLog<D>, start: u64, stored: &Runs, rows: &mut Runs) -> Moved
    requires sound { IsStoredLog log.now.batches }
    requires above { log.now.start ≤ start }
    ensures is { (limit : ℕ) (acts : Acts) (held : Held) → AreRows limit acts held rows.old.list →
        IsChange limit acts log.now.batches (record { start = start; rows = stored.now.list; held = held })
        (change_of result rows.new.list) }
    ensures room { room_of rows.old ≤ room_of rows.new }
{
    let next = advance(log, start, rows.list(), stored.list());
    rows.cut_below(next);
    // what is left is canonical
    let _left = rows.list();
    if next == start {
        return Moved { start: None };
    }
    Moved { start: Some(next) }
}

/// What well-formed acknowledgements of a member come to on a table with this start, these rows and these holds, where
/// they name offsets from the log's start on. The rows that they change are put into `rows`, in memory that is set
/// aside; it takes none.
///
/// It goes by the runs of what is held, and ends at the first offset that the member doesn't hold.
pub fn acknowledge<D: Disk, W: Window>(
    rows: &mut Runs,
    log: &PartLog<D>,
    start: u64,
    stored: &Runs,
    window: &W,
    member: &Name,
    limit: u16,
    batches: &[AckBatch],
) -> Judged
    requires sound { IsStoredLog log.now.batches }
    requires above { log.now.start ≤ start }
    requires well_formed { IsWellFormed batches.now }
    requires room { 2 * length (W.held window.now) ≤ room_of rows.old }
    ensures judged { Judges limit member.now (named_from log.now.start batches.now) log.now.batches
        (record { start = start; rows = stored.now.list; held = W.held window.now }) rows.new.list result }
    ensures room { room_of rows.old ≤ room_of rows.new }
{
    rows.clear();
    let named = Named::new(batches, log.start());
    let missing = act_on_pieces(rows, window, member, limit, named);
    match missing {
        Some(offset) => Judged::NotHeld(offset),
        None => Judged::Changes(moved_by(log, start, stored, rows)),
    }
}

/// What is to be stored once records of a table are released. `None` where none is. The rows are put into `rows`, in
/// memory that is set aside; it takes none. It walks the runs of what is held once.
pub fn release<D: Disk, W: Window>(
    rows: &mut Runs,
    log: &PartLog<D>,
    start: u64,
    stored: &Runs,
    window: &W,
    whose: &Whose,
    limit: u16,
) -> Option<Moved>
    requires sound { IsStoredLog log.now.batches }
    requires above { log.now.start ≤ start }
    requires below { AreBelow (W.held window.now) }
    requires room { 2 * length (W.held window.now) ≤ room_of rows.old }
    ensures judged { ReleasesTable limit (releasing (is_chosen whose.now) (W.held window.now)) log.now.batches
        (record { start = start; rows = stored.now.list; held = W.held window.now }) rows.new.list result }
    ensures room { room_of rows.old ≤ room_of rows.new }
{
    rows.clear();
    release_all(rows, window, whose, limit);
    if rows.list().is_empty() {
        return None;
    }
    Some(moved_by(log, start, stored, rows))
}
