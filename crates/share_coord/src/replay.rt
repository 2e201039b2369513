// The states that the frames of a journal stand for.
ghost use Rattle.std.specs.Prelude.{◌≡◌, ◌↔◌, ◌+◌, ◌-◌, min, List, ℕ, [], ◌∷◌, true, false, length, None, Ok, IfOk, IfErr, OnErr, IfSome};
ghost use Rattle.checkpoint_journal.specs.Generations.{mark_of, mark_read};
ghost use Rattle.coord_checkpoint.specs.Openings.{frames_in};
ghost use Rattle.share_coord.specs.Replaying.{HasRefused};
ghost use Rattle.share_coord.specs.Stored.{Entries, IsSnapshotted, IsUpdated, Follows, AreAccepted, AreTaken, is_passed, next_snapshot, records_from, walked};
ghost use Rattle.share_coord.specs.Tables.{found};

use crate::rows::{complete_after, complete_of, cut_at, laid, start_after};
use crate::table::Table;
use crate::view::{Kept, StateView};
use crate::walk::Walk;
use coord_checkpoint::StateVisit;
use gate_journal::SeenFrames;
use offset_runs::Runs;
use share_model::NoMemory;
use state_records::{KeyState, RecordFault, StateRecord, read_record};
use std::alloc::Global;
use std::marker::Model;

const MAX_RUNS: usize = 1000000;

// Whether a snapshot has the epoch that the next one of its key has.
fn is_next(known: Option<&Kept>, snapshot: u64) -> bool
    ensures { (result ≡ true) ↔ (snapshot ≡ next_snapshot (found known.entry)) }
{
    match known {
        Some(kept) => snapshot > 0 && snapshot - 1 == kept.snapshot,
        None => snapshot == 0,
    }
}

// Whether a record tells this number of complete rows, or none.
fn tells(told: Option<u64>, complete: u64) -> bool
    ensures { (result ≡ true) ↔ IfSome told (λ n. n ≡ complete) }
{
    match told {
        Some(number) => number == complete,
        None => true,
    }
}

fn take_snapshot(table: &mut Table, state: KeyState) -> Result<bool, NoMemory>
    ensures taken { result ≡ Ok true → IsSnapshotted table.old.entries state table.new.entries }
    ensures refused { result ≡ Ok false → (new : Entries) → IsSnapshotted table.old.entries state new → ⊥ }
    ensures kept { OnErr result (table.new.entries ≡ table.old.entries) }
{
    if !is_next(table.get(&state.key), state.snapshot) {
        return Ok(false);
    }
    let KeyState {
        key,
        snapshot,
        state_epoch,
        leader_epoch,
        start,
        complete: told,
        runs,
    } = state;
    let mut rows = Runs::from_list(runs);
    cut_at(&mut rows, start);
    if rows.list().len() > MAX_RUNS {
        return Ok(false);
    }
    let complete = complete_of(&rows);
    if !tells(told, complete) {
        return Ok(false);
    }
    let kept = Kept {
        view: StateView {
            state_epoch,
            leader_epoch,
            start,
            complete,
            runs: rows,
        },
        snapshot,
        updates: 0,
        raised: false,
        tells: false,
    };
    table.insert(&key, kept)?;
    Ok(true)
}

// One update more, counted up to 500.
fn one_more(updates: u16) -> u16
    ensures { result ≡ min (updates + 1) 500 }
{
    updates.saturating_add(1).min(500)
}

fn take_update(alloc: Global, table: &mut Table, state: KeyState) -> Result<bool, NoMemory>
    ensures taken { result ≡ Ok true → IsUpdated table.old.entries state table.new.entries }
    ensures refused { result ≡ Ok false → (new : Entries) → IsUpdated table.old.entries state new → ⊥ }
    ensures kept { OnErr result (table.new.entries ≡ table.old.entries) }
{
    let Some(kept) = table.get(&state.key) else {
        return Ok(false);
    };
    if kept.snapshot != state.snapshot {
        return Ok(false);
    }
    let KeyState {
        key,
        snapshot,
        state_epoch,
        leader_epoch,
        start: given,
        complete: told,
        runs,
    } = state;
    let start = start_after(kept.view.start, given);
    let over = Runs::from_list(runs);
    let rows = laid(alloc, &kept.view.runs, &over, start, 0)?;
    if rows.list().len() > MAX_RUNS {
        return Ok(false);
    }
    let complete = complete_after(&kept.view.runs, kept.view.complete(), &over, start);
    if !tells(told, complete) {
        return Ok(false);
    }
    let updates = one_more(kept.updates);
    let kept = Kept {
        view: StateView {
            state_epoch,
            leader_epoch,
            start,
            complete,
            runs: rows,
        },
        snapshot,
        updates,
        raised: false,
        tells: false,
    };
    table.insert(&key, kept)?;
    Ok(true)
}

// Does a record. False where it doesn't go on from these states, which are then as before.
fn take_record(alloc: Global, table: &mut Table, written: StateRecord) -> Result<bool, NoMemory>
    ensures taken { result ≡ Ok true → Follows table.old.entries written table.new.entries }
    ensures refused { result ≡ Ok false → (new : Entries) → Follows table.old.entries written new → ⊥ }
    ensures kept { OnErr result (table.new.entries ≡ table.old.entries) }
{
    match written {
        StateRecord::Snapshot(state) => take_snapshot(table, state),
        StateRecord::Update(state) => take_update(alloc, table, state),
        StateRecord::Removal { key } => Ok(table.remove(&key).is_some()),
        StateRecord::Head { .. } | StateRecord::Seal => Ok(false),
    }
}

// Whether a record is passed over, and where the walk stands behind it.
fn step(walk: Walk, written: &StateRecord) -> (bool, Walk)
    ensures passed { result.0 ≡ is_passed walk (mark_read (Ok written.now)) }
    ensures walk { result.1 ≡ walked walk (mark_read (Ok written.now)) }
{
    match walk {
        Walk::First => match written {
            StateRecord::Head { .. } => (true, Walk::Snapshots),
            _ => (false, Walk::Records),
        },
        Walk::Snapshots => match written {
            StateRecord::Seal => (true, Walk::Records),
            StateRecord::Snapshot(_) => (false, Walk::Snapshots),
            _ => (false, Walk::Records),
        },
        Walk::Records => (false, Walk::Records),
    }
}

// Takes a frame, and answers where the walk stands behind it. `None` where it doesn't go on from those before it.
fn take_frame(
    alloc: Global,
    table: &mut Table,
    walk: Walk,
    frame: &[u8],
) -> Result<Option<Walk>, NoMemory>
    ensures taken { IfOk result (λ next. IfSome next (λ w. (w ≡ walked walk (mark_of frame.now))
        × AreAccepted table.old.entries (records_from walk (frame.now ∷ [])) table.new.entries)) }
    ensures refused { result ≡ Ok None → (new : Entries) → AreAccepted table.old.entries (records_from walk (frame.now ∷ [])) new → ⊥ }
    ensures kept { OnErr result (table.new.entries ≡ table.old.entries) }
{
    let written = match read_record(alloc, frame) {
        Ok(written) => written,
        Err(RecordFault::BadState { .. }) => return Ok(None),
        Err(RecordFault::NoMemory) => return Err(NoMemory),
    };
    let (passed, next) = step(walk, &written);
    if passed {
        return Ok(Some(next));
    }
    match take_record(alloc, table, written) {
        Ok(true) => Ok(Some(next)),
        Ok(false) => Ok(None),
        Err(fault) => Err(fault),
    }
}

/// The states that the frames which were handed over stand for; or the first of these frames that doesn't go on from those
/// before it. A contract sees the frames, each with its place.
#[derive(Drop)]
pub(crate) struct Replay {
    alloc: Global,
    table: Table,
    walk: Walk,
    refused: Option<u64>,
    seen: SeenFrames,
}

impl Model for Replay {
    ghost use Rattle.std.specs.Prelude.{List, ℕ};
    ghost use Rattle.share_coord.specs.Replaying.{Replays};

    ghost Value = { List (ℕ × List ℕ) };

    ghost view = { λ r. r.seen.frames };

    ghost invariant = { λ r. Replays r.seen.frames r.table.entries r.walk r.refused };
}

impl Replay {
    /// A replay of no frames.
    pub fn new(alloc: Global) -> Replay
        ensures { result ≡ [] }
    {
        Replay {
            alloc,
            table: Table::new(alloc),
            walk: Walk::First,
            refused: None,
            seen: SeenFrames::new(),
        }
    }

    /// The states; or the place of the first frame that doesn't go on from those before it.
    pub fn finish(self) -> Result<Table, u64>
        ensures taken { IfOk result (λ table. AreTaken (frames_in self) table.entries) }
        ensures refused { IfErr result (HasRefused self) }
    {
        let Replay { table, refused, .. } = self;
        match refused {
            None => Ok(table),
            Some(place) => Err(place),
        }
    }
}

impl StateVisit for Replay {
    ghost use Rattle.std.specs.Prelude.{List, ℕ};

    ghost seen = { λ (frames : List (ℕ × List ℕ)). frames };

    fn frame(&mut self, place: u64, bytes: &[u8]) -> Result<(), NoMemory> {
        let seen = self.seen.with(&place, bytes);
        if let Some(_) = self.refused {
            self.seen = seen;
            return Ok(());
        }
        let Some(next) = take_frame(self.alloc, &mut self.table, self.walk, bytes)? else {
            self.refused = Some(place);
            self.seen = seen;
            return Ok(());
        };
        self.walk = next;
        self.seen = seen;
        Ok(())
    }
}
