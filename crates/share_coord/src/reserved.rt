// A write that takes no memory.
ghost use Rattle.std.specs.Prelude.{◌≡◌, ◌≤◌, ◌<◌, ◌+◌, ◌*◌, ◌^◌, ℕ, List, Bool, true, false, length, vec_capacity};
ghost use Rattle.std.specs.List.{list_all};
ghost use Rattle.std.specs.Option.{option_or};
ghost use Rattle.gate_journal.specs.Frames.{frame_in};
ghost use Rattle.share_model.specs.Rooms.{Appends};
ghost use Rattle.share_model.specs.Runs.{row_at};
ghost use Rattle.share_model.specs.ShareStates.{AreLaid, AreWritten, is_writable, last_row, start_after};
ghost use Rattle.offset_runs.specs.Changes.{Overlays, room_of};
ghost use Rattle.offset_runs.specs.Complete.{complete_rows};
ghost use Rattle.state_records.specs.Spelling.{IsRecord, record_bytes};
ghost use Rattle.state_records.specs.States.{AreStoredRuns, IsEpoch, IsKey, IsStart};
ghost use Rattle.share_coord.specs.Reserved.{lent_record, own_record, own_with};
ghost use Rattle.share_coord.specs.Tables.{shown};
ghost use Rattle.share_coord.specs.Views.{IsKeptState};

use crate::rows::{canonical, complete_after, cut_at, start_after};
use crate::view::{Kept, StateView};
use offset_runs::Runs;
use share_model::{Key, Room, Run};
use state_records::{LentState, write_snapshot, write_update};
use std::alloc::Global;

// Puts each of these runs over rows that have the memory for it.
fn put_each(rows: &mut Runs, runs: &[Run])
    requires { 2 * length runs.now ≤ rows.old.spare }
    ensures rows { (offset : ℕ) → row_at rows.new.list offset ≡ option_or (last_row runs.now offset) (row_at rows.old.list offset) }
    ensures few { length rows.new.list ≤ length rows.old.list + 2 * length runs.now }
    ensures room { room_of rows.old ≤ room_of rows.new }
{
    for run in runs {
        rows.put_reserved(run.first, run.last, run.row());
    }
}

// Puts the rows that runs write in the place of others.
fn write_each(rows: &mut Runs, runs: &[Run])
    requires { 2 * length runs.now ≤ room_of rows.old }
    ensures written { AreWritten runs.now rows.new.list }
    ensures few { length rows.new.list ≤ 2 * length runs.now }
    ensures room { room_of rows.old ≤ room_of rows.new }
{
    rows.clear();
    put_each(rows, runs);
    canonical(rows);
}

// Puts rows that are laid over others, as these runs wrote them, in the place of others. Where runs overlap, they may
// write more runs than they are: then they are put one after another.
fn lay_each(alloc: Global, rows: &mut Runs, under: &Runs, over: &Runs, runs: &[Run])
    requires written { AreWritten runs.now over.now.list }
    requires room { length under.now.list + 2 * length runs.now ≤ room_of rows.old }
    ensures laid { Overlays under.now.list rows.new.list over.now.list }
    ensures few { length rows.new.list ≤ length under.now.list + 2 * length runs.now }
    ensures room { room_of rows.old ≤ room_of rows.new }
{
    if over.list().len() <= runs.len() {
        rows.lay_reserved(under, over);
        return;
    }
    let none = Runs::new(alloc);
    rows.lay_reserved(under, &none);
    put_each(rows, runs);
}

// Where a key starts behind a write, and how many of its rows are complete then.
#[derive(Clone, Copy)]
pub(crate) struct After {
    pub start: i64,
    pub complete: u64,
}

// Lays what runs write over the rows of a key, in memory that was set aside.
pub(crate) fn lay_write(
    alloc: Global,
    kept: &Kept,
    start: i64,
    runs: &[Run],
    written: &mut Runs,
    rows: &mut Runs,
) -> After
    requires runs { list_all is_writable runs.now ≡ true }
    requires written { 2 * length runs.now ≤ room_of written.old }
    requires rows { length kept.now.view.state.runs + 2 * length runs.now ≤ room_of rows.old }
    ensures kept { IsKeptState kept.now.view.state }
    ensures start { result.start ≡ start_after kept.now.view.state.start start }
    ensures complete { result.complete ≡ complete_rows rows.new.list }
    ensures written { AreWritten runs.now written.new.list }
    ensures laid { AreLaid (start_after kept.now.view.state.start start) kept.now.view.state.runs written.new.list rows.new.list }
    ensures few_written { length written.new.list ≤ 2 * length runs.now }
    ensures few { length rows.new.list ≤ length kept.now.view.state.runs + 2 * length runs.now }
    ensures room_written { room_of written.old ≤ room_of written.new }
    ensures room { room_of rows.old ≤ room_of rows.new }
{
    kept.view.known();
    write_each(written, runs);
    lay_each(alloc, rows, &kept.view.runs, written, runs);
    let start = start_after(kept.view.start, start);
    cut_at(rows, start);
    canonical(rows);
    let complete = complete_after(&kept.view.runs, kept.view.complete(), written, start);
    After { start, complete }
}

// Appends bytes for which there is room.
fn put(out: &mut Room, more: &[u8])
    requires { length more.now ≤ out.old.spare }
    ensures { Appends out.old out.new more.now }
{
    if let Err(_) = out.append(more) {
        unreachable!()
    }
}

// The record of a state in the buffer of an append, which has the memory for it: an update, or a snapshot.
pub(crate) fn framed(mut buffer: Vec<u8>, state: &LentState<'_>, updates: bool) -> Vec<u8>
    requires { length (record_bytes (lent_record updates state.now)) + 5 ≤ vec_capacity buffer }
    ensures frame { frame_in result.items ≡ record_bytes (lent_record updates state.now) }
    ensures len { length result.items ≡ length (record_bytes (lent_record updates state.now)) + 5 }
    ensures valid { IsRecord (lent_record updates state.now) }
    ensures capacity { vec_capacity buffer ≤ vec_capacity result }
{
    buffer.clear();
    let mut room = Room::of(buffer);
    put(&mut room, &[0; 4]);
    put_state(&mut room, state, updates);
    put(&mut room, &[0]);
    room.take()
}

fn put_state(out: &mut Room, state: &LentState<'_>, updates: bool)
    requires { length (record_bytes (lent_record updates state.now)) ≤ out.old.spare }
    ensures written { Appends out.old out.new (record_bytes (lent_record updates state.now)) }
    ensures valid { IsRecord (lent_record updates state.now) }
{
    if updates {
        write_update(state, out);
    } else {
        write_snapshot(state, out);
    }
}

// What a write with its key's own epochs leaves of a key, beside its rows, and whether it is stored as an update.
#[derive(Clone, Copy)]
pub(crate) struct Own {
    pub state_epoch: i32,
    pub leader_epoch: i32,
    pub start: i64,
    pub complete: u64,
    pub snapshot: u64,
    pub updates: u16,
    pub is_update: bool,
}

// Its numbers, where so many updates count before it.
pub(crate) fn own_numbers(kept: &Kept, after: After, count: u16) -> Own
    requires { kept.now.snapshot + 1 < 2 ^ 64 }
    ensures { result ≡ own_with (shown kept.now) after count }
{
    let is_update = count < 500;
    Own {
        state_epoch: kept.view.state_epoch,
        leader_epoch: kept.view.leader_epoch,
        start: after.start,
        complete: after.complete,
        snapshot: if is_update {
            kept.snapshot
        } else {
            kept.snapshot + 1
        },
        updates: if is_update { count + 1 } else { 0 },
        is_update,
    }
}

// The frame of such a write, in a buffer that has the memory for it.
pub(crate) fn own_frame(
    buffer: Vec<u8>,
    key: &Key,
    own: &Own,
    told: i64,
    written: &Runs,
    rows: &Runs,
) -> Vec<u8>
    requires key { IsKey key.now }
    requires epochs { IsEpoch own.now.state_epoch × IsEpoch own.now.leader_epoch }
    requires starts { IsStart told × IsStart own.now.start }
    requires written { AreStoredRuns written.now.list × (length written.now.list < 2 ^ 32) }
    requires rows { AreStoredRuns rows.now.list × (length rows.now.list < 2 ^ 32) }
    requires room { length (record_bytes (own_record key.now own.now told written.now.list rows.now.list)) + 5 ≤ vec_capacity buffer }
    ensures frame { frame_in result.items ≡ record_bytes (own_record key.now own.now told written.now.list rows.now.list) }
    ensures len { length result.items ≡ length (record_bytes (own_record key.now own.now told written.now.list rows.now.list)) + 5 }
    ensures valid { IsRecord (own_record key.now own.now told written.now.list rows.now.list) }
    ensures capacity { vec_capacity buffer ≤ vec_capacity result }
{
    let (start, runs) = if own.is_update {
        (told, written.list())
    } else {
        (own.start, rows.list())
    };
    let state = LentState {
        key,
        snapshot: own.snapshot,
        state_epoch: own.state_epoch,
        leader_epoch: own.leader_epoch,
        start,
        complete: Some(own.complete),
        runs,
    };
    framed(buffer, &state, own.is_update)
}

// What is kept of a key then.
pub(crate) fn own_kept(own: &Own, rows: Runs) -> Kept
    requires state { IsKeptState (record { state_epoch = own.now.state_epoch; leader_epoch = own.now.leader_epoch; start = own.now.start; runs = rows.list }) }
    requires complete { own.now.complete ≡ complete_rows rows.list }
    ensures kept { shown result ≡ record {
      view = record { state_epoch = own.now.state_epoch; leader_epoch = own.now.leader_epoch; start = own.now.start; runs = rows.list };
      snapshot = own.now.snapshot;
      updates = own.now.updates;
      raised = false;
      tells = false;
    } }
    ensures room { result.view.room ≡ room_of rows }
{
    Kept {
        view: StateView {
            state_epoch: own.state_epoch,
            leader_epoch: own.leader_epoch,
            start: own.start,
            complete: own.complete,
            runs: rows,
        },
        snapshot: own.snapshot,
        updates: own.updates,
        raised: false,
        tells: false,
    }
}

// The memory of the rows that were kept.
pub(crate) fn rows_of(kept: Kept) -> Runs
    ensures { room_of result ≡ kept.view.room }
{
    let Kept { view, .. } = kept;
    let StateView { runs, .. } = view;
    runs
}
