ghost use Rattle.std.specs.Prelude.{◌≡◌, ◌≢◌, ◌≤◌, ◌<◌, ◌+◌, ◌*◌, ◌^◌, ℕ, List, [], length, vec_capacity, OnOk, OnErr};
ghost use Rattle.std.specs.Prelude.{IsOk, true, false, Some, None, Ok, Err, IsSome, IfOk, IfErr, IfSome, if◌then◌else◌};
ghost use Rattle.std.specs.declared.option.Option.{Option};
ghost use Rattle.edge_io.specs.Armed.{RunsOn};
ghost use Rattle.coord_checkpoint.specs.Disks.{HasFailed};
ghost use Rattle.coord_checkpoint.specs.Writes.{StaysOn};
ghost use Rattle.share_coord.specs.Stored.{based, kept_at, kept_left, next_snapshot, snapshot_frames};
ghost use Rattle.share_coord.specs.Rooms.{HasRoom, IsGranted, IsOwnRecord, IsOwnWritten};
ghost use Rattle.share_coord.specs.Tables.{found, shown};
ghost use Rattle.share_coord.specs.Unwritten.{raised_all, raised_entries};
ghost use Rattle.share_coord.specs.Calls.{Causes, IsInitialised, IsWritten, IsTooMany, IsForgotten, init_refusal, write_refusal};
ghost use Rattle.share_coord.specs.Holding.{IsHeld, Tidies, WritesOnce, parts_of};
ghost use Rattle.share_coord.specs.Planning.{GoesOn, IsEither, IsFirst, LeavesPlanned, fresh_kept, left_by, record_of};
ghost use Rattle.share_coord.specs.Putting.{FitFrames, Puts, stored_as};
ghost use Rattle.share_coord.specs.Recorded.{IsInitRecord, IsWriteRecord, StoresOne};
ghost use Rattle.share_model.specs.Keys.{key_cmp};
ghost use Rattle.state_records.specs.States.{IsEpoch, IsStart};
ghost use Rattle.state_records.specs.declared.record.StateRecord.TheVariants.{Removal, Snapshot as snapshot_record};
ghost use Rattle.std.specs.List.Sorted.{IsStrictlySortedBy};
ghost use Rattle.std.specs.Map.{keys_of};

use crate::fault::CoordFault;
use crate::plan::{
    Change, Changes, Fresh, Numbers, empty_snapshot, fresh_snapshot, key_fits, planned,
};
use crate::records::{Put, put_behind, put_framed, put_record};
use crate::refusals::{init_refusal, write_refusal};
use crate::reserved::{lay_write, own_frame, own_kept, own_numbers, rows_of};
use crate::rows::set_room;
use crate::snapshots::KeySnapshots;
use crate::table::Table;
use crate::view::Kept;
use coord_checkpoint::StateJournal;
use edge_io::Disk;
use offset_runs::Runs;
use share_model::{Key, NoMemory, Run, StoreFault};
use state_records::StateRecord;
use std::alloc::Global;
use std::mem;

/// The states in memory, and the journal of their records.
#[derive(Drop)]
pub struct Store<D: Disk> {
    pub journal: StateJournal<D>,
    pub table: Table,
    pub alloc: Global,
    /// For how many runs of a key a write takes no memory, which is set aside in what follows.
    pub room: u32,
    pub written: Runs,
    pub laid: Runs,
    pub buffer: Vec<u8>,
}

// The snapshot epoch of a key's next snapshot.
fn next_snapshot(known: Option<&Kept>) -> u64
    requires { next_snapshot (found known) < 2 ^ 64 }
    ensures { result ≡ next_snapshot (found known.entry) }
{
    match known {
        Some(kept) => kept.snapshot + 1,
        None => 0,
    }
}

// Whether a checkpoint is to be tried, and how many keys there are.
#[derive(Clone, Copy)]
struct Tried {
    keys: u64,
    due: bool,
}

// What is kept of a key, with the numbers that it has behind a checkpoint if one was made.
fn numbered(mut kept: Kept, fresh: &Option<Fresh>, checkpointed: bool) -> Kept
    ensures kept { shown result ≡ (if checkpointed then fresh_kept (shown kept) fresh.now else shown kept) }
    ensures room { result.view ≡ kept.view }
{
    let Some(fresh) = fresh else {
        return kept;
    };
    if checkpointed {
        kept.snapshot = fresh.snapshot;
        kept.updates = fresh.updates;
    }
    kept
}

fn renew_where(table: &mut Table, checkpointed: bool)
    ensures entries { table.new.entries ≡ based checkpointed table.old.entries }
    ensures room { table.new.room ≡ table.old.room }
{
    if checkpointed {
        table.renew();
    }
}

// Puts a record into the journal. Where one behind a checkpoint is named, a checkpoint of all keys but one is tried.
fn put_either<D: Disk>(
    alloc: Global,
    journal: &mut StateJournal<D>,
    table: &Table,
    plain: &StateRecord,
    fresh: &Option<Fresh>,
    without: Option<Key>,
    keys: u64,
) -> Put
    requires frames { FitFrames plain.now (record_of fresh.now) }
    requires keys { keys ≡ length (kept_left without table.now.entries) }
    ensures { Puts D.seen (snapshot_frames (kept_left without table.now.entries)) plain.now (record_of fresh.now)
        journal.old journal.new result.checkpointed result.result }
{
    let Some(behind) = fresh else {
        return put_record(alloc, journal, plain);
    };
    let snapshots = KeySnapshots::of(alloc, table, without, keys);
    put_behind(alloc, journal, plain, &behind.written, snapshots)
}

// The record of an initialisation behind a checkpoint, where one is tried.
fn first_where(alloc: Global, numbers: &Numbers, is_known: bool, tries: bool) -> Option<Fresh>
    requires { IsEpoch numbers.now.state_epoch × IsEpoch numbers.now.leader_epoch × IsStart numbers.now.start }
    ensures { IfSome result (λ f. (f.written ≡ snapshot_record (record {
      key = numbers.now.key;
      snapshot = if is_known then 1 else 0;
      state_epoch = numbers.now.state_epoch;
      leader_epoch = numbers.now.leader_epoch;
      start = numbers.now.start;
      complete = Some 0;
      runs = [];
    })) × (f.snapshot ≡ (if is_known then 1 else 0)) × (f.updates ≡ 0)) }
{
    if !tries {
        return None;
    }
    let snapshot = if is_known { 1 } else { 0 };
    Some(fresh_snapshot(alloc, numbers, snapshot))
}

// The record of a removal behind a checkpoint, where one is tried.
fn removal_where(key: &Key, tries: bool) -> Option<Fresh>
    ensures { IfSome result (λ f. f.written ≡ Removal key.now) }
{
    if !tries {
        return None;
    }
    Some(Fresh {
        written: StateRecord::Removal { key: *key },
        snapshot: 0,
        updates: 0,
    })
}

// Sets memory aside in the buffer of a frame with so many runs: of four bytes, at most 315 beside the runs, and one.
fn set_buffer(buffer: &mut Vec<u8>, room: u32) -> Result<(), NoMemory>
    ensures ok { OnOk result (320 + 19 * room ≤ vec_capacity buffer.new) }
    ensures kept { vec_capacity buffer.old ≤ vec_capacity buffer.new }
{
    buffer.clear();
    buffer.reserve(320 + 19 * room as usize)?;
    Ok(())
}

impl<D: Disk> Store<D> {
    // Whether a checkpoint is to be tried before the next write.
    fn tries(&self) -> Tried
        ensures keys { result.keys ≡ length self.now.table.entries }
        ensures sorted { IsStrictlySortedBy key_cmp (keys_of self.now.table.entries) }
    {
        let keys = self.table.len();
        Tried {
            keys,
            due: self.journal.is_due(keys),
        }
    }

    // Puts a record into the journal, behind a checkpoint of all keys but this one where one is tried. Behind a
    // checkpoint each key's last snapshot is its first.
    fn put(
        &mut self,
        plain: &StateRecord,
        fresh: &Option<Fresh>,
        without: Option<Key>,
        keys: u64,
    ) -> Put
        requires frames { FitFrames plain.now (record_of fresh.now) }
        requires keys { keys ≡ length (kept_left without self.old.table.entries) }
        ensures puts { Puts D.seen (snapshot_frames (kept_left without self.old.table.entries)) plain.now (record_of fresh.now)
            self.old.journal self.new.journal result.checkpointed result.result }
        ensures table { self.new.table.entries ≡ based result.checkpointed self.old.table.entries }
        ensures room { self.new.room ≡ self.old.room }
        ensures table_room { self.new.table.room ≡ self.old.table.room }
        ensures roomy { HasRoom self.old → HasRoom self.new }
    {
        let put = put_either(
            self.alloc,
            &mut self.journal,
            &self.table,
            plain,
            fresh,
            without,
            keys,
        );
        renew_where(&mut self.table, put.checkpointed);
        put
    }

    // Changes a key that is there. Its place in memory is there already.
    fn replace(&mut self, key: &Key, planned: Changes, keys: u64) -> Result<(), CoordFault>
        requires held { IsHeld D.seen (parts_of self.old) }
        requires roomy { HasRoom self.old }
        requires known { IsSome (kept_at self.old.table.entries key.now) }
        requires room { self.old.table.room ≤ planned.change.kept.view.room }
        requires frames { FitFrames planned.change.written (record_of planned.fresh) }
        requires sorted { IsStrictlySortedBy key_cmp (keys_of self.old.table.entries) }
        requires keys { keys ≡ length self.old.table.entries }
        requires follows { GoesOn self.old.table.entries planned.change.written (record_of planned.fresh)
            (left_by self.old.table.entries key.now (shown planned.change.kept) planned.fresh) }
        ensures once { WritesOnce D.seen (HasFailed D.seen)
            (LeavesPlanned self.old.table.entries key.now planned) (parts_of self.old) (parts_of self.new) result }
        ensures stored { StoresOne D.seen (snapshot_frames self.old.table.entries)
            (IsEither planned.change.written (record_of planned.fresh)) self.old.journal self.new.journal result }
        ensures causes { IfErr result (Causes None (λ _. ⊥)) }
        ensures runs { RunsOn D.seen self.old.journal.first.disk self.new.journal.first.disk × RunsOn D.seen self.old.journal.second.disk self.new.journal.second.disk }
        ensures room { self.new.room ≡ self.old.room }
        ensures roomy { HasRoom self.new }
    {
        let Changes { change, fresh } = planned;
        let Change { kept, written } = change;
        let put = self.put(&written, &fresh, None, keys);
        if let Err(fault) = put.result {
            return Err(fault);
        }
        match self
            .table
            .insert(key, numbered(kept, &fresh, put.checkpointed))
        {
            Ok(_) => Ok(()),
            Err(_) => unreachable!(),
        }
    }

    // Adds a key that isn't there. Its place in memory is found first, and given back where the record isn't stored.
    fn add(&mut self, key: &Key, planned: Changes, keys: u64) -> Result<(), CoordFault>
        requires held { IsHeld D.seen (parts_of self.old) }
        requires roomy { HasRoom self.old }
        requires absent { kept_at self.old.table.entries key.now ≡ None }
        requires room { self.old.table.room ≤ planned.change.kept.view.room }
        requires frames { FitFrames planned.change.written (record_of planned.fresh) }
        requires sorted { IsStrictlySortedBy key_cmp (keys_of self.old.table.entries) }
        requires keys { keys ≡ length self.old.table.entries }
        requires follows { GoesOn self.old.table.entries planned.change.written (record_of planned.fresh)
            (left_by self.old.table.entries key.now (shown planned.change.kept) planned.fresh) }
        requires first { IsFirst (shown planned.change.kept) planned.fresh }
        ensures once { WritesOnce D.seen (HasFailed D.seen)
            (LeavesPlanned self.old.table.entries key.now planned) (parts_of self.old) (parts_of self.new) result }
        ensures stored { StoresOne D.seen (snapshot_frames self.old.table.entries)
            (IsEither planned.change.written (record_of planned.fresh)) self.old.journal self.new.journal result }
        ensures causes { IfErr result (Causes None (λ _. ⊥)) }
        ensures runs { RunsOn D.seen self.old.journal.first.disk self.new.journal.first.disk × RunsOn D.seen self.old.journal.second.disk self.new.journal.second.disk }
        ensures room { self.new.room ≡ self.old.room }
        ensures roomy { HasRoom self.new }
    {
        let Changes { change, fresh } = planned;
        let Change { kept, written } = change;
        if let Err(_) = self.table.insert(key, kept) {
            return Err(CoordFault::NoMemory);
        }
        let put = self.put(&written, &fresh, Some(*key), keys);
        if let Err(fault) = put.result {
            self.table.remove(key); // the states are as before
            return Err(fault);
        }
        Ok(())
    }

    pub(crate) fn init(&mut self, key: &Key, state_epoch: i32, start: i64) -> Result<(), CoordFault>
        requires held { IsHeld D.seen (parts_of self.old) }
        requires roomy { HasRoom self.old }
        ensures refused { (fault : CoordFault) → init_refusal (kept_at self.old.table.entries key.now) state_epoch start ≡ Some fault → result ≡ Err fault }
        ensures causes { IfErr result (Causes (init_refusal (kept_at self.old.table.entries key.now) state_epoch start) (λ _. ⊥)) }
        ensures once { WritesOnce D.seen (HasFailed D.seen)
            (IsInitialised self.old.table.entries key.now state_epoch start) (parts_of self.old) (parts_of self.new) result }
        ensures stored { StoresOne D.seen (snapshot_frames self.old.table.entries)
            (IsInitRecord self.old.table.entries key.now state_epoch start)
            self.old.journal self.new.journal result }
        ensures runs { RunsOn D.seen self.old.journal.first.disk self.new.journal.first.disk × RunsOn D.seen self.old.journal.second.disk self.new.journal.second.disk }
        ensures room { self.new.room ≡ self.old.room }
        ensures roomy { HasRoom self.new }
    {
        key_fits(key);
        let tried = self.tries();
        let known = self.table.get(key);
        if let Some(fault) = init_refusal(known, state_epoch, start) {
            return Err(fault);
        }
        let is_known = known.is_some();
        let next = next_snapshot(known);
        let numbers = Numbers {
            key: *key,
            state_epoch,
            leader_epoch: 0,
            start,
        };
        let Ok(change) = empty_snapshot(self.alloc, &numbers, next, self.table.room()) else {
            return Err(CoordFault::NoMemory);
        };
        let fresh = first_where(self.alloc, &numbers, is_known, tried.due);
        let planned = Changes { change, fresh };
        if is_known {
            self.replace(key, planned, tried.keys)
        } else {
            self.add(key, planned, tried.keys)
        }
    }

    pub(crate) fn write(
        &mut self,
        key: &Key,
        state_epoch: i32,
        leader_epoch: i32,
        start: i64,
        runs: &[Run],
    ) -> Result<(), CoordFault>
        requires held { IsHeld D.seen (parts_of self.old) }
        requires roomy { HasRoom self.old }
        ensures refused { (fault : CoordFault) → write_refusal (kept_at self.old.table.entries key.now) state_epoch leader_epoch start runs.now ≡ Some fault →
            result ≡ Err fault }
        ensures causes { IfErr result (Causes (write_refusal (kept_at self.old.table.entries key.now) state_epoch leader_epoch start runs.now)
            (IsTooMany self.old.table.entries key.now start runs.now)) }
        ensures once { WritesOnce D.seen (HasFailed D.seen)
            (IsWritten self.old.table.entries key.now state_epoch leader_epoch start runs.now) (parts_of self.old) (parts_of self.new) result }
        ensures stored { StoresOne D.seen (snapshot_frames self.old.table.entries)
            (IsWriteRecord self.old.table.entries key.now state_epoch leader_epoch start runs.now)
            self.old.journal self.new.journal result }
        ensures runs { RunsOn D.seen self.old.journal.first.disk self.new.journal.first.disk × RunsOn D.seen self.old.journal.second.disk self.new.journal.second.disk }
        ensures room { self.new.room ≡ self.old.room }
        ensures roomy { HasRoom self.new }
    {
        let tried = self.tries();
        let known = self.table.get(key);
        if let Some(fault) = write_refusal(known, state_epoch, leader_epoch, start, runs) {
            return Err(fault);
        }
        let Some(kept) = known else {
            return Err(CoordFault::Unknown);
        };
        let numbers = Numbers {
            key: *key,
            state_epoch,
            leader_epoch,
            start,
        };
        let planned = match planned(
            self.alloc,
            &numbers,
            kept,
            runs,
            tried.due,
            self.table.room(),
        ) {
            Ok(planned) => planned,
            Err(fault) => return Err(fault),
        };
        self.replace(key, planned, tried.keys)
    }

    pub(crate) fn remove(&mut self, key: &Key) -> Result<bool, CoordFault>
        requires held { IsHeld D.seen (parts_of self.old) }
        requires roomy { HasRoom self.old }
        ensures absent { kept_at self.old.table.entries key.now ≡ None → (result ≡ Ok false) × (self.new ≡ self.old) }
        ensures present { IsSome (kept_at self.old.table.entries key.now) → IfOk result (λ there. there ≡ true) }
        ensures causes { IfErr result (Causes None (λ _. ⊥)) }
        ensures once { IsSome (kept_at self.old.table.entries key.now) →
            WritesOnce D.seen (HasFailed D.seen)
            (IsForgotten self.old.table.entries key.now) (parts_of self.old) (parts_of self.new) result }
        ensures stored { IsSome (kept_at self.old.table.entries key.now) →
            StoresOne D.seen (snapshot_frames self.old.table.entries)
            (λ one. one ≡ Removal key.now) self.old.journal self.new.journal result }
        ensures runs { RunsOn D.seen self.old.journal.first.disk self.new.journal.first.disk × RunsOn D.seen self.old.journal.second.disk self.new.journal.second.disk }
        ensures room { self.new.room ≡ self.old.room }
        ensures roomy { HasRoom self.new }
    {
        if !self.table.contains(key) {
            return Ok(false);
        }
        key_fits(key);
        let tried = self.tries();
        let written = StateRecord::Removal { key: *key };
        let fresh = removal_where(key, tried.due);
        let put = self.put(&written, &fresh, None, tried.keys);
        if let Err(fault) = put.result {
            return Err(fault);
        }
        self.table.remove(key);
        Ok(true)
    }

    // Tries a checkpoint of all keys where one is due.
    pub(crate) fn tidy(&mut self)
        requires { IsHeld D.seen (parts_of self.old) }
        ensures tidies { Tidies D.seen (parts_of self.old) (parts_of self.new) }
        ensures roomy { HasRoom self.old → HasRoom self.new }
    {
        let keys = self.table.len();
        let mut snapshots = KeySnapshots::of(self.alloc, &self.table, None, keys);
        let checkpointed = self.journal.checkpoint(self.alloc, &mut snapshots);
        renew_where(&mut self.table, checkpointed);
    }

    // Lets the state of a key start at an offset, where it is there and starts below it.
    pub(crate) fn raise(&mut self, key: &Key, start: i64)
        requires { HasRoom self.old }
        ensures entries { self.new.table.entries ≡ raised_entries self.old.table.entries key.now start }
        ensures journal { self.new.journal ≡ self.old.journal }
        ensures room { self.new.room ≡ self.old.room }
        ensures roomy { HasRoom self.new }
    {
        self.table.raise(key, start);
    }

    // The same of each key.
    pub(crate) fn raise_all(&mut self, start: i64)
        requires { HasRoom self.old }
        ensures entries { self.new.table.entries ≡ raised_all start self.old.table.entries }
        ensures journal { self.new.journal ≡ self.old.journal }
        ensures room { self.new.room ≡ self.old.room }
        ensures roomy { HasRoom self.new }
    {
        self.table.raise_all(start);
    }

    // Sets memory aside for writes of keys with so many runs.
    pub(crate) fn reserve(&mut self, room: u32) -> Result<(), NoMemory>
        requires { HasRoom self.old }
        ensures ok { OnOk result (room ≤ self.new.room) }
        ensures err { OnErr result (self.new.room ≡ self.old.room) }
        ensures kept { self.old.room ≤ self.new.room }
        ensures spared { room ≤ self.old.room → IsOk result }
        ensures journal { self.new.journal ≡ self.old.journal }
        ensures entries { self.new.table.entries ≡ self.old.table.entries }
        ensures roomy { HasRoom self.new }
    {
        if room <= self.room {
            return Ok(());
        }
        set_room(&mut self.written, room)?;
        set_room(&mut self.laid, room)?;
        set_buffer(&mut self.buffer, room)?;
        self.table.reserve(room)?;
        self.room = room;
        Ok(())
    }

    // A write with the epochs that its key has, in memory that was set aside.
    pub(crate) fn write_reserved(
        &mut self,
        key: &Key,
        start: i64,
        runs: &[Run],
    ) -> Result<(), StoreFault>
        requires held { IsHeld D.seen (parts_of self.old) }
        requires roomy { HasRoom self.old }
        requires granted { IsGranted self.old.table.entries key.now start runs.now self.old.room }
        ensures alone { StaysOn D.seen self.old.journal self.new.journal result }
        ensures once { WritesOnce D.seen (HasFailed D.seen)
            (IsOwnWritten self.old.table.entries key.now start runs.now) (parts_of self.old) (parts_of self.new) (stored_as result) }
        ensures stored { StoresOne D.seen (snapshot_frames self.old.table.entries)
            (IsOwnRecord self.old.table.entries key.now start runs.now)
            self.old.journal self.new.journal (stored_as result) }
        ensures runs { RunsOn D.seen self.old.journal.first.disk self.new.journal.first.disk × RunsOn D.seen self.old.journal.second.disk self.new.journal.second.disk }
        ensures room { self.new.room ≡ self.old.room }
        ensures roomy { HasRoom self.new }
    {
        let Some(kept) = self.table.get(key) else {
            unreachable!()
        };
        key_fits(key);
        self.table.ordered();
        let told = kept.start_told(start);
        let after = lay_write(
            self.alloc,
            kept,
            start,
            runs,
            &mut self.written,
            &mut self.laid,
        );
        let count = kept.counted(after.start);
        let own = own_numbers(kept, after, count);
        let buffer = mem::replace(&mut self.buffer, Vec::new(self.alloc));
        self.buffer = own_frame(buffer, key, &own, told, &self.written, &self.laid);
        if let Err(fault) = put_framed(&mut self.journal, &mut self.buffer) {
            return Err(fault);
        }
        let rows = mem::replace(&mut self.laid, Runs::new(self.alloc));
        match self.table.exchange(key, own_kept(&own, rows)) {
            Some(old) => self.laid = rows_of(old),
            None => unreachable!(),
        }
        Ok(())
    }
}
