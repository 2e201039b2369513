ghost use Rattle.std.specs.Prelude.{◌≡◌, ◌⊎◌, ◌↔◌, ◌≤◌, ◌<◌, ◌^◌, length, OnOk, OnErr, IsOk, true, false, Some, None, Ok, Err, is_some, IsSome, IfOk, IfErr, slice_get, MatchResult};
ghost use Rattle.std.specs.List.Sorted.{IsStrictlySortedBy};
ghost use Rattle.std.specs.Option.{option_map, option_copied};
ghost use Rattle.std.specs.Map.{keys_of};
ghost use Rattle.std.specs.declared.option.Option.{Option};
ghost use Rattle.edge_io.specs.Armed.{ArmsAlone, RunsOn};
ghost use Rattle.coord_checkpoint.specs.Disks.{HasFailed, RunsBoth};
ghost use Rattle.coord_checkpoint.specs.Writes.{StaysOn};
ghost use Rattle.share_model.specs.Keys.{key_cmp};
ghost use Rattle.share_coord.specs.Stored.{Entries, kept_at, snapshot_frames};
ghost use Rattle.share_coord.specs.Calls.{Causes, IsInitialised, IsWritten, IsTooMany, IsForgotten, init_refusal, write_refusal};
ghost use Rattle.share_coord.specs.Holding.{Holds, IsHeld, Tidies, WritesOnce};
ghost use Rattle.share_coord.specs.Opening.{IsOpened, IsNotOpened};
ghost use Rattle.share_coord.specs.Recorded.{IsInitRecord, IsWriteRecord, StoresOne};
ghost use Rattle.share_coord.specs.Putting.{stored_as};
ghost use Rattle.share_coord.specs.Rooms.{IsGranted, IsOwnRecord, IsOwnWritten};
ghost use Rattle.share_coord.specs.States.{state_found, states_of};
ghost use Rattle.share_coord.specs.Unwritten.{raised_all, raised_entries};
ghost use Rattle.state_records.specs.declared.record.StateRecord.TheVariants.{Removal};

use crate::fault::CoordFault;
use crate::replay::Replay;
use crate::states::States;
use crate::store::Store;
use crate::view::StateView;
use coord_checkpoint::{CoordOpen, FaultCounts};
use edge_io::{Disk, DiskPlace, FaultMode};
use offset_runs::Runs;
use share_model::{Key, NoMemory, Run, StoreFault};
use std::alloc::Global;
use std::marker::Model;

/// Share-partition states by their keys, which survive a crash at any moment.
///
/// A contract sees the states in the order of their keys (byte order of group, topic and partition), and the journal
/// of their records on the two disks. Each call that changes a state, but for [`Coord::raise`] and
/// [`Coord::raise_all`], adds one record: it takes its memory first, then makes the device calls of one append, and
/// changes the states in memory once these are done. Where a device call fails the states are as before, and the record
/// is *pending*: a crash may leave it or not, until a later call is answered Ok.
///
/// Before a call that stores a record a checkpoint of all keys is tried where the journal has many more records than
/// there are keys. It drops the older records. One that fails, for want of memory too, refuses nothing, and the next
/// call tries again; but where its last frame may still land, a call is answered `Device` as long as that can't be
/// ruled out.
#[derive(Drop)]
pub struct Coord<D: Disk> {
    store: Store<D>,
}

impl<D: Disk> Model for Coord<D> {
    ghost use Rattle.share_coord.specs.Holding.{IsHeld};
    ghost use Rattle.share_coord.specs.Parts.{StoreParts};
    ghost use Rattle.share_coord.specs.Rooms.{HasRoom};

    ghost Value = { StoreParts D };

    ghost view = { λ c. record { journal = c.store.journal; entries = c.store.table.entries; room = c.store.room } };

    ghost invariant = { λ c. IsHeld D.seen (record { journal = c.store.journal; entries = c.store.table.entries; room = c.store.room }) × HasRoom c.store };
}

impl<D: Disk> Coord<D> {
    /// Opens the states of two disks, which come back at an `Err`.
    ///
    /// It syncs each disk before it reads it, and repairs the end of its journal. The states are those of the live one
    /// of both journals. It is linear in them. Each frame is done as it is read: so it takes the memory of one frame and
    /// of the states of both journals, which are two maps at the most, however long the journals are.
    pub fn open(alloc: Global, a: D, b: D) -> Result<Coord<D>, (D, D, CoordOpen)>
        ensures opened { IfOk result (IsOpened D.seen a b) }
        ensures refused { IfErr result (IsNotOpened D.seen a b) }
        ensures both { MatchResult result
            (λ c. RunsBoth D.seen a b c.journal.first.disk c.journal.second.disk)
            (λ e. RunsBoth D.seen a b e.0 e.1) }
    {
        let Ok(buffer) = Vec::with_capacity(alloc, 320) else {
            return Err((a, b, CoordOpen::NoMemory));
        };
        let (ones, twos) = (Replay::new(alloc), Replay::new(alloc));
        let (journal, replay) = match coord_checkpoint::open(alloc, a, b, ones, twos) {
            Ok(opened) => opened,
            Err(refused) => return Err(refused),
        };
        match replay.finish() {
            Ok(table) => Ok(Coord {
                store: Store {
                    journal,
                    table,
                    alloc,
                    room: 0,
                    written: Runs::new(alloc),
                    laid: Runs::new(alloc),
                    buffer,
                },
            }),
            Err(place) => {
                let second = journal.on_second();
                let (a, b) = journal.into_disks();
                Err((a, b, CoordOpen::Damaged { second, place }))
            }
        }
    }

    /// Gives a key this state epoch and start, leader epoch 0 and no rows, whether it is there or not. It is stored
    /// as a snapshot.
    ///
    /// Refused are a state epoch below 0 or a start below -1, and then a state epoch below the known one.
    pub fn init(&mut self, key: &Key, state_epoch: i32, start: i64) -> Result<(), CoordFault>
        ensures refused { (fault : CoordFault) → init_refusal (kept_at self.old.entries key.now) state_epoch start ≡ Some fault → result ≡ Err fault }
        ensures causes { IfErr result (Causes (init_refusal (kept_at self.old.entries key.now) state_epoch start) (λ _. ⊥)) }
        ensures once { WritesOnce D.seen (HasFailed D.seen)
            (IsInitialised self.old.entries key.now state_epoch start) self.old self.new result }
        ensures stored { StoresOne D.seen (snapshot_frames self.old.entries)
            (IsInitRecord self.old.entries key.now state_epoch start)
            self.old.journal self.new.journal result }
        ensures runs { RunsOn D.seen self.old.journal.first.disk self.new.journal.first.disk × RunsOn D.seen self.old.journal.second.disk self.new.journal.second.disk }
        ensures room { self.new.room ≡ self.old.room }
    {
        self.store.init(key, state_epoch, start)
    }

    /// Sets both epochs of a key, and its start unless that is -1, and lays these runs over its rows, a later run
    /// winning over an earlier one; rows below the start go. It is stored as an update with the rows that are
    /// written, and as a snapshot where the key has 500 updates since its last one, or where it lowers a start that
    /// [`Coord::raise`] raised since the key was last written, by a record or a checkpoint. Where no start is given and
    /// the key's was raised since a call last stored the key, the update tells the start.
    ///
    /// Refused are an epoch below 0, a start below -1 or a run out of range; then a key that isn't there; a leader
    /// epoch below the known one; a state epoch below the known one; and more than 1000000 runs. It costs the runs
    /// that are written, a pass over those of the key, and one frame.
    pub fn write(
        &mut self,
        key: &Key,
        state_epoch: i32,
        leader_epoch: i32,
        start: i64,
        runs: &[Run],
    ) -> Result<(), CoordFault>
        ensures refused { (fault : CoordFault) → write_refusal (kept_at self.old.entries key.now) state_epoch leader_epoch start runs.now ≡ Some fault →
            result ≡ Err fault }
        ensures causes { IfErr result (Causes (write_refusal (kept_at self.old.entries key.now) state_epoch leader_epoch start runs.now)
            (IsTooMany self.old.entries key.now start runs.now)) }
        ensures once { WritesOnce D.seen (HasFailed D.seen)
            (IsWritten self.old.entries key.now state_epoch leader_epoch start runs.now) self.old self.new result }
        ensures stored { StoresOne D.seen (snapshot_frames self.old.entries)
            (IsWriteRecord self.old.entries key.now state_epoch leader_epoch start runs.now)
            self.old.journal self.new.journal result }
        ensures runs { RunsOn D.seen self.old.journal.first.disk self.new.journal.first.disk × RunsOn D.seen self.old.journal.second.disk self.new.journal.second.disk }
        ensures room { self.new.room ≡ self.old.room }
    {
        self.store
            .write(key, state_epoch, leader_epoch, start, runs)
    }

    /// Sets memory aside for [`Coord::write_reserved`], so that the room is at least `room`: 24 bytes for each run in
    /// the rows of each key, of a key that is initialised later too, and 67 for each run beside them. After want of
    /// memory the store is as it was.
    pub fn reserve(&mut self, room: u32) -> Result<(), NoMemory>
        ensures ok { OnOk result (room ≤ self.new.room) }
        ensures err { OnErr result (self.new ≡ self.old) }
        ensures same { self.new ≡ record self.old { room = self.new.room } }
        ensures kept { self.old.room ≤ self.new.room }
        ensures spared { room ≤ self.old.room → IsOk result }
    {
        self.store.reserve(room)
    }

    /// Tries a checkpoint of all keys where one is due, as the calls that store a record do before it. It refuses
    /// nothing, and keeps the states and the room. None is tried where the largest record would have no room behind
    /// the journal; so a write behind it that is refused as full finds what there was.
    pub fn tidy(&mut self)
        ensures tidies { Tidies D.seen self.old self.new }
        ensures room { self.new.room ≡ self.old.room }
    {
        self.store.tidy();
    }

    /// Does what [`Coord::write`] does with the epochs that the key has. It takes no memory, leaves the room, and tries
    /// no checkpoint.
    ///
    /// The key is there, the start and the runs are in range, and the number of the key's runs and twice that of the
    /// given ones are at most the room and at most 1000000.
    pub fn write_reserved(&mut self, key: &Key, start: i64, runs: &[Run]) -> Result<(), StoreFault>
        requires { IsGranted self.old.entries key.now start runs.now self.old.room }
        ensures alone { StaysOn D.seen self.old.journal self.new.journal result }
        ensures once { WritesOnce D.seen (HasFailed D.seen) (IsOwnWritten self.old.entries key.now start runs.now) self.old self.new (stored_as result) }
        ensures stored { StoresOne D.seen (snapshot_frames self.old.entries)
            (IsOwnRecord self.old.entries key.now start runs.now)
            self.old.journal self.new.journal (stored_as result) }
        ensures runs { RunsOn D.seen self.old.journal.first.disk self.new.journal.first.disk × RunsOn D.seen self.old.journal.second.disk self.new.journal.second.disk }
        ensures room { self.new.room ≡ self.old.room }
    {
        self.store.write_reserved(key, start, runs)
    }

    /// Takes a key away. False where it isn't there, and then nothing is done.
    pub fn remove(&mut self, key: &Key) -> Result<bool, CoordFault>
        ensures absent { kept_at self.old.entries key.now ≡ None → (result ≡ Ok false) × (self.new ≡ self.old) }
        ensures present { IsSome (kept_at self.old.entries key.now) → IfOk result (λ there. there ≡ true) }
        ensures causes { IfErr result (Causes None (λ _. ⊥)) }
        ensures once { IsSome (kept_at self.old.entries key.now) →
            WritesOnce D.seen (HasFailed D.seen) (IsForgotten self.old.entries key.now) self.old self.new result }
        ensures stored { IsSome (kept_at self.old.entries key.now) →
            StoresOne D.seen (snapshot_frames self.old.entries)
            (λ one. one ≡ Removal key.now) self.old.journal self.new.journal result }
        ensures runs { RunsOn D.seen self.old.journal.first.disk self.new.journal.first.disk × RunsOn D.seen self.old.journal.second.disk self.new.journal.second.disk }
        ensures room { self.new.room ≡ self.old.room }
    {
        self.store.remove(key)
    }

    /// The disks stand for what the store has in memory, with or without a write that is pending.
    pub fn known(&self)
        ensures { IsHeld D.seen self.now }
    {
        let _ = &self.store;
    }

    /// Lets the state of a key start at an offset, where it is there and starts below it: its rows below that go.
    ///
    /// Nothing is written, and no memory taken. So a crash finds the key as it was stored, which is, once raised, what is
    /// kept of it. The key's next update tells its start, also where it stays, and a checkpoint writes the key as it is
    /// kept. The state that a pending write would leave is raised too.
    pub fn raise(&mut self, key: &Key, start: i64)
        ensures entries { self.new.entries ≡ raised_entries self.old.entries key.now start }
        ensures journal { self.new.journal ≡ self.old.journal }
        ensures room { self.new.room ≡ self.old.room }
        ensures holds { (pending : Option Entries) → Holds D.seen self.old pending →
            Holds D.seen self.new (option_map (λ entries. raised_entries entries key.now start) pending) }
    {
        self.store.raise(key, start);
    }

    /// Does the same to each key. It costs all rows.
    pub fn raise_all(&mut self, start: i64)
        ensures entries { self.new.entries ≡ raised_all start self.old.entries }
        ensures journal { self.new.journal ≡ self.old.journal }
        ensures room { self.new.room ≡ self.old.room }
        ensures holds { (pending : Option Entries) → Holds D.seen self.old pending →
            Holds D.seen self.new (option_map (raised_all start) pending) }
    {
        self.store.raise_all(start);
    }

    /// The state of a key. `None` where it isn't there.
    pub fn look(&self, key: &Key) -> Option<&StateView>
        ensures { state_found result ≡ option_map (λ k. k.view) (kept_at self.now.entries key.now) }
    {
        match self.store.table.get(key) {
            Some(kept) => Some(&kept.view),
            None => None,
        }
    }

    /// All states with their keys, in byte order of group, topic and partition. A walk over them is linear.
    pub fn states(&self) -> States<'_>
        ensures rest { result ≡ states_of self.now.entries }
        ensures fits { length self.now.entries < 2 ^ 63 }
        ensures ordered { IsStrictlySortedBy key_cmp (keys_of self.now.entries) }
    {
        States {
            inner: self.store.table.iter(),
        }
    }

    /// The key at a place, in byte order of group, topic and partition, from place 0 on. It goes past the keys before
    /// it; [`Coord::states`] is for a walk.
    pub fn key_at(&self, place: u64) -> Option<&Key>
        ensures { option_copied result ≡ slice_get (keys_of self.now.entries) place }
    {
        self.store.table.key_at(place)
    }

    /// Whether a call of one of its disks has failed for want of memory.
    pub fn starved(&self) -> bool
        ensures { (result ≡ true) ↔ (((D.seen self.now.journal.first.disk).starved ≡ true) ⊎ ((D.seen self.now.journal.second.disk).starved ≡ true)) }
    {
        self.store.journal.starved()
    }

    /// The count of faults of each of its disks.
    pub fn faults(&self) -> FaultCounts
        ensures first { result.first ≡ (D.seen self.now.journal.first.disk).faults }
        ensures second { result.second ≡ (D.seen self.now.journal.second.disk).faults }
    {
        self.store.journal.faults()
    }

    /// Arms a fault of one of its disks, and changes nothing else; it has no log.
    pub fn arm(&mut self, disk: DiskPlace, after: u64, mode: FaultMode)
        ensures log { disk ≡ DiskPlace.Log → self.new ≡ self.old }
        ensures log_b { disk ≡ DiskPlace.LogB → self.new ≡ self.old }
        ensures first { disk ≡ DiskPlace.StateA →
            ArmsAlone D.seen after mode self.old.journal.first.disk self.new.journal.first.disk
            × (self.new.journal.second ≡ self.old.journal.second) }
        ensures second { disk ≡ DiskPlace.StateB →
            ArmsAlone D.seen after mode self.old.journal.second.disk self.new.journal.second.disk
            × (self.new.journal.first ≡ self.old.journal.first) }
        ensures end { self.new.journal.end ≡ self.old.journal.end }
        ensures states { self.new.entries ≡ self.old.entries }
        ensures room { self.new.room ≡ self.old.room }
        ensures stays { (pending : Option Entries) → Holds D.seen self.old pending → Holds D.seen self.new pending }
    {
        self.store.journal.arm(disk, after, mode);
    }

    /// Gives the disks back, `a` first.
    pub fn into_disks(self) -> (D, D)
        ensures { (result.0 ≡ self.journal.first.disk) × (result.1 ≡ self.journal.second.disk) }
    {
        let Coord { store } = self;
        let Store { journal, .. } = store;
        journal.into_disks()
    }
}
