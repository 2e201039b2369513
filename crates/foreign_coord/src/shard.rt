ghost use Rattle.std.specs.Prelude.{◌≡◌, ◌≢◌, ◌⊎◌, ◌↔◌, ◌≤◌, true, false, None, IfOk, IfErr, OnErr, slice_get, MatchResult};
ghost use Rattle.std.specs.Option.{option_map, option_copied};
ghost use Rattle.std.specs.Map.{keys_of};
ghost use Rattle.std.specs.declared.option.Option.{Option};
ghost use Rattle.edge_io.specs.Armed.{ArmsAlone, RunsOn, StarvesUnarmed};
ghost use Rattle.edge_io.specs.Moments.{LeavesPairs};
ghost use Rattle.share_model.specs.ForeignRules.{read_share_state};
ghost use Rattle.share_model.specs.declared.fault.StoreFault.{StoreFault};
ghost use Rattle.share_model.specs.declared.foreign.ForeignOp.TheVariants.{Init, Read, Write as write_call, Delete};
ghost use Rattle.coord_checkpoint.specs.Disks.{RunsBoth};
ghost use Rattle.share_coord.specs.Stored.{Entries, kept_at};
ghost use Rattle.share_coord.specs.Holding.{Holds};
ghost use Rattle.share_coord.specs.Opening.{IsOpened, IsNotOpened};
ghost use Rattle.share_coord.specs.States.{state_found, states_of};
ghost use Rattle.foreign_coord.specs.Once.{HasFailedNone, HasRisen, ActsOnce, FailsToPut, PutsRecord};
ghost use Rattle.state_records.specs.States.{AreStoredRuns};
ghost use Rattle.foreign_coord.specs.Shards.{ForeignShardState, StepsForeign, HasNoRoom, Carries, IsFound, writes};

use crate::batches::runs_of;
use crate::codes::{alone, answer, refusal};
use edge_io::{Disk, DiskPlace, FaultMode};
use flex_fields::Items;
use share_coord::{Coord, CoordOpen, FaultCounts, StateView, States};
use share_model::{Code, ForeignAnswer, ForeignOp, Key, NoMemory, StateBatchList};
use std::alloc::Global;
use std::marker::Model;

/// The states of partitions that this broker doesn't host, which survive a crash at any moment.
///
/// A contract sees the store: the states in the order of their keys, and the journal of their records on the two disks.
#[derive(Drop)]
pub struct ForeignShard<D: Disk> {
    coord: Coord<D>,
    alloc: Global,
}

impl<D: Disk> Model for ForeignShard<D> {
    ghost use Rattle.share_coord.specs.Parts.{StoreParts};

    ghost Value = { StoreParts D };

    ghost view = { λ s. s.coord };
}

// The answer to a read of a key.
fn read(
    alloc: Global,
    known: Option<&StateView>,
    leader_epoch: i32,
) -> Result<ForeignAnswer, NoMemory>
    ensures answer { IfOk result (λ answer. answer ≡ read_share_state (state_found known.entry) leader_epoch) }
    ensures ranges { IfOk result (λ answer. AreStoredRuns answer.runs) }
{
    if leader_epoch < 0 {
        return Ok(alone(alloc, Code::INVALID_REQUEST));
    }
    let Some(view) = known else {
        return Ok(alone(alloc, Code::UNKNOWN_TOPIC_OR_PARTITION));
    };
    if leader_epoch < view.leader_epoch {
        return Ok(alone(alloc, Code::FENCED_LEADER_EPOCH));
    }
    view.known();
    let runs = view.runs.list().to_vec(alloc)?;
    Ok(ForeignAnswer {
        code: Code::NONE,
        state_epoch: view.state_epoch,
        start: view.start,
        runs: Items::new(runs),
    })
}

impl<D: Disk> ForeignShard<D> {
    /// Opens the states of two disks, as `Coord` does. They come back at an `Err`.
    pub fn open(alloc: Global, a: D, b: D) -> Result<ForeignShard<D>, (D, D, CoordOpen)>
        ensures opened { IfOk result (IsOpened D.seen a b) }
        ensures carries { IfOk result (λ c. Carries D.seen c (record { states = states_of c.entries; pending = None })) }
        ensures refused { IfErr result (IsNotOpened D.seen a b) }
        ensures both { MatchResult result
            (λ c. RunsBoth D.seen a b c.journal.first.disk c.journal.second.disk)
            (λ e. RunsBoth D.seen a b e.0 e.1) }
    {
        match Coord::open(alloc, a, b) {
            Ok(coord) => Ok(ForeignShard { coord, alloc }),
            Err(refused) => Err(refused),
        }
    }

    fn init(&mut self, key: &Key, state_epoch: i32, start: i64) -> Result<ForeignAnswer, NoMemory>
        ensures once { ActsOnce D.seen
            (Init key.now state_epoch start) self.old self.new result }
        ensures runs { RunsOn D.seen self.old.journal.first.disk self.new.journal.first.disk × RunsOn D.seen self.old.journal.second.disk self.new.journal.second.disk }
        ensures ranges { IfOk result (λ answer. AreStoredRuns answer.runs) }
    {
        let done = self.coord.init(key, state_epoch, start);
        answer(self.alloc, done)
    }

    fn read(&mut self, key: &Key, leader_epoch: i32) -> Result<ForeignAnswer, NoMemory>
        ensures once { ActsOnce D.seen
            (Read key.now leader_epoch) self.old self.new result }
        ensures runs { RunsOn D.seen self.old.journal.first.disk self.new.journal.first.disk × RunsOn D.seen self.old.journal.second.disk self.new.journal.second.disk }
        ensures ranges { IfOk result (λ answer. AreStoredRuns answer.runs) }
    {
        read(self.alloc, self.coord.look(key), leader_epoch)
    }

    fn write(
        &mut self,
        key: &Key,
        state_epoch: i32,
        leader_epoch: i32,
        start: i64,
        batches: &StateBatchList,
    ) -> Result<ForeignAnswer, NoMemory>
        ensures once { ActsOnce D.seen
            (write_call key.now state_epoch leader_epoch start batches.now) self.old self.new result }
        ensures runs { RunsOn D.seen self.old.journal.first.disk self.new.journal.first.disk × RunsOn D.seen self.old.journal.second.disk self.new.journal.second.disk }
        ensures ranges { IfOk result (λ answer. AreStoredRuns answer.runs) }
    {
        let Some(runs) = runs_of(self.alloc, batches.as_slice())? else {
            return Ok(alone(self.alloc, Code::INVALID_REQUEST));
        };
        let done = self
            .coord
            .write(key, state_epoch, leader_epoch, start, &runs);
        answer(self.alloc, done)
    }

    fn delete(&mut self, key: &Key) -> Result<ForeignAnswer, NoMemory>
        ensures once { ActsOnce D.seen
            (Delete key.now) self.old self.new result }
        ensures runs { RunsOn D.seen self.old.journal.first.disk self.new.journal.first.disk × RunsOn D.seen self.old.journal.second.disk self.new.journal.second.disk }
        ensures ranges { IfOk result (λ answer. AreStoredRuns answer.runs) }
    {
        match self.coord.remove(key) {
            Ok(_) => Ok(alone(self.alloc, Code::NONE)),
            Err(fault) => refusal(self.alloc, fault),
        }
    }

    fn dispatch(&mut self, op: &ForeignOp) -> Result<ForeignAnswer, NoMemory>
        ensures once { ActsOnce D.seen op.now self.old self.new result }
        ensures runs { RunsOn D.seen self.old.journal.first.disk self.new.journal.first.disk × RunsOn D.seen self.old.journal.second.disk self.new.journal.second.disk }
        ensures ranges { IfOk result (λ answer. AreStoredRuns answer.runs) }
    {
        match op {
            ForeignOp::Init {
                key,
                state_epoch,
                start,
            } => self.init(key, *state_epoch, *start),
            ForeignOp::Read { key, leader_epoch } => self.read(key, *leader_epoch),
            ForeignOp::Write {
                key,
                state_epoch,
                leader_epoch,
                start,
                batches,
            } => self.write(key, *state_epoch, *leader_epoch, *start, batches),
            ForeignOp::Delete { key } => self.delete(key),
        }
    }

    /// Does a call, and answers it by the rules of the share-group state calls. A write whose record couldn't be
    /// stored is answered with code 56, and changes no state.
    ///
    /// It takes its memory first. A call that is refused, a read, and a delete of a key that isn't there make no
    /// device call.
    pub fn act(&mut self, op: &ForeignOp) -> Result<ForeignAnswer, NoMemory>
        // Where it answers, a step of the shard was made; where it finds no memory, nothing has changed.
        ensures ok { IfOk result (λ answer. (old : ForeignShardState) → Carries D.seen self.old old → (new : ForeignShardState) × (fault : Option StoreFault)
            × Carries D.seen self.new new
            × StepsForeign (HasRisen D.seen self.old self.new) self.old.journal.end old op.now answer fault new) }
        ensures memory { OnErr result (self.new ≡ self.old) }

        // With nothing armed, a store fault comes only of a full journal, or where the disk finds no memory.
        ensures sound { IfOk result (λ answer. answer.code ≡ Code.KAFKA_STORAGE_ERROR →
            StarvesUnarmed D.seen self.old.journal.first.disk self.new.journal.first.disk
            ⊎ (StarvesUnarmed D.seen self.old.journal.second.disk self.new.journal.second.disk
            ⊎ HasNoRoom self.old.journal.end (states_of self.old.entries) op.now)) }

        // Unless it is answered with a store fault, no device call failed but those of a checkpoint.
        ensures quiet { IfOk result (λ answer. answer.code ≢ Code.KAFKA_STORAGE_ERROR → HasFailedNone D.seen self.old self.new) }

        // The record of the call, and no other, is stored. Where it couldn't be, it may be pending, or had no room.
        ensures stored { IfOk result (λ answer. writes (states_of self.old.entries) op.now answer ≡ true →
            answer.code ≢ Code.KAFKA_STORAGE_ERROR → PutsRecord D.seen op.now self.old self.new) }
        ensures unstored { IfOk result (λ answer. answer.code ≡ Code.KAFKA_STORAGE_ERROR →
            FailsToPut D.seen op.now self.old self.new) }

        // A call that writes no record changes nothing.
        ensures unwritten { IfOk result (λ answer. writes (states_of self.old.entries) op.now answer ≡ false → answer.code ≢ Code.KAFKA_STORAGE_ERROR →
            self.new ≡ self.old) }

        // At each moment since it began, a crash leaves what stood at entry, or what it leaves where it is granted.
        ensures any_moment { (old : ForeignShardState) → Carries D.seen self.old old → LeavesPairs D.seen
            self.old.journal.first.disk self.new.journal.first.disk self.old.journal.second.disk self.new.journal.second.disk (IsFound old op.now) }
        ensures runs { RunsOn D.seen self.old.journal.first.disk self.new.journal.first.disk × RunsOn D.seen self.old.journal.second.disk self.new.journal.second.disk }
        ensures ranges { IfOk result (λ answer. AreStoredRuns answer.runs) }
    {
        self.dispatch(op)
    }

    /// The state of a key. `None` where it isn't there.
    pub fn look(&self, key: &Key) -> Option<&StateView>
        ensures { state_found result ≡ option_map (λ k. k.view) (kept_at self.now.entries key.now) }
    {
        self.coord.look(key)
    }

    /// All states with their keys, in byte order of group, topic and partition. A walk over them is linear.
    pub fn states(&self) -> States<'_>
        ensures { result ≡ states_of self.now.entries }
    {
        self.coord.states()
    }

    /// The key at a place, in byte order of group, topic and partition, from place 0 on. It goes past the keys before
    /// it; [`ForeignShard::states`] is for a walk.
    pub fn key_at(&self, place: u64) -> Option<&Key>
        ensures { option_copied result ≡ slice_get (keys_of self.now.entries) place }
    {
        self.coord.key_at(place)
    }

    /// Whether a call of one of its disks has failed for want of memory.
    pub fn starved(&self) -> bool
        ensures { (result ≡ true) ↔ (((D.seen self.now.journal.first.disk).starved ≡ true) ⊎ ((D.seen self.now.journal.second.disk).starved ≡ true)) }
    {
        self.coord.starved()
    }

    /// The count of faults of each of its disks.
    pub fn faults(&self) -> FaultCounts
        ensures first { result.first ≡ (D.seen self.now.journal.first.disk).faults }
        ensures second { result.second ≡ (D.seen self.now.journal.second.disk).faults }
    {
        self.coord.faults()
    }

    /// Arms a fault of one of its disks, and changes nothing else; it has no log.
    pub fn arm(&mut self, disk: DiskPlace, after: u64, mode: FaultMode)
        ensures log { disk ≡ DiskPlace.Log → self.new ≡ self.old }
        ensures log_b { disk ≡ DiskPlace.LogB → self.new ≡ self.old }
        ensures first { disk ≡ DiskPlace.StateA →
            ArmsAlone D.seen after mode self.old.journal.first.disk self.new.journal.first.disk
            × (self.new.journal.second ≡ self.old.journal.second) }
        ensures second { disk ≡ DiskPlace.StateB →
            ArmsAlone D.seen after mode self.old.journal.second.disk self.new.journal.second.disk
            × (self.new.journal.first ≡ self.old.journal.first) }
        ensures end { self.new.journal.end ≡ self.old.journal.end }
        ensures states { self.new.entries ≡ self.old.entries }
        ensures holds { (pending : Option Entries) → Holds D.seen self.old pending → Holds D.seen self.new pending }
        ensures stays { (shard : ForeignShardState) → Carries D.seen self.old shard → Carries D.seen self.new shard }
    {
        self.coord.arm(disk, after, mode);
    }

    /// Gives the disks back, `a` first.
    pub fn into_disks(self) -> (D, D)
        ensures { (result.0 ≡ self.journal.first.disk) × (result.1 ≡ self.journal.second.disk) }
    {
        let ForeignShard { coord, .. } = self;
        coord.into_disks()
    }
}
