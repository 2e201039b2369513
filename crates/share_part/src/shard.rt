ghost use Rattle.std.specs.Prelude.{◌≡◌, ◌≢◌, ◌↔◌, ◌≤◌, ◌<◌, ◌^◌, ℕ, length, Ok, IsErr, IsOk, IsSome, None, OnErr, OnOk, max, true, false, IfOk, IfErr, IfSome, MatchResult, slice_get, ◌⊎◌};
ghost use Rattle.std.specs.List.{AllByRecursion};
ghost use Rattle.std.specs.Map.{keys_of};
ghost use Rattle.std.specs.Option.{option_copied, option_map};
ghost use Rattle.edge_io.specs.Armed.{ArmsAlone, RunsOn};
ghost use Rattle.edge_io.specs.declared.name.DiskPlace.TheVariants.{Log, StateA, StateB};
ghost use Rattle.share_model.specs.Acks.{types_in};
ghost use Rattle.share_model.specs.ForeignRules.{share_state_at};
ghost use Rattle.share_model.specs.Logs.{end_of};
ghost use Rattle.share_model.specs.declared.fault.LogFault.{LogFault};
ghost use Rattle.part_log.specs.Logs.{log_in};
ghost use Rattle.coord_checkpoint.specs.Disks.{RunsBoth};
ghost use Rattle.coord_checkpoint.specs.Writes.{StaysOn};
ghost use Rattle.edge_io.specs.Moments.{LeavesOnly, LeavesPairs};
ghost use Rattle.gate_journal.specs.Frames.{StandsAs};
ghost use Rattle.share_part.specs.Failures.{RunOnBoth};
ghost use Rattle.share_coord.specs.Opening.{IsOpened as AreOpened, IsNotOpened as AreNotOpened};
ghost use Rattle.share_part.specs.Opening.{IsOpened, IsNotOpened};
ghost use Rattle.offset_runs.specs.Changes.{room_of};
ghost use Rattle.share_part.specs.Deleting.{DeletesOnce, IsTellableDelete, target_of};
ghost use Rattle.share_part.specs.Describing.{summary_of};
ghost use Rattle.share_part.specs.Foreseeing.{with_ack};
ghost use Rattle.share_part.specs.Hosting.{key_of};
ghost use Rattle.share_coord.specs.States.{state_found, states_of};
ghost use Rattle.share_part.specs.Acknowledging.{AreWithinAcks};
ghost use Rattle.share_part.specs.Following.{IsEmptyAnswer, IsFetch};
ghost use Rattle.share_part.specs.Offering.{offer_of};
ghost use Rattle.share_part.specs.Tables.{table_of};
ghost use Rattle.share_part.specs.Shards.{Carries, PartShardState, held_in, placed_at, spare_of};
ghost use Rattle.share_part.specs.Releasing.{ReleasesOnce};
ghost use Rattle.share_part.specs.Storing.{answer_to};
ghost use Rattle.share_part.specs.Visits.{acks_alone, told_alone};
ghost use Rattle.share_part.specs.Walks.{IsSmallGrant};
ghost use Rattle.share_part.specs.Once.{ExpiresOnce, FollowsOnce, VisitsOnce, ProducesOnce};

use crate::acks::{judge_acks, judge_given, settle_acks, settle_given};
use crate::conf::PartConf;
use crate::delete::{raise_tables, raise_windows, target};
use crate::describing::describe;
use crate::fetch::{append_batches, has_table, make_table};
use crate::judge::are_hosted;
use crate::limits::Limits;
use crate::offering::offer;
use crate::opening::{PartFault, PartOpen, fault_of_log, fault_of_states};
use crate::ready::{chosen, hand_out, prepared, ready};
use crate::release::{Released, outcome_of, release_held};
use crate::settle::Whose;
use crate::windows::due_groups;
use edge_io::{Disk, DiskPlace, FaultMode};
use flex_fields::Items;
use lock_index::Window;
use offset_runs::Runs;
use part_log::PartLog;
use share_coord::{Coord, CoordOpen, FaultCounts, StateView, States};
use share_model::{
    AckBatch, AckOutcome, DeleteAnswer, ExpireAnswer, LogFault, Name, NoMemory, Offer, Placed,
    Room, StoreFault, TableSummary, Then, ThenOutcome, Visit, VisitAnswer,
};
use std::alloc::Global;
use std::collections::BTreeMap;
use std::marker::Model;

/// The count of faults of each disk of a partition: that of its log, and the two of its states.
#[derive(Clone, Copy)]
pub struct PartFaultCounts {
    pub log: u64,
    pub states: FaultCounts,
}

/// The shard of a hosted partition: its log, and the share groups that read it, each with its table and what it holds.
///
/// A contract sees the configuration, the log, the store of the groups' states, their windows and the clock.
#[derive(Drop)]
pub struct PartShard<D: Disk, W: Window> {
    conf: PartConf,
    log: PartLog<D>,
    states: Coord<D>,
    windows: BTreeMap<Name, W>,
    // The rows that acts change, until they are stored.
    changed: Runs,
    clock: u64,
    alloc: Global,
}

impl<D: Disk, W: Window> Model for PartShard<D, W> {
    ghost use Rattle.offset_runs.specs.Changes.{room_of};
    ghost use Rattle.part_log.specs.Logs.{log_in};
    ghost use Rattle.share_part.specs.Hosting.{IsKeptShard};
    ghost use Rattle.share_part.specs.Shards.{PartParts, held_in};

    ghost Value = { PartParts D W };

    ghost view = { λ s. record { conf = s.conf; log = s.log; states = s.states; windows = s.windows.entries; clock = s.clock } };

    ghost invariant = { λ s. IsKeptShard s.conf (log_in s.log) s.states.entries (held_in W.held s.windows.entries) s.clock (room_of s.changed) s.states.room };
}

// No rows, and memory for those of all that a group holds: two runs for each of 2000 records.
fn scratch(alloc: Global) -> Option<Runs>
    ensures { IfSome result (λ rows. 4000 ≤ room_of rows) }
{
    let mut rows = Runs::new(alloc);
    match rows.reserve(4000) {
        Ok(()) => Some(rows),
        Err(NoMemory) => None,
    }
}

// Opens the states, with room for 6000 runs of each group: 2000 rows, and two for each of those.
fn open_states<D: Disk>(alloc: Global, a: D, b: D) -> Result<Coord<D>, (D, D, CoordOpen)>
    ensures opened { IfOk result (AreOpened D.seen a b) }
    ensures room { IfOk result (λ states. 6000 ≤ states.room) }
    ensures refused { IfErr result (AreNotOpened D.seen a b) }
    ensures both { MatchResult result
        (λ states. RunsBoth D.seen a b states.journal.first.disk states.journal.second.disk)
        (λ e. RunsBoth D.seen a b e.0 e.1) }
{
    let mut states = match Coord::open(alloc, a, b) {
        Ok(states) => states,
        Err(refused) => return Err(refused),
    };
    if let Err(_) = states.reserve(6000) {
        let (a, b) = states.into_disks();
        return Err((a, b, CoordOpen::NoMemory));
    }
    Ok(states)
}

// An answer that no record was acquired. It takes no memory.
fn empty(alloc: Global, outcome: ThenOutcome) -> VisitAnswer
    ensures ack { result.ack ≡ AckOutcome.Done }
    ensures answer { IsEmptyAnswer outcome result }
{
    VisitAnswer {
        ack: AckOutcome::Done,
        then: outcome,
        grants: Items::new(Vec::new(alloc)),
        batches: Room::new(alloc).into_blob(),
    }
}

// The answer of a fetch of which a batch couldn't be read. It takes no memory.
fn unread(alloc: Global) -> VisitAnswer
    ensures ack { result.ack ≡ AckOutcome.Done }
    ensures answer { IsEmptyAnswer (ThenOutcome.Store StoreFault.Device) result }
{
    empty(alloc, ThenOutcome::Store(StoreFault::Device))
}

// An answer with another outcome of the acknowledgements.
fn with_ack(ack: AckOutcome, answer: VisitAnswer) -> VisitAnswer
    ensures { result ≡ with_ack ack answer }
{
    let VisitAnswer {
        then,
        grants,
        batches,
        ..
    } = answer;
    VisitAnswer {
        ack,
        then,
        grants,
        batches,
    }
}

// Whether a batch wasn't taken for want of memory.
fn has_no_memory(done: &Result<u64, LogFault>) -> bool
    ensures { (result ≡ true) ↔ (done.now ≡ Err LogFault.NoMemory) }
{
    match done {
        Err(LogFault::NoMemory) => true,
        _ => false,
    }
}

// What a batch is answered that was added to a log which starts there, or wasn't.
fn placed(done: Result<u64, LogFault>, start: u64) -> Result<Placed, LogFault>
    ensures { result ≡ placed_at start done }
{
    match done {
        Ok(base) => Ok(Placed { base, start }),
        Err(fault) => Err(fault),
    }
}

impl<D: Disk, W: Window> PartShard<D, W> {
    /// Opens a partition of the disk of its log and the two of its states, which come back at an `Err`. Nothing is
    /// held.
    ///
    /// Memory is set aside first for the rows that acknowledgements and releases change, so that these take none. The
    /// log is opened then, and then the states, as `PartLog` and `Coord` do. Each table that starts below the log's
    /// start is raised to it, in memory, and then the states are judged. States that break the rules on a hosted
    /// partition are told of the first state disk and place 0.
    pub fn open(
        alloc: Global,
        disks: (D, D, D),
        conf: PartConf,
    ) -> Result<PartShard<D, W>, PartOpen<D>>
        ensures opened { IfOk result (IsOpened D.seen W.held conf disks.0 disks.1 disks.2) }
        ensures refused { IfErr result (λ e. IsNotOpened D.seen conf disks.0 disks.1 disks.2
            e.disks.0 e.disks.1 e.disks.2 e.fault) }
        ensures log { MatchResult result
            (λ s. LeavesOnly D.seen disks.0 s.log.journal.disk (StandsAs (D.seen disks.0).image))
            (λ e. LeavesOnly D.seen disks.0 e.disks.0 (StandsAs (D.seen disks.0).image)) }
        ensures runs { MatchResult result
            (λ s. RunsOn D.seen disks.0 s.log.journal.disk)
            (λ e. RunsOn D.seen disks.0 e.disks.0) }
        ensures both { MatchResult result
            (λ s. RunsBoth D.seen disks.1 disks.2
            s.states.journal.first.disk s.states.journal.second.disk)
            (λ e. RunsBoth D.seen disks.1 disks.2
            e.disks.1 e.disks.2) }
    {
        let Some(changed) = scratch(alloc) else {
            let fault = PartFault::NoMemory;
            return Err(PartOpen { disks, fault });
        };
        let (disk, a, b) = disks;
        let log = match PartLog::open(alloc, disk) {
            Ok(log) => log,
            Err((disk, fault)) => {
                let disks = (disk, a, b);
                let fault = fault_of_log(fault);
                return Err(PartOpen { disks, fault });
            }
        };
        let mut states = match open_states(alloc, a, b) {
            Ok(states) => states,
            Err((a, b, fault)) => {
                let disks = (log.into_disk(), a, b);
                let fault = fault_of_states(fault);
                return Err(PartOpen { disks, fault });
            }
        };
        raise_tables(&mut states, log.start());
        if !are_hosted(&conf, &log, &states) {
            let (a, b) = states.into_disks();
            let disks = (log.into_disk(), a, b);
            let disk = DiskPlace::StateA;
            let fault = PartFault::Damaged { disk, place: 0 };
            return Err(PartOpen { disks, fault });
        }
        Ok(PartShard {
            conf,
            log,
            states,
            windows: BTreeMap::new(alloc),
            changed,
            clock: 0,
            alloc,
        })
    }

    // Raises the clock to a moment.
    fn raise(&mut self, now: u64)
        requires { now ≤ 2 ^ 62 }
        ensures { self.new ≡ record self.old { clock = max self.old.clock now } }
    {
        self.clock = self.clock.max(now);
    }

    // Raises the clock, and does nothing else.
    fn pass(&mut self, now: u64) -> VisitAnswer
        requires { now ≤ 2 ^ 62 }
        ensures ack { result.ack ≡ AckOutcome.Done }
        ensures answer { IsEmptyAnswer ThenOutcome.Done result }
        ensures clock { self.new ≡ record self.old { clock = max self.old.clock now } }
    {
        self.raise(now);
        empty(self.alloc, ThenOutcome::Done)
    }

    // Fetches, by the table that the group has or that is made for it. All memory is taken before a disk is called.
    fn fetch(&mut self, now: u64, visit: &Visit, limits: Limits) -> Result<VisitAnswer, NoMemory>
        requires now { now ≤ 2 ^ 62 }
        requires fetch { visit.now.then ≡ Then.Fetch limits.records limits.bytes limits.first }
        ensures once { FollowsOnce D.seen W.held now visit.now self.old self.new result }
        ensures runs { RunOnBoth D.seen self.old.states self.new.states }
        ensures ranges { IfOk result (λ answer. AllByRecursion IsSmallGrant answer.grants) }
    {
        let group = &visit.group;
        let (plan, mut out) = prepared(
            self.alloc,
            &self.conf,
            &self.log,
            &self.states,
            &mut self.windows,
            group,
            limits,
        )?;
        let outcome = make_table(&mut self.states, &self.conf, group, &self.log)?;
        self.clock = self.clock.max(now);
        let ThenOutcome::Done = outcome else {
            return Ok(empty(self.alloc, outcome));
        };
        if let Err(_) = append_batches(&mut self.log, &plan.numbers, &mut out) {
            return Ok(unread(self.alloc));
        }
        Ok(hand_out(&self.conf, &mut self.windows, self.clock, visit, plan, out))
    }

    // Releases what a group holds, and raises the clock to a moment that isn't before it. It takes no memory.
    fn release(&mut self, clock: u64, group: &Name, whose: &Whose) -> Released
        requires clock { clock ≤ 2 ^ 62 }
        ensures once { ReleasesOnce D.seen W.held clock group.now whose.now self.old self.new result }
        ensures runs { RunOnBoth D.seen self.old.states self.new.states }
    {
        let released = release_held(
            &mut self.changed,
            &self.conf,
            &self.log,
            &mut self.states,
            &mut self.windows,
            group,
            whose,
        );
        self.clock = clock;
        released
    }

    // Releases all that the member of a visit holds. It takes no memory.
    fn let_go(&mut self, now: u64, visit: &Visit) -> VisitAnswer
        requires now { now ≤ 2 ^ 62 }
        requires release { visit.now.then ≡ Then.Release }
        ensures once { FollowsOnce D.seen W.held now visit.now self.old self.new (Ok result) }
        ensures runs { RunOnBoth D.seen self.old.states self.new.states }
        ensures ranges { AllByRecursion IsSmallGrant result.grants }
    {
        let clock = self.clock.max(now);
        let released = self.release(clock, &visit.group, &Whose::Member(visit.member));
        empty(self.alloc, outcome_of(released))
    }

    // Does what follows the acknowledgements of a visit. But for a fetch it takes no memory.
    fn follow(&mut self, now: u64, visit: &Visit) -> Result<VisitAnswer, NoMemory>
        requires now { now ≤ 2 ^ 62 }
        ensures once { FollowsOnce D.seen W.held now visit.now self.old self.new result }
        ensures spared { IsErr result → IsFetch visit.now.then }
        ensures runs { RunOnBoth D.seen self.old.states self.new.states }
        ensures ranges { IfOk result (λ answer. AllByRecursion IsSmallGrant answer.grants) }
    {
        match visit.then {
            Then::Nothing => Ok(self.pass(now)),
            Then::Release => Ok(self.let_go(now, visit)),
            Then::Fetch {
                records,
                bytes,
                first,
            } => self.fetch(
                now,
                visit,
                Limits {
                    records,
                    bytes,
                    first,
                },
            ),
        }
    }

    // Does a visit that asks for no fetch of a group that has a table.
    fn visit_plain(&mut self, now: u64, visit: &Visit) -> Result<VisitAnswer, NoMemory>
        requires now { now ≤ 2 ^ 62 }
        requires table { IsFetch visit.now.then →
            share_state_at (states_of self.old.states.entries) (key_of self.old.conf visit.now.group) ≡ None }
        ensures once { VisitsOnce D.seen W.held now true visit.now self.old self.new result }
        ensures runs { RunOnBoth D.seen self.old.states self.new.states }
        ensures ranges { IfOk result (λ answer. AllByRecursion IsSmallGrant answer.grants) }
    {
        let acks = judge_acks(
            &mut self.changed,
            &self.conf,
            &self.log,
            &self.states,
            &self.windows,
            visit,
        );
        let ack = settle_acks(
            &self.changed,
            &self.conf,
            &self.log,
            &mut self.states,
            &mut self.windows,
            visit,
            &acks,
            true,
        );
        match self.follow(now, visit) {
            Ok(answer) => Ok(with_ack(ack, answer)),
            Err(fault) => Err(fault),
        }
    }

    // Does a visit that fetches for a group that has a table. All memory is taken before the write.
    fn visit_table(
        &mut self,
        now: u64,
        visit: &Visit,
        limits: Limits,
    ) -> Result<VisitAnswer, NoMemory>
        requires now { now ≤ 2 ^ 62 }
        requires fetch { visit.now.then ≡ Then.Fetch limits.records limits.bytes limits.first }
        requires table { IsSome
            (share_state_at (states_of self.old.states.entries) (key_of self.old.conf visit.now.group)) }
        ensures once { VisitsOnce D.seen W.held now true visit.now self.old self.new result }
        ensures runs { RunOnBoth D.seen self.old.states self.new.states }
        ensures ranges { IfOk result (λ answer. AllByRecursion IsSmallGrant answer.grants) }
    {
        let acks = judge_acks(
            &mut self.changed,
            &self.conf,
            &self.log,
            &self.states,
            &self.windows,
            visit,
        );
        let ready = ready(
            self.alloc,
            &self.conf,
            &self.log,
            &self.states,
            &mut self.windows,
            visit,
            &acks,
            &self.changed,
            limits,
        )?;
        let ack = settle_acks(
            &self.changed,
            &self.conf,
            &self.log,
            &mut self.states,
            &mut self.windows,
            visit,
            &acks,
            true,
        );
        self.clock = self.clock.max(now);
        let (plan, mut out) = chosen(ready, ack);
        if let Err(_) = append_batches(&mut self.log, &plan.numbers, &mut out) {
            return Ok(with_ack(ack, unread(self.alloc)));
        }
        let answer = hand_out(&self.conf, &mut self.windows, self.clock, visit, plan, out);
        Ok(with_ack(ack, answer))
    }

    /// Does what a member of a group asks of the partition, at the moment `now`. The shard's clock is raised to it
    /// first.
    ///
    /// The acknowledgements come first: all are stored by one write and end the holds of the offsets that they name,
    /// or none is; those of offsets below the log's start are passed over. What the visit asks for follows them,
    /// whatever became of them.
    ///
    /// A fetch walks the first 2000 slots from the start of the group's table, in order, and acquires those that are
    /// available, until the record limit is used up, or a batch doesn't fit. The first fetch of a group stores its table;
    /// where that fails nothing is read or acquired. The batches that a fetch answers are read from the disk of the log,
    /// in order, behind what it and the acknowledgements write; where one can't be read, the answer is a device fault,
    /// and nothing is acquired. A fetch takes all its memory before that write; acknowledgements and a release take
    /// none. After want of memory nothing has changed, and no disk was called.
    pub fn visit(&mut self, now: u64, visit: &Visit) -> Result<VisitAnswer, NoMemory>
        requires now { now ≤ 2 ^ 62 }
        ensures once { VisitsOnce D.seen W.held now true visit.now self.old self.new result }
        ensures runs { RunOnBoth D.seen self.old.states self.new.states }
        ensures ranges { IfOk result (λ answer. AllByRecursion IsSmallGrant answer.grants) }
    {
        let Then::Fetch {
            records,
            bytes,
            first,
        } = visit.then
        else {
            return self.visit_plain(now, visit);
        };
        if !has_table(&self.conf, &self.states, &visit.group) {
            return self.visit_plain(now, visit);
        }
        let limits = Limits {
            records,
            bytes,
            first,
        };
        self.visit_table(now, visit, limits)
    }

    /// Makes the spare number at least `n`: so many pieces may acknowledgements have that [`PartShard::ack_reserved`]
    /// stores without taking memory. It asks the store for room for 6000 runs of each table whatever `n` is: 2000 rows,
    /// and two for each of those. That much is set aside at the opening, and stays. After want of memory nothing has
    /// changed.
    pub fn reserve(&mut self, n: u32) -> Result<(), NoMemory>
        ensures ok { OnOk result (n ≤ spare_of self.new) }
        ensures err { OnErr result (self.new ≡ self.old) }
        ensures same { self.new ≡ record self.old { states = record self.old.states { room = self.new.states.room } } }
        ensures kept { spare_of self.old ≤ spare_of self.new }
        ensures spared { n ≤ spare_of self.old → IsOk result }
    {
        self.states.reserve(6000)
    }

    /// Does acknowledgements of a member of a group, as those of a visit at the moment `now` that asks for nothing more,
    /// by one write. There are fewer than 2^32 of them, with fewer than 2^32 types in all. It takes no memory, tries no
    /// checkpoint before its write, and leaves the spare number.
    ///
    /// It is answered as a visit's acknowledgements are. At each moment while it runs a crash leaves the tables of before,
    /// with or without the write that was pending, or those with this one, once an opening has raised them to the log's
    /// start.
    pub fn ack_reserved(
        &mut self,
        now: u64,
        group: &Name,
        member: &Name,
        acks: &[AckBatch],
    ) -> AckOutcome
        requires now { now ≤ 2 ^ 62 }
        requires few { length acks.now < 2 ^ 32 }
        requires few_types { types_in acks.now < 2 ^ 32 }
        ensures once { VisitsOnce D.seen W.held now false (acks_alone group.now member.now acks.now)
            self.old self.new (Ok (told_alone result)) }
        ensures any_moment { (old : PartShardState) → Carries D.seen W.held self.old old → LeavesPairs D.seen
            self.old.states.journal.first.disk self.new.states.journal.first.disk
            self.old.states.journal.second.disk self.new.states.journal.second.disk
            (AreWithinAcks self.old.conf old (acks_alone group.now member.now acks.now)) }
        ensures alone { StaysOn D.seen self.old.states.journal self.new.states.journal (answer_to result) }
        ensures spare { spare_of self.new ≡ spare_of self.old }
        ensures runs { RunOnBoth D.seen self.old.states self.new.states }
    {
        let judged = judge_given(
            &mut self.changed,
            &self.conf,
            &self.log,
            &self.states,
            &self.windows,
            group,
            member,
            acks,
        );
        let ack = settle_given(
            &self.changed,
            &self.conf,
            &self.log,
            &mut self.states,
            &mut self.windows,
            group,
            member,
            acks,
            &judged,
            false,
        );
        self.clock = self.clock.max(now);
        ack
    }

    /// Gives back the records whose acquisition lock has ended. The clock is raised to `now` first, and a lock has
    /// ended that ends at the clock or before.
    ///
    /// It goes over the groups in byte order. All that has ended of a group is released by one write, and counted
    /// once that is stored. The first write that fails ends it, and the groups from that one on are as they were.
    /// Where nothing is due no memory is taken, nothing is written and no window is walked. All memory is taken before
    /// the first write: after want of memory nothing has changed.
    pub fn expire(&mut self, now: u64) -> Result<ExpireAnswer, NoMemory>
        requires { now ≤ 2 ^ 62 }
        ensures once { ExpiresOnce D.seen W.held now self.old self.new result }
        ensures runs { RunOnBoth D.seen self.old.states self.new.states }
    {
        let clock = self.clock.max(now);
        let due = due_groups(self.alloc, &self.windows, clock)?;
        let mut freed: u64 = 0;
        for group in &due {
            match self.release(clock, group, &Whose::Due(clock)) {
                Released::Done(count) => freed = freed.saturating_add(count),
                Released::Store(fault) => {
                    return Ok(ExpireAnswer::Store {
                        freed,
                        group: *group,
                        fault,
                    });
                }
            }
        }
        self.clock = clock;
        Ok(ExpireAnswer::Done { freed })
    }

    /// Adds a batch as a producer sends it, as `PartLog::append` does, and answers its base and where the log starts.
    /// The shard's clock is raised to `now`, but after want of memory nothing has changed.
    pub fn produce(&mut self, now: u64, batch: &[u8]) -> Result<Placed, LogFault>
        requires { now ≤ 2 ^ 62 }
        ensures once { ProducesOnce D.seen W.held now batch.now self.old self.new result }
        ensures below { IfOk result (λ placed. (placed.base ≤ 2 ^ 62) × (placed.start ≤ 2 ^ 62)) }
        ensures behind { (end : ℕ) → result ≢ Err (LogFault.Behind end) }
        ensures runs { RunsOn D.seen self.old.log.journal.disk self.new.log.journal.disk }
    {
        let result = self.log.append(batch);
        if has_no_memory(&result) {
            return Err(LogFault::NoMemory);
        }
        self.clock = self.clock.max(now);
        placed(result, self.log.start())
    }

    /// Deletes the records below an offset, where -1 stands for the log's end. The shard's clock is raised to `now`. It
    /// takes no memory.
    ///
    /// `OutOfRange` comes where the offset is below -1 or above the log's end. Where the log starts there or behind, its
    /// start is answered and nothing is written. Otherwise the log starts there, and so does each table that started
    /// below, and nothing below it is held any more. After a store fault log and tables are as before; after `Device` a
    /// write is pending, this one or an older one, or none, and a crash may leave this one done.
    pub fn delete(&mut self, now: u64, to: i64) -> DeleteAnswer
        requires { now ≤ 2 ^ 62 }
        ensures once { DeletesOnce D.seen W.held now to self.old self.new result }
        ensures range { (end : ℕ) → (result ≡ DeleteAnswer.OutOfRange end) ↔
            ((target_of (log_in self.old.log) to ≡ None) × (end ≡ end_of self.old.log.batches)) }
        ensures below { IsTellableDelete result }
        ensures runs { RunsOn D.seen self.old.log.journal.disk self.new.log.journal.disk }
    {
        self.clock = self.clock.max(now);
        let Some(to) = target(&self.log, to) else {
            return DeleteAnswer::OutOfRange {
                end: self.log.end(),
            };
        };
        let start = self.log.start();
        if to <= start {
            return DeleteAnswer::Done { start };
        }
        match self.log.raise(to) {
            Ok(()) => {
                raise_tables(&mut self.states, to);
                raise_windows(&mut self.windows, to);
                DeleteAnswer::Done { start: to }
            }
            Err(fault) => DeleteAnswer::Store(fault),
        }
    }

    /// The stored state of a group's table, raised to the log's start. `None` where the group has none.
    pub fn look_state(&self, group: &Name) -> Option<&StateView>
        ensures { state_found result ≡ share_state_at (states_of self.now.states.entries) (key_of self.now.conf group.now) }
    {
        self.states.look(&self.conf.key(group))
    }

    /// The stored states of all groups that have a table, in byte order of the groups. A walk over them is linear.
    pub fn states(&self) -> States<'_>
        ensures { result ≡ states_of self.now.states.entries }
    {
        self.states.states()
    }

    /// The group at a place among those that have a table, in byte order, from place 0 on. It goes past the groups
    /// before it; [`PartShard::states`] is for a walk.
    pub fn group_at(&self, place: u64) -> Option<&Name>
        ensures { option_copied result ≡ option_map (λ key. key.group) (slice_get (keys_of self.now.states.entries) place) }
    {
        match self.states.key_at(place) {
            Some(key) => Some(&key.group),
            None => None,
        }
    }

    /// What a fetch of a group would find now: the least slot that may be acquired, among the first 2000 from the start
    /// of the group's table. It costs the runs and the batches that it walks, and takes no memory.
    pub fn offer(&self, group: &Name) -> Offer
        ensures { result ≡ offer_of self.now.log.batches (held_in W.held self.now.windows group.now)
            (share_state_at (states_of self.now.states.entries) (key_of self.now.conf group.now)) }
    {
        offer(
            self.alloc,
            &self.conf,
            &self.log,
            &self.states,
            &self.windows,
            group,
        )
    }

    /// How far a group has come: where its table starts, what isn't complete yet, and what is held. `None` where the
    /// group has no table. It costs the runs of the table and of what is held, and takes no memory.
    pub fn describe(&self, group: &Name) -> Option<TableSummary>
        ensures { result ≡ option_map (λ state. summary_of self.now.log.batches
            (table_of state (held_in W.held self.now.windows group.now)))
            (share_state_at (states_of self.now.states.entries) (key_of self.now.conf group.now)) }
    {
        describe(
            self.alloc,
            &self.conf,
            &self.log,
            &self.states,
            &self.windows,
            group,
        )
    }

    /// The offset at which the log starts.
    pub fn log_start(&self) -> u64
        ensures value { result ≡ self.now.log.start }
        ensures within { result ≤ end_of self.now.log.batches }
    {
        self.log.start()
    }

    /// The log's end, at most 2^62.
    pub fn log_end(&self) -> u64
        ensures end { result ≡ end_of self.now.log.batches }
        ensures below { result ≤ 2 ^ 62 }
    {
        self.log.end()
    }

    /// Whether a call of one of its disks has failed for want of memory.
    pub fn starved(&self) -> bool
        ensures { (result ≡ true) ↔ (((D.seen self.now.log.journal.disk).starved ≡ true) ⊎ (((D.seen self.now.states.journal.first.disk).starved ≡ true)
            ⊎ ((D.seen self.now.states.journal.second.disk).starved ≡ true))) }
    {
        self.log.starved() || self.states.starved()
    }

    /// The count of faults of each of its disks.
    pub fn faults(&self) -> PartFaultCounts
        ensures log { result.log ≡ (D.seen self.now.log.journal.disk).faults }
        ensures first { result.states.first ≡ (D.seen self.now.states.journal.first.disk).faults }
        ensures second { result.states.second ≡ (D.seen self.now.states.journal.second.disk).faults }
    {
        PartFaultCounts {
            log: self.log.faults(),
            states: self.states.faults(),
        }
    }

    /// Gives the disks back: that of the log, and the two of the states.
    pub fn into_disks(self) -> (D, D, D)
        ensures { (result.0 ≡ self.log.journal.disk) × (result.1 ≡ self.states.journal.first.disk) × (result.2 ≡ self.states.journal.second.disk) }
    {
        let PartShard { log, states, .. } = self;
        let (a, b) = states.into_disks();
        (log.into_disk(), a, b)
    }

    /// Arms a fault of one of its disks, and changes nothing else.
    pub fn arm(&mut self, disk: DiskPlace, after: u64, mode: FaultMode)
        ensures log { disk ≡ DiskPlace.Log →
            ArmsAlone D.seen after mode self.old.log.journal.disk self.new.log.journal.disk
            × (self.new.states ≡ self.old.states) }
        ensures log_b { disk ≡ DiskPlace.LogB → self.new ≡ self.old }
        ensures first { disk ≡ DiskPlace.StateA →
            ArmsAlone D.seen after mode
            self.old.states.journal.first.disk self.new.states.journal.first.disk
            × (self.new.states.journal.second ≡ self.old.states.journal.second) × (self.new.log ≡ self.old.log) }
        ensures second { disk ≡ DiskPlace.StateB →
            ArmsAlone D.seen after mode
            self.old.states.journal.second.disk self.new.states.journal.second.disk
            × (self.new.states.journal.first ≡ self.old.states.journal.first) × (self.new.log ≡ self.old.log) }
        ensures conf { self.new.conf ≡ self.old.conf }
        ensures ends { (self.new.log.journal.end ≡ self.old.log.journal.end) × (self.new.states.journal.end ≡ self.old.states.journal.end) }
        ensures stays { (shard : PartShardState) → Carries D.seen W.held self.old shard → Carries D.seen W.held self.new shard }
    {
        match disk {
            DiskPlace::Log => self.log.arm(after, mode),
            DiskPlace::LogB => {}
            DiskPlace::StateA => self.states.arm(disk, after, mode),
            DiskPlace::StateB => self.states.arm(disk, after, mode),
        }
    }
}
