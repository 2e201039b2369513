//! The lock and its passes.
ghost use Rattle.std.specs.Prelude.{◌≡◌, ℕ, ◌+◌, ◌<◌, [], ◌∷◌, ◌++◌, length, IfOk, OnOk};
ghost use Rattle.shard_lock.specs.History.{IsStart, GoesOn, entry, of_pass};
ghost use Rattle.shard_lock.specs.Passes.{LockParts, PassParts, IsOf, AreNew, StaysSame, Account, passes_of, joined};
ghost use Rattle.turn_lock.specs.declared.board.Role.TheVariants.{Idle};
ghost use Rattle.turn_lock.specs.Rule.{maker, merged, lock_of};
ghost use Rattle.turn_lock.specs.Turns.{IsLegal, IsTurn, Leaves};

use crate::acting::act_on;
use crate::bell::Bells;
use crate::board::{About, Board, Cell, Compare, Desk, Joined, Law, NextSeat, Place, Top};
use crate::shard::Shard;
use atomic_table::Table;
use share_model::NoMemory;
use std::alloc::Global;
use std::marker::Model;
use std::snapshot::Snapshot;
use std::sync::Wait;

/// A shard that threads act on in turns.
///
/// A contract sees what tells the lock from others (`table`), the shard as the lock was made (`first`), and the
/// number of its passes (`seats`).
#[derive(Drop)]
pub struct TurnLock<S: Shard> {
    table: Board<S, S::Event, S::Answer>,
    bells: Bells,
    words: usize,
    alloc: Global,
}

impl<S: Shard> Model for TurnLock<S> {
    ghost use Rattle.std.specs.Prelude.{◌≡◌, ◌+◌};
    ghost use Rattle.shard_lock.specs.Passes.{LockParts};
    ghost use Rattle.turn_lock.specs.Rule.{lock_of};

    ghost Value = { LockParts S };

    ghost view = { λ l. lock_of l.table.shared.table_id l.table.shared.key };

    ghost invariant = { λ l. (l.table.shared.table_id.words ≡ l.words) × (l.words ≡ 1 + l.table.shared.key.seats)
        × (l.table.shared.table_id.slots ≡ l.words) };
}

/// The right to act on the shard of one lock. It may go from thread to thread.
///
/// A contract sees of which lock it is (`table`, `first`), its number, the history that it has seen, its own entries,
/// number and own entries of each pass that was joined into it (`joined`), and for how many passes it stands.
#[derive(Drop)]
pub struct Pass<S: Shard> {
    number: u64,
    place: Place<S, S::Event, S::Answer>,
}

impl<S: Shard> Model for Pass<S> {
    ghost use Rattle.shard_lock.specs.Passes.{PassParts};
    ghost use Rattle.turn_lock.specs.Rule.{parts_of, IsAtRest};

    ghost Value = { PassParts S S.Event S.Answer };

    ghost view = { λ p. parts_of p.place.table_id p.place.me.0 };

    ghost invariant = { λ p. IsAtRest p.number p.place.table_id p.place.me };
}

// Makes two seats one, and looks what both had seen.
fn merge<S: Shard>(
    top: &Top<S, S::Event, S::Answer>,
    into: &mut Place<S, S::Event, S::Answer>,
    other: Place<S, S::Event, S::Answer>,
)
    requires table { (into.old.table_id ≡ top.now.table_id) × (other.table_id ≡ top.now.table_id)
        × (0 < top.now.table_id.words) }
    requires idle { (into.old.me.0.role ≡ Idle) × (other.me.0.role ≡ Idle) × (other.me.1 ≡ []) }
    requires lives { (0 < into.old.me.0.stands) × (0 < other.me.0.stands) × (other.me.0.rest ≡ 0) }
    ensures same { (into.new.table_id ≡ into.old.table_id)
        × (into.new.me ≡ (merged into.old.me.0 other.me.0, into.old.me.1)) }
    ensures ordered { IsStart into.old.me.0.seen into.new.me.0.seen × IsStart other.me.0.seen into.new.me.0.seen }
{
    top.join_seat::<Joined>(into, other);
    top.load::<Compare>(into, 0);
}

// Makes the seats from 1 on, and a pass for each.
fn deal<S: Shard>(
    top: &Top<S, S::Event, S::Answer>,
    mut place: Place<S, S::Event, S::Answer>,
    passes: &mut Vec<Pass<S>>,
    seats: u32,
) -> Result<(), NoMemory>
    requires table { (place.table_id ≡ top.now.table_id) × (top.now.table_id.words ≡ 1 + seats)
        × (top.now.key.seats ≡ seats) × (0 < seats) }
    requires first { (place.me ≡ (maker top.now.key.shard.value seats 1, [])) × (passes.old.items ≡ []) }
    ensures passes { OnOk result (AreNew (lock_of top.now.table_id top.now.key) 0 passes.new.items
        × (length passes.new.items ≡ seats)) }
{
    for number in 1..seats {
        let next = top.split_seat::<NextSeat>(&mut place);
        passes.push(Pass {
            number: number as u64,
            place: next,
        })?;
    }
    passes.insert(0, Pass { number: 0, place })?;
    Ok(())
}

impl<S: Shard> Pass<S> {
    /// Its number, from 0 on in the order in which `make` gave the passes. It stays through acts and joins.
    pub fn number(&self) -> u64
        ensures { result ≡ self.now.number }
    {
        self.number
    }
}

// A table for so many seats, with the shard in its first slot and a bare box for each seat behind it.
fn set_up<S: Shard + Drop>(
    alloc: Global,
    shard: S,
    seats: u32,
    about: &About<S>,
) -> Result<(Board<S, S::Event, S::Answer>, Place<S, S::Event, S::Answer>), NoMemory>
    requires some { 0 < seats }
    requires about { (about.now.shard.value ≡ shard) × (about.now.seats ≡ seats) }
    ensures table { IfOk result (λ r. (r.0.shared.table_id.words ≡ 1 + seats)
        × (r.0.shared.table_id.slots ≡ 1 + seats) × (r.0.shared.key ≡ about.now)) }
    ensures seat { IfOk result (λ r. (r.1.table_id ≡ r.0.shared.table_id) × (r.1.me ≡ (maker shard seats 1, []))) }
{
    let words = seats as usize + 1;
    let zeros = vec![in alloc; 0u64; words]?;
    let boxed = Box::new(alloc, shard)?;
    let mut slots = Vec::with_capacity(alloc, words)?;
    slots.push_reserved(Cell::Home(Desk { shard: boxed }));
    for _number in 0..seats {
        slots.push(Cell::Empty)?;
    }
    match Table::new(alloc, zeros.as_slice(), slots, about) {
        Ok(made) => Ok(made),
        Err(_) => Err(NoMemory),
    }
}

impl<S: Shard> TurnLock<S> {
    /// A lock around the shard, and so many passes for it in the order of their numbers, from 0 on. Where no memory
    /// is found the shard is dropped.
    pub fn make(
        alloc: Global,
        shard: S,
        seats: u32,
    ) -> Result<(TurnLock<S>, Vec<Pass<S>>), NoMemory>
    where
        S: Drop,
        requires { 0 < seats }
        ensures lock { IfOk result (λ r. (r.0.first ≡ shard) × (r.0.seats ≡ seats)) }
        ensures passes { IfOk result (λ r. AreNew r.0 0 r.1.items × (length r.1.items ≡ seats)) }
    {
        let about = About {
            shard: Snapshot::of(&shard),
            seats,
        };
        let bells = Bells::for_seats(alloc, seats)?;
        let (table, place) = set_up(alloc, shard, seats, &about)?;
        let mut passes = Vec::new(alloc);
        deal(&table.shared, place, &mut passes, seats)?;
        let words = seats as usize + 1;
        Ok((
            TurnLock {
                table,
                bells,
                words,
                alloc,
            },
            passes,
        ))
    }

    /// Acts once on the shard: in a turn that this pass leads, with what others ask, or in a turn of another. The
    /// answer is what the entry of this act says in a history that is legal from the shard as the lock was made. It
    /// begins with all that the pass had seen, ends with this entry, and has of this pass just its own acts, each once,
    /// in their order.
    pub fn act<R: Wait>(&self, rt: &R, pass: &mut Pass<S>, event: S::Event) -> S::Answer
        requires of { IsOf self.now pass.old }
        ensures of { IsOf self.now pass.new }
        ensures same { StaysSame pass.old pass.new }
        ensures own { pass.new.own ≡ pass.old.own ++ entry pass.old.number event result ∷ [] }
        ensures history { GoesOn pass.old.seen (entry pass.old.number event result) pass.new.seen }
        ensures legal { IsLegal (IsTurn S.acts S.together) self.now.first pass.new.seen }
        ensures exact { of_pass pass.new.number pass.new.seen ≡ pass.new.own }
    {
        let number = pass.number;
        act_on::<S, R>(
            rt,
            self.alloc,
            &self.table.shared,
            &self.bells,
            &mut pass.place,
            self.words,
            number,
            event,
        )
    }

    /// Ends the other pass. The first one stands for both from then on, and has seen the longer of the two histories,
    /// of which both are beginnings. It takes no memory, and waits for nobody.
    pub fn join(&self, into: &mut Pass<S>, other: Pass<S>)
        requires of { IsOf self.now into.old × IsOf self.now other }
        ensures of { IsOf self.now into.new }
        ensures both { into.new ≡ joined into.old other }
        ensures ordered { IsStart into.old.seen into.new.seen × IsStart other.seen into.new.seen }
    {
        let Pass { number: _, place } = other;
        merge::<S>(&self.table.shared, &mut into.place, place);
    }

    /// Gives the shard back, once one pass stands for all. It is in the state that the turns of the whole history
    /// leave. That pass and those joined into it are all that `make` gave, and they account for that history. It takes
    /// no memory, and waits for nobody.
    pub fn close(self, pass: Pass<S>) -> S
        requires of { IsOf self pass }
        requires all { pass.stands ≡ self.seats }
        ensures left { Leaves (IsTurn S.acts S.together) self.first pass.seen result }
        ensures account { Account self.seats (passes_of pass) pass.seen }
    {
        let TurnLock { table, words, .. } = self;
        let Pass { number: _, place } = pass;
        let mut closed = table.close_with(place);
        let cell = closed.take(0);
        let Cell::Home(desk) = cell else {
            unreachable!()
        };
        for slot in 1..words {
            closed.take(slot).expect_empty();
        }
        closed.free();
        Box::into_inner(desk.shard)
    }
}
