//! The table under the lock. Word 0 is 1 while a seat leads, which then has the shard. Word 1 + n is 1 where the seat n
//! has asked, and 2 where it was answered. Slot 0 holds the shard, and slot 1 + n the box of the seat n, in which its
//! event goes to the leader and the answer comes back.
ghost use Rattle.std.specs.Prelude.{◌≡◌};
ghost use Rattle.turn_lock.specs.declared.board.Cell.TheVariants.{Empty};

use crate::shard::Shard;
use atomic_table::{Join, Play, Seat, Shared, Split, Table, TableRule};
use shard_lock::Entry;
use std::alloc::Global;
use std::collections::LinkedList;
use std::marker::{Brand, PhantomData};
use std::snapshot::Snapshot;

/// Word 0 where no seat leads, and where one does.
pub const FREE: u64 = 0;

pub const LED: u64 = 1;

/// The word of a box: at rest or with the leader, with a question for it, with an answer.
pub const BARE: u64 = 0;

pub const ASKED: u64 = 1;

pub const ANSWERED: u64 = 2;

/// Where the shard lies, so that a slot takes no more room than an event or an answer does.
#[derive(Drop)]
pub struct Desk<S> {
    pub shard: Box<S>,
}

/// What lies in a slot.
#[derive(Drop)]
pub enum Cell<S, E, A> {
    Home(Desk<S>),
    Empty,
    Ask(E),
    Told(A),
}

impl<S, E, A> Cell<S, E, A> {
    /// Lets go of a slot's content, which is none.
    pub fn expect_empty(self)
        requires { self ≡ Empty }
    {
        match self {
            Cell::Empty => {}
            Cell::Home(_) | Cell::Ask(_) | Cell::Told(_) => unreachable!(),
        }
    }
}

/// What a seat is at. No value of it is made, nor of a `View`.
pub enum Role<S, E, A> {
    Idle,
    /// It has its own box.
    Opens,
    Asks(E),
    /// It has the shard, and the boxes of others.
    Leads(Desk<S>, LinkedList<(u64, E)>),
    /// It has boxes of others, whose acts it entered.
    Tells(LinkedList<Entry<E, A>>),
}

/// What a seat knows.
pub struct View<S, E, A> {
    pub number: u64,
    pub seen: LinkedList<Entry<E, A>>,
    pub mine: LinkedList<Entry<E, A>>,
    pub role: Role<S, E, A>,
    /// The shard as the lock was made.
    pub first: Option<S>,
    /// The number of passes for which it stands. 0: it is spent.
    pub stands: u64,
    /// Number and entries of each pass that was joined into it.
    pub ended: LinkedList<(u64, LinkedList<Entry<E, A>>)>,
    /// Its number and those of `ended`.
    pub numbers: LinkedList<u64>,
    /// What the two had seen that were joined last.
    pub olds: LinkedList<LinkedList<Entry<E, A>>>,
    /// How many seats it has yet to make, and the number of the next one.
    pub rest: u64,
    pub next: u64,
}

/// What the table is told when it is made: the shard and the number of seats. All words begin at 0.
#[derive(Drop)]
pub struct About<S> {
    pub shard: Snapshot<S>,
    pub seats: u32,
}

pub struct Law;

impl<S: Shard> TableRule<Cell<S, S::Event, S::Answer>, View<S, S::Event, S::Answer>, About<S>>
    for Law {
    ghost use Rattle.turn_lock.specs.Rule.{Kept, maker};
    ghost use Rattle.turn_lock.specs.Turns.{IsTurn};

    ghost holds = { λ key. Kept (IsTurn S.acts S.together) key.shard.value key.seats };

    ghost first = { λ key. maker key.shard.value key.seats 1 };
}

/// The event that is asked. Each call picks it.
pub trait Asked<E> {
    ghost use Rattle.std.specs.Prelude.{Option};

    ghost event: { Option E };
}

impl<E> Asked<E> for Brand {
    ghost use Rattle.std.specs.Prelude.{None};

    ghost event = { None };
}

/// The entries that a step adds to the history: those of others, and its own. Each call picks them.
pub trait Told<E, A> {
    ghost use Rattle.std.specs.Prelude.{Option, List};
    ghost use Rattle.shard_lock.specs.declared.shard.Entry.{Entry};

    ghost entries: { Option (List (Entry E A) × Entry E A) };
}

impl<E, A> Told<E, A> for Brand {
    ghost use Rattle.std.specs.Prelude.{None};

    ghost entries = { None };
}

/// Word 0 becomes 1 where it was 0, and the seat has the shard.
pub struct Lead;

impl<S, E, A> Play<Cell<S, E, A>, View<S, E, A>> for Lead {
    ghost use Rattle.turn_lock.specs.Rule.{led};

    ghost then = { led };
}

/// The leader takes the box of a seat that asked.
pub struct Grab;

impl<S, E, A> Play<Cell<S, E, A>, View<S, E, A>> for Grab {
    ghost use Rattle.turn_lock.specs.Rule.{grabbed};

    ghost then = { grabbed };
}

/// The leader enters its turn, and gives the shard back.
pub struct Enter<S, T> {
    of: PhantomData<(S, T)>,
}

impl<S: Shard, T: Told<S::Event, S::Answer>> Play<
    Cell<S, S::Event, S::Answer>,
    View<S, S::Event, S::Answer>,
> for Enter<S, T> {
    ghost use Rattle.turn_lock.specs.Rule.{entered};
    ghost use Rattle.turn_lock.specs.Turns.{IsTurn};

    ghost then = { entered (IsTurn S.acts S.together) T.entries };
}

/// It gives a box back, with its answer.
pub struct Tell;

impl<S, E, A> Play<Cell<S, E, A>, View<S, E, A>> for Tell {
    ghost use Rattle.turn_lock.specs.Rule.{tells};

    ghost then = { tells };
}

/// A seat takes its own box.
pub struct Open;

impl<S, E, A> Play<Cell<S, E, A>, View<S, E, A>> for Open {
    ghost use Rattle.turn_lock.specs.Rule.{opens};

    ghost then = { opens };
}

/// It gives its box away, with an event.
pub struct Ask<T> {
    of: PhantomData<T>,
}

impl<S, E, A, T: Asked<E>> Play<Cell<S, E, A>, View<S, E, A>> for Ask<T> {
    ghost use Rattle.turn_lock.specs.Rule.{asks};

    ghost then = { asks T.event };
}

/// It looks whether it was answered, and takes its box where it was.
pub struct See<S> {
    of: PhantomData<S>,
}

impl<S: Shard> Play<Cell<S, S::Event, S::Answer>, View<S, S::Event, S::Answer>> for See<S> {
    ghost use Rattle.turn_lock.specs.Rule.{saw};
    ghost use Rattle.turn_lock.specs.Turns.{IsTurn};

    ghost then = { saw (IsTurn S.acts S.together) };
}

/// It takes its box back with the event, unless the leader has it.
pub struct Withdraw;

impl<S, E, A> Play<Cell<S, E, A>, View<S, E, A>> for Withdraw {
    ghost use Rattle.turn_lock.specs.Rule.{withdrew};

    ghost then = { withdrew };
}

/// It lays its box down, empty.
pub struct Shut;

impl<S, E, A> Play<Cell<S, E, A>, View<S, E, A>> for Shut {
    ghost use Rattle.turn_lock.specs.Rule.{shuts};

    ghost then = { shuts };
}

/// A look of a seat that is at nothing, which compares what it and a joined one had seen.
pub struct Compare;

impl<S, E, A> Play<Cell<S, E, A>, View<S, E, A>> for Compare {
    ghost use Rattle.turn_lock.specs.Rule.{compared};

    ghost then = { compared };
}

pub struct NextSeat;

impl<S, E, A> Split<View<S, E, A>> for NextSeat {
    ghost use Rattle.turn_lock.specs.Rule.{maker_after, new_seat};

    ghost left = { maker_after };

    ghost right = { new_seat };
}

pub struct Joined;

impl<S, E, A> Join<View<S, E, A>> for Joined {
    ghost use Rattle.turn_lock.specs.Rule.{merged, spent};

    ghost both = { merged };

    ghost spent = { spent };
}

pub type Board<S, E, A> = Table<Cell<S, E, A>, View<S, E, A>, About<S>, Law, Global>;

pub type Top<S, E, A> = Shared<Cell<S, E, A>, View<S, E, A>, About<S>, Law>;

pub type Place<S, E, A> = Seat<Cell<S, E, A>, View<S, E, A>>;
