// Who waits until a partition changes, or until a moment has come. That a wake comes isn't claimed.
ghost use Rattle.futures.specs.Task.{IsArmed, Keeps};

use futures::task::{Context, Poll, Source, Waker};
use futures::util::wheel::Wheel;
use share_model::NoMemory;
use std::alloc::Global;
use std::sync::atomic::{AtomicBool, AtomicU64, Ordering};
use std::sync::{Mutex, Wait};

// The waker of each seat, each behind a lock of its own: those that are woken together don't queue to wait again.
fn locked_seats(alloc: Global, seats: u32) -> Result<Vec<Mutex<Option<Waker>>>, NoMemory> {
    let mut slots = Vec::with_capacity(alloc, seats as usize)?;
    for _ in 0..seats {
        slots.push(Mutex::new(None))?;
    }
    Ok(slots)
}

// No waker for any of so many seats.
fn empty_seats(alloc: Global, seats: u32) -> Result<Vec<Option<Waker>>, NoMemory> {
    let mut slots = Vec::with_capacity(alloc, seats as usize)?;
    for _ in 0..seats {
        slots.push(None)?;
    }
    Ok(slots)
}

/// Those who wait for one partition, or for a turn of expiries, a place a seat.
#[derive(Drop)]
pub struct Waiters {
    source: Source,
    some: AtomicBool,
    seats: Vec<Mutex<Option<Waker>>>,
}

impl Waiters {
    fn for_seats(alloc: Global, seats: u32) -> Result<Waiters, NoMemory> {
        Ok(Waiters {
            source: Source::new(),
            some: AtomicBool::new(false),
            seats: locked_seats(alloc, seats)?,
        })
    }

    // Has the context's task woken by the next change.
    fn register<R: Wait>(&self, rt: &R, seat: usize, cx: &mut Context<'_>)
        ensures armed { IsArmed cx.new }
        ensures kept { Keeps cx.old cx.new }
    {
        let _: Poll<()> = match self.seats.get(seat) {
            Some(place) => {
                let mut slot = place.lock(rt);
                cx.register(&self.source, &mut slot)
            }
            None => cx.yield_now(),
        };
        self.some.store(true, Ordering::SeqCst);
    }

    /// Wakes all. Whoever looked at the partition before it changed is seen to wait, as both went through its lock.
    /// A waker is dropped, which wakes, behind its place: whoever is awake doesn't wait for that.
    pub fn wake<R: Wait>(&self, rt: &R) {
        if !self.some.swap(false, Ordering::SeqCst) {
            return;
        }
        for place in &self.seats {
            let waker = place.lock(rt).take();
            drop(waker);
        }
    }
}

// Deadlines and wakers by seat.
#[derive(Drop)]
struct Alarms {
    wheel: Wheel,
    seats: Vec<Option<Waker>>,
}

/// Those who wait for a moment.
#[derive(Drop)]
pub struct Timers {
    source: Source,
    alarms: Mutex<Alarms>,
}

impl Timers {
    fn for_seats(alloc: Global, seats: u32) -> Result<Timers, NoMemory> {
        let mut wheel = Wheel::new(alloc)?;
        wheel.reserve_key(seats as usize)?;
        let seats = empty_seats(alloc, seats)?;
        Ok(Timers {
            source: Source::new(),
            alarms: Mutex::new(Alarms { wheel, seats }),
        })
    }

    // Has the context's task woken once this moment has come.
    fn register<R: Wait>(
        &self,
        rt: &R,
        seat: usize,
        deadline: u64,
        cx: &mut Context<'_>,
    ) -> Result<(), NoMemory>
        ensures armed { IsArmed cx.new }
        ensures kept { Keeps cx.old cx.new }
    {
        let mut alarms = self.alarms.lock(rt);
        let alarms = &mut *alarms;
        let _: Poll<()> = match alarms.seats.get_mut(seat) {
            Some(slot) => cx.register(&self.source, slot),
            None => cx.yield_now(),
        };
        alarms.wheel.reserve_key(seat)?;
        alarms.wheel.insert(seat, deadline);
        Ok(())
    }

    // Wakes those whose moment has come.
    fn wake<R: Wait>(&self, rt: &R, now: u64) {
        let mut alarms = self.alarms.lock(rt);
        let alarms = &mut *alarms;
        while let Some(seat) = alarms.wheel.poll(now) {
            if let Some(slot) = alarms.seats.get_mut(seat) {
                *slot = None;
            }
        }
    }
}

/// Where the threads of a server wait: for each of its partitions, for a moment, and for a turn of expiries. All room was
/// made when the locks were.
#[derive(Drop)]
pub struct WaitRoom {
    pub alloc: Global,
    parts: Vec<Waiters>,
    timers: Timers,
    turns: Waiters,
    waits: AtomicU64,
}

impl WaitRoom {
    /// Room for a thread a seat at so many partitions.
    pub fn new(alloc: Global, parts: usize, seats: u32) -> Result<WaitRoom, NoMemory> {
        let mut rooms = Vec::with_capacity(alloc, parts)?;
        for _ in 0..parts {
            rooms.push(Waiters::for_seats(alloc, seats)?)?;
        }
        Ok(WaitRoom {
            alloc,
            parts: rooms,
            timers: Timers::for_seats(alloc, seats)?,
            turns: Waiters::for_seats(alloc, seats)?,
            waits: AtomicU64::new(0),
        })
    }

    /// A number that no other wait has.
    pub fn next_wait(&self) -> u64 {
        self.waits.fetch_add(1, Ordering::SeqCst)
    }

    /// Wakes all who wait for a partition.
    pub fn wake<R: Wait>(&self, rt: &R, shard: usize) {
        if let Some(waiters) = self.parts.get(shard) {
            waiters.wake(rt);
        }
    }

    /// Has the context's task woken by the next change of a partition.
    pub fn register<R: Wait>(&self, rt: &R, shard: usize, seat: usize, cx: &mut Context<'_>)
        ensures armed { IsArmed cx.new }
        ensures kept { Keeps cx.old cx.new }
    {
        match self.parts.get(shard) {
            Some(waiters) => waiters.register(rt, seat, cx),
            None => {
                let _: Poll<()> = cx.yield_now();
            }
        }
    }

    /// Has the context's task woken once this moment has come.
    pub fn register_timer<R: Wait>(
        &self,
        rt: &R,
        seat: usize,
        deadline: u64,
        cx: &mut Context<'_>,
    ) -> Result<(), NoMemory>
        ensures armed { IsArmed cx.new }
        ensures kept { Keeps cx.old cx.new }
    {
        self.timers.register(rt, seat, deadline, cx)
    }

    /// Has the context's task woken by the next turn of expiries.
    pub fn register_turn<R: Wait>(&self, rt: &R, seat: usize, cx: &mut Context<'_>)
        ensures armed { IsArmed cx.new }
        ensures kept { Keeps cx.old cx.new }
    {
        self.turns.register(rt, seat, cx);
    }

    /// Wakes those whose moment has come, and those that wait for a turn of expiries.
    pub fn wake_turn<R: Wait>(&self, rt: &R, now: u64) {
        self.timers.wake(rt, now);
        self.turns.wake(rt);
    }
}
