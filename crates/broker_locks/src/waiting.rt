// A fetch that waits through the passes of one thread: it looks at what its partitions would give it, and sleeps until
// one of them changes or a moment has come.
ghost use Rattle.std.specs.Prelude.{◌≤◌, ◌^◌, ◌∷◌, [], ℕ, OnOk, OnErr, None};
ghost use Rattle.std.specs.List.{AllZip};
ghost use Rattle.shard_lock.specs.Passes.{IsOf};
ghost use Rattle.broker_locks.specs.Acting.{AreOf, StayOf};
ghost use Rattle.broker_locks.specs.Looking.{LooksBy, Sleeps, looker_acts};
ghost use Rattle.broker_locks.specs.Waiting.{LooksThrough, StopsWaiting, WaitsFor, WaitsLong, HasLeft};
ghost use Rattle.fetch_wait.specs.declared.watch.WatchCall.TheVariants.{Asks};
ghost use Rattle.futures.specs.Task.{IsArmed};

use crate::parts::offer_at;
use crate::shared::{Passes, Shared};
use broker_shards::PartHost;
use conn_core::WaitWish;
use edge_io::{Clock, Disk, Link};
use fetch_wait::{FetchWait, WaitEnd, Watch, make_queue};
use futures::Future;
use futures::task::{Context, Poll, Queue};
use shard_lock::Pass;
use share_model::{Name, NoMemory, Offer};
use std::alloc::Global;
use std::marker::Model;
use std::mem;
use std::sync::Wait;

// A wait looks at its peer at the turns of expiries that come so long behind its begin.
const PEER_FROM_MS: u64 = 10;

// What a thread looks with: its passes of partitions, and its clock.
#[derive(Drop)]
struct Looker<'a, R: Wait, C: Clock, D: Disk> {
    rt: &'a R,
    shared: &'a Shared<D>,
    wish: &'a WaitWish,
    seat: usize,
    parts: Vec<Pass<PartHost<D>>>,
    clock: C,
}

impl<'a, R: Wait, C: Clock, D: Disk> Model for Looker<'a, R, C, D> {
    ghost use Rattle.std.specs.List.{AllZip};
    ghost use Rattle.shard_lock.specs.Passes.{IsOf};
    ghost use Rattle.broker_locks.specs.Looking.{LookerParts};

    ghost Value = { LookerParts D C };

    ghost view = { λ l. record { shared = l.shared.now; wish = l.wish.now; parts = l.parts.items; clock = l.clock } };

    ghost invariant = { λ l. AllZip IsOf l.shared.now.parts l.parts.items };
}

// What the partition at a place of a wish would give its group.
fn look_at<R: Wait, D: Disk>(
    rt: &R,
    shared: &Shared<D>,
    wish: &WaitWish,
    parts: &mut Vec<Pass<PartHost<D>>>,
    place: u32,
) -> Offer
    requires of { AllZip IsOf shared.now.parts parts.old.items }
    ensures of { AllZip IsOf shared.now.parts parts.new.items }
    ensures looks { LooksBy D.seen shared.now wish.now.group wish.now.shards result parts.old.items parts.new.items }
{
    let Some(shard) = wish.shards.as_slice().get(place as usize) else {
        return Offer::Nothing;
    };
    offer_at(rt, shared, parts, *shard, wish.group)
}

impl<'a, R: Wait, C: Clock + Drop, D: Disk + Drop> Watch for Looker<'a, R, C, D> {
    ghost acts = { looker_acts D.seen C.told };

    ghost told = { λ _. None };

    fn register(&mut self, place: u32, cx: &mut Context<'_>) -> Result<(), NoMemory> {
        let wish = self.wish;
        let shared = self.shared;
        let shard = match wish.shards.as_slice().get(place as usize) {
            Some(shard) => *shard as usize,
            None => usize::MAX,
        };
        shared.room.register(self.rt, shard, self.seat, cx);
        Ok(())
    }

    fn register_timer(&mut self, deadline: u64, cx: &mut Context<'_>) -> Result<(), NoMemory> {
        let shared = self.shared;
        shared.room.register_timer(self.rt, self.seat, deadline, cx)
    }

    fn look(&mut self, place: u32) -> Offer {
        look_at(self.rt, self.shared, self.wish, &mut self.parts, place)
    }

    fn now_ms(&mut self) -> u64 {
        self.clock.now_ms()
    }
}

// How many places a wait for the wish looks at.
fn places_of(wish: &WaitWish) -> u32 {
    match u32::try_from(wish.shards.as_slice().len()) {
        Ok(places) => places,
        Err(_) => u32::MAX,
    }
}

// Looks whether the peer has ended, where the wait has lasted long enough, and has the task woken by the next turn of
// expiries.
fn look_at_peer<R: Wait, K: Link, C: Clock + Drop, D: Disk + Drop>(
    looker: &mut Looker<'_, R, C, D>,
    link: &K,
    since: u64,
    cx: &mut Context<'_>,
) -> bool
    requires early { since ≤ 2 ^ 62 }
    ensures asks { (now : ℕ) × looker_acts D.seen C.told looker.old (Asks now) looker.new
        × HasLeft (K.left link.now) since now result }
    ensures armed { IsArmed cx.new }
{
    let shared = looker.shared;
    shared.room.register_turn(looker.rt, looker.seat, cx);
    let now = looker.now_ms();
    now >= since + PEER_FROM_MS && link.is_at_end()
}

// Polls the wait and looks at the peer, each where its task is woken, up to the end of the wait. None: the peer has
// ended.
fn sleep<R: Wait, K: Link, C: Clock + Drop, D: Disk + Drop>(
    rt: &R,
    queue: &Queue,
    peer: usize,
    wait: &mut FetchWait<Looker<'_, R, C, D>>,
    link: &K,
    since: u64,
) -> Option<WaitEnd>
    requires early { since ≤ 2 ^ 62 }
    ensures sleeps { Sleeps D.seen C.told (K.left link.now) since wait.old.deadline result
        wait.old.watch wait.new.watch }
{
    for _ in rt.forever() {
        let Some(mut cx) = queue.next(rt) else {
            continue;
        };
        if cx.task() == peer {
            let has_ended = look_at_peer(&mut wait.watch, link, since, &mut cx);
            cx.park();
            if has_ended {
                return None;
            }
        } else {
            let polled = wait.poll(&mut cx);
            cx.end(&polled);
            if let Poll::Ready(end) = polled {
                return Some(end);
            }
        }
    }
    unreachable!()
}

// A queue for a wait, and the number of its task that looks at the peer.
fn two_tasks(alloc: Global, number: u64) -> Result<(Queue, usize), NoMemory> {
    let queue = make_queue(alloc, number)?;
    let Ok(vacancy) = queue.add() else {
        return Err(NoMemory);
    };
    let peer = vacancy.task();
    vacancy.schedule();
    Ok((queue, peer))
}

// Waits until a partition of the wish has something, or its time is over, or the peer has ended (None). It began at a
// moment.
fn wait_long<R: Wait, K: Link, C: Clock + Drop, D: Disk + Drop>(
    rt: &R,
    shared: &Shared<D>,
    passes: &mut Passes<D>,
    wish: &WaitWish,
    link: &K,
    since: u64,
    clock: &mut C,
) -> Option<WaitEnd>
    requires of { AreOf shared.now passes.old }
    requires early { since ≤ 2 ^ 62 }
    ensures stay { StayOf shared.now passes.old passes.new }
    ensures waits { WaitsLong D.seen shared.now wish.now (K.left link.now) since result
        passes.old passes.new (C.told clock.old) (C.told clock.new) }
{
    let room = &shared.room;
    let Ok((queue, peer)) = two_tasks(room.alloc, room.next_wait()) else {
        return Some(WaitEnd::NoMemory);
    };
    let fresh = clock.another();
    let own = mem::replace(clock, fresh);
    let parts = mem::replace(&mut passes.parts, Vec::new(room.alloc));
    let looker = Looker {
        rt,
        shared,
        wish,
        seat: passes.seat,
        parts,
        clock: own,
    };
    let deadline = since + u64::from(wish.wait_ms);
    let mut wait = FetchWait::new(looker, places_of(wish), deadline);
    let end = sleep(rt, &queue, peer, &mut wait, link, since);
    let FetchWait { watch, .. } = wait;
    let Looker {
        parts,
        clock: back,
        ..
    } = watch;
    passes.parts = parts;
    *clock = back;
    end
}

// Looks at one partition.
fn glance<R: Wait, D: Disk>(
    rt: &R,
    shared: &Shared<D>,
    passes: &mut Passes<D>,
    group: Name,
    shard: u32,
) -> Offer
    requires of { AreOf shared.now passes.old }
    ensures stay { StayOf shared.now passes.old passes.new }
    ensures looks { LooksThrough D.seen shared.now group (shard ∷ []) result passes.old passes.new }
{
    offer_at(rt, shared, &mut passes.parts, shard, group)
}

// Looks at these partitions, up to the first that has something.
fn first_offer<R: Wait, D: Disk>(
    rt: &R,
    shared: &Shared<D>,
    passes: &mut Passes<D>,
    group: Name,
    shards: &[u32],
) -> Offer
    requires of { AreOf shared.now passes.old }
    ensures stay { StayOf shared.now passes.old passes.new }
    ensures looks { LooksThrough D.seen shared.now group shards.now result passes.old passes.new }
{
    for shard in shards {
        match glance(rt, shared, passes, group, *shard) {
            Offer::Nothing => {}
            offer => return offer,
        }
    }
    Offer::Nothing
}

/// Waits until one of the partitions that a fetch wishes for has something for its group, or its time is over, or its
/// peer has ended. It looks at each of them before it sleeps. Nothing is read from the link. A thread that sleeps is
/// woken by each produce and delete on these partitions, by each visit there that may free a record, and by what
/// expires there; it looks at its peer at each turn of expiries.
///
/// Where no memory is found to sleep, what was looked at stands in the histories.
pub fn wait_for<R: Wait, K: Link, C: Clock + Drop, D: Disk + Drop>(
    rt: &R,
    shared: &Shared<D>,
    passes: &mut Passes<D>,
    wish: &WaitWish,
    link: &K,
    clock: &mut C,
) -> Result<(), NoMemory>
    requires of { AreOf shared.now passes.old }
    ensures stay { StayOf shared.now passes.old passes.new }
    ensures ok { OnOk result (WaitsFor D.seen shared.now wish.now (K.left link.now)
        passes.old passes.new (C.told clock.old) (C.told clock.new)) }
    ensures err { OnErr result (StopsWaiting D.seen shared.now wish.now
        passes.old passes.new (C.told clock.old) (C.told clock.new)) }
{
    match first_offer(rt, shared, passes, wish.group, wish.shards.as_slice()) {
        Offer::Nothing => {}
        _ => return Ok(()),
    }
    let now = clock.now_ms();
    match wait_long(rt, shared, passes, wish, link, now, clock) {
        Some(WaitEnd::Ready { .. }) => Ok(()),
        Some(WaitEnd::TimedOut { .. }) => Ok(()),
        Some(WaitEnd::NoMemory) => Err(NoMemory),
        None => Ok(()),
    }
}
