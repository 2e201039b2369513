// What the jobs of a server do: a worker serves links from the desk, and the expiry worker expires locks and
// sessions, each through its own passes.
ghost use Rattle.std.specs.Prelude.{◌≡◌};
ghost use Rattle.broker_run.specs.Homes.{IsNamed};
ghost use Rattle.broker_run.specs.Working.{HasExpired, HasServed};

use crate::connection::{Ended, serve_connection};
use crate::desk::Desk;
use crate::naming::{Handed, Named, Naming};
use broker_locks::expiry_turn;
use edge_io::{Clock, CloseReason, Disk, Gate, Link};
use share_model::CloseCause;
use std::alloc::Global;
use std::sync::{Arc, Wait};

/// What a job has: its own passes and clock, and with the others the locks and the desk.
#[derive(Drop)]
pub struct Hand<R, K: Link, C: Clock, D: Disk, B: Naming<D>> {
    pub rt: R,
    pub shared: Named<D, B>,
    pub desk: Arc<Desk<K, C, D, B>, Global>,
    pub handed: Handed<K, C, D, B>,
    pub clock: C,
}

// Tells a link why the broker closes it, where it does.
fn tell_end<K: Link>(link: &mut K, ended: Ended)
    ensures { (K.left link.new ≡ K.left link.old) × (K.held link.new ≡ K.held link.old) }
{
    let reason = match ended {
        Ended::Closed(CloseCause::TooLong { size }) => CloseReason::TooLong { size },
        Ended::Closed(CloseCause::BadHeader) => CloseReason::BadHeader,
        Ended::Closed(CloseCause::UnknownApi { key, version }) => CloseReason::UnknownApi {
            key,
            version,
        },
        Ended::Closed(CloseCause::BadBody { place }) => CloseReason::BadBody { place },
        Ended::Closed(CloseCause::LongReply) => CloseReason::LongReply,
        Ended::NoMemory => CloseReason::NoMemory,
        Ended::Peer | Ended::Read | Ended::Write => return,
    };
    link.closed(reason);
}

// Serves one link.
fn serve_link<R: Wait, K: Link, C: Clock + Drop, G: Gate, D: Disk + Drop, B: Naming<D>>(
    rt: &R,
    alloc: Global,
    shared: &Named<D, B>,
    handed: Handed<K, C, D, B>,
    number: u32,
    link: &mut K,
    clock: &mut C,
    gate: &G,
) -> Handed<K, C, D, B>
    ensures { (locks : _) → IsNamed B.shared locks → HasServed D.seen locks handed result
        (K.left link.old) (K.left link.new) (K.held link.old) (K.held link.new) (C.told clock.old) (C.told clock.new) }
{
    let mut passes = handed.into_passes();
    let ended = serve_connection(
        rt,
        alloc,
        shared.get(),
        &mut passes,
        number,
        link,
        clock,
        gate,
    );
    tell_end(link, ended);
    Handed::new(passes)
}

// Serves links from the desk until the end was told and none is left.
fn serve_all<R: Wait, K: Link + Drop, C: Clock + Drop, G: Gate, D: Disk + Drop, B: Naming<D>>(
    rt: &R,
    alloc: Global,
    shared: &Named<D, B>,
    desk: &Desk<K, C, D, B>,
    handed: Handed<K, C, D, B>,
    clock: &mut C,
    gate: &G,
) -> Handed<K, C, D, B> {
    let mut handed = handed;
    for _ in rt.forever() {
        let Some((number, mut link)) = desk.next(rt) else {
            return handed;
        };
        handed = serve_link::<R, K, C, G, D, B>(
            rt, alloc, shared, handed, number, &mut link, clock, gate,
        );
    }
    unreachable!()
}

// One turn of expiries.
fn expire<R: Wait, K: Link, C: Clock, D: Disk, B: Naming<D>>(
    rt: &R,
    shared: &Named<D, B>,
    handed: Handed<K, C, D, B>,
    clock: &mut C,
) -> Handed<K, C, D, B>
    ensures { (locks : _) → IsNamed B.shared locks → HasExpired D.seen locks handed result (C.told clock.old) (C.told clock.new) }
{
    let mut passes = handed.into_passes();
    let _answer = expiry_turn(rt, shared.get(), &mut passes, clock);
    Handed::new(passes)
}

// Does a turn of expiries and pauses for a second, again and again, until the end was told.
fn expire_all<R: Wait, K: Link, C: Clock, D: Disk, B: Naming<D>>(
    rt: &R,
    shared: &Named<D, B>,
    desk: &Desk<K, C, D, B>,
    handed: Handed<K, C, D, B>,
    clock: &mut C,
) -> Handed<K, C, D, B> {
    let mut handed = handed;
    for _ in rt.forever() {
        if desk.is_ended(rt) {
            return handed;
        }
        handed = expire::<R, K, C, D, B>(rt, shared, handed, clock);
        clock.pause(1000);
    }
    unreachable!()
}

impl<R: Wait + Drop, K: Link + Drop, C: Clock + Drop, D: Disk + Drop, B: Naming<D> + Drop> Hand<
    R,
    K,
    C,
    D,
    B,
> {
    /// The job of a worker. It lets go of the locks before its passes come back.
    pub fn work<G: Gate + Drop>(self, alloc: Global, gate: Arc<G, Global>) {
        let Hand {
            rt,
            shared,
            desk,
            handed,
            mut clock,
        } = self;
        let handed = serve_all::<R, K, C, G, D, B>(
            &rt, alloc, &shared, &desk, handed, &mut clock, &*gate,
        );
        drop(shared);
        desk.give_back(&rt, handed);
    }

    /// The job of the expiry worker.
    pub fn sweep(self) {
        let Hand {
            rt,
            shared,
            desk,
            handed,
            mut clock,
        } = self;
        let handed = expire_all::<R, K, C, D, B>(&rt, &shared, &desk, handed, &mut clock);
        drop(shared);
        desk.give_back(&rt, handed);
    }
}
