// The jobs of a server: it hands links to workers through a desk, and takes the locks and all passes back.
ghost use Rattle.std.specs.Prelude.{◌≡◌, ◌≢◌, ◌≤◌, ◌⊎◌, [], IfErr, IfNone, IfOk, IfSome, false, true, length, vec_len, vec_capacity};
ghost use Rattle.edge_io.specs.Serving.{Gave};
ghost use Rattle.std.specs.List.{AllByRecursion};
ghost use Rattle.edge_io.specs.Causes.{Rose};
ghost use Rattle.broker_locks.specs.Acting.{HostsAll};
ghost use Rattle.broker_run.specs.Homes.{HasLinksEnd, IsHome, IsNamed};
ghost use Rattle.broker_locks.specs.Rows.{AreAll, IsAlone, IsUnused};
ghost use Rattle.broker_run.specs.Working.{HasWorked};

use crate::desk::Desk;
use crate::naming::{Handed, Named, Naming};
use crate::owned::{JobOwned, JobShared};
use crate::worker::Hand;
use broker_locks::{Passes, Shared};
use edge_io::{Clock, Disk, Gate, Link, Listener, Spawner, start};
use share_model::NoMemory;
use std::alloc::Global;
use std::marker::Brand;
use std::sync::{Arc, Wait};

/// How serving links ended.
#[derive(Clone, Copy)]
pub enum LinksEnd {
    /// As many links were given as were asked for, or the listener told that no more come.
    Served,
    /// The listener failed. Links that were taken before are left to the workers.
    Listener,
    /// A job was refused. No link was taken.
    Refused,
    /// No memory was found for a job or for a link, which is dropped. Links that were taken before are left to the
    /// workers.
    NoMemory,
}

// What the jobs of one server share.
#[derive(Drop)]
struct Crew<K: Link, C: Clock, G, D: Disk, B: Naming<D>> {
    shared: Named<D, B>,
    desk: Arc<Desk<K, C, D, B>, Global>,
    gate: Arc<G, Global>,
}

// What the jobs of a server over these locks share, with room on the desk for its passes.
fn make_crew<K: Link + Drop, C: Clock + Drop, G: Drop, D: Disk + Drop, B: Naming<D> + Drop>(
    alloc: Global,
    shared: Shared<D>,
    gate: G,
    seats: usize,
) -> Result<Crew<K, C, G, D, B>, NoMemory>
    requires { IsNamed B.shared shared }
{
    let shared = Named::new(Arc::new(alloc, shared)?);
    let gate = Arc::new(alloc, gate)?;
    let desk = Desk::new(alloc, seats)?;
    let desk = Arc::new(alloc, desk)?;
    Ok(Crew { shared, desk, gate })
}

impl<K: Link, C: Clock, G, D: Disk, B: Naming<D>> Crew<K, C, G, D, B> {
    // What one more job has, where memory is found for it; else its passes come back.
    fn hand<R: Wait + Clone + Drop>(
        &self,
        rt: &R,
        row: Passes<D>,
        clock: &C,
    ) -> Result<Hand<R, K, C, D, B>, Passes<D>>
    where
        K: Drop,
        C: Drop,
        D: Drop,
        B: Drop,
        requires { IsHome D.seen K.left K.held C.told B.shared row }
        ensures { IfErr result (IsHome D.seen K.left K.held C.told B.shared) }
    {
        let Ok(shared) = self.shared.again() else {
            return Err(row);
        };
        let Ok(desk) = Arc::try_clone(&self.desk) else {
            return Err(row);
        };
        let own: Result<R, _> = rt.clone();
        let Ok(rt) = own else {
            return Err(row);
        };
        Ok(Hand {
            rt,
            shared,
            desk,
            handed: Handed::new(row),
            clock: clock.another(),
        })
    }
}

// Starts a job. One that is refused is done here, once the end was told to all.
fn start_job<
    R: Wait,
    K: Link,
    C: Clock,
    P: Spawner,
    J: FnOnce() + Send + 'static,
    D: Disk,
    B: Naming<D>,
>(rt: &R, job: J, desk: &Desk<K, C, D, B>, spawner: &mut P) -> bool
    requires { J.pre job }
    ensures cause { result ≡ false → Rose (P.faults spawner.old) (P.faults spawner.new) }
    ensures later { P.faults spawner.old ≤ P.faults spawner.new }
{
    match start(spawner, job) {
        Ok(()) => true,
        Err(job) => {
            desk.end(rt);
            job();
            false
        }
    }
}

// Gives passes back that no job took.
fn give_all_back<R: Wait, K: Link + Drop, C: Clock + Drop, D: Disk + Drop, B: Naming<D> + Drop>(
    rt: &R,
    desk: &Desk<K, C, D, B>,
    passes: Vec<Passes<D>>,
)
    requires { AllByRecursion (IsHome D.seen K.left K.held C.told B.shared) passes.items }
{
    let mut passes = passes;
    while let Some(row) = passes.pop() {
        desk.give_back(rt, Handed::new(row));
    }
}

// Starts the expiry worker: false where its job was refused. Where it finds no memory, its passes come back to the
// desk.
fn start_sweeper<
    R: Wait + Clone + JobShared,
    K: Link + JobOwned,
    C: Clock + JobOwned,
    P: Spawner,
    G: Gate + JobShared,
    D: Disk + JobOwned,
    B: Naming<D> + JobShared,
>(
    rt: &R,
    crew: &Crew<K, C, G, D, B>,
    row: Passes<D>,
    clock: &C,
    spawner: &mut P,
) -> Result<bool, NoMemory>
    requires { IsHome D.seen K.left K.held C.told B.shared row }
    ensures cause { IfOk result (λ started. started ≡ false → Rose (P.faults spawner.old) (P.faults spawner.new)) }
    ensures later { P.faults spawner.old ≤ P.faults spawner.new }
{
    match crew.hand(rt, row, clock) {
        Ok(hand) => Ok(start_job(rt, move || hand.sweep(), &crew.desk, spawner)),
        Err(row) => {
            crew.desk.give_back(rt, Handed::new(row));
            Err(NoMemory)
        }
    }
}

// Starts a worker: false where its job was refused. Where it finds no memory, its passes come back to the desk.
fn start_worker<
    R: Wait + Clone + JobShared,
    K: Link + JobOwned,
    C: Clock + JobOwned,
    P: Spawner,
    G: Gate + JobShared,
    D: Disk + JobOwned,
    B: Naming<D> + JobShared,
>(
    rt: &R,
    alloc: Global,
    crew: &Crew<K, C, G, D, B>,
    row: Passes<D>,
    clock: &C,
    spawner: &mut P,
) -> Result<bool, NoMemory>
    requires { IsHome D.seen K.left K.held C.told B.shared row }
    ensures cause { IfOk result (λ started. started ≡ false → Rose (P.faults spawner.old) (P.faults spawner.new)) }
    ensures later { P.faults spawner.old ≤ P.faults spawner.new }
{
    let Ok(gate) = Arc::try_clone(&crew.gate) else {
        crew.desk.give_back(rt, Handed::new(row));
        return Err(NoMemory);
    };
    match crew.hand(rt, row, clock) {
        Ok(hand) => Ok(start_job(rt, move || hand.work(alloc, gate), &crew.desk, spawner)),
        Err(row) => {
            crew.desk.give_back(rt, Handed::new(row));
            Err(NoMemory)
        }
    }
}

// Starts a worker for each row of passes: false where a job was refused. Passes that no job took are given back.
fn start_workers<
    R: Wait + Clone + JobShared,
    K: Link + JobOwned,
    C: Clock + JobOwned,
    P: Spawner,
    G: Gate + JobShared,
    D: Disk + JobOwned,
    B: Naming<D> + JobShared,
>(
    rt: &R,
    alloc: Global,
    crew: &Crew<K, C, G, D, B>,
    passes: Vec<Passes<D>>,
    clock: &C,
    spawner: &mut P,
) -> Result<bool, NoMemory>
    requires { AllByRecursion (IsHome D.seen K.left K.held C.told B.shared) passes.items }
    ensures cause { IfOk result (λ started. started ≡ false → Rose (P.faults spawner.old) (P.faults spawner.new)) }
    ensures later { P.faults spawner.old ≤ P.faults spawner.new }
{
    let mut passes = passes;
    while let Some(row) = passes.pop() {
        match start_worker(rt, alloc, crew, row, clock, spawner) {
            Ok(true) => {}
            Ok(false) => {
                give_all_back(rt, &crew.desk, passes);
                return Ok(false);
            }
            Err(fault) => {
                give_all_back(rt, &crew.desk, passes);
                return Err(fault);
            }
        }
    }
    Ok(true)
}

// Starts the expiry worker and the other workers: false where a job was refused. Passes that no job took are given
// back.
fn start_all<
    R: Wait + Clone + JobShared,
    K: Link + JobOwned,
    C: Clock + JobOwned,
    P: Spawner,
    G: Gate + JobShared,
    D: Disk + JobOwned,
    B: Naming<D> + JobShared,
>(
    rt: &R,
    alloc: Global,
    crew: &Crew<K, C, G, D, B>,
    passes: Vec<Passes<D>>,
    clock: &C,
    spawner: &mut P,
) -> Result<bool, NoMemory>
    requires { AllByRecursion (IsHome D.seen K.left K.held C.told B.shared) passes.items }
    ensures { IfOk result (λ started. started ≡ false → Rose (P.faults spawner.old) (P.faults spawner.new)) }
{
    let mut passes = passes;
    let Some(row) = passes.pop() else {
        return Ok(true);
    };
    match start_sweeper(rt, crew, row, clock, spawner) {
        Ok(true) => start_workers(rt, alloc, crew, passes, clock, spawner),
        Ok(false) => {
            give_all_back(rt, &crew.desk, passes);
            Ok(false)
        }
        Err(fault) => {
            give_all_back(rt, &crew.desk, passes);
            Err(fault)
        }
    }
}

// Takes so many links from a listener, and puts them down for workers.
fn take_links<R: Wait, C: Clock, L: Listener, D: Disk, B: Naming<D>>(
    rt: &R,
    desk: &Desk<L::L, C, D, B>,
    listener: &mut L,
    accept: u32,
) -> LinksEnd
where
    L::L: Drop,
    ensures served { result ≡ LinksEnd.Served
        → Gave (L.given listener.old) accept (L.given listener.new) ⊎ (L.done listener.new ≡ true) }
    ensures failed { result ≡ LinksEnd.Listener → Rose (L.faults listener.old) (L.faults listener.new) }
    ensures kinds { result ≢ LinksEnd.Refused }
{
    for number in 0..accept {
        match listener.next() {
            Ok(Some(link)) => {
                if desk.put(rt, number, link).is_err() {
                    return LinksEnd::NoMemory;
                }
            }
            Ok(None) => return LinksEnd::Served,
            Err(_) => return LinksEnd::Listener,
        }
    }
    LinksEnd::Served
}

// Starts the jobs, and hands them links.
#[tactic(auto, using(crate::proofs::Ends::links_end))]
fn hand_out<
    R: Wait + Clone + JobShared,
    C: Clock + JobOwned,
    L: Listener,
    P: Spawner,
    G: Gate + JobShared,
    D: Disk + JobOwned,
    B: Naming<D> + JobShared,
>(
    rt: &R,
    alloc: Global,
    crew: &Crew<L::L, C, G, D, B>,
    passes: Vec<Passes<D>>,
    accept: u32,
    clock: &C,
    listener: &mut L,
    spawner: &mut P,
) -> LinksEnd
where
    L::L: JobOwned,
    requires { AllByRecursion (IsHome D.seen L.L.left L.L.held C.told B.shared) passes.items }
    ensures { HasLinksEnd result accept (L.given listener.old) (L.given listener.new) (L.done listener.new)
        (L.faults listener.old) (L.faults listener.new) (P.faults spawner.old) (P.faults spawner.new) }
{
    match start_all(rt, alloc, crew, passes, clock, spawner) {
        Ok(true) => take_links(rt, &crew.desk, listener, accept),
        Ok(false) => LinksEnd::Refused,
        Err(NoMemory) => LinksEnd::NoMemory,
    }
}

// The locks, once every job has let go of them.
fn take_back<R: Wait, D: Disk, B: Naming<D>>(rt: &R, shared: Named<D, B>) -> Shared<D>
    ensures { IsNamed B.shared result }
{
    let mut shared = shared;
    for _ in rt.forever() {
        match shared.take() {
            Ok(shared) => return shared,
            Err(again) => shared = again,
        }
    }
    unreachable!()
}

// The passes that came back, for which there is room.
fn unpack<K: Link, C: Clock, D: Disk, B: Naming<D>>(
    home: Vec<Handed<K, C, D, B>>,
    room: Vec<Passes<D>>,
    shared: &Shared<D>,
) -> Vec<Passes<D>>
    requires named { IsNamed B.shared shared.now }
    requires room { (room.items ≡ []) × (vec_len home ≤ vec_capacity room) }
    ensures each { AllByRecursion (IsAlone shared.now) result.items }
    ensures worked { AllByRecursion (HasWorked D.seen K.left K.held C.told shared.now) result.items }
    ensures count { vec_len result ≡ vec_len home }
{
    let mut home = home;
    let mut passes = room;
    while let Some(handed) = home.pop() {
        passes.push_reserved(handed.into_passes());
    }
    passes
}

// Serves so many links by jobs that know the locks by name. None: memory ran out before the first job was started.
fn serve_named<
    R: Wait + Clone + JobShared,
    C: Clock + JobOwned,
    L: Listener,
    P: Spawner,
    G: Gate + JobShared,
    D: Disk + JobOwned,
    B: Naming<D> + JobShared,
>(
    rt: &R,
    alloc: Global,
    shared: Shared<D>,
    passes: Vec<Passes<D>>,
    accept: u32,
    clock: &C,
    listener: &mut L,
    spawner: &mut P,
    gate: G,
) -> Option<(LinksEnd, Shared<D>, Vec<Passes<D>>)>
where
    L::L: JobOwned,
    requires named { IsNamed B.shared shared }
    requires all { AreAll shared (length passes.items) passes.items }
    requires unused { AllByRecursion IsUnused passes.items }
    ensures shared { IfSome result (λ r. r.1 ≡ shared) }
    ensures all { IfSome result (λ r. AreAll shared (length passes.items) r.2.items) }
    ensures worked { IfSome result (λ r. AllByRecursion (HasWorked D.seen L.L.left L.L.held C.told shared) r.2.items) }
    ensures end { IfSome result (λ r. HasLinksEnd r.0 accept (L.given listener.old) (L.given listener.new) (L.done listener.new)
        (L.faults listener.old) (L.faults listener.new) (P.faults spawner.old) (P.faults spawner.new)) }
    ensures none { IfNone result ((listener.new ≡ listener.old) × (spawner.new ≡ spawner.old)) }
{
    let seats = passes.len();
    let room = Vec::with_capacity(alloc, seats).ok()?;
    let crew: Crew<L::L, C, G, D, B> = make_crew(alloc, shared, gate, seats).ok()?;
    let end = hand_out(rt, alloc, &crew, passes, accept, clock, listener, spawner);
    crew.desk.finish(rt);
    crew.desk.all_served(rt, seats);
    crew.desk.end(rt);
    let home = crew.desk.all_home(rt, alloc, seats);
    let Crew { shared, .. } = crew;
    let shared = take_back(rt, shared);
    let passes = unpack(home, room, &shared);
    Some((end, shared, passes))
}

/// Serves so many links, and gives the locks back with all their passes, once every job has ended. None: memory ran
/// out before a job was started.
///
/// One job expires locks and sessions, once a second; each other row of passes goes to a worker. Then links are
/// taken, and each is handed to one worker. Where a job is refused, the end is told to all, and that job is done
/// here. Nothing else is done through the passes.
pub fn serve_links<
    R: Wait + Clone + JobShared,
    C: Clock + JobOwned,
    L: Listener,
    P: Spawner,
    G: Gate + JobShared,
    D: Disk + JobOwned,
>(
    rt: &R,
    alloc: Global,
    shared: Shared<D>,
    passes: Vec<Passes<D>>,
    accept: u32,
    clock: &C,
    listener: &mut L,
    spawner: &mut P,
    gate: G,
) -> Option<(LinksEnd, Shared<D>, Vec<Passes<D>>)>
where
    L::L: JobOwned,
    requires hosts { HostsAll shared.conf shared }
    requires all { AreAll shared (length passes.items) passes.items }
    requires unused { AllByRecursion IsUnused passes.items }
    ensures shared { IfSome result (λ r. r.1 ≡ shared) }
    ensures all { IfSome result (λ r. AreAll shared (length passes.items) r.2.items) }
    ensures worked { IfSome result (λ r. AllByRecursion (HasWorked D.seen L.L.left L.L.held C.told shared) r.2.items) }
    ensures end { IfSome result (λ r. HasLinksEnd r.0 accept (L.given listener.old) (L.given listener.new) (L.done listener.new)
        (L.faults listener.old) (L.faults listener.new) (P.faults spawner.old) (P.faults spawner.new)) }
    ensures none { IfNone result ((listener.new ≡ listener.old) × (spawner.new ≡ spawner.old)) }
{
    serve_named::<R, C, L, P, G, D, Brand>(
        rt, alloc, shared, passes, accept, clock, listener, spawner, gate,
    )
}
