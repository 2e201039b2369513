// The jobs of a consumer: one for each of its links, and one that turns its timer.
ghost use Rattle.std.specs.Prelude.{◌≡◌, ◌≤◌, ◌⊎◌, IfErr, OnErr};
ghost use Rattle.edge_io.specs.Causes.{Rose};
ghost use Rattle.consume_run.specs.Consuming.{ComesByJobs};

use crate::end::ConsumeEnd;
use crate::mailbox::{Errand, Mailbox, Request};
use crate::post::Post;
use crate::reply::{News, ask, hear};
use crate::timer::Timer;
use edge_io::{Clock, Link, Spawner, start};
use std::alloc::Global;
use std::sync::{Arc, Wait};

// The pause between two turns of the timer.
const PAUSE_MS: u32 = 100;

// Does what is asked on a link.
fn do_on<K: Link>(alloc: Global, link: &mut K, request: Request) -> News {
    match request {
        Request::Ask(frame) => ask(alloc, link, &frame),
        Request::Hear => hear(alloc, link),
    }
}

// Does what is asked, where there is a link. One that is lost is dropped.
fn answer<K: Link + Drop>(alloc: Global, link: Option<K>, request: Request) -> (Option<K>, News) {
    let Some(mut link) = link else {
        return (None, News::Lost);
    };
    match do_on(alloc, &mut link, request) {
        News::Lost => (None, News::Lost),
        news => (Some(link), news),
    }
}

// The job of a link: it does what its mailbox says, until the end.
fn carry<R: Wait, K: Link + Drop>(rt: &R, alloc: Global, mailbox: &Mailbox<K>) {
    let mut link = None;
    for _ in rt.forever() {
        match mailbox.next(rt) {
            Some(Errand::Serve(new)) => link = Some(new),
            Some(Errand::Do(request)) => {
                let (kept, news) = answer(alloc, link, request);
                link = kept;
                mailbox.tell(rt, news);
            }
            None => return,
        }
    }
}

// The job of the timer: it turns it after each pause, until the end.
fn tick<R: Wait, C: Clock>(rt: &R, timer: &Timer, clock: &mut C) {
    for _ in rt.forever() {
        if !timer.turn(rt, clock.now_ms()) {
            return;
        }
        clock.pause(PAUSE_MS);
    }
}

// Starts a job. One that is refused is dropped.
fn begin<P: Spawner, J: FnOnce() + Drop + Send + 'static>(
    spawner: &mut P,
    job: J,
) -> Result<(), ConsumeEnd>
    requires { J.pre job }
    ensures jobs { OnErr result (Rose (P.faults spawner.old) (P.faults spawner.new)) }
    ensures later { P.faults spawner.old ≤ P.faults spawner.new }
    ensures end { IfErr result (λ end. end ≡ ConsumeEnd.Spawner) }
{
    match start(spawner, job) {
        Ok(()) => Ok(()),
        Err(_) => Err(ConsumeEnd::Spawner),
    }
}

// Starts the job of a link.
fn begin_link<
    R: Wait + Clone + Drop + Send + Sync + 'static,
    K: Link + Drop + Send + 'static,
    P: Spawner,
>(
    rt: &R,
    alloc: Global,
    mailbox: &Arc<Mailbox<K>, Global>,
    spawner: &mut P,
) -> Result<(), ConsumeEnd>
    ensures jobs { IfErr result (λ end. ComesByJobs end (P.faults spawner.old) (P.faults spawner.new)) }
    ensures later { P.faults spawner.old ≤ P.faults spawner.new }
    ensures kinds { IfErr result (λ end. (end ≡ ConsumeEnd.Spawner) ⊎ (end ≡ ConsumeEnd.NoMemory)) }
{
    let own: Result<R, _> = rt.clone();
    let Ok(rt) = own else {
        return Err(ConsumeEnd::NoMemory);
    };
    let Ok(mailbox) = Arc::try_clone(mailbox) else {
        return Err(ConsumeEnd::NoMemory);
    };
    begin(spawner, move || carry(&rt, alloc, &*mailbox))
}

// Starts the job of the timer.
fn begin_timer<
    R: Wait + Clone + Drop + Send + Sync + 'static,
    C: Clock + Drop + Send + 'static,
    P: Spawner,
>(rt: &R, timer: &Arc<Timer, Global>, clock: &C, spawner: &mut P) -> Result<(), ConsumeEnd>
    ensures jobs { IfErr result (λ end. ComesByJobs end (P.faults spawner.old) (P.faults spawner.new)) }
    ensures later { P.faults spawner.old ≤ P.faults spawner.new }
    ensures kinds { IfErr result (λ end. (end ≡ ConsumeEnd.Spawner) ⊎ (end ≡ ConsumeEnd.NoMemory)) }
{
    let own: Result<R, _> = rt.clone();
    let Ok(rt) = own else {
        return Err(ConsumeEnd::NoMemory);
    };
    let Ok(timer) = Arc::try_clone(timer) else {
        return Err(ConsumeEnd::NoMemory);
    };
    let mut clock = clock.another();
    begin(spawner, move || tick(&rt, &*timer, &mut clock))
}

/// Starts all jobs. Behind an `Err` some may have started; they are to be told the end.
pub fn begin_all<
    R: Wait + Clone + Drop + Send + Sync + 'static,
    K: Link + Drop + Send + 'static,
    C: Clock + Drop + Send + 'static,
    P: Spawner,
>(rt: &R, alloc: Global, post: &Post<K>, clock: &C, spawner: &mut P) -> Result<(), ConsumeEnd>
    ensures jobs { IfErr result (λ end. ComesByJobs end (P.faults spawner.old) (P.faults spawner.new)) }
    ensures later { P.faults spawner.old ≤ P.faults spawner.new }
    ensures kinds { IfErr result (λ end. (end ≡ ConsumeEnd.Spawner) ⊎ (end ≡ ConsumeEnd.NoMemory)) }
{
    begin_link(rt, alloc, &post.group, spawner)?;
    begin_link(rt, alloc, &post.data, spawner)?;
    begin_timer(rt, &post.timer, clock, spawner)
}
