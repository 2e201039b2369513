// Where the program waits: for what its two links bring, and for a moment.
ghost use Rattle.std.specs.Prelude.{None, ⊤};

use crate::mailbox::{Mailbox, Request};
use crate::reply::News;
use crate::timer::Timer;
use edge_io::{Clock, Link};
use fetch_wait::{FetchWait, WaitEnd, Watch, block_on, make_queue};
use futures::task::Context;
use share_client::LinkKind;
use share_model::{NoMemory, Offer};
use std::alloc::Global;
use std::mem;
use std::sync::atomic::{AtomicU64, Ordering};
use std::sync::{Arc, Wait};

// A wait has two places: the link for heartbeats, and that for fetches.
const PLACES: u32 = 2;

/// The mailboxes of the two links, and the timer.
#[derive(Drop)]
pub struct Post<K> {
    pub group: Arc<Mailbox<K>, Global>,
    pub data: Arc<Mailbox<K>, Global>,
    pub timer: Arc<Timer, Global>,
    alloc: Global,
    waits: AtomicU64,
}

impl<K: Link + Drop> Post<K> {
    pub fn new(alloc: Global) -> Result<Post<K>, NoMemory> {
        let timer = Timer::new(alloc)?;
        Ok(Post {
            group: Arc::new(alloc, Mailbox::new())?,
            data: Arc::new(alloc, Mailbox::new())?,
            timer: Arc::new(alloc, timer)?,
            alloc,
            waits: AtomicU64::new(0),
        })
    }

    // The mailbox of a link.
    fn mailbox(&self, on: LinkKind) -> &Mailbox<K> {
        match on {
            LinkKind::Group => &self.group,
            LinkKind::Data => &self.data,
        }
    }

    /// Hands a link to its job.
    pub fn serve<R: Wait>(&self, rt: &R, on: LinkKind, link: K) {
        self.mailbox(on).serve(rt, link);
    }

    /// Hands a request to a link's job.
    pub fn ask<R: Wait>(&self, rt: &R, on: LinkKind, request: Request) {
        self.mailbox(on).ask(rt, request);
    }

    /// Tells all jobs the end.
    pub fn end<R: Wait>(&self, rt: &R) {
        self.group.end(rt);
        self.data.end(rt);
        self.timer.end(rt);
    }

    // A number that no other wait has: they count down, as those of a broker in the same process count up.
    fn next_wait(&self) -> u64 {
        u64::MAX - self.waits.fetch_add(1, Ordering::SeqCst)
    }
}

// The link at a place of a wait.
fn link_at(place: u32) -> LinkKind {
    if place == 0 {
        LinkKind::Group
    } else {
        LinkKind::Data
    }
}

// What the program looks with. It keeps the news that a look finds.
#[derive(Drop)]
struct Looker<'a, R: Wait, K: Link, C: Clock> {
    rt: &'a R,
    post: &'a Post<K>,
    clock: C,
    heard: Option<(LinkKind, News)>,
}

impl<'a, R: Wait, K: Link + Drop, C: Clock + Drop> Watch for Looker<'a, R, K, C> {
    ghost acts = { λ _ _ _. ⊤ };

    ghost told = { λ _. None };

    fn register(&mut self, place: u32, cx: &mut Context<'_>) -> Result<(), NoMemory> {
        let post = self.post;
        post.mailbox(link_at(place)).register(self.rt, cx);
        Ok(())
    }

    fn register_timer(&mut self, deadline: u64, cx: &mut Context<'_>) -> Result<(), NoMemory> {
        let post = self.post;
        post.timer.register(self.rt, deadline, cx)
    }

    fn look(&mut self, place: u32) -> Offer {
        let post = self.post;
        let on = link_at(place);
        match post.mailbox(on).take(self.rt) {
            Some(news) => {
                self.heard = Some((on, news));
                Offer::Slot { offset: 0 }
            }
            None => Offer::Nothing,
        }
    }

    fn now_ms(&mut self) -> u64 {
        self.clock.now_ms()
    }
}

/// Waits for news of a link, the one for heartbeats first; None: this moment has come.
pub fn wait<R: Wait, K: Link + Drop, C: Clock + Drop>(
    rt: &R,
    post: &Post<K>,
    until: u64,
    clock: &mut C,
) -> Result<Option<(LinkKind, News)>, NoMemory> {
    let queue = make_queue(post.alloc, post.next_wait())?;
    let fresh = clock.another();
    let own = mem::replace(clock, fresh);
    let looker = Looker {
        rt,
        post,
        clock: own,
        heard: None,
    };
    let mut wait = FetchWait::new(looker, PLACES, until);
    let end = block_on(rt, &queue, &mut wait);
    let FetchWait { watch, .. } = wait;
    let Looker {
        heard,
        clock: back,
        ..
    } = watch;
    *clock = back;
    match end {
        WaitEnd::Ready { .. } => Ok(heard),
        WaitEnd::TimedOut { .. } => Ok(heard),
        WaitEnd::NoMemory => Err(NoMemory),
    }
}
