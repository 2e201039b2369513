// The desk of a server, a lock under which links wait for a worker and passes come back.
ghost use Rattle.std.specs.Prelude.{◌≡◌, vec_len};

use crate::naming::{Handed, Naming};
use edge_io::{Clock, Disk, Link};
use share_model::NoMemory;
use std::alloc::Global;
use std::collections::VecDeque;
use std::mem;
use std::sync::{Condvar, Mutex, Wait};

/// What lies under the lock: links that wait for a worker, whether no more come, whether the end was told, and the
/// passes that came back.
#[derive(Drop)]
struct Papers<K: Link, C: Clock, D: Disk, B: Naming<D>> {
    links: VecDeque<(u32, K)>,
    served: bool,
    ended: bool,
    home: Vec<Handed<K, C, D, B>>,
}

/// The desk. Whoever changes what lies on it wakes those who wait there.
#[derive(Drop)]
pub struct Desk<K: Link, C: Clock, D: Disk, B: Naming<D>> {
    papers: Mutex<Papers<K, C, D, B>>,
    moved: Condvar,
}

impl<K: Link, C: Clock, D: Disk, B: Naming<D>> Desk<K, C, D, B> {
    /// An empty desk, with room for so many rows of passes.
    pub fn new(alloc: Global, seats: usize) -> Result<Desk<K, C, D, B>, NoMemory>
    where
        K: Drop,
        C: Drop,
        D: Drop,
        B: Drop,
    {
        let home = Vec::with_capacity(alloc, seats)?;
        let papers = Papers {
            links: VecDeque::new(alloc),
            served: false,
            ended: false,
            home,
        };
        Ok(Desk {
            papers: Mutex::new(papers),
            moved: Condvar::new(),
        })
    }

    /// The next link, for which it waits. None: no more come, and no link is left.
    pub fn next<R: Wait>(&self, rt: &R) -> Option<(u32, K)> {
        let mut papers = self.moved.wait_while(rt, self.papers.lock(rt), |papers| {
            papers.links.is_empty() && !papers.served
        });
        papers.links.pop_front()
    }

    /// Puts a link down for a worker.
    pub fn put<R: Wait>(&self, rt: &R, number: u32, link: K) -> Result<(), NoMemory>
    where
        K: Drop,
    {
        let mut papers = self.papers.lock(rt);
        papers.links.push_back((number, link))?;
        self.moved.notify_all();
        Ok(())
    }

    /// Tells the workers that no more links come.
    pub fn finish<R: Wait>(&self, rt: &R) {
        let mut papers = self.papers.lock(rt);
        papers.served = true;
        self.moved.notify_all();
    }

    /// Tells all jobs the end.
    pub fn end<R: Wait>(&self, rt: &R) {
        let mut papers = self.papers.lock(rt);
        papers.served = true;
        papers.ended = true;
        self.moved.notify_all();
    }

    /// Whether the end was told.
    pub fn is_ended<R: Wait>(&self, rt: &R) -> bool {
        let papers = self.papers.lock(rt);
        papers.ended
    }

    /// Hands passes back. There is room for those of all seats.
    pub fn give_back<R: Wait>(&self, rt: &R, handed: Handed<K, C, D, B>)
    where
        K: Drop,
        C: Drop,
        D: Drop,
        B: Drop,
    {
        let mut guard = self.papers.lock(rt);
        let papers = &mut *guard;
        if papers.home.len() < papers.home.capacity() {
            papers.home.push_reserved(handed);
        }
        self.moved.notify_all();
    }

    /// Waits until the passes of all of so many seats but one came back: those of the workers.
    pub fn all_served<R: Wait>(&self, rt: &R, seats: usize) {
        let _papers = self.moved.wait_while(rt, self.papers.lock(rt), |papers| {
            papers.home.len().saturating_add(1) < seats
        });
    }

    /// Waits until the passes of so many seats came back, and takes them.
    pub fn all_home<R: Wait>(&self, rt: &R, alloc: Global, seats: usize) -> Vec<Handed<K, C, D, B>>
        ensures { vec_len result ≡ seats }
    {
        let mut papers = self.moved.wait_while(rt, self.papers.lock(rt), |papers| {
            papers.home.len() != seats
        });
        mem::replace(&mut papers.home, Vec::new(alloc))
    }
}
