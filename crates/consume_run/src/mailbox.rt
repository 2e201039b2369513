// What a link's job and the program leave for each other.
ghost use Rattle.futures.specs.Task.{IsArmed, Keeps};

use crate::reply::News;
use edge_io::Link;
use futures::task::{Context, Poll, Source, Waker};
use share_model::Blob;
use std::sync::{Condvar, Mutex, Wait};

/// What is asked of a link's job.
#[derive(Drop)]
pub enum Request {
    /// To write this frame, and to read its reply.
    Ask(Blob),
    /// To read one more reply.
    Hear,
}

/// What a link's job is to do.
#[derive(Drop)]
pub enum Errand<K> {
    /// To go on with this link.
    Serve(K),
    /// To do this on its link.
    Do(Request),
}

#[derive(Drop)]
struct Letters<K> {
    link: Option<K>,
    request: Option<Request>,
    news: Option<News>,
    ended: bool,
    waker: Option<Waker>,
}

/// The mailbox of a link's job. It has room for one letter of each kind: the program asks anew once it has the news.
#[derive(Drop)]
pub struct Mailbox<K> {
    source: Source,
    letters: Mutex<Letters<K>>,
    moved: Condvar,
}

impl<K: Link + Drop> Mailbox<K> {
    pub fn new() -> Mailbox<K> {
        let letters = Letters {
            link: None,
            request: None,
            news: None,
            ended: false,
            waker: None,
        };
        Mailbox {
            source: Source::new(),
            letters: Mutex::new(letters),
            moved: Condvar::new(),
        }
    }

    /// What the job is to do next, for which it waits. None: the end was told.
    pub fn next<R: Wait>(&self, rt: &R) -> Option<Errand<K>> {
        let mut letters = self.moved.wait_while(rt, self.letters.lock(rt), |letters| {
            letters.link.is_none() && letters.request.is_none() && !letters.ended
        });
        if letters.ended {
            return None;
        }
        if let Some(link) = letters.link.take() {
            return Some(Errand::Serve(link));
        }
        match letters.request.take() {
            Some(request) => Some(Errand::Do(request)),
            None => None,
        }
    }

    /// Leaves news for the program, and wakes it.
    pub fn tell<R: Wait>(&self, rt: &R, news: News) {
        let mut letters = self.letters.lock(rt);
        letters.news = Some(news);
        letters.waker = None;
    }

    /// Leaves a link for the job.
    pub fn serve<R: Wait>(&self, rt: &R, link: K) {
        let mut letters = self.letters.lock(rt);
        letters.link = Some(link);
        self.moved.notify_all();
    }

    /// Leaves a request for the job.
    pub fn ask<R: Wait>(&self, rt: &R, request: Request) {
        let mut letters = self.letters.lock(rt);
        letters.request = Some(request);
        self.moved.notify_all();
    }

    /// Tells the job the end.
    pub fn end<R: Wait>(&self, rt: &R) {
        let mut letters = self.letters.lock(rt);
        letters.ended = true;
        self.moved.notify_all();
    }

    /// Has the context's task woken by the next news.
    pub fn register<R: Wait>(&self, rt: &R, cx: &mut Context<'_>)
        ensures armed { IsArmed cx.new }
        ensures kept { Keeps cx.old cx.new }
    {
        let mut letters = self.letters.lock(rt);
        let letters = &mut *letters;
        let _: Poll<()> = cx.register(&self.source, &mut letters.waker);
    }

    /// Takes the news, where there are some.
    pub fn take<R: Wait>(&self, rt: &R) -> Option<News> {
        let mut letters = self.letters.lock(rt);
        letters.news.take()
    }
}
