ghost use Rattle.std.specs.Prelude.{◌≡◌, ◌↔◌, IsErr, IfOk, OnErr, Contains, drop, false};
ghost use Rattle.edge_io.specs.Causes.{CountsFault, HasCause, raised};
ghost use Rattle.edge_io.specs.Serving.{Gives};
ghost use Rattle.edge_mem.specs.Listeners.{first_of};

use crate::numbered::Calls;
use edge_io::{Failed, Link, Listener};
use std::collections::VecDeque;
use std::marker::Model;

/// A listener over links that are there from the start. It waits for nobody.
#[derive(Drop)]
pub struct MemListener<K> {
    links: VecDeque<K>,
    calls: Calls,
    given: u64,
    done: bool,
}

impl<K> Model for MemListener<K> {
    ghost use Rattle.edge_mem.specs.Listeners.{Queued};

    ghost Value = { Queued K };

    ghost view = { λ l. record { links = l.links.items; failing = l.calls.failing; calls = l.calls.made; given = l.given; done = l.done; faults = l.calls.faults } };
}

impl<K> MemListener<K> {
    /// A listener that gives these links, in order. The calls whose numbers, from 0 on, are in `failing` fail.
    pub fn new(links: VecDeque<K>, failing: Vec<u64>) -> MemListener<K>
        ensures { result ≡ record { links = links.items; failing = failing.items; calls = 0; given = 0; done = false; faults = 0 } }
    {
        MemListener {
            links,
            calls: Calls::new(failing),
            given: 0,
            done: false,
        }
    }
}

impl<K: Link> Listener for MemListener<K> {
    type L = K;

    ghost given = { λ l. l.given };

    ghost done = { λ l. l.done };

    ghost faults = { λ l. l.faults };

    fn next(&mut self) -> Result<Option<K>, Failed>
        ensures gives { Gives self.old.given self.new.given self.old.done self.new.done result }
        ensures cause { HasCause self.old.faults self.new.faults result }

        // It fails exactly where the list says so, and else gives the first link that is left.
        ensures fails { IsErr result ↔ Contains self.old.failing self.old.calls }
        ensures first { IfOk result (λ link. (link ≡ first_of self.old.links) × (self.new.links ≡ drop 1 self.old.links)) }
        ensures kept { OnErr result (self.new.links ≡ self.old.links) }
        ensures failing { self.new.failing ≡ self.old.failing }
        ensures calls { self.new.calls ≡ raised self.old.calls }
        ensures faults { CountsFault self.old.faults self.new.faults result }
    {
        self.calls.begin()?;
        match self.links.pop_front() {
            Some(link) => {
                self.given = self.given.saturating_add(1);
                Ok(Some(link))
            }
            None => {
                self.done = true;
                Ok(None)
            }
        }
    }
}
