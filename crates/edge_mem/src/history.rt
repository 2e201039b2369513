// The content of a disk in memory, with all that happened to it.
ghost use Rattle.std.specs.Prelude.{◌≡◌, ◌⊎◌, ◌≤◌, ◌+◌, ℕ, List, [], ◌∷◌, ◌++◌, length, take, drop, IfOk, OnOk, OnErr, IsTrue};
ghost use Rattle.edge_mem.specs.Events.{Event, Wrote, CutTo, Kept, Lost, State, loss_of, replay};
ghost use Rattle.edge_mem.specs.Past.{Past, state, content, with_event};
ghost use Rattle.edge_mem.specs.Steps.{EndsKept};

use crate::change::{Change, Step};
use crate::content::{after_loss, cut_step, mark, push_step, redone, write_step};
use std::alloc::{AllocError, Global};
use std::marker::Model;

#[derive(Drop)]
pub struct History {
    alloc: Global,
    first: Vec<u8>,
    log: Vec<Step>,
    // where the steps since the last power loss begin
    start: usize,
    // the content before them
    era: Vec<u8>,
    // how many of them were done at the last sync
    kept: usize,
    // what a read gives
    bytes: Vec<u8>,
}

impl Model for History {
    ghost use Rattle.edge_mem.specs.Past.{Past};

    ghost Value = { Past };

    ghost use Rattle.edge_mem.specs.Steps.{events};
    ghost use Rattle.edge_mem.specs.Sound.{IsSound};

    ghost view = { λ h. record { first = h.first.items; events = events h.log.items } };

    ghost invariant = { λ h. IsSound h.first.items h.era.items h.bytes.items h.log.items h.start h.kept };
}

impl History {
    pub fn new(alloc: Global, bytes: Vec<u8>) -> Result<History, AllocError>
        ensures { IfOk result (λ h. h ≡ record { first = bytes.items; events = [] }) }
    {
        let first = bytes.to_vec(alloc)?;
        let era = bytes.to_vec(alloc)?;
        Ok(History {
            alloc,
            first,
            log: Vec::new(alloc),
            start: 0,
            era,
            kept: 0,
            bytes,
        })
    }

    pub fn bytes(&self) -> &[u8]
        ensures { result.now ≡ content self.now }
    {
        &self.bytes
    }

    pub fn write(&mut self, place: usize, bytes: &[u8]) -> Result<(), AllocError>
        requires { place ≤ length (content self.old) }
        ensures ok { OnOk result (self.new ≡ with_event self.old (Wrote place bytes.now)) }
        ensures err { OnErr result (self.new ≡ self.old) }
    {
        write_step(self.alloc, &mut self.log, &mut self.bytes, place, bytes)?;
        Ok(())
    }

    pub fn cut(&mut self, to: usize) -> Result<(), AllocError>
        ensures ok { OnOk result (self.new ≡ with_event self.old (CutTo to)) }
        ensures err { OnErr result (self.new ≡ self.old) }
    {
        cut_step(&mut self.log, &mut self.bytes, to)?;
        Ok(())
    }

    pub fn sync(&mut self)
        ensures { (self.new ≡ with_event self.old Kept) ⊎ ((self.new ≡ self.old) × EndsKept self.old.events) }
    {
        mark(&mut self.log);
        self.kept = self.log.len() - self.start;
    }

    // Whether a power loss by this choice leaves what a read gives, as it keeps each change since the last sync.
    fn keeps_all(&self, choice: u64) -> bool
        ensures { IsTrue result → loss_of (state self.now) choice ≡ content self.now }
    {
        let unsynced = self.log.len() - self.start - self.kept;
        unsynced as u64 <= choice
    }

    // A power loss that leaves what a read gives. Memory is taken for that once more.
    fn lose_nothing(&mut self, choice: u64) -> Result<(), AllocError>
        requires { loss_of (state self.old) choice ≡ content self.old }
        ensures ok { OnOk result (self.new ≡ with_event self.old (Lost choice)) }
        ensures err { OnErr result (self.new ≡ self.old) }
    {
        let era = self.bytes.to_vec(self.alloc)?;
        push_step(&mut self.log, Change::Loss { choice })?;
        self.start = self.log.len();
        self.era = era;
        self.kept = 0;
        Ok(())
    }

    // A power loss behind which the content is made anew.
    fn lose_changes(&mut self, choice: u64) -> Result<(), AllocError>
        ensures ok { OnOk result (self.new ≡ with_event self.old (Lost choice)) }
        ensures err { OnErr result (self.new ≡ self.old) }
    {
        let left = after_loss(
            self.alloc, &self.era, &self.log, self.start, self.kept, choice,
        )?;
        let bytes = left.to_vec(self.alloc)?;
        push_step(&mut self.log, Change::Loss { choice })?;
        self.start = self.log.len();
        self.era = left;
        self.kept = 0;
        self.bytes = bytes;
        Ok(())
    }

    pub fn lose(&mut self, choice: u64) -> Result<(), AllocError>
        ensures ok { OnOk result (self.new ≡ with_event self.old (Lost choice)) }
        ensures err { OnErr result (self.new ≡ self.old) }
    {
        if self.keeps_all(choice) {
            return self.lose_nothing(choice);
        }
        self.lose_changes(choice)
    }
}
