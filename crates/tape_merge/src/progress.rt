// How far a merge is.
ghost use Rattle.std.specs.Prelude.{◌≡◌, IfOk, slice_index};
ghost use Rattle.tape_merge.specs.Moves.{CanCount, begin, one_more};

use share_model::NoMemory;
use share_record::{LinkTape, ShardTape};
use std::alloc::Global;
use std::marker::Model;

// How many steps of each link have gone, and how many tags of each tape.
#[derive(Drop)]
pub struct Progress {
    gone: Vec<u64>,
    passed: Vec<u64>,
}

impl Model for Progress {
    ghost use Rattle.tape_merge.specs.Moves.{Counts};

    ghost Value = { Counts };

    ghost view = { λ p. record { gone = p.gone.items; passed = p.passed.items } };
}

fn count_at(counts: &[u64], at: usize) -> u64
    ensures { result ≡ slice_index counts.now at }
{
    if at < counts.len() {
        return counts[at];
    }
    0
}

fn count_more(counts: &mut [u64], at: usize)
    requires { CanCount counts.old at }
    ensures { counts.new ≡ one_more counts.old at }
{
    counts[at] += 1;
}

impl Progress {
    // Nothing has gone.
    pub fn new(alloc: Global, tapes: &[ShardTape], links: &[LinkTape]) -> Result<Progress, NoMemory>
        ensures { IfOk result (λ counts. counts ≡ begin tapes.now links.now) }
    {
        let gone = vec![in alloc; 0; links.len()]?;
        let passed = vec![in alloc; 0; tapes.len()]?;
        Ok(Progress { gone, passed })
    }

    // How many steps of a link have gone.
    pub fn gone(&self, link: u32) -> u64
        ensures { result ≡ slice_index self.now.gone link }
    {
        count_at(&self.gone, link as usize)
    }

    // How many tags of a tape have.
    pub fn passed(&self, tape: usize) -> u64
        ensures { result ≡ slice_index self.now.passed tape }
    {
        count_at(&self.passed, tape)
    }

    // A step of a link has gone.
    pub fn step_gone(&mut self, link: u32)
        requires { CanCount self.old.gone link }
        ensures { self.new ≡ record { gone = one_more self.old.gone link; passed = self.old.passed } }
    {
        count_more(&mut self.gone, link as usize);
    }

    // A tag of a tape has.
    pub fn tag_passed(&mut self, tape: usize)
        requires { CanCount self.old.passed tape }
        ensures { self.new ≡ record { gone = self.old.gone; passed = one_more self.old.passed tape } }
    {
        count_more(&mut self.passed, tape);
    }
}
