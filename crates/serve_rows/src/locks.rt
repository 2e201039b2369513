// Locks that two threads share, without a server: what is under one counts its acts.
ghost use Rattle.std.specs.Prelude.{◌≡◌};
ghost use Rattle.shard_lock.specs.Passes.{IsOf};

use shard_lock::ShardLock;
use std::alloc::Global;
use std::io;
use std::sync::Wait;
use std::thread::{Threads, join};
use turn_lock::TurnLock;

/// How often it was acted on, and a number that an act takes some steps of a generator further, which lasts.
#[derive(Drop)]
struct Labour {
    acts: u64,
    number: u64,
}

impl Labour {
    /// Takes the number so many steps further, and answers how many acts there were.
    fn take(&mut self, steps: u32) -> u64
        ensures { result ≡ self.new.acts }
    {
        for _ in 0..steps {
            self.number = self
                .number
                .wrapping_mul(6364136223846793005)
                .wrapping_add(1442695040888963407);
        }
        self.acts = self.acts.wrapping_add(1);
        self.acts
    }
}

impl shard_lock::Shard for Labour {
    type Event = u32;

    type Answer = u64;

    ghost use Rattle.std.specs.Prelude.{◌≡◌};

    ghost acts = { λ s e a t. a ≡ t.acts };

    fn act(&mut self, steps: &u32) -> u64 {
        self.take(*steps)
    }
}

impl turn_lock::Shard for Labour {
    type Event = u32;

    type Answer = u64;

    ghost use Rattle.std.specs.Prelude.{◌≡◌};

    ghost acts = { λ s e a t. a ≡ t.acts };

    ghost together = { λ s es t. ⊥ };

    fn act(&mut self, steps: &u32) -> u64 {
        self.take(*steps)
    }
}

/// How often a thread acts, and for how many steps each time.
#[derive(Clone, Copy)]
struct Work {
    times: u32,
    steps: u32,
}

/// Acts under a `ShardLock`, and says whether the answers rose.
fn act_in_order<R: Wait>(
    rt: &R,
    lock: &ShardLock<Labour>,
    mut pass: shard_lock::Pass<Labour>,
    work: Work,
) -> (shard_lock::Pass<Labour>, bool)
    requires { IsOf lock.now pass }
    ensures of { IsOf lock.now result.0 }
    ensures stands { result.0.stands ≡ pass.stands }
{
    let mut last = 0;
    let mut rose = true;
    for _ in 0..work.times {
        let now = lock.act(rt, &mut pass, work.steps);
        rose = rose && last < now;
        last = now;
    }
    (pass, rose)
}

/// Acts under a `TurnLock`, and says whether the answers rose.
fn act_in_turns<R: Wait>(
    rt: &R,
    lock: &TurnLock<Labour>,
    mut pass: turn_lock::Pass<Labour>,
    work: Work,
) -> (turn_lock::Pass<Labour>, bool)
    requires { IsOf lock.now pass }
    ensures of { IsOf lock.now result.0 }
    ensures stands { result.0.stands ≡ pass.stands }
{
    let mut last = 0;
    let mut rose = true;
    for _ in 0..work.times {
        let now = lock.act(rt, &mut pass, work.steps);
        rose = rose && last < now;
        last = now;
    }
    (pass, rose)
}

/// What a lock gives back, and whether the answers rose.
fn left_text(alloc: Global, left: &Labour, rose: bool) -> io::Result<String> {
    let order = if rose { "in order" } else { "out of order" };
    Ok(format!(in alloc; "{} acts {order}, number {}", left.acts, left.number)?)
}

/// No lock was made.
fn no_lock(alloc: Global) -> io::Result<String> {
    Ok(String::from_str(alloc, "no lock")?)
}

/// Two threads act under a `ShardLock`.
fn two_in_order<H: Threads + Wait + Sync>(rt: &H, alloc: Global, work: Work) -> io::Result<String> {
    let labour = Labour { acts: 0, number: 1 };
    let Ok((lock, mut passes)) = ShardLock::make(alloc, labour, 2) else {
        return no_lock(alloc);
    };
    let (Some(b), Some(a)) = (passes.pop(), passes.pop()) else {
        return no_lock(alloc);
    };
    let ((mut a, one), (b, two)) = join(
        rt,
        || -> (shard_lock::Pass<Labour>, bool)
            requires { IsOf lock a }
            ensures { IsOf lock result.0 × (result.0.stands ≡ a.stands) }
        { act_in_order(rt, &lock, a, work) },
        || -> (shard_lock::Pass<Labour>, bool)
            requires { IsOf lock b }
            ensures { IsOf lock result.0 × (result.0.stands ≡ b.stands) }
        { act_in_order(rt, &lock, b, work) },
    );
    lock.join(&mut a, b);
    let left = lock.close(a);
    left_text(alloc, &left, one && two)
}

/// Two threads act under a `TurnLock`.
fn two_in_turns<H: Threads + Wait + Sync>(rt: &H, alloc: Global, work: Work) -> io::Result<String> {
    let labour = Labour { acts: 0, number: 1 };
    let Ok((lock, mut passes)) = TurnLock::make(alloc, labour, 2) else {
        return no_lock(alloc);
    };
    let (Some(b), Some(a)) = (passes.pop(), passes.pop()) else {
        return no_lock(alloc);
    };
    let ((mut a, one), (b, two)) = join(
        rt,
        || -> (turn_lock::Pass<Labour>, bool)
            requires { IsOf lock a }
            ensures { IsOf lock result.0 × (result.0.stands ≡ a.stands) }
        { act_in_turns(rt, &lock, a, work) },
        || -> (turn_lock::Pass<Labour>, bool)
            requires { IsOf lock b }
            ensures { IsOf lock result.0 × (result.0.stands ≡ b.stands) }
        { act_in_turns(rt, &lock, b, work) },
    );
    lock.join(&mut a, b);
    let left = lock.close(a);
    left_text(alloc, &left, one && two)
}

/// A `ShardLock` of one pass, which is closed at once.
fn closed_in_order(alloc: Global) -> io::Result<String> {
    let labour = Labour { acts: 7, number: 1 };
    let Ok((lock, mut passes)) = ShardLock::make(alloc, labour, 1) else {
        return no_lock(alloc);
    };
    let Some(pass) = passes.pop() else {
        return no_lock(alloc);
    };
    let left = lock.close(pass);
    left_text(alloc, &left, true)
}

/// A `TurnLock` of one pass, which is closed at once.
fn closed_in_turns(alloc: Global) -> io::Result<String> {
    let labour = Labour { acts: 7, number: 1 };
    let Ok((lock, mut passes)) = TurnLock::make(alloc, labour, 1) else {
        return no_lock(alloc);
    };
    let Some(pass) = passes.pop() else {
        return no_lock(alloc);
    };
    let left = lock.close(pass);
    left_text(alloc, &left, true)
}

/// What comes of a line on a lock. `None` where there is no such line.
pub fn locks_told<H: Threads + Wait + Sync>(
    rt: &H,
    alloc: Global,
    kind: &str,
) -> io::Result<Option<String>> {
    // The answers alone; and acts that last longer than a thread spins for its turn, so that each sleeps, and is woken.
    let (quick, slow) = (
        Work {
            times: 1000,
            steps: 0,
        },
        Work {
            times: 20,
            steps: 100_000,
        },
    );
    let told = match kind {
        "shard-lock" => two_in_order(rt, alloc, quick),
        "turn-lock" => two_in_turns(rt, alloc, quick),
        "slow-shard-lock" => two_in_order(rt, alloc, slow),
        "slow-turn-lock" => two_in_turns(rt, alloc, slow),
        "closed-shard-lock" => closed_in_order(alloc),
        "closed-turn-lock" => closed_in_turns(alloc),
        _ => return Ok(None),
    };
    Ok(Some(told?))
}
