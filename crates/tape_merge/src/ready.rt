// The links whose next steps may go, by their numbers.
ghost use Rattle.std.specs.Prelude.{◌≡◌, ◌<◌, ◌^◌, IfOk, OnOk, IfNone, IfSome, length};
ghost use Rattle.tape_merge.specs.declared.moves.Move.{Move};
ghost use Rattle.tape_merge.specs.declared.moves.Move.TheVariants.{Steps};
ghost use Rattle.tape_merge.specs.Matching.{AreApart};
ghost use Rattle.tape_merge.specs.Moves.{CanGo, Counts, HasRoom, IsNext, after};
ghost use Rattle.tape_merge.specs.Readiness.{Any, Gains, IsNamed, IsOther, IsReadyIf, Touched};

use crate::moves::{Move, alone_move, link_named, step_move};
use crate::progress::Progress;
use share_model::NoMemory;
use share_record::{LinkTape, ShardTape};
use std::alloc::Global;
use std::collections::BTreeSet;

// A link is ready where its next step may go.
fn look(
    tapes: &[ShardTape],
    links: &[LinkTape],
    counts: &Progress,
    link: u32,
    ready: &mut BTreeSet<u32>,
) -> Result<(), NoMemory>
    requires { AreApart tapes.now }
    ensures { OnOk result (Gains (λ other. other ≡ link) tapes.now links.now counts.now ready.old.keys ready.new.keys) }
{
    let Some(_goes) = step_move(tapes, links, counts, link) else {
        return Ok(());
    };
    ready.insert(link)?;
    Ok(())
}

// So is the one that the next tag of a tape names.
fn look_on(
    tapes: &[ShardTape],
    links: &[LinkTape],
    counts: &Progress,
    tape: usize,
    ready: &mut BTreeSet<u32>,
) -> Result<(), NoMemory>
    requires { AreApart tapes.now }
    ensures { OnOk result (Gains (IsNamed tapes.now counts.now tape) tapes.now links.now counts.now
        ready.old.keys ready.new.keys) }
{
    let Some(link) = link_named(tapes, counts, tape) else {
        return Ok(());
    };
    look(tapes, links, counts, link, ready)?;
    Ok(())
}

// Those that are ready at first.
pub fn first_ready(
    alloc: Global,
    tapes: &[ShardTape],
    links: &[LinkTape],
    counts: &Progress,
) -> Result<BTreeSet<u32>, NoMemory>
    requires apart { AreApart tapes.now }
    requires few { length links.now < 2 ^ 32 }
    ensures { IfOk result (λ ready. IsReadyIf Any tapes.now links.now counts.now ready.keys) }
{
    let mut ready = BTreeSet::new(alloc);
    for link in 0..links.len() as u32 {
        look(tapes, links, counts, link, &mut ready)?;
    }
    Ok(ready)
}

// What goes next. A link whose step goes isn't ready behind it.
pub fn take_next(
    tapes: &[ShardTape],
    links: &[LinkTape],
    counts: &Progress,
    ready: &mut BTreeSet<u32>,
) -> Option<Move>
    requires apart { AreApart tapes.now }
    requires ready { IsReadyIf Any tapes.now links.now counts.now ready.old.keys }
    ensures next { IfSome result (IsNext tapes.now links.now counts.now) }
    ensures others { IfSome result (λ goes. IsReadyIf (IsOther goes) tapes.now links.now counts.now ready.new.keys) }
    ensures room { IfSome result (HasRoom counts.now) }
    ensures none { IfNone result ((goes : Move) → CanGo tapes.now links.now counts.now goes → ⊥) }
{
    match ready.pop_first() {
        Some(link) => {
            return step_move(tapes, links, counts, link);
        }
        None => {
            return alone_move(tapes, counts);
        }
    }
}

// Behind a step so is its link, and the one that the next tag of the tape names from which the step took its tag.
fn look_behind_step(
    tapes: &[ShardTape],
    links: &[LinkTape],
    counts: &Progress,
    link: u32,
    tape: Option<usize>,
    ready: &mut BTreeSet<u32>,
) -> Result<(), NoMemory>
    requires { AreApart tapes.now }
    ensures { OnOk result (Gains (Touched tapes.now counts.now (Steps link tape)) tapes.now links.now counts.now
        ready.old.keys ready.new.keys) }
{
    look(tapes, links, counts, link, ready)?;
    match tape {
        None => return Ok(()),
        Some(tape) => {
            look_on(tapes, links, counts, tape, ready)?;
            return Ok(());
        }
    }
}

// Those that are ready behind a move.
pub fn look_behind(
    tapes: &[ShardTape],
    links: &[LinkTape],
    counts: &Progress,
    went: Move,
    ready: &mut BTreeSet<u32>,
) -> Result<(), NoMemory>
    requires { AreApart tapes.now }
    ensures { OnOk result ((old : Counts) → counts.now ≡ after old went → CanGo tapes.now links.now old went
        → IsReadyIf (IsOther went) tapes.now links.now old ready.old.keys
        → IsReadyIf Any tapes.now links.now counts.now ready.new.keys) }
{
    match went {
        Move::Steps { link, tape } => {
            look_behind_step(tapes, links, counts, link, tape, ready)?;
            return Ok(());
        }
        Move::Alone { tape } => {
            look_on(tapes, links, counts, tape, ready)?;
            return Ok(());
        }
    }
}
