// The links that wait for each other in a round.
ghost use Rattle.std.specs.Prelude.{◌≡◌, ◌↔◌, ◌≤◌, ◌<◌, ◌^◌, ◌∷◌, ℕ, List, IfOk, IfNone, IfSome, IsSome, IsTrue, Contains, length, min, slice_index, nat_eq};
ghost use Rattle.std.specs.List.{list_any};
ghost use Rattle.share_record.specs.declared.tape.LinkTape.{LinkTape};
ghost use Rattle.share_record.specs.declared.tape.ShardTape.{ShardTape};
ghost use Rattle.tape_merge.specs.Matching.{AreApart, AreMatched, IsLeastOfCycle};
ghost use Rattle.tape_merge.specs.Moves.{Counts};
ghost use Rattle.tape_merge.specs.Waiting.{HasLeft, IsStuck, WaitInRow, WaitsFor};

use crate::moves::{link_named, next_step};
use crate::place::Place;
use crate::progress::Progress;
use crate::tapes::tape_of;
use share_model::NoMemory;
use share_record::{LinkTape, ShardTape};
use std::alloc::Global;

// Whether a step of a link is left.
fn has_left(links: &[LinkTape], counts: &Progress, link: u32) -> bool
    ensures { IsTrue result ↔ HasLeft links.now counts.now link }
{
    match next_step(links, counts, link) {
        Some(_step) => true,
        None => false,
    }
}

// The first link of which a step is left.
pub fn first_left(links: &[LinkTape], counts: &Progress) -> Option<u32>
    requires { length links.now < 2 ^ 32 }
    ensures none { IfNone result ((link : ℕ) → HasLeft links.now counts.now link → ⊥) }
    ensures some { IfSome result (HasLeft links.now counts.now) }
{
    for link in 0..links.len() as u32 {
        let left = has_left(links, counts, link);
        if left {
            return Some(link);
        }
    }
    None
}

// The link for whose step the next step of this link waits: that of the next tag of its tape.
fn waits_for(tapes: &[ShardTape], links: &[LinkTape], counts: &Progress, link: u32) -> Option<u32>
    requires apart { AreApart tapes.now }
    requires matched { AreMatched tapes.now links.now }
    requires stuck { IsStuck tapes.now links.now counts.now }
    requires left { HasLeft links.now counts.now link }
    ensures some { IsSome result }
    ensures waits { IfSome result (WaitsFor tapes.now links.now counts.now link) }
{
    let Some(step) = next_step(links, counts, link) else {
        return None;
    };
    let Some(shard) = step.shard else {
        return None;
    };
    let Some(tape) = tape_of(tapes, shard) else {
        return None;
    };
    let Some(other) = link_named(tapes, counts, tape) else {
        return None;
    };
    Some(other)
}

// Whether a link is among these.
fn has(path: &[u32], at: u32) -> bool
    ensures { result ≡ list_any (nat_eq at) path.now }
{
    path.iter().any(|link| at == *link)
}

// What stands in a row of links from this one on.
fn row_from(path: &[u32], at: u32) -> &[u32]
    requires { IsTrue (list_any (nat_eq at) path.now) }
    ensures first { (others : List ℕ) × (result.now ≡ at ∷ others) }
    ensures row { (tapes : List ShardTape) (links : List LinkTape) (counts : Counts)
        → WaitInRow tapes links counts path.now at → WaitInRow tapes links counts result.now at }
{
    let mut rest = path;
    while let Some((first, others)) = rest.split_first() {
        let same = *first == at;
        if same {
            return rest;
        }
        rest = others;
    }
    unreachable!()
}

// The lesser of two numbers.
fn lesser(a: u32, b: u32) -> u32
    ensures { result ≡ min a b }
{
    if a < b {
        return a;
    }
    b
}

// The least of these links.
fn least_of(ring: &[u32], first: u32) -> u32
    requires { Contains ring.now first }
    ensures among { Contains ring.now result }
    ensures least { (at : ℕ) → at < length ring.now → result ≤ slice_index ring.now at }
{
    let mut least = first;
    for link in ring {
        least = lesser(least, *link);
    }
    least
}

// The least step of a cycle: from this link on each link waits for the next one, until one comes again.
pub fn cycle_from(
    alloc: Global,
    tapes: &[ShardTape],
    links: &[LinkTape],
    counts: &Progress,
    start: u32,
) -> Result<Place, NoMemory>
    requires apart { AreApart tapes.now }
    requires matched { AreMatched tapes.now links.now }
    requires stuck { IsStuck tapes.now links.now counts.now }
    requires left { HasLeft links.now counts.now start }
    ensures { IfOk result (IsLeastOfCycle tapes.now links.now) }
{
    let mut path = Vec::new(alloc);
    let mut at = start;
    'walk: loop {
        let items = path.as_slice();
        let found = has(items, at);
        if found {
            break;
        }
        path.push(at)?;
        let Some(next) = waits_for(tapes, links, counts, at) else {
            unreachable!();
        };
        at = next;
    }
    let whole = path.as_slice();
    let row = row_from(whole, at);
    let link = least_of(row, at);
    let step = counts.gone(link);
    Ok(Place { link, step })
}
