// Whether tags and steps name each other one to one.
ghost use Rattle.std.specs.Prelude.{◌≡◌, ◌+◌, ◌<◌, ◌^◌, ◌⊎◌, ℕ, List, Some, false, IfOk, OnOk, IfNone, IfSome, IsSome, IsTrue, length, slice_get};
ghost use Rattle.share_record.specs.declared.tape.ShardTape.{ShardTape};
ghost use Rattle.tape_merge.specs.declared.place.Place.{Place};
ghost use Rattle.tape_merge.specs.Matching.{IsBefore, Names, shard_asked, shard_in, shard_of, steps_of, tags_of};
ghost use Rattle.tape_merge.specs.Sightings.{AreAllNamed, AreNamed, Found, HasSeen, HasStep, IsFine};

use crate::place::{Place, is_before};
use crate::tapes::{asks, item_at, shard_in};
use share_model::{NoMemory, ShardId};
use share_record::{LinkStep, LinkTape, ShardTape, Tag};
use std::alloc::Global;
use std::collections::BTreeSet;

// The steps that tags have named so far, and the least one at which a tag doesn't fit.
#[derive(Drop)]
pub struct Seen {
    named: BTreeSet<(u32, u64)>,
    least: Option<Place>,
}

// The lesser of two steps.
fn lesser_of(a: Place, b: Place) -> Place
    ensures less { (other : Place) → IsBefore other result → IsBefore other a × IsBefore other b }
    ensures which { (result ≡ a) ⊎ (result ≡ b) }
{
    let before = is_before(a, b);
    if before {
        return a;
    }
    b
}

// The lesser of a step and the least one so far.
fn lesser(least: Option<Place>, place: Place) -> Option<Place>
    ensures less { (other : Place) → IsFine result other → IsFine least other × IsBefore other place }
    ensures which { (result ≡ least) ⊎ (result ≡ Some place) }
    ensures some { IsSome result }
{
    match least {
        None => Some(place),
        Some(other) => Some(lesser_of(other, place)),
    }
}

// A tag of this shard's tape that names a step was seen.
fn see_part(
    links: &[LinkTape],
    shard: ShardId,
    link: u32,
    step: u64,
    seen: &mut Seen,
) -> Result<(), NoMemory>
    ensures { OnOk result ((tapes : List ShardTape) (upto count : ℕ) → shard_of tapes upto ≡ Some shard
        → Names tapes upto count link step → HasSeen tapes links.now upto count seen.old.named.keys seen.old.least
        → HasSeen tapes links.now upto (count + 1) seen.new.named.keys seen.new.least) }
{
    let fresh = seen.named.insert((link, step))?;
    let asked = asks(links, link, step, shard);
    if !fresh {
        let twice = lesser(seen.least, Place { link, step });
        seen.least = twice;
        return Ok(());
    }
    if !asked {
        let strange = lesser(seen.least, Place { link, step });
        seen.least = strange;
        return Ok(());
    }
    Ok(())
}

// A tag of this shard's tape was seen.
fn see(links: &[LinkTape], shard: ShardId, tag: &Tag, seen: &mut Seen) -> Result<(), NoMemory>
    ensures { OnOk result ((tapes : List ShardTape) (upto count : ℕ) → shard_of tapes upto ≡ Some shard
        → slice_get (tags_of tapes upto) count ≡ Some tag.now
        → HasSeen tapes links.now upto count seen.old.named.keys seen.old.least
        → HasSeen tapes links.now upto (count + 1) seen.new.named.keys seen.new.least) }
{
    match tag {
        Tag::Part { link, step } => {
            see_part(links, shard, *link, *step, seen)?;
            return Ok(());
        }
        Tag::Expire { .. } => return Ok(()),
        Tag::Tick { .. } => return Ok(()),
        Tag::Offer => return Ok(()),
    }
}

// So many tags of a tape were.
fn see_tags(
    links: &[LinkTape],
    shard: ShardId,
    tags: &[Tag],
    seen: &mut Seen,
) -> Result<(), NoMemory>
    ensures { OnOk result ((tapes : List ShardTape) (upto : ℕ) → shard_of tapes upto ≡ Some shard
        → tags_of tapes upto ≡ tags.now → HasSeen tapes links.now upto 0 seen.old.named.keys seen.old.least
        → HasSeen tapes links.now (upto + 1) 0 seen.new.named.keys seen.new.least) }
{
    for tag in tags {
        see(links, shard, tag, seen)?;
    }
    Ok(())
}

// Those of a tape were.
fn see_tape(
    tapes: &[ShardTape],
    links: &[LinkTape],
    tape: usize,
    seen: &mut Seen,
) -> Result<(), NoMemory>
    requires { tape < length tapes.now }
    ensures { OnOk result (HasSeen tapes.now links.now tape 0 seen.old.named.keys seen.old.least
        → HasSeen tapes.now links.now (tape + 1) 0 seen.new.named.keys seen.new.least) }
{
    let Some(of) = item_at(tapes, tape as u64) else {
        unreachable!();
    };
    see_tags(links, of.shard, of.tags.as_slice(), seen)?;
    Ok(())
}

// Those of all tapes were.
fn see_all(alloc: Global, tapes: &[ShardTape], links: &[LinkTape]) -> Result<Seen, NoMemory>
    ensures { IfOk result (λ seen. HasSeen tapes.now links.now (length tapes.now) 0 seen.named.keys seen.least) }
{
    let mut seen = Seen {
        named: BTreeSet::new(alloc),
        least: None,
    };
    for tape in 0..tapes.len() {
        see_tape(tapes, links, tape, &mut seen)?;
    }
    Ok(seen)
}

// Whether a step that asks this shard isn't named.
fn is_unnamed(shard: Option<ShardId>, link: u32, step: u64, named: &BTreeSet<(u32, u64)>) -> bool
    ensures yes { IsTrue result → IsSome shard × (HasStep named.now.keys link step → ⊥) }
    ensures no { result ≡ false → IsSome shard → HasStep named.now.keys link step }
{
    match shard {
        Some(_) => !named.contains(&(link, step)),
        None => false,
    }
}

// The first of these steps of a link that asks a shard and that no tag names.
fn unnamed_in(steps: &[LinkStep], link: u32, named: &BTreeSet<(u32, u64)>) -> Option<u64>
    ensures none { IfNone result (AreNamed steps.now named.now.keys link (length steps.now)) }
    ensures some { IfSome result (λ at. IsSome (shard_in (slice_get steps.now at))
        × (HasStep named.now.keys link at → ⊥)) }
    ensures first { IfSome result (AreNamed steps.now named.now.keys link) }
{
    for at in 0..steps.len() as u64 {
        let shard = shard_in(steps, at);
        let lacks = is_unnamed(shard, link, at, named);
        if lacks {
            return Some(at);
        }
    }
    None
}

// The first such step of a link.
fn unnamed_of(links: &[LinkTape], link: u32, named: &BTreeSet<(u32, u64)>) -> Option<u64>
    ensures none { IfNone result ((step : ℕ) → IsSome (shard_asked links.now link step)
        → HasStep named.now.keys link step) }
    ensures some { IfSome result (λ step. IsSome (shard_asked links.now link step)
        × (HasStep named.now.keys link step → ⊥)) }
    ensures first { IfSome result (AreNamed (steps_of links.now link) named.now.keys link) }
{
    let Some(tape) = item_at(links, link as u64) else {
        return None;
    };
    let found = unnamed_in(tape.steps.as_slice(), link, named);
    found
}

// The first such step of all links.
fn unnamed(links: &[LinkTape], named: &BTreeSet<(u32, u64)>) -> Option<Place>
    requires { length links.now < 2 ^ 32 }
    ensures none { IfNone result (AreAllNamed links.now named.now.keys (length links.now)) }
    ensures some { IfSome result (λ place. IsSome (shard_asked links.now place.link place.step)
        × (HasStep named.now.keys place.link place.step → ⊥)) }
    ensures before { IfSome result (λ place. AreAllNamed links.now named.now.keys place.link) }
    ensures first { IfSome result (λ place. AreNamed (steps_of links.now place.link) named.now.keys place.link
        place.step) }
{
    for link in 0..links.len() as u32 {
        if let Some(step) = unnamed_of(links, link, named) {
            return Some(Place { link, step });
        }
    }
    None
}

// The least step that isn't matched.
pub fn first_unmatched(
    alloc: Global,
    tapes: &[ShardTape],
    links: &[LinkTape],
) -> Result<Option<Place>, NoMemory>
    requires { length links.now < 2 ^ 32 }
    ensures { IfOk result (Found tapes.now links.now) }
{
    let seen = see_all(alloc, tapes, links)?;
    let Some(place) = unnamed(links, &seen.named) else {
        return Ok(seen.least);
    };
    let least = lesser(seen.least, place);
    Ok(least)
}
