// Steps and tags by their numbers.
ghost use Rattle.std.specs.Prelude.{◌≡◌, ◌↔◌, ◌+◌, ◌<◌, ◌^◌, ℕ, IfNone, IfSome, IsTrue, Some, option_copied, slice_get};
ghost use Rattle.share_record.specs.declared.tag.Tag.TheVariants.{Part};
ghost use Rattle.tape_merge.specs.Matching.{shard_asked, shard_in, shard_of, steps_of, tags_of};

use share_model::ShardId;
use share_record::{LinkStep, LinkTape, ShardTape, Tag};

// Whether both are one shard.
pub fn is_same(a: ShardId, b: ShardId) -> bool
    ensures { IsTrue result ↔ (a ≡ b) }
{
    match (a, b) {
        (ShardId::Part(first), ShardId::Part(second)) => first == second,
        (ShardId::Members, ShardId::Members) => true,
        (ShardId::Foreign, ShardId::Foreign) => true,
        (_, _) => false,
    }
}

// An item of a list by its number.
#[tactic(auto, using(std::proofs::lemmas::Option::gets))]
pub fn item_at<T>(items: &[T], at: u64) -> Option<&T>
    ensures is { option_copied result ≡ slice_get items.now at }
    ensures room { IfSome result (λ _. at + 1 < 2 ^ 64) }
{
    let within = at < items.len() as u64;
    if !within {
        return None;
    }
    Some(&items[at as usize])
}

// A step of a link.
pub fn step_of(links: &[LinkTape], link: u32, step: u64) -> Option<&LinkStep>
    ensures is { option_copied result ≡ slice_get (steps_of links.now link) step }
    ensures room { IfSome result (λ _. step + 1 < 2 ^ 64) }
{
    let Some(tape) = item_at(links, link as u64) else {
        return None;
    };
    let found = item_at(tape.steps.as_slice(), step);
    found
}

// The shard that one of these steps asks.
pub fn shard_in(steps: &[LinkStep], at: u64) -> Option<ShardId>
    ensures { result ≡ shard_in (slice_get steps.now at) }
{
    match item_at(steps, at) {
        Some(step) => step.shard,
        None => None,
    }
}

// The shard that a step of a link asks.
fn shard_asked(links: &[LinkTape], link: u32, step: u64) -> Option<ShardId>
    ensures { result ≡ shard_asked links.now link step }
{
    match item_at(links, link as u64) {
        Some(tape) => shard_in(tape.steps.as_slice(), step),
        None => None,
    }
}

// Whether a step of a link asks this shard.
pub fn asks(links: &[LinkTape], link: u32, step: u64, shard: ShardId) -> bool
    ensures { IsTrue result ↔ (shard_asked links.now link step ≡ Some shard) }
{
    match shard_asked(links, link, step) {
        Some(asked) => is_same(asked, shard),
        None => false,
    }
}

// A tag of a tape.
pub fn tag_of(tapes: &[ShardTape], tape: usize, at: u64) -> Option<&Tag>
    ensures is { option_copied result ≡ slice_get (tags_of tapes.now tape) at }
    ensures room { IfSome result (λ _. at + 1 < 2 ^ 64) }
{
    let Some(of) = item_at(tapes, tape as u64) else {
        return None;
    };
    let found = item_at(of.tags.as_slice(), at);
    found
}

// Whether a tape is of this shard.
fn is_of(tapes: &[ShardTape], tape: usize, shard: ShardId) -> bool
    ensures { IsTrue result ↔ (shard_of tapes.now tape ≡ Some shard) }
{
    match item_at(tapes, tape as u64) {
        Some(of) => is_same(of.shard, shard),
        None => false,
    }
}

// The tape of a shard.
pub fn tape_of(tapes: &[ShardTape], shard: ShardId) -> Option<usize>
    ensures some { IfSome result (λ tape. shard_of tapes.now tape ≡ Some shard) }
    ensures none { IfNone result ((tape : ℕ) → shard_of tapes.now tape ≡ Some shard → ⊥) }
{
    for tape in 0..tapes.len() {
        let here = is_of(tapes, tape, shard);
        if here {
            return Some(tape);
        }
    }
    None
}

// Whether a tag names this step.
pub fn is_tag_of(tag: &Tag, link: u32, step: u64) -> bool
    ensures { IsTrue result ↔ (tag.now ≡ Part link step) }
{
    match tag {
        Tag::Part { link: of, step: at } => *of == link && *at == step,
        _ => false,
    }
}
