// What may go.
ghost use Rattle.std.specs.Prelude.{◌≡◌, ◌↔◌, ◌+◌, ◌<◌, ◌^◌, ℕ, IfNone, IfSome, IsTrue, Option, option_copied, slice_index};
ghost use Rattle.tape_merge.specs.declared.moves.Move.TheVariants.{Steps, Alone};
ghost use Rattle.tape_merge.specs.Matching.{AreApart};
ghost use Rattle.tape_merge.specs.Readiness.{IsNamed};
ghost use Rattle.tape_merge.specs.Moves.{GoesAlone, HasRoom, IsAlone, StepGoes, next_step, next_tag};

use crate::progress::Progress;
use crate::tapes::{is_tag_of, step_of, tag_of, tape_of};
use share_record::{LinkStep, LinkTape, ShardTape, Tag};

/// What goes at one place of a merge.
#[derive(Clone, Copy)]
pub enum Move {
    /// The next step of this link. Where it asks a shard, it takes the next tag of that shard's tape.
    Steps { link: u32, tape: Option<usize> },
    /// What the next tag of this tape tells, which is of no step.
    Alone { tape: usize },
}

// The step that is next on a link.
pub fn next_step<'a>(links: &'a [LinkTape], counts: &Progress, link: u32) -> Option<&'a LinkStep>
    ensures is { option_copied result ≡ next_step links.now counts.now link }
    ensures room { IfSome result (λ _. slice_index counts.now.gone link + 1 < 2 ^ 64) }
{
    step_of(links, link, counts.gone(link))
}

// The tag that is next on a tape.
pub fn next_tag<'a>(tapes: &'a [ShardTape], counts: &Progress, tape: usize) -> Option<&'a Tag>
    ensures is { option_copied result ≡ next_tag tapes.now counts.now tape }
    ensures room { IfSome result (λ _. slice_index counts.now.passed tape + 1 < 2 ^ 64) }
{
    tag_of(tapes, tape, counts.passed(tape))
}

// How the next step of a link goes, where it may.
pub fn step_move(
    tapes: &[ShardTape],
    links: &[LinkTape],
    counts: &Progress,
    link: u32,
) -> Option<Move>
    requires { AreApart tapes.now }
    ensures some { IfSome result (λ move. (tape : Option ℕ) × (move ≡ Steps link tape)
        × StepGoes tapes.now links.now counts.now link tape) }
    ensures room { IfSome result (HasRoom counts.now) }
    ensures none { IfNone result ((tape : Option ℕ) → StepGoes tapes.now links.now counts.now link tape → ⊥) }
{
    let Some(step) = next_step(links, counts, link) else {
        return None;
    };
    let Some(shard) = step.shard else {
        return Some(Move::Steps { link, tape: None });
    };
    let Some(tape) = tape_of(tapes, shard) else {
        return None;
    };
    let Some(tag) = next_tag(tapes, counts, tape) else {
        return None;
    };
    let step = counts.gone(link);
    let named = is_tag_of(tag, link, step);
    if !named {
        return None;
    }
    Some(Move::Steps {
        link,
        tape: Some(tape),
    })
}

// Whether a tag is of no step.
fn is_alone(tag: &Tag) -> bool
    ensures { IsTrue result ↔ IsAlone tag.now }
{
    match tag {
        Tag::Part { .. } => false,
        Tag::Expire { .. } => true,
        Tag::Tick { .. } => true,
        Tag::Offer => true,
    }
}

// Whether the next tag of a tape is of no step.
fn goes_alone(tapes: &[ShardTape], counts: &Progress, tape: usize) -> bool
    ensures alone { IsTrue result ↔ GoesAlone tapes.now counts.now tape }
    ensures room { IsTrue result → slice_index counts.now.passed tape + 1 < 2 ^ 64 }
{
    let Some(tag) = next_tag(tapes, counts, tape) else {
        return false;
    };
    is_alone(tag)
}

// What goes without a step: on the first tape that has such a tag next.
pub fn alone_move(tapes: &[ShardTape], counts: &Progress) -> Option<Move>
    ensures some { IfSome result (λ move. (tape : ℕ) × (move ≡ Alone tape) × GoesAlone tapes.now counts.now tape
        × ((other : ℕ) → other < tape → GoesAlone tapes.now counts.now other → ⊥)) }
    ensures room { IfSome result (HasRoom counts.now) }
    ensures none { IfNone result ((tape : ℕ) → GoesAlone tapes.now counts.now tape → ⊥) }
{
    for tape in 0..tapes.len() {
        let alone = goes_alone(tapes, counts, tape);
        if alone {
            return Some(Move::Alone { tape });
        }
    }
    None
}

// The link that the next tag of a tape names.
pub fn link_named(tapes: &[ShardTape], counts: &Progress, tape: usize) -> Option<u32>
    ensures some { IfSome result (IsNamed tapes.now counts.now tape) }
    ensures none { IfNone result ((link : ℕ) → IsNamed tapes.now counts.now tape link → ⊥) }
{
    let Some(tag) = next_tag(tapes, counts, tape) else {
        return None;
    };
    match tag {
        Tag::Part { link, .. } => Some(*link),
        Tag::Expire { .. } => None,
        Tag::Tick { .. } => None,
        Tag::Offer => None,
    }
}
