ghost use Rattle.std.specs.Prelude.{◌≡◌, ◌<◌, ◌^◌, ℕ, List, length, Err, IfOk, OnOk};
ghost use Rattle.topic_conf.specs.declared.topic.Topic.{Topic};
ghost use Rattle.tape_merge.specs.declared.fault.MergeFault.TheVariants.{Unmatched, Tangled};
ghost use Rattle.tape_merge.specs.declared.place.Place.{Place};
ghost use Rattle.tape_merge.specs.Matching.{AreApart, AreMatched, IsFirstUnmatched, IsLeastOfCycle};
ghost use Rattle.tape_merge.specs.Merges.{IsMerge};
ghost use Rattle.tape_merge.specs.Outcomes.{IsOutcome};
ghost use Rattle.tape_merge.specs.Waiting.{HasLeft, IsStuck};

use crate::fault::MergeFault;
use crate::matching::first_unmatched;
use crate::place::Place;
use crate::progress::Progress;
use crate::run::go_on;
use crate::tangle::{cycle_from, first_left};
use crate::tell::openings;
use session_script::Event;
use share_model::NoMemory;
use share_record::{LinkTape, ShardTape};
use std::alloc::Global;
use topic_conf::Config;

// What comes of links and tapes.
#[derive(Drop)]
pub enum Outcome {
    Session(Vec<Event>),
    Strange(Place),
    Knotted(Place),
}

// What comes of them, where nothing may go and a step of this link is left.
fn knotted(
    alloc: Global,
    tapes: &[ShardTape],
    links: &[LinkTape],
    counts: &Progress,
    link: u32,
) -> Result<Outcome, NoMemory>
    requires apart { AreApart tapes.now }
    requires matched { AreMatched tapes.now links.now }
    requires stuck { IsStuck tapes.now links.now counts.now }
    requires left { HasLeft links.now counts.now link }
    ensures { IfOk result (λ outcome. (topics : List Topic) → IsOutcome topics tapes.now links.now outcome) }
{
    let place = cycle_from(alloc, tapes, links, counts, link)?;
    Ok(Outcome::Knotted(place))
}

// What comes of them, where tags and steps name each other.
fn merged_matched(
    alloc: Global,
    conf: &Config,
    tapes: &[ShardTape],
    links: &[LinkTape],
) -> Result<Outcome, NoMemory>
    requires apart { AreApart tapes.now }
    requires few { length links.now < 2 ^ 32 }
    requires matched { AreMatched tapes.now links.now }
    ensures { IfOk result (IsOutcome conf.now.topics tapes.now links.now) }
{
    let mut counts = Progress::new(alloc, tapes, links)?;
    let mut events = openings(alloc, links)?;
    go_on(alloc, conf, tapes, links, &mut counts, &mut events)?;
    match first_left(links, &counts) {
        Some(link) => knotted(alloc, tapes, links, &counts, link),
        None => Ok(Outcome::Session(events)),
    }
}

// What comes of them, unless memory runs out.
fn merged(
    alloc: Global,
    conf: &Config,
    tapes: &[ShardTape],
    links: &[LinkTape],
) -> Result<Outcome, NoMemory>
    requires apart { AreApart tapes.now }
    requires few { length links.now < 2 ^ 32 }
    ensures { IfOk result (IsOutcome conf.now.topics tapes.now links.now) }
{
    let unmatched = first_unmatched(alloc, tapes, links)?;
    match unmatched {
        Some(place) => Ok(Outcome::Strange(place)),
        None => merged_matched(alloc, conf, tapes, links),
    }
}

/// One session of all links. Each link opens with its bytes. Then goes, again and again, the next step of the least
/// link that may go, or, where none may, what the first tape tells whose next tag is of no step. A step that asks a
/// shard may go where its tag is the next one on that shard's tape.
pub fn merge(
    alloc: Global,
    conf: &Config,
    tapes: &[ShardTape],
    links: &[LinkTape],
) -> Result<Vec<Event>, MergeFault>
    requires apart { AreApart tapes.now }
    requires few { length links.now < 2 ^ 32 }
    ensures merged { IfOk result (λ events. IsMerge conf.now.topics tapes.now links.now events.items) }
    ensures matched { OnOk result (AreMatched tapes.now links.now) }
    ensures untangled { OnOk result ((place : Place) → IsLeastOfCycle tapes.now links.now place → ⊥) }
    ensures unmatched { (link step : ℕ) → result ≡ Err (Unmatched link step) →
        IsFirstUnmatched tapes.now links.now (record { link = link; step = step }) }
    ensures tangled { (link step : ℕ) → result ≡ Err (Tangled link step) →
        AreMatched tapes.now links.now × IsLeastOfCycle tapes.now links.now (record { link = link; step = step }) }
{
    let Ok(outcome) = merged(alloc, conf, tapes, links) else {
        return Err(MergeFault::NoMemory);
    };
    match outcome {
        Outcome::Session(events) => Ok(events),
        Outcome::Strange(place) => Err(MergeFault::Unmatched {
            link: place.link,
            step: place.step,
        }),
        Outcome::Knotted(place) => Err(MergeFault::Tangled {
            link: place.link,
            step: place.step,
        }),
    }
}
