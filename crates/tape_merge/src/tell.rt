// The events of a session.
ghost use Rattle.std.specs.Prelude.{◌≡◌, ◌==◌, ◌+◌, ◌<◌, ◌^◌, ◌++◌, ◌∷◌, [], List, IfNone, IfOk, IfSome, OnOk, Some, length, map, drop, take, slice_get, slice_index};
ghost use Rattle.session_script.specs.declared.event.Event.{Event};
ghost use Rattle.session_script.specs.declared.event.Event.TheVariants.{Bytes};
ghost use Rattle.share_record.specs.declared.tag.Tag.TheVariants.{Expire};
ghost use Rattle.topic_conf.specs.Topics.{partition_at_shard};
ghost use Rattle.tape_merge.specs.Telling.{close_at, ends_behind, expiry, last_close, opening, openings, pieces_of, step_at};
ghost use Rattle.tape_merge.specs.Telling.{told_by, told_by_link, told_by_tag, told_by_tape};

use crate::moves::Move;
use crate::progress::Progress;
use crate::tapes::item_at;
use session_script::Event;
use share_model::{Blob, NoMemory, ShardId};
use share_record::{LinkTape, ShardTape, Tag};
use std::alloc::Global;
use topic_conf::Config;

// How many bytes one event has at most.
const PIECE: usize = 65536;

// Adds an event.
fn tell(events: &mut Vec<Event>, event: Event) -> Result<(), NoMemory>
    ensures { OnOk result (events.new.items ≡ events.old.items ++ event ∷ []) }
{
    match events.push(event) {
        Ok(()) => Ok(()),
        Err(_) => Err(NoMemory),
    }
}

// Whether a link is closed behind so many of its steps.
fn ends_behind(closed_at: Option<u64>, steps: usize, done: u64) -> bool
    ensures { result ≡ ends_behind closed_at steps done }
{
    match closed_at {
        None => false,
        Some(closed_at) => closed_at.min(steps as u64) == done,
    }
}

// Adds the Close of a link, where that stands behind so many of its steps.
fn tell_close(id: u32, link: &LinkTape, done: u64, events: &mut Vec<Event>) -> Result<(), NoMemory>
    ensures { OnOk result (events.new.items ≡ events.old.items ++ close_at id link.now done) }
{
    let count = link.steps.as_slice().len();
    let ends = ends_behind(link.closed_at, count, done);
    if !ends {
        return Ok(());
    }
    tell(events, Event::Close { conn: id })?;
    Ok(())
}

// Whether so many steps are all.
fn are_all(steps: usize, done: u64) -> bool
    ensures { result ≡ (done == steps) }
{
    done == steps as u64
}

// Adds it, where no step stands behind it.
fn tell_last_close(
    id: u32,
    link: &LinkTape,
    done: u64,
    events: &mut Vec<Event>,
) -> Result<(), NoMemory>
    ensures { OnOk result (events.new.items ≡ events.old.items ++ last_close id link.now done) }
{
    let count = link.steps.as_slice().len();
    let last = are_all(count, done);
    if !last {
        return Ok(());
    }
    tell_close(id, link, done, events)?;
    Ok(())
}

// The first piece of bytes, and what is left behind it.
fn cut(bytes: &[u8]) -> Option<(&[u8], &[u8])>
    ensures none { IfNone result (length bytes.now ≡ 0) }
    ensures some { IfSome result (λ x. (0 < length bytes.now) × (x.0.now ≡ take 65536 bytes.now)
        × (x.1.now ≡ drop 65536 bytes.now)) }
{
    let count = bytes.len();
    let none = count == 0;
    if none {
        return None;
    }
    let few = count < PIECE;
    if few {
        let all = bytes.split_at(count);
        return Some(all);
    }
    let parts = bytes.split_at(PIECE);
    Some(parts)
}

// Adds the bytes of a link.
fn tell_bytes(alloc: Global, id: u32, bytes: &[u8], events: &mut Vec<Event>) -> Result<(), NoMemory>
    ensures { OnOk result (events.new.items ≡ events.old.items ++ map (λ piece. Bytes id piece) (pieces_of bytes.now)) }
{
    let mut rest = bytes;
    while let Some((piece, others)) = cut(rest) {
        let owned = Vec::from_slice(alloc, piece)?;
        let bytes = Blob::new(owned);
        tell(events, Event::Bytes { conn: id, bytes })?;
        rest = others;
    }
    Ok(())
}

// Adds what opens a link.
fn tell_opening(
    alloc: Global,
    id: u32,
    link: &LinkTape,
    events: &mut Vec<Event>,
) -> Result<(), NoMemory>
    ensures { OnOk result (events.new.items ≡ events.old.items ++ opening id link.now) }
{
    tell(events, Event::Open { conn: id })?;
    tell_bytes(alloc, id, link.bytes.as_slice(), events)?;
    tell_last_close(id, link, 0, events)?;
    Ok(())
}

// Adds what opens the link of this number.
fn open_link(
    alloc: Global,
    links: &[LinkTape],
    id: u32,
    events: &mut Vec<Event>,
) -> Result<(), NoMemory>
    requires { id < length links.now }
    ensures { OnOk result ((whole : List Event) → events.old.items ++ openings id (drop id links.now) ≡ whole
        → events.new.items ++ openings (id + 1) (drop (id + 1) links.now) ≡ whole) }
{
    let Some(link) = item_at(links, id as u64) else {
        unreachable!();
    };
    tell_opening(alloc, id, link, events)?;
    Ok(())
}

// What opens the links.
pub fn openings(alloc: Global, links: &[LinkTape]) -> Result<Vec<Event>, NoMemory>
    requires { length links.now < 2 ^ 32 }
    ensures { IfOk result (λ events. events.items ≡ openings 0 links.now) }
{
    let mut events = Vec::new(alloc);
    for id in 0..links.len() as u32 {
        open_link(alloc, links, id, &mut events)?;
    }
    Ok(events)
}

// Adds what a step of a link tells.
fn tell_step(id: u32, link: &LinkTape, done: u64, events: &mut Vec<Event>) -> Result<(), NoMemory>
    ensures { OnOk result (events.new.items ≡ events.old.items
        ++ step_at id link.now done (slice_get link.now.steps done)) }
{
    let Some(step) = item_at(link.steps.as_slice(), done) else {
        return Ok(());
    };
    let now = step.now.ms();
    tell_close(id, link, done, events)?;
    tell(events, Event::Step { conn: id, now })?;
    tell_last_close(id, link, done + 1, events)?;
    Ok(())
}

// Adds an expiry of the partition of this shard.
fn tell_expiry(conf: &Config, shard: u32, now: u64, events: &mut Vec<Event>) -> Result<(), NoMemory>
    ensures { OnOk result (events.new.items ≡ events.old.items
        ++ expiry (partition_at_shard conf.now.topics shard) now) }
{
    let Some((topic, part)) = conf.partition_of(shard) else {
        return Ok(());
    };
    let topic = topic.name;
    tell(events, Event::Expire { topic, part, now })?;
    Ok(())
}

// Adds an expiry of this shard, where it is that of a partition.
fn tell_expire(
    conf: &Config,
    shard: ShardId,
    now: u64,
    events: &mut Vec<Event>,
) -> Result<(), NoMemory>
    ensures { OnOk result (events.new.items ≡ events.old.items
        ++ told_by_tag conf.now.topics (Some (Expire now)) shard) }
{
    match shard {
        ShardId::Part(part) => {
            tell_expiry(conf, part, now, events)?;
            return Ok(());
        }
        ShardId::Members => return Ok(()),
        ShardId::Foreign => return Ok(()),
    }
}

// Adds what a tag tells that is of no step.
fn tell_tag(
    conf: &Config,
    shard: ShardId,
    tag: &Tag,
    events: &mut Vec<Event>,
) -> Result<(), NoMemory>
    ensures { OnOk result (events.new.items ≡ events.old.items ++ told_by_tag conf.now.topics (Some tag.now) shard) }
{
    match tag {
        Tag::Part { .. } => return Ok(()),
        Tag::Offer => return Ok(()),
        Tag::Tick { now } => {
            let moment = now.ms();
            tell(events, Event::Tick { now: moment })?;
            return Ok(());
        }
        Tag::Expire { now } => {
            let moment = now.ms();
            tell_expire(conf, shard, moment, events)?;
            return Ok(());
        }
    }
}

// Adds what the next step of a link tells.
fn tell_link(
    links: &[LinkTape],
    counts: &Progress,
    link: u32,
    events: &mut Vec<Event>,
) -> Result<(), NoMemory>
    ensures { OnOk result (events.new.items ≡ events.old.items
        ++ told_by_link link (slice_get links.now link) (slice_index counts.now.gone link)) }
{
    let Some(tape) = item_at(links, link as u64) else {
        return Ok(());
    };
    let done = counts.gone(link);
    tell_step(link, tape, done, events)?;
    Ok(())
}

// Adds what the next tag of a tape tells.
fn tell_tape(
    conf: &Config,
    tapes: &[ShardTape],
    counts: &Progress,
    tape: usize,
    events: &mut Vec<Event>,
) -> Result<(), NoMemory>
    ensures { OnOk result (events.new.items ≡ events.old.items
        ++ told_by_tape conf.now.topics (slice_get tapes.now tape) (slice_index counts.now.passed tape)) }
{
    let Some(of) = item_at(tapes, tape as u64) else {
        return Ok(());
    };
    let done = counts.passed(tape);
    let Some(tag) = item_at(of.tags.as_slice(), done) else {
        return Ok(());
    };
    tell_tag(conf, of.shard, tag, events)?;
    Ok(())
}

// Adds what a move tells.
pub fn tell_move(
    conf: &Config,
    tapes: &[ShardTape],
    links: &[LinkTape],
    counts: &Progress,
    goes: Move,
    events: &mut Vec<Event>,
) -> Result<(), NoMemory>
    ensures { OnOk result (events.new.items ≡ events.old.items
        ++ told_by conf.now.topics tapes.now links.now counts.now goes) }
{
    match goes {
        Move::Steps { link, .. } => {
            tell_link(links, counts, link, events)?;
            return Ok(());
        }
        Move::Alone { tape } => {
            tell_tape(conf, tapes, counts, tape, events)?;
            return Ok(());
        }
    }
}
