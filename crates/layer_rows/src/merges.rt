// Merges: the session that the tapes of a server's run give. The broker has 64 partitions of `orders`.
//
// | Line | Means |
// |---|---|
// | `link HEX CLOSED STEP ..` | a link more: its bytes, behind how many steps it was closed, and its steps |
// | `tape SHARD TAG ..` | a tape more |
// | `rounds LINKS STEPS TAPES` | so many links, steps of each, and tapes; the tapes take the steps round by round |
// | `expiries NUMBER` | so many expiries more at the end of each tape |
// | `merge` | the lines of the session, or why there is none |
// | `count` | how many events the session has |
//
// `-` stands for no bytes, and for no close. A STEP is NOW, or NOW@SHARD where it asks a shard. A TAG is LINK/STEP,
// `expire@NOW`, `tick@NOW` or `offer`. A SHARD is the number of a partition's, `members` or `foreign`. In rounds the
// step K asks the shard K mod TAPES.
use crate::plain::word;
use edge_mem::MemSink;
use row_text::bytes_of;
use session_script::{Event, write_event};
use share_model::{Blob, Moment, Name, NoMemory, Reset, ShardId};
use share_record::{FrameList, LinkStep, LinkTape, ShardTape, StepList, Tag, TagList};
use std::alloc::Global;
use std::{io, mem};
use tape_merge::{MergeFault, are_apart, merge};
use topic_conf::{Config, Topic, TopicList, Versions};
use uuid::Uuid;

fn config_of(alloc: Global) -> io::Result<Option<Config>> {
    let Some(name) = Name::new("orders") else {
        return Ok(None);
    };
    let id = Uuid::from_bytes([7; 16]);
    let topics = vec![in alloc;
        Topic {
            name,
            parts: 64,
            id
        },
    ]?;
    match TopicList::new(topics) {
        Some(list) => Ok(Some(Config::new(
            list,
            Reset::Earliest,
            30000,
            5,
            name,
            9092,
            Versions::Exact,
        ))),
        None => Ok(None),
    }
}

fn shard_of(text: &str) -> Option<ShardId> {
    match text {
        "members" => Some(ShardId::Members),
        "foreign" => Some(ShardId::Foreign),
        _ => Some(ShardId::Part(text.parse().ok()?)),
    }
}

fn moment_of(text: &str) -> Option<Moment> {
    let now: u32 = text.parse().ok()?;
    Some(Moment::new(now as u64))
}

/// The step of `NOW` or `NOW@SHARD`.
fn step_of(text: &str) -> Option<LinkStep> {
    let (now, shard) = match text.split_once('@') {
        Some((now, shard)) => (now, Some(shard_of(shard)?)),
        None => (text, None),
    };
    Some(LinkStep {
        now: moment_of(now)?,
        shard,
    })
}

/// The tag of `LINK/STEP`, `expire@NOW`, `tick@NOW` or `offer`.
fn tag_of(text: &str) -> Option<Tag> {
    if text == "offer" {
        return Some(Tag::Offer);
    }
    if let Some((link, step)) = text.split_once('/') {
        return Some(Tag::Part {
            link: link.parse().ok()?,
            step: step.parse().ok()?,
        });
    }
    let (kind, now) = text.split_once('@')?;
    let now = moment_of(now)?;
    match kind {
        "expire" => Some(Tag::Expire { now }),
        "tick" => Some(Tag::Tick { now }),
        _ => None,
    }
}

fn steps_of(alloc: Global, text: &str) -> io::Result<Option<StepList>> {
    let mut steps = StepList::new(alloc);
    for word in text.split(' ').filter(|word| !word.is_empty()) {
        let Some(step) = step_of(word) else {
            return Ok(None);
        };
        if steps.push(step).is_err() {
            return Ok(None);
        }
    }
    Ok(Some(steps))
}

fn tags_of(alloc: Global, text: &str) -> io::Result<Option<TagList>> {
    let mut tags = TagList::new(alloc);
    for word in text.split(' ').filter(|word| !word.is_empty()) {
        let Some(tag) = tag_of(word) else {
            return Ok(None);
        };
        if tags.push(tag).is_err() {
            return Ok(None);
        }
    }
    Ok(Some(tags))
}

fn link_with(alloc: Global, bytes: Vec<u8>, steps: StepList, closed_at: Option<u64>) -> LinkTape {
    LinkTape {
        bytes: Blob::new(bytes),
        steps,
        closed_at,
        replies: FrameList::new(alloc),
        cause: None,
    }
}

fn link_of(alloc: Global, text: &str) -> io::Result<Option<LinkTape>> {
    let (digits, behind) = text.split_once(' ').unwrap_or((text, "-"));
    let (closed, steps) = behind.split_once(' ').unwrap_or((behind, ""));
    let digits = if digits == "-" { "" } else { digits };
    let Some(bytes) = bytes_of(alloc, digits)? else {
        return Ok(None);
    };
    let Some(steps) = steps_of(alloc, steps)? else {
        return Ok(None);
    };
    Ok(Some(link_with(alloc, bytes, steps, closed.parse().ok())))
}

fn tape_of(alloc: Global, text: &str) -> io::Result<Option<ShardTape>> {
    let (shard, tags) = text.split_once(' ').unwrap_or((text, ""));
    let Some(shard) = shard_of(shard) else {
        return Ok(None);
    };
    let Some(tags) = tags_of(alloc, tags)? else {
        return Ok(None);
    };
    Ok(Some(ShardTape { shard, tags }))
}

/// A link of so many steps, each on the next shard.
fn link_of_rounds(alloc: Global, steps: u32, tapes: u32) -> Result<LinkTape, NoMemory> {
    let mut list = StepList::new(alloc);
    for step in 0..steps {
        let shard = step.checked_rem(tapes).map(|number| ShardId::Part(number));
        list.push(LinkStep {
            now: Moment::new(step as u64),
            shard,
        })?;
    }
    Ok(link_with(alloc, Vec::new(alloc), list, None))
}

/// Adds the tags of one step of each link.
fn push_round(tags: &mut TagList, links: u32, step: u32) -> Result<(), NoMemory> {
    for link in 0..links {
        tags.push(Tag::Part {
            link,
            step: step as u64,
        })?;
    }
    Ok(())
}

/// The tape of a shard in such rounds.
fn tape_of_rounds(
    alloc: Global,
    links: u32,
    steps: u32,
    tapes: u32,
    shard: u32,
) -> Result<ShardTape, NoMemory> {
    let mut tags = TagList::new(alloc);
    for step in 0..steps {
        if step.checked_rem(tapes) == Some(shard) {
            push_round(&mut tags, links, step)?;
        }
    }
    Ok(ShardTape {
        shard: ShardId::Part(shard),
        tags,
    })
}

/// Adds an expiry at each of so many moments.
fn push_expiries(tags: &mut TagList, number: u32) -> Result<(), NoMemory> {
    for now in 0..number {
        tags.push(Tag::Expire {
            now: Moment::new(now as u64),
        })?;
    }
    Ok(())
}

/// `ok`, or that nothing was made.
fn made_text(alloc: Global, made: Option<()>) -> io::Result<String> {
    match made {
        Some(()) => word(alloc, "ok"),
        None => word(alloc, "no such words, or no memory"),
    }
}

fn event_lines(alloc: Global, events: &[Event]) -> io::Result<String> {
    let mut sink = MemSink::new(alloc, Vec::new(alloc));
    for event in events {
        if write_event(alloc, event, &mut sink).is_err() {
            return word(alloc, "no memory");
        }
    }
    let text = str::from_utf8(sink.bytes()).unwrap_or("");
    Ok(text.trim_end().replace(alloc, "\n", "; ")?)
}

/// The session's lines, or how many they are.
fn session_text(alloc: Global, events: &[Event], counted: bool) -> io::Result<String> {
    if counted {
        return Ok(format!(in alloc; "{}", events.len())?);
    }
    event_lines(alloc, events)
}

fn fault_text(alloc: Global, fault: MergeFault) -> io::Result<String> {
    match fault {
        MergeFault::Unmatched { link, step } => Ok(format!(in alloc; "unmatched {link} {step}")?),
        MergeFault::Tangled { link, step } => Ok(format!(in alloc; "tangled {link} {step}")?),
        MergeFault::NoMemory => word(alloc, "no memory"),
    }
}

/// What tapes give: the session, or how many events it has.
fn merged(
    alloc: Global,
    tapes: &[ShardTape],
    links: &[LinkTape],
    counted: bool,
) -> io::Result<String> {
    let Some(conf) = config_of(alloc)? else {
        return word(alloc, "no configuration");
    };
    if !are_apart(tapes) || links.len() > 1000 {
        return word(alloc, "two tapes of one shard, or too many links");
    }
    match merge(alloc, &conf, tapes, links) {
        Ok(events) => session_text(alloc, &events, counted),
        Err(fault) => fault_text(alloc, fault),
    }
}

#[derive(Drop)]
pub struct Merges {
    links: Vec<LinkTape>,
    tapes: Vec<ShardTape>,
}

impl Merges {
    pub fn new(alloc: Global) -> Merges {
        Merges {
            links: Vec::new(alloc),
            tapes: Vec::new(alloc),
        }
    }

    /// Puts others in place of these.
    pub fn set(&mut self, others: Merges) {
        drop(mem::replace(self, others));
    }

    fn link(&mut self, alloc: Global, text: &str) -> io::Result<String> {
        let Some(link) = link_of(alloc, text)? else {
            return word(alloc, "no such words");
        };
        self.links.push(link)?;
        word(alloc, "ok")
    }

    fn tape(&mut self, alloc: Global, text: &str) -> io::Result<String> {
        let Some(tape) = tape_of(alloc, text)? else {
            return word(alloc, "no such words");
        };
        self.tapes.push(tape)?;
        word(alloc, "ok")
    }

    fn push_links(&mut self, alloc: Global, links: u32, steps: u32, tapes: u32) -> Option<()> {
        for _ in 0..links {
            let link = link_of_rounds(alloc, steps, tapes).ok()?;
            self.links.push(link).ok()?;
        }
        Some(())
    }

    fn push_tapes(&mut self, alloc: Global, links: u32, steps: u32, tapes: u32) -> Option<()> {
        for shard in 0..tapes {
            let tape = tape_of_rounds(alloc, links, steps, tapes, shard).ok()?;
            self.tapes.push(tape).ok()?;
        }
        Some(())
    }

    fn rounds(&mut self, alloc: Global, text: &str) -> Option<()> {
        let mut words = text.split(' ');
        let links = words.next()?.parse().ok()?;
        let steps = words.next()?.parse().ok()?;
        let tapes = words.next()?.parse().ok()?;
        self.push_links(alloc, links, steps, tapes)?;
        self.push_tapes(alloc, links, steps, tapes)
    }

    fn expiries(&mut self, number: u32) -> Option<()> {
        for tape in &mut self.tapes {
            push_expiries(&mut tape.tags, number).ok()?;
        }
        Some(())
    }

    /// What a line gives. `None` where there is no such line.
    pub fn told(&mut self, alloc: Global, kind: &str, text: &str) -> io::Result<Option<String>> {
        let told = match kind {
            "link" => self.link(alloc, text),
            "tape" => self.tape(alloc, text),
            "rounds" => made_text(alloc, self.rounds(alloc, text)),
            "expiries" => made_text(alloc, self.expiries(text.parse().unwrap_or(0))),
            "merge" => merged(alloc, &self.tapes, &self.links, false),
            "count" => merged(alloc, &self.tapes, &self.links, true),
            _ => return Ok(None),
        };
        Ok(Some(told?))
    }
}
