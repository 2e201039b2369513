// A share consumer without sockets and clock.
//
// | Line | Gives |
// |---|---|
// | `new GROUP MEMBER TOPIC COUNT` | a consumer that has sent nothing: `ok` |
// | `next MOMENT` | what is to be done: `heartbeat HEX`, `fetch HEX`, `write HEX`, `wait MOMENT` or `done` |
// | `reply LINK HEX ..` | a frame that came on the link `group` or `data`: `taken`, `stray`, `refused CODE` or `strange PLACE` |
// | `lost LINK` | the link ended: `ok` |
// | `wrote` | the lines that were handed out are written: `ok`, or `no lines` |
// | `unacknowledged` | whether all records are written, and the link was lost before they were known to be acknowledged: `yes` or `no` |
use crate::heard::{fault_text, is_frame};
use crate::plain::{hex_text, word};
use crate::standing::Standing;
use row_text::bytes_of;
use share_client::{ClientConf, ClientStep, LinkKind, Took};
use share_model::{Blob, Name};
use std::alloc::Global;
use std::{io, mem};

/// The last moment.
const END_OF_TIME: u64 = 1 << 62;

#[derive(Drop)]
pub enum Consumers {
    None,
    One(Standing),
}

/// The words of a consumer.
fn conf_of(words: &str) -> Option<ClientConf> {
    let (group, rest) = words.split_once(' ')?;
    let (member, rest) = rest.split_once(' ')?;
    let (topic, count) = rest.split_once(' ')?;
    Some(ClientConf {
        group: Name::new(group)?,
        member: Name::new(member)?,
        topic: Name::new(topic)?,
        count: count.parse().ok()?,
    })
}

fn frame_text(alloc: Global, kind: &str, frame: &Blob) -> io::Result<String> {
    let digits = hex_text(alloc, frame.as_slice())?;
    Ok(format!(in alloc; "{kind} {digits}")?)
}

fn step_text(alloc: Global, step: &ClientStep) -> io::Result<String> {
    match step {
        ClientStep::Heartbeat(frame) => frame_text(alloc, "heartbeat", frame),
        ClientStep::Fetch(frame) => frame_text(alloc, "fetch", frame),
        ClientStep::Write(lines) => frame_text(alloc, "write", lines),
        ClientStep::Wait { until } => Ok(format!(in alloc; "wait {until}")?),
        ClientStep::Done => word(alloc, "done"),
    }
}

/// The link of this name, the group's where it is none.
fn link_of(name: &str) -> LinkKind {
    match name {
        "data" => LinkKind::Data,
        _ => LinkKind::Group,
    }
}

fn next(alloc: Global, core: &mut Standing, moment: &str) -> io::Result<String> {
    let moment: u64 = moment.parse().unwrap_or(0);
    if moment > END_OF_TIME {
        return word(alloc, "no moment");
    }
    match core.next(alloc, moment) {
        Ok(step) => step_text(alloc, &step),
        Err(_) => word(alloc, "no memory"),
    }
}

fn reply(alloc: Global, core: &mut Standing, words: &str) -> io::Result<String> {
    let (link, digits) = words.split_once(' ').unwrap_or((words, ""));
    let Some(frame) = bytes_of(alloc, digits)? else {
        return word(alloc, "no bytes");
    };
    if !is_frame(&frame) {
        return word(alloc, "no frame");
    }
    match core.reply(alloc, link_of(link), &frame) {
        Ok(Took::Taken) => word(alloc, "taken"),
        Ok(Took::Stray) => word(alloc, "stray"),
        Err(fault) => fault_text(alloc, fault),
    }
}

fn wrote(alloc: Global, core: &mut Standing) -> io::Result<String> {
    let told = if core.wrote() { "ok" } else { "no lines" };
    word(alloc, told)
}

fn unacknowledged(alloc: Global, core: &Standing) -> io::Result<String> {
    let told = if core.unacknowledged() { "yes" } else { "no" };
    word(alloc, told)
}

impl Consumers {
    /// Puts another consumer in place of this one.
    pub fn set(&mut self, consumers: Consumers) {
        drop(mem::replace(self, consumers));
    }

    fn begin(&mut self, alloc: Global, words: &str) -> io::Result<String> {
        match conf_of(words) {
            Some(conf) => {
                self.set(Consumers::One(Standing::new(conf)));
                word(alloc, "ok")
            }
            None => word(alloc, "no words"),
        }
    }

    /// What a line gives. `None` where there is no such line.
    pub fn told(&mut self, alloc: Global, kind: &str, words: &str) -> io::Result<Option<String>> {
        if kind == "new" {
            return Ok(Some(self.begin(alloc, words)?));
        }
        let Consumers::One(core) = self else {
            return Ok(None);
        };
        let told = match kind {
            "next" => next(alloc, core, words),
            "reply" => reply(alloc, core, words),
            "lost" => {
                core.lost(link_of(words));
                word(alloc, "ok")
            }
            "wrote" => wrote(alloc, core),
            "unacknowledged" => unacknowledged(alloc, core),
            _ => return Ok(None),
        };
        Ok(Some(told?))
    }
}
