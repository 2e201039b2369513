// Share sessions of one connection, over a topic of 64 partitions whose id is 16 bytes 22.
//
// | Line | Means |
// |---|---|
// | `begins-fetch STEPS` | the bytes, as a ShareFetch, begin these steps, or are refused with a code |
// | `begins-ack STEPS` | the same of a ShareAcknowledge |
// | `closes STEPS` | all sessions are closed, with these steps |
use crate::plain::word;
use msgs_share::{read_share_ack_request, read_share_fetch_request};
use share_model::{Name, Reset};
use share_session::{PlanStep, Purpose, SessionFault, Sessions, VisitPlan};
use std::alloc::Global;
use std::io;
use topic_conf::{Config, Topic, TopicList, Versions};
use uuid::Uuid;

/// The topic of 64 partitions.
pub fn hosted(alloc: Global) -> io::Result<Option<Config>> {
    let (Some(name), Some(host)) = (Name::new("t"), Name::new("localhost")) else {
        return Ok(None);
    };
    let id = Uuid::from_bytes([0x22; 16]);
    let topics = vec![in alloc;
        Topic {
            name,
            parts: 64,
            id
        },
    ]?;
    match TopicList::new(topics) {
        Some(list) => Ok(Some(Config::new(
            list,
            Reset::Earliest,
            30000,
            5,
            host,
            9092,
            Versions::Exact,
        ))),
        None => Ok(None),
    }
}

/// What a step does behind its acknowledgements.
fn purpose_word(purpose: Purpose) -> &'static str {
    match purpose {
        Purpose::Nothing => "visits",
        Purpose::Release => "releases",
        Purpose::Fetch => "fetches",
    }
}

/// Adds a step: the member, what it does, the partition, and how many batches it acknowledges.
fn push_step(alloc: Global, text: &mut String, step: &PlanStep) -> io::Result<()> {
    let (member, does, shard) = (step.member.as_str(), purpose_word(step.purpose), step.shard);
    let count = step.acks.as_slice().len();
    let step = if count == 0 {
        format!(in alloc; ", {member} {does} {shard}")?
    } else {
        format!(in alloc; ", {member} {does} {shard} with {count}")?
    };
    Ok(text.push_str(step.as_str())?)
}

/// The number of steps, and each of them.
fn steps_text(alloc: Global, steps: &VisitPlan) -> io::Result<String> {
    let count = steps.len();
    let mut text = format!(in alloc; "{count} steps")?;
    for step in steps.iter() {
        push_step(alloc, &mut text, step)?;
    }
    Ok(text)
}

/// The steps that a request begins, or its error code.
fn begun_text(alloc: Global, begun: Result<VisitPlan, SessionFault>) -> io::Result<String> {
    match begun {
        Ok(steps) => steps_text(alloc, &steps),
        Err(fault) => match fault.code() {
            Some(code) => {
                let number = code.0;
                Ok(format!(in alloc; "refused {number}")?)
            }
            None => word(alloc, "no memory"),
        },
    }
}

/// What bytes begin as a ShareFetch.
fn fetch_told(
    alloc: Global,
    bytes: &[u8],
    conf: &Config,
    sessions: &mut Sessions,
) -> io::Result<String> {
    match read_share_fetch_request(alloc, bytes) {
        Ok(request) => begun_text(alloc, sessions.begin_fetch(&request, conf)),
        Err(_) => word(alloc, "no request"),
    }
}

/// What bytes begin as a ShareAcknowledge.
fn ack_told(
    alloc: Global,
    bytes: &[u8],
    conf: &Config,
    sessions: &mut Sessions,
) -> io::Result<String> {
    match read_share_ack_request(alloc, bytes) {
        Ok(request) => begun_text(alloc, sessions.begin_ack(&request, conf)),
        Err(_) => word(alloc, "no request"),
    }
}

/// What a close of all sessions gives.
fn close_told(alloc: Global, sessions: &mut Sessions) -> io::Result<String> {
    match sessions.close_all() {
        Ok(steps) => steps_text(alloc, &steps),
        Err(_) => word(alloc, "no memory"),
    }
}

/// What bytes begin, or what a close gives.
pub fn session_told(
    alloc: Global,
    kind: &str,
    bytes: &[u8],
    sessions: &mut Sessions,
) -> io::Result<String> {
    let Some(conf) = hosted(alloc)? else {
        return word(alloc, "no configuration");
    };
    match kind {
        "begins-fetch" => fetch_told(alloc, bytes, &conf, sessions),
        "begins-ack" => ack_told(alloc, bytes, &conf, sessions),
        _ => close_told(alloc, sessions),
    }
}
