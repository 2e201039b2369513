// ShareGroupHeartbeat.
ghost use Rattle.std.specs.Prelude.{◌≡◌, IfOk};
ghost use Rattle.share_calls.specs.Heartbeats.{heartbeat_acts, heartbeat_body, heartbeat_stage};

use call_fold::{Asking, Call, Entry, Part, PartAnswer, Stage, go_on};
use flex_fields::{Bytes, Items, Text};
use msgs_group::{HeartbeatReply, HeartbeatRequest, write_heartbeat_reply};
use share_model::NoMemory;
use std::alloc::Global;
use std::collections::VecDeque;

/// What a ShareGroupHeartbeat is at.
pub type HeartbeatStage = Stage<Asking<HeartbeatHand, HeartbeatRequest, HeartbeatReply>>;

/// What a ShareGroupHeartbeat keeps beside its question: nothing.
#[derive(Clone, Copy)]
pub struct HeartbeatHand;

fn copied_text(alloc: Global, text: &Option<Text>) -> Result<Option<Text>, NoMemory>
    ensures { IfOk result (λ copy. copy ≡ text.now) }
{
    match text {
        None => Ok(None),
        Some(text) => {
            let copy = Text::new(alloc, text.as_str())?;
            Ok(Some(copy))
        }
    }
}

fn copied_list(alloc: Global, texts: &Items<Text>) -> Result<Items<Text>, NoMemory>
    ensures { IfOk result (λ copies. copies ≡ texts.now) }
{
    let texts = texts.as_slice();
    let mut copies = Vec::with_capacity(alloc, texts.len())?;
    for text in texts {
        copies.push(Text::new(alloc, text.as_str())?)?;
    }
    Ok(Items::new(copies))
}

fn copied_names(alloc: Global, names: &Option<Items<Text>>) -> Result<Option<Items<Text>>, NoMemory>
    ensures { IfOk result (λ copies. copies ≡ names.now) }
{
    match names {
        None => Ok(None),
        Some(names) => {
            let copies = copied_list(alloc, names)?;
            Ok(Some(copies))
        }
    }
}

fn copied(alloc: Global, request: &HeartbeatRequest) -> Result<HeartbeatRequest, NoMemory>
    ensures { IfOk result (λ copy. copy ≡ request.now) }
{
    Ok(HeartbeatRequest {
        group_id: Text::new(alloc, request.group_id.as_str())?,
        member_id: Text::new(alloc, request.member_id.as_str())?,
        member_epoch: request.member_epoch,
        rack_id: copied_text(alloc, &request.rack_id)?,
        subscribed_topic_names: copied_names(alloc, &request.subscribed_topic_names)?,
    })
}

impl Call for HeartbeatHand {
    type Question = HeartbeatRequest;

    type Row = HeartbeatReply;

    ghost acts = { heartbeat_acts };

    fn part(&self, alloc: Global, question: &HeartbeatRequest) -> Result<Part, NoMemory> {
        let request = copied(alloc, question)?;
        Ok(Part::Heartbeat(request))
    }

    fn row(
        &mut self,
        _: Global,
        _: HeartbeatRequest,
        answer: PartAnswer,
    ) -> Result<HeartbeatReply, NoMemory> {
        match answer {
            PartAnswer::Heartbeat(reply) => Ok(reply),
            PartAnswer::Foreign(_)
            | PartAnswer::Produce(_)
            | PartAnswer::Delete(_)
            | PartAnswer::Visit(_)
            | PartAnswer::Look(_) => unreachable!(),
        }
    }

    fn body(self, alloc: Global, rows: VecDeque<HeartbeatReply>) -> Result<Option<Bytes>, NoMemory>
        ensures { IfOk result (λ body. body ≡ heartbeat_body rows.items) }
    {
        let mut rows = rows;
        let Some(reply) = rows.pop_front() else {
            return Ok(None);
        };
        let body = write_heartbeat_reply(alloc, &reply)?;
        Ok(Some(body))
    }
}

/// A ShareGroupHeartbeat begins: the members of the groups are asked.
pub fn heartbeat_call(alloc: Global, request: HeartbeatRequest) -> Result<HeartbeatStage, NoMemory>
    ensures { IfOk result (λ stage. stage ≡ heartbeat_stage request) }
{
    let mut left = VecDeque::new(alloc);
    left.push_back(Entry::Ask(request))?;
    go_on(alloc, HeartbeatHand, left, VecDeque::new(alloc))
}
