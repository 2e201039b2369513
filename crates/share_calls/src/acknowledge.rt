// ShareAcknowledge.
ghost use Rattle.std.specs.Prelude.{◌≡◌, ◌++◌, [], map, pos, Some, IfOk, OnOk, OnErr};
ghost use Rattle.call_fold.specs.Going.{stage_of};
ghost use Rattle.share_session.specs.Requests.{entries};
ghost use Rattle.share_calls.specs.Visits.{told_rows, untold};
ghost use Rattle.share_calls.specs.Changes.{Fits};
ghost use Rattle.share_calls.specs.Acknowledge.{ack_then, ack_acts, ack_body, ack_begins, ack_hand, placed, rows_by_topic};

use crate::ack_entries::place_all;
use crate::ack_rows::{TopicShape, acknowledged, group_rows, shapes_of};
use crate::codes::ack_code;
use crate::visiting::{Visiting, push_untold, told_rows, visit_of};
use call_fold::{Asking, Call, Part, PartAnswer, Stage, go_on};
use flex_fields::{Bytes, Items};
use msgs_share::{
    AcknowledgedPartition, ShareAckReply, ShareAckRequest, ShareTopic, write_share_ack_reply,
};
use share_model::{Code, NoMemory, Then};
use share_session::{Planned, Purpose, SessionChange, Sessions, VisitPlan};
use std::alloc::Global;
use std::collections::VecDeque;
use topic_conf::Config;

/// What a ShareAcknowledge is at.
pub type AckStage = Stage<Asking<AckHand, Visiting, Option<AcknowledgedPartition>>>;

/// What a ShareAcknowledge keeps from visit to visit: the form of its request.
#[derive(Drop)]
pub struct AckHand {
    shape: Items<TopicShape>,
}

// What follows the acknowledgements of a visit.
fn ack_then(purpose: Purpose) -> Then
    ensures { result ≡ ack_then purpose }
{
    match purpose {
        Purpose::Release => Then::Release,
        Purpose::Nothing | Purpose::Fetch => Then::Nothing,
    }
}

impl Call for AckHand {
    type Question = Visiting;

    type Row = Option<AcknowledgedPartition>;

    ghost acts = { ack_acts };

    fn part(&self, alloc: Global, question: &Visiting) -> Result<Part, NoMemory> {
        let step = question.step.step();
        Ok(Part::Visit {
            shard: step.shard,
            visit: visit_of(alloc, step, ack_then(step.purpose))?,
        })
    }

    fn row(
        &mut self,
        _: Global,
        question: Visiting,
        answer: PartAnswer,
    ) -> Result<Option<AcknowledgedPartition>, NoMemory> {
        let Visiting { told, .. } = question;
        match answer {
            PartAnswer::Visit(answer) => match told {
                Some(id) => Ok(Some(acknowledged(id.index, ack_code(answer.ack)))),
                None => Ok(None),
            },
            PartAnswer::Foreign(_)
            | PartAnswer::Produce(_)
            | PartAnswer::Delete(_)
            | PartAnswer::Look(_)
            | PartAnswer::Heartbeat(_) => unreachable!(),
        }
    }

    fn body(
        self,
        alloc: Global,
        rows: VecDeque<Option<AcknowledgedPartition>>,
    ) -> Result<Option<Bytes>, NoMemory>
        ensures { IfOk result (λ body. body ≡ Some (ack_body (pos 0) (rows_by_topic self.shape (told_rows rows.items)))) }
    {
        let told = told_rows(alloc, rows)?;
        let responses = group_rows(alloc, self.shape, told)?;
        let body = reply_with(alloc, Code::NONE, responses)?;
        Ok(Some(body))
    }
}

// The body of a reply.
fn reply_with(
    alloc: Global,
    code: Code,
    responses: Items<ShareTopic<AcknowledgedPartition>>,
) -> Result<Bytes, NoMemory>
    ensures { IfOk result (λ body. body ≡ ack_body code.0 responses) }
{
    write_share_ack_reply(
        alloc,
        &ShareAckReply {
            throttle_time_ms: 0,
            error_code: code.0,
            error_message: None,
            responses,
            node_endpoints: Items::new(Vec::new(alloc)),
        },
    )
}

// An acknowledgement that isn't refused begins, with the told steps and the others of its plan.
fn ack_stage(
    alloc: Global,
    conf: &Config,
    request: &ShareAckRequest,
    told: VisitPlan,
    closed: VisitPlan,
) -> Result<AckStage, NoMemory>
    ensures { IfOk result (λ stage. stage ≡ stage_of ack_acts (ack_hand request.now)
        (placed conf.now.topics told.items (entries request.now.topics) ++ map untold closed.items) []) }
{
    let mut left = VecDeque::new(alloc);
    place_all(
        alloc,
        conf,
        request.topics.as_slice(),
        VecDeque::from(told),
        &mut left,
    )?;
    push_untold(alloc, closed, &mut left)?;
    let hand = AckHand {
        shape: shapes_of(alloc, &request.topics)?,
    };
    go_on(alloc, hand, left, VecDeque::new(alloc))
}

/// A ShareAcknowledge begins: with its first visit, or its reply. Behind it stands what it does to the session of its
/// member, `None` where it is refused; the connection has room for that. The sessions aren't changed yet.
pub fn ack_call(
    alloc: Global,
    conf: &Config,
    sessions: &Sessions,
    request: &ShareAckRequest,
) -> Result<(AckStage, Option<SessionChange>), NoMemory>
    ensures stage { IfOk result (λ r. r.0 ≡ (ack_begins conf.now.topics sessions.now request.now).stage) }
    ensures change { IfOk result (λ r. r.1 ≡ (ack_begins conf.now.topics sessions.now request.now).change) }
    ensures fits { IfOk result (λ r. Fits r.1 sessions.now) }
{
    match sessions.plan_ack(request, conf) {
        Ok(plan) => {
            let Planned {
                told,
                closed,
                change,
                ..
            } = plan;
            let stage = ack_stage(alloc, conf, request, told, closed)?;
            Ok((stage, Some(change)))
        }
        Err(fault) => {
            let Some(code) = fault.code() else {
                return Err(NoMemory);
            };
            let body = reply_with(alloc, code, Items::new(Vec::new(alloc)))?;
            Ok((Stage::Says(Some(body)), None))
        }
    }
}
