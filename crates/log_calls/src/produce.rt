// Produce.
ghost use Rattle.std.specs.Prelude.{◌≡◌, IfOk};
ghost use Rattle.log_calls.specs.Produce.{produce_acts, produce_stage, reply_of, rows_by_topic};

use crate::codes::{request_refusal, wants_reply};
use crate::plan::{Offer, Plan, plan_topics};
use crate::reply::{log_row, produce_body};
use crate::shape::NamedShape;
use call_fold::{Asking, Call, Part, PartAnswer, Stage, go_on};
use flex_fields::{Bytes, Items, Version};
use msgs_base::{ProducePartitionReply, ProduceRequest};
use share_model::{Blob, NoMemory};
use std::alloc::Global;
use std::collections::VecDeque;
use topic_conf::Config;

/// What a Produce keeps from entry to entry: its version, whether a reply is wanted, and the form of its request.
#[derive(Drop)]
pub struct ProduceHand {
    version: Version,
    replies: bool,
    shape: Items<NamedShape>,
}

impl Call for ProduceHand {
    type Question = Offer;

    type Row = ProducePartitionReply;

    ghost acts = { produce_acts };

    fn part(&self, alloc: Global, question: &Offer) -> Result<Part, NoMemory> {
        let batch = question.batch.as_slice().to_vec(alloc)?;
        Ok(Part::Produce {
            shard: question.shard,
            batch: Blob::new(batch),
        })
    }

    fn row(
        &mut self,
        alloc: Global,
        question: Offer,
        answer: PartAnswer,
    ) -> Result<ProducePartitionReply, NoMemory> {
        match answer {
            PartAnswer::Produce(produced) => Ok(log_row(alloc, question.index, produced)),
            PartAnswer::Foreign(_)
            | PartAnswer::Delete(_)
            | PartAnswer::Visit(_)
            | PartAnswer::Look(_)
            | PartAnswer::Heartbeat(_) => unreachable!(),
        }
    }

    fn body(
        self,
        alloc: Global,
        rows: VecDeque<ProducePartitionReply>,
    ) -> Result<Option<Bytes>, NoMemory>
        ensures { IfOk result (λ body. body ≡ reply_of self.version self.replies (rows_by_topic self.shape rows.items)) }
    {
        produce_body(alloc, self.version, self.replies, self.shape, rows)
    }
}

/// A Produce of this version begins.
pub fn produce_call(
    alloc: Global,
    version: Version,
    conf: &Config,
    request: ProduceRequest,
) -> Result<Stage<Asking<ProduceHand, Offer, ProducePartitionReply>>, NoMemory>
    ensures { IfOk result (λ stage. stage ≡ produce_stage version conf.now.topics request) }
{
    let ProduceRequest {
        transactional_id,
        acks,
        topic_data,
        ..
    } = request;
    let refusal = request_refusal(acks, &transactional_id);
    let Plan { shape, left } = plan_topics(alloc, conf, refusal, topic_data)?;
    let hand = ProduceHand {
        version,
        replies: wants_reply(acks),
        shape,
    };
    go_on(alloc, hand, left, VecDeque::new(alloc))
}
