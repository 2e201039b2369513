ghost use Rattle.std.specs.Prelude.{◌≡◌, All, IfOk, pos};
ghost use Rattle.call_fold.specs.Parts.{IsTellable, IsTellableLook, IsForeignAnswer, IsLookAnswer, foreign_answer, look_answer};
ghost use Rattle.state_calls.specs.States.{StateMeans, stored_answer};
ghost use Rattle.state_calls.specs.StateCalls.{state_acts, state_body, state_stage};

use crate::hosting::Hosting;
use crate::place::Shape;
use crate::plan::{Plan, Question, Wished, code_alone, plan_topics};
use crate::reply::state_body;
use call_fold::{Asking, Call, Looked, Part, PartAnswer, Stage, go_on, known_rows};
use flex_fields::{Bytes, Items, Wire};
use msgs_state::StateRequest;
use share_model::{Code, ForeignAnswer, ForeignOp, Key, Name, NoMemory};
use std::alloc::Global;
use std::collections::VecDeque;
use topic_conf::Config;

/// A call on the states of partitions. It has an entry for each partition of its request, and a reply of the same form.
pub trait StateCall: Sized + Drop {
    /// What its request says of one partition.
    type Partition: Wire;
    /// What is asked of the partition's state.
    type Wish: Drop;
    /// What its reply says of one partition.
    type Row: Wire;

    /// Its wishes, operations and rows.
    ghost means: { StateMeans Self.Partition Self.Wish Self.Row };

    /// The partition's number, and what is asked of its state.
    fn wish(partition: Self::Partition) -> (i32, Self::Wish)
        ensures { result ≡ means.wish partition };

    /// What is done at a partition of a hosted topic.
    fn hosted() -> Hosting
        ensures { result ≡ means.hosted };

    /// The operation on the state of this key.
    fn op(alloc: Global, key: Key, wish: &Self::Wish) -> Result<ForeignOp, NoMemory>
        ensures { IfOk result (λ op. op ≡ means.op key wish.now) };

    /// What the reply says of the partition with this answer.
    fn row(alloc: Global, partition: i32, answer: ForeignAnswer) -> Result<Self::Row, NoMemory>
        requires { All IsTellable answer.runs }
        ensures { IfOk result (λ row. row ≡ means.row partition answer) };
}

/// What a state call keeps from entry to entry: its group, and the form of its request.
#[derive(Drop)]
pub struct StateHand<S> {
    call: S,
    group: Name,
    shape: Items<Shape>,
}

// What is stored, as a Read tells it: 3 where the group has no table.
fn stored_answer(alloc: Global, looked: Looked) -> ForeignAnswer
    requires { IsTellableLook looked }
    ensures answer { result ≡ stored_answer looked }
    ensures tellable { All IsTellable result.runs }
{
    match looked {
        Looked::Absent => code_alone(alloc, Code::UNKNOWN_TOPIC_OR_PARTITION),
        Looked::There {
            state_epoch,
            start,
            runs,
            ..
        } => ForeignAnswer {
            code: Code::NONE,
            state_epoch,
            start,
            runs,
        },
    }
}

// The row of a partition that isn't hosted.
fn foreign_row<S: StateCall>(
    alloc: Global,
    wished: Wished<S::Wish>,
    answer: PartAnswer,
) -> Result<S::Row, NoMemory>
    requires { IsForeignAnswer answer }
    ensures { IfOk result (λ row. row ≡ S.means.row (pos wished.place.part) (foreign_answer answer)) }
{
    match answer {
        PartAnswer::Foreign(answer) => S::row(alloc, wished.place.partition(), answer),
        PartAnswer::Produce(_)
        | PartAnswer::Delete(_)
        | PartAnswer::Visit(_)
        | PartAnswer::Look(_)
        | PartAnswer::Heartbeat(_) => unreachable!(),
    }
}

// The row of a hosted partition.
fn stored_row<S: StateCall>(
    alloc: Global,
    partition: i32,
    answer: PartAnswer,
) -> Result<S::Row, NoMemory>
    requires { IsLookAnswer answer }
    ensures { IfOk result (λ row. row ≡ S.means.row partition (stored_answer (look_answer answer))) }
{
    match answer {
        PartAnswer::Look(looked) => S::row(alloc, partition, stored_answer(alloc, looked)),
        PartAnswer::Foreign(_)
        | PartAnswer::Produce(_)
        | PartAnswer::Delete(_)
        | PartAnswer::Visit(_)
        | PartAnswer::Heartbeat(_) => unreachable!(),
    }
}

impl<S: StateCall> Call for StateHand<S> {
    type Question = Question<S::Wish>;

    type Row = S::Row;

    ghost acts = { state_acts S.means S.Row.format };

    fn part(&self, alloc: Global, question: &Question<S::Wish>) -> Result<Part, NoMemory> {
        match question {
            Question::Foreign(wished) => {
                let op = S::op(alloc, wished.place.key(&self.group), &wished.wish)?;
                Ok(Part::Foreign(op))
            }
            Question::Hosted { shard, .. } => Ok(Part::Look {
                shard: *shard,
                group: self.group,
            }),
        }
    }

    fn row(
        &mut self,
        alloc: Global,
        question: Question<S::Wish>,
        answer: PartAnswer,
    ) -> Result<S::Row, NoMemory> {
        match question {
            Question::Foreign(wished) => foreign_row::<S>(alloc, wished, answer),
            Question::Hosted { partition, .. } => stored_row::<S>(alloc, partition, answer),
        }
    }

    fn body(self, alloc: Global, rows: VecDeque<S::Row>) -> Result<Option<Bytes>, NoMemory>
        ensures { IfOk result (λ body. body ≡ state_body S.Row.format self.shape rows.items) }
    {
        state_body(alloc, self.shape, rows)
    }
}

/// A state call begins. Where its group is none, each entry is refused.
pub fn state_call<S: StateCall>(
    alloc: Global,
    conf: &Config,
    call: S,
    request: StateRequest<S::Partition>,
) -> Result<Stage<Asking<StateHand<S>, Question<S::Wish>, S::Row>>, NoMemory>
    ensures { IfOk result (λ stage. stage ≡ state_stage S.means S.Row.format conf.now.topics call request) }
{
    let StateRequest { group_id, topics } = request;
    match Name::new(group_id.as_str()) {
        Some(group) => {
            let Plan { shape, left } = plan_topics::<S>(alloc, conf, true, topics)?;
            let hand = StateHand { call, group, shape };
            go_on(alloc, hand, left, VecDeque::new(alloc))
        }
        None => {
            let Plan { shape, left } = plan_topics::<S>(alloc, conf, false, topics)?;
            let rows = known_rows(alloc, left)?;
            let body = state_body(alloc, shape, rows)?;
            Ok(Stage::Says(body))
        }
    }
}
