ghost use Rattle.std.specs.Prelude.{◌≡◌, IfOk, OnOk};
ghost use Rattle.call_fold.specs.Parts.{IsAnswerTo};
ghost use Rattle.call_fold.specs.Calls.{Acts, question_part};
ghost use Rattle.call_fold.specs.Going.{stage_of, stage_after, known_rows};

use crate::part::{Part, PartAnswer};
use flex_fields::Bytes;
use share_model::NoMemory;
use std::alloc::Global;
use std::collections::VecDeque;
use std::marker::Model;

/// An entry of a request: its row of the reply is known at once, or a question has to be asked for it.
#[derive(Drop)]
pub enum Entry<Q, R> {
    Known(R),
    Ask(Q),
}

/// A call that asks parts. A value is what the call keeps from entry to entry.
pub trait Call: Sized + Drop {
    /// What is kept of an entry until its part is answered.
    type Question: Drop;
    /// What a reply tells of an entry.
    type Row: Drop;

    /// Its parts, rows and reply.
    ghost acts: { Acts Self Self.Question Self.Row };

    /// The part that answers the question.
    fn part(&self, alloc: Global, question: &Self::Question) -> Result<Part, NoMemory>
        ensures { IfOk result (λ part. part ≡ acts.part self.now question.now) };

    /// The row that the answer to the question makes. What the call keeps may change by it.
    fn row(
        &mut self,
        alloc: Global,
        question: Self::Question,
        answer: PartAnswer,
    ) -> Result<Self::Row, NoMemory>
        requires fits { IsAnswerTo (acts.part self.old question) answer }
        ensures row { IfOk result (λ row. row ≡ acts.row self.old question answer) }
        ensures next { OnOk result (self.new ≡ acts.next self.old question answer) };

    /// The body of the reply with these rows. `None` where the call has no reply.
    fn body(self, alloc: Global, rows: VecDeque<Self::Row>) -> Result<Option<Bytes>, NoMemory>
        ensures { IfOk result (λ body. body ≡ acts.body self rows.items) };
}

/// A request in hand: the question that is asked, the entries behind it, and the rows of those before it.
#[derive(Drop)]
pub struct Asking<C, Q, R> {
    call: C,
    question: Q,
    left: VecDeque<Entry<Q, R>>,
    rows: VecDeque<R>,
}

impl<C, Q, R> Model for Asking<C, Q, R> {
    ghost use Rattle.call_fold.specs.Calls.{AskingParts};

    ghost Value = { AskingParts C Q R };

    ghost view = { λ a. record { call = a.call; question = a.question; left = a.left.items; rows = a.rows.items } };
}

impl<C, Q, R> Asking<C, Q, R> {
    /// What the call keeps.
    pub fn call(&self) -> &C
        ensures { result.now ≡ self.now.call }
    {
        &self.call
    }
}

/// What a request is at: it asks a part, or has the body of its reply, `None` where it has no reply.
#[derive(Drop)]
pub enum Stage<A> {
    Asks(A),
    Says(Option<Bytes>),
}

/// Goes on to the next question, past the entries whose rows are known.
pub fn go_on<C: Call>(
    alloc: Global,
    call: C,
    mut left: VecDeque<Entry<C::Question, C::Row>>,
    mut rows: VecDeque<C::Row>,
) -> Result<Stage<Asking<C, C::Question, C::Row>>, NoMemory>
    ensures { IfOk result (λ stage. stage ≡ stage_of C.acts call left.items rows.items) }
{
    rows.reserve(left.len())?;
    while let Some(entry) = left.pop_front() {
        match entry {
            Entry::Known(row) => rows.push_back(row)?,
            Entry::Ask(question) => {
                return Ok(Stage::Asks(Asking {
                    call,
                    question,
                    left,
                    rows,
                }));
            }
        }
    }
    drop(left);
    let body = call.body(alloc, rows)?;
    Ok(Stage::Says(body))
}

/// The part that is asked.
pub fn part_of<C: Call>(
    alloc: Global,
    asking: &Asking<C, C::Question, C::Row>,
) -> Result<Part, NoMemory>
    ensures { IfOk result (λ part. part ≡ question_part C.acts asking.now) }
{
    asking.call.part(alloc, &asking.question)
}

/// The part that is asked has this answer.
pub fn take<C: Call>(
    alloc: Global,
    asking: Asking<C, C::Question, C::Row>,
    answer: PartAnswer,
) -> Result<Stage<Asking<C, C::Question, C::Row>>, NoMemory>
    requires fits { IsAnswerTo (question_part C.acts asking) answer }
    ensures { IfOk result (λ stage. stage ≡ stage_after C.acts asking answer) }
{
    let Asking {
        mut call,
        question,
        left,
        mut rows,
    } = asking;
    let row = call.row(alloc, question, answer)?;
    rows.push_back(row)?;
    go_on(alloc, call, left, rows)
}

/// The rows that are known.
pub fn known_rows<Q: Drop, R: Drop>(
    alloc: Global,
    mut entries: VecDeque<Entry<Q, R>>,
) -> Result<VecDeque<R>, NoMemory>
    ensures { IfOk result (λ rows. rows.items ≡ known_rows entries.items) }
{
    let mut rows = VecDeque::new(alloc);
    while let Some(entry) = entries.pop_front() {
        match entry {
            Entry::Known(row) => rows.push_back(row)?,
            Entry::Ask(_) => {}
        }
    }
    Ok(rows)
}
