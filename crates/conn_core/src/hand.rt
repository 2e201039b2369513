//! The calls that ask parts, each under its own name: what has to know all of them.
ghost use Rattle.std.specs.Prelude.{◌≡◌, IfOk};
ghost use Rattle.call_fold.specs.Parts.{IsAnswerTo};
ghost use Rattle.call_fold.specs.Calls.{question_part};
ghost use Rattle.call_fold.specs.Going.{stage_after};
ghost use Rattle.call_fold.specs.declared.call.Stage.{Stage};
ghost use Rattle.conn_core.specs.Hands.{hand_part, hand_stage, hand_stage_after};
ghost use Rattle.conn_core.specs.Wishes.{hand_wish};
ghost use Rattle.std.specs.Option.{option_copied};

use crate::kept::Kept;
use call_fold::{Asking, Call, Part, PartAnswer, Stage, part_of, take};
use log_calls::{DeleteHand, Offer, ProduceHand, Target};
use msgs_base::{DeleteRecordsPartitionResult, ProducePartitionReply};
use msgs_group::{HeartbeatReply, HeartbeatRequest};
use msgs_share::AcknowledgedPartition;
use msgs_state::{PartitionResult, ReadPartitionResult};
use share_calls::{AckHand, FetchHand, FetchRow, HeartbeatHand, Visiting, WaitWish};
use share_model::NoMemory;
use state_calls::{
    Beginning, Delete, Deleting, Initialize, Question, Read, Reading, StateHand, Write, Writing,
};
use std::alloc::Global;

/// A request in hand: a part of it is asked. It stands apart, so that what has it moves a pointer.
#[derive(Drop)]
pub enum Hand {
    Produce(Kept<Asking<ProduceHand, Offer, ProducePartitionReply>>),
    DeleteRecords(Kept<Asking<DeleteHand, Target, DeleteRecordsPartitionResult>>),
    Fetch(Kept<Asking<FetchHand, Visiting, Option<FetchRow>>>),
    Acknowledge(Kept<Asking<AckHand, Visiting, Option<AcknowledgedPartition>>>),
    Heartbeat(Kept<Asking<HeartbeatHand, HeartbeatRequest, HeartbeatReply>>),
    Initialize(Kept<Asking<StateHand<Initialize>, Question<Beginning>, PartitionResult>>),
    Read(Kept<Asking<StateHand<Read>, Question<Reading>, ReadPartitionResult>>),
    Write(Kept<Asking<StateHand<Write>, Question<Writing>, PartitionResult>>),
    Delete(Kept<Asking<StateHand<Delete>, Question<Deleting>, PartitionResult>>),
}

/// A call that asks parts and has a name in hand.
pub trait Named: Sized + Drop {
    ghost use Rattle.conn_core.specs.declared.hand.Hand.{Hand};

    /// It, under its name.
    ghost name: { Self → Hand };

    /// It, under its name.
    fn named(self, alloc: Global) -> Result<Hand, NoMemory>
        ensures { IfOk result (λ hand. hand ≡ name self) };
}

impl Named for Asking<ProduceHand, Offer, ProducePartitionReply> {
    ghost use Rattle.conn_core.specs.declared.hand.Hand.TheVariants.{Produce};

    ghost name = { λ asking. Produce asking };

    fn named(self, alloc: Global) -> Result<Hand, NoMemory> {
        let asking = Kept::new(alloc, self)?;
        Ok(Hand::Produce(asking))
    }
}

impl Named for Asking<DeleteHand, Target, DeleteRecordsPartitionResult> {
    ghost use Rattle.conn_core.specs.declared.hand.Hand.TheVariants.{DeleteRecords};

    ghost name = { λ asking. DeleteRecords asking };

    fn named(self, alloc: Global) -> Result<Hand, NoMemory> {
        let asking = Kept::new(alloc, self)?;
        Ok(Hand::DeleteRecords(asking))
    }
}

impl Named for Asking<FetchHand, Visiting, Option<FetchRow>> {
    ghost use Rattle.conn_core.specs.declared.hand.Hand.TheVariants.{Fetch};

    ghost name = { λ asking. Fetch asking };

    fn named(self, alloc: Global) -> Result<Hand, NoMemory> {
        let asking = Kept::new(alloc, self)?;
        Ok(Hand::Fetch(asking))
    }
}

impl Named for Asking<AckHand, Visiting, Option<AcknowledgedPartition>> {
    ghost use Rattle.conn_core.specs.declared.hand.Hand.TheVariants.{Acknowledge};

    ghost name = { λ asking. Acknowledge asking };

    fn named(self, alloc: Global) -> Result<Hand, NoMemory> {
        let asking = Kept::new(alloc, self)?;
        Ok(Hand::Acknowledge(asking))
    }
}

impl Named for Asking<HeartbeatHand, HeartbeatRequest, HeartbeatReply> {
    ghost use Rattle.conn_core.specs.declared.hand.Hand.TheVariants.{Heartbeat};

    ghost name = { λ asking. Heartbeat asking };

    fn named(self, alloc: Global) -> Result<Hand, NoMemory> {
        let asking = Kept::new(alloc, self)?;
        Ok(Hand::Heartbeat(asking))
    }
}

impl Named for Asking<StateHand<Initialize>, Question<Beginning>, PartitionResult> {
    ghost use Rattle.conn_core.specs.declared.hand.Hand.TheVariants.{Initialize};

    ghost name = { λ asking. Initialize asking };

    fn named(self, alloc: Global) -> Result<Hand, NoMemory> {
        let asking = Kept::new(alloc, self)?;
        Ok(Hand::Initialize(asking))
    }
}

impl Named for Asking<StateHand<Read>, Question<Reading>, ReadPartitionResult> {
    ghost use Rattle.conn_core.specs.declared.hand.Hand.TheVariants.{Read};

    ghost name = { λ asking. Read asking };

    fn named(self, alloc: Global) -> Result<Hand, NoMemory> {
        let asking = Kept::new(alloc, self)?;
        Ok(Hand::Read(asking))
    }
}

impl Named for Asking<StateHand<Write>, Question<Writing>, PartitionResult> {
    ghost use Rattle.conn_core.specs.declared.hand.Hand.TheVariants.{Write};

    ghost name = { λ asking. Write asking };

    fn named(self, alloc: Global) -> Result<Hand, NoMemory> {
        let asking = Kept::new(alloc, self)?;
        Ok(Hand::Write(asking))
    }
}

impl Named for Asking<StateHand<Delete>, Question<Deleting>, PartitionResult> {
    ghost use Rattle.conn_core.specs.declared.hand.Hand.TheVariants.{Delete};

    ghost name = { λ asking. Delete asking };

    fn named(self, alloc: Global) -> Result<Hand, NoMemory> {
        let asking = Kept::new(alloc, self)?;
        Ok(Hand::Delete(asking))
    }
}

/// A call's stage, under its name in hand.
pub fn under_name<A: Named>(alloc: Global, stage: Stage<A>) -> Result<Stage<Hand>, NoMemory>
    ensures { IfOk result (λ told. told ≡ hand_stage A.name stage) }
{
    match stage {
        Stage::Asks(asking) => {
            let hand = asking.named(alloc)?;
            Ok(Stage::Asks(hand))
        }
        Stage::Says(body) => Ok(Stage::Says(body)),
    }
}

// The part that is asked has this answer.
fn take_kept<C: Call>(
    alloc: Global,
    asking: Kept<Asking<C, C::Question, C::Row>>,
    answer: PartAnswer,
) -> Result<Stage<Asking<C, C::Question, C::Row>>, NoMemory>
    requires fits { IsAnswerTo (question_part C.acts asking) answer }
    ensures { IfOk result (λ stage. stage ≡ stage_after C.acts asking answer) }
{
    take(alloc, asking.into_inner(), answer)
}

// The stage to which an answer leads, under the call's name in hand.
fn next_under_name<A: Named>(
    alloc: Global,
    stage: Result<Stage<A>, NoMemory>,
) -> Result<Stage<Hand>, NoMemory>
    ensures { (next : Stage A) → IfOk stage (λ told. told ≡ next) → IfOk result (λ told. told ≡ hand_stage A.name next) }
{
    let stage = stage?;
    let told = under_name(alloc, stage)?;
    Ok(told)
}

impl Hand {
    /// For what it waits before its first part, if it waits.
    pub fn wish(&self) -> Option<&WaitWish>
        ensures { option_copied result ≡ hand_wish self.now }
    {
        match self {
            Hand::Fetch(asking) => asking.get().call().wish(),
            Hand::Produce(_)
            | Hand::DeleteRecords(_)
            | Hand::Acknowledge(_)
            | Hand::Heartbeat(_)
            | Hand::Initialize(_)
            | Hand::Read(_)
            | Hand::Write(_)
            | Hand::Delete(_) => None,
        }
    }

    /// The part that is asked.
    pub fn part(&self, alloc: Global) -> Result<Part, NoMemory>
        ensures { IfOk result (λ part. part ≡ hand_part self.now) }
    {
        match self {
            Hand::Produce(asking) => part_of(alloc, asking.get()),
            Hand::DeleteRecords(asking) => part_of(alloc, asking.get()),
            Hand::Fetch(asking) => part_of(alloc, asking.get()),
            Hand::Acknowledge(asking) => part_of(alloc, asking.get()),
            Hand::Heartbeat(asking) => part_of(alloc, asking.get()),
            Hand::Initialize(asking) => part_of(alloc, asking.get()),
            Hand::Read(asking) => part_of(alloc, asking.get()),
            Hand::Write(asking) => part_of(alloc, asking.get()),
            Hand::Delete(asking) => part_of(alloc, asking.get()),
        }
    }

    /// It has this answer.
    pub fn answer(self, alloc: Global, answer: PartAnswer) -> Result<Stage<Hand>, NoMemory>
        requires fits { IsAnswerTo (hand_part self) answer }
        ensures { IfOk result (λ stage. stage ≡ hand_stage_after self answer) }
    {
        match self {
            Hand::Produce(asking) => next_under_name(alloc, take_kept(alloc, asking, answer)),
            Hand::DeleteRecords(asking) => next_under_name(alloc, take_kept(alloc, asking, answer)),
            Hand::Fetch(asking) => next_under_name(alloc, take_kept(alloc, asking, answer)),
            Hand::Acknowledge(asking) => next_under_name(alloc, take_kept(alloc, asking, answer)),
            Hand::Heartbeat(asking) => next_under_name(alloc, take_kept(alloc, asking, answer)),
            Hand::Initialize(asking) => next_under_name(alloc, take_kept(alloc, asking, answer)),
            Hand::Read(asking) => next_under_name(alloc, take_kept(alloc, asking, answer)),
            Hand::Write(asking) => next_under_name(alloc, take_kept(alloc, asking, answer)),
            Hand::Delete(asking) => next_under_name(alloc, take_kept(alloc, asking, answer)),
        }
    }
}
