// ShareFetch.
ghost use Rattle.std.specs.Prelude.{◌≡◌, ◌++◌, ◌-◌, length, map, pos, Some, [], IfOk, OnOk, OnErr};
ghost use Rattle.share_calls.specs.Fetch.{at_least_0, offsets, granted, waits_for, hand_after, then_of, told};
ghost use Rattle.call_fold.specs.Going.{stage_of};
ghost use Rattle.share_calls.specs.Fetch.{fetch_acts, fetch_reply, fetch_body, fetch_hand, fetch_begins, known, unhosted};
ghost use Rattle.share_calls.specs.Visits.{told_rows, untold};
ghost use Rattle.share_calls.specs.Wishes.{wish_of};
ghost use Rattle.std.specs.Option.{option_copied};
ghost use Rattle.share_calls.specs.Changes.{Fits};

use crate::fetch_rows::{FetchRow, fetch_row, push_all_unhosted};
use crate::fetched_row::FetchedRow;
use crate::groups::topics_of;
use crate::kept_step::KeptStep;
use crate::partition::partition_of;
use crate::visiting::{Visiting, push_untold, visit_of};
use crate::wish::{WaitWish, wish_of};
use call_fold::{Asking, Call, Entry, Part, PartAnswer, Stage, go_on};
use flex_fields::{Bytes, Items, Out, Text, put_fields};
use msgs_share::{NodeEndpoint, ShareFetchRequest, ShareTopic};
use share_model::{Code, Grant, NoMemory, Then, VisitAnswer};
use share_session::{Planned, Purpose, SessionChange, Sessions, VisitPlan};
use std::alloc::Global;
use std::collections::VecDeque;
use topic_conf::Config;

/// What a ShareFetch is at.
pub type FetchStage = Stage<Asking<FetchHand, Visiting, Option<FetchRow>>>;

const MOST_BYTES: u32 = 16_777_216;

/// What a ShareFetch keeps from visit to visit: the lock duration in milliseconds, how many records and bytes of
/// batches are left to its reply, whether no batch is in it yet, and what it waits for, until the first answer.
#[derive(Drop)]
pub struct FetchHand {
    lock_ms: i32,
    records: u32,
    bytes: u32,
    first: bool,
    wish: Option<WaitWish>,
}

// How many are left of so many records, once the offsets of a grant are taken.
fn less_grant(records: u32, grant: &Grant) -> u32
    ensures { result ≡ records - offsets grant.now }
{
    if grant.first > grant.last {
        return records;
    }
    let more = grant.last - grant.first;
    if more >= u64::from(records) {
        0
    } else {
        records - more as u32 - 1
    }
}

// How many are left once those of all grants are.
fn left_after(records: u32, grants: &[Grant]) -> u32
    ensures { result ≡ records - granted grants.now }
{
    let mut left = records;
    for grant in grants {
        left = less_grant(left, grant);
    }
    left
}

// How many are left of so many bytes, once these are in the reply.
fn bytes_after(bytes: u32, batches: &[u8]) -> u32
    ensures { result ≡ bytes - length batches.now }
{
    if batches.len() >= bytes as usize {
        0
    } else {
        bytes - batches.len() as u32
    }
}

impl FetchHand {
    // What follows the acknowledgements of a visit.
    fn then_of(&self, purpose: Purpose) -> Then
        ensures { result ≡ then_of self.now purpose }
    {
        match purpose {
            Purpose::Nothing => Then::Nothing,
            Purpose::Release => Then::Release,
            Purpose::Fetch => Then::Fetch {
                records: self.records,
                bytes: self.bytes,
                first: self.first,
            },
        }
    }

    /// What it waits for before its first visit, if it waits.
    pub fn wish(&self) -> Option<&WaitWish>
        ensures { option_copied result ≡ waits_for self.now }
    {
        self.wish.as_ref()
    }

    // What an answer leaves to the visits behind it.
    fn count(&mut self, answer: &VisitAnswer)
        ensures { self.new ≡ hand_after self.old answer.now }
    {
        self.records = left_after(self.records, answer.grants.as_slice());
        self.bytes = bytes_after(self.bytes, answer.batches.as_slice());
        self.first = self.first && answer.batches.as_slice().is_empty();
        self.wish = None;
    }
}

impl Call for FetchHand {
    type Question = Visiting;

    type Row = Option<FetchRow>;

    ghost acts = { fetch_acts };

    fn part(&self, alloc: Global, question: &Visiting) -> Result<Part, NoMemory> {
        let step = question.step.step();
        Ok(Part::Visit {
            shard: step.shard,
            visit: visit_of(alloc, step, self.then_of(step.purpose))?,
        })
    }

    fn row(
        &mut self,
        alloc: Global,
        question: Visiting,
        answer: PartAnswer,
    ) -> Result<Option<FetchRow>, NoMemory> {
        let Visiting { step, told } = question;
        match answer {
            PartAnswer::Visit(answer) => {
                self.count(&answer);
                match told {
                    Some(id) => Ok(Some(fetch_row(alloc, step.step().purpose, id, answer)?)),
                    None => Ok(None),
                }
            }
            PartAnswer::Foreign(_)
            | PartAnswer::Produce(_)
            | PartAnswer::Delete(_)
            | PartAnswer::Look(_)
            | PartAnswer::Heartbeat(_) => unreachable!(),
        }
    }

    fn body(
        self,
        alloc: Global,
        rows: VecDeque<Option<FetchRow>>,
    ) -> Result<Option<Bytes>, NoMemory>
        ensures { IfOk result (λ body. body ≡ Some (fetch_body self.lock_ms (pos 0) (told_rows rows.items))) }
    {
        let responses = topics_of(alloc, rows)?;
        let body = reply_with(alloc, self.lock_ms, Code::NONE, responses)?;
        Ok(Some(body))
    }
}

// The body of a reply.
fn reply_with(
    alloc: Global,
    lock_ms: i32,
    code: Code,
    responses: Items<ShareTopic<FetchedRow>>,
) -> Result<Bytes, NoMemory>
    ensures { IfOk result (λ body. body ≡ fetch_reply lock_ms code.0 responses) }
{
    let mut out = Out::new(alloc);
    let throttle_time_ms: i32 = 0;
    let error_message: Option<Text> = None;
    let node_endpoints: Items<NodeEndpoint> = Items::new(Vec::new(alloc));
    let told = (&lock_ms, (&responses, &node_endpoints));
    put_fields(
        &mut out,
        (&throttle_time_ms, (&code.0, (&error_message, told))),
    )?;
    Ok(out.into_bytes())
}

// The body of the reply to a request that is refused as a whole: it tells no partition.
fn refused_fetch(alloc: Global, conf: &Config, code: Code) -> Result<Bytes, NoMemory>
    ensures { IfOk result (λ body. body ≡ fetch_body (pos conf.now.lock_ms) code.0 []) }
{
    reply_with(
        alloc,
        conf.lock_ms() as i32,
        code,
        Items::new(Vec::new(alloc)),
    )
}

// Steps are put behind what is left; the reply tells each by its partition.
fn push_told(
    alloc: Global,
    conf: &Config,
    steps: VisitPlan,
    left: &mut VecDeque<Entry<Visiting, Option<FetchRow>>>,
) -> Result<(), NoMemory>
    ensures { OnOk result (left.new.items ≡ left.old.items ++ map (told conf.now.topics) steps.items) }
{
    for step in steps {
        let told = partition_of(conf.topics(), step.shard);
        let step = KeptStep::new(alloc, step)?;
        left.push_back(Entry::Ask(Visiting { step, told }))?;
    }
    Ok(())
}

// A limit below 0 counts as 0.
fn at_least_0(limit: i32) -> u32
    ensures { result ≡ at_least_0 limit }
{
    if limit < 0 { 0 } else { limit as u32 }
}

// A fetch that isn't refused begins, with the three lists of its plan.
fn fetch_stage(
    alloc: Global,
    conf: &Config,
    request: &ShareFetchRequest,
    released: VisitPlan,
    steps: VisitPlan,
    closed: VisitPlan,
) -> Result<FetchStage, NoMemory>
    ensures { IfOk result (λ stage. stage ≡ stage_of fetch_acts
        (fetch_hand conf.now request.now (wish_of request.now steps.items))
        (map untold released.items ++ (map (told conf.now.topics) steps.items
        ++ (map untold closed.items ++ map known (unhosted conf.now.topics request.now)))) []) }
{
    let wish = wish_of(alloc, request, &steps)?;
    let mut left = VecDeque::new(alloc);
    push_untold(alloc, released, &mut left)?;
    push_told(alloc, conf, steps, &mut left)?;
    push_untold(alloc, closed, &mut left)?;
    push_all_unhosted(alloc, conf, request.topics.as_slice(), &mut left)?;
    let hand = FetchHand {
        lock_ms: conf.lock_ms() as i32,
        records: at_least_0(request.max_records),
        bytes: at_least_0(request.max_bytes).min(MOST_BYTES),
        first: true,
        wish,
    };
    go_on(alloc, hand, left, VecDeque::new(alloc))
}

/// A ShareFetch begins: with its first visit, or its reply. Behind it stands what it does to the session of its
/// member, `None` where it is refused; the connection has room for that. The sessions aren't changed yet.
pub fn fetch_call(
    alloc: Global,
    conf: &Config,
    sessions: &Sessions,
    request: &ShareFetchRequest,
) -> Result<(FetchStage, Option<SessionChange>), NoMemory>
    ensures stage { IfOk result (λ r. r.0 ≡ (fetch_begins conf.now sessions.now request.now).stage) }
    ensures change { IfOk result (λ r. r.1 ≡ (fetch_begins conf.now sessions.now request.now).change) }
    ensures fits { IfOk result (λ r. Fits r.1 sessions.now) }
{
    match sessions.plan_fetch(request, conf) {
        Ok(plan) => {
            let Planned {
                released,
                told,
                closed,
                change,
            } = plan;
            let stage = fetch_stage(alloc, conf, request, released, told, closed)?;
            Ok((stage, Some(change)))
        }
        Err(fault) => {
            let Some(code) = fault.code() else {
                return Err(NoMemory);
            };
            let body = refused_fetch(alloc, conf, code)?;
            Ok((Stage::Says(Some(body)), None))
        }
    }
}
