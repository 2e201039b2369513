ghost use Rattle.std.specs.Prelude.{◌≡◌, ◌≤◌, ◌++◌, [], filter, length, slice_get, None, IfOk, IfErr, OnOk, OnErr};
ghost use Rattle.share_session.specs.Refusals.{IsRefusedBy};
ghost use Rattle.share_session.specs.Plans.{plan_of, fetch_refusal, fetch_plan, begun_fetch, ack_refusal, ack_plan, begun_ack};
ghost use Rattle.share_session.specs.Plans.{session_releases, releases_of, others_of};
ghost use Rattle.share_session.specs.Undone.{has_partition, one_done};

use crate::change::{SessionChange, apply};
use crate::fault::SessionFault;
use crate::plan::{ack_by_epoch, fetch_by_epoch};
use crate::planned::Planned;
use crate::refusal::{admit, session_of};
use crate::session::Session;
use crate::step::{PlanStep, VisitPlan};
use crate::visits::{append, releases};
use crate::wanted::{forgotten_in, wanted_once};
use msgs_share::{ShareAckRequest, ShareFetchRequest};
use share_model::NoMemory;
use std::alloc::Global;
use std::marker::Model;
use topic_conf::Config;

/// The share sessions of one connection, at most 100. A contract sees them as a list, in the order in which they were
/// opened.
#[derive(Drop)]
pub struct Sessions {
    list: Vec<Session>,
}

impl Model for Sessions {
    ghost use Rattle.std.specs.Prelude.{◌≤◌, List, length};
    ghost use Rattle.share_session.specs.SessionParts.{SessionParts, most_sessions};

    ghost Value = { List SessionParts };

    ghost view = { λ s. s.list.items };

    ghost invariant = { λ s. length s.list.items ≤ most_sessions };
}

// The releases of a session are put behind the steps.
fn release_session(session: &Session, steps: &mut VisitPlan) -> Result<(), NoMemory>
    ensures { OnOk result (steps.new.items ≡ steps.old.items ++ session_releases session.now) }
{
    let caller = session.caller();
    let more = releases(*steps.allocator(), &caller, session.partitions())?;
    append(steps, more)
}

// The releases of all sessions.
fn releases_of(alloc: Global, sessions: &[Session]) -> Result<VisitPlan, NoMemory>
    ensures { IfOk result (λ steps. steps.items ≡ releases_of sessions.now) }
{
    let mut steps = Vec::new(alloc);
    for session in sessions {
        release_session(session, &mut steps)?;
    }
    Ok(steps)
}

// The first release of these sessions, where one has a partition.
fn first_release(alloc: Global, sessions: &[Session]) -> Option<PlanStep>
    ensures { result ≡ slice_get (releases_of sessions.now) 0 }
{
    for session in sessions {
        if let Some(shard) = session.partitions().first() {
            return Some(session.caller().release(alloc, *shard));
        }
    }
    None
}

// Sessions without a partition go.
fn drop_done(sessions: &mut Vec<Session>)
    ensures { sessions.new.items ≡ filter has_partition sessions.old.items }
{
    sessions.retain(Session::has_partition);
}

// The first release is done.
fn release_first(sessions: &mut Vec<Session>)
    ensures { sessions.new.items ≡ one_done sessions.old.items }
{
    drop_done(sessions);
    if let Some(first) = sessions.first_mut() {
        first.leave_first();
    }
}

// What a ShareFetch asks for.
fn planned_fetch(
    alloc: Global,
    sessions: &[Session],
    request: &ShareFetchRequest,
    conf: &Config,
) -> Result<Planned, SessionFault>
    ensures refused { IfErr result (IsRefusedBy (fetch_refusal sessions.now request.now)) }
    ensures granted { IfOk result (λ _. fetch_refusal sessions.now request.now ≡ None) }
    ensures plan { IfOk result (λ plan. plan_of plan ≡ fetch_plan sessions.now conf.now.topics request.now) }
{
    let topics = request.topics.as_slice();
    let epoch = request.share_session_epoch;
    let caller = admit(
        alloc,
        sessions,
        true,
        &request.group_id,
        &request.member_id,
        epoch,
        topics,
    )?;
    let forgotten = forgotten_in(alloc, conf, request.forgotten_topics_data.as_slice())?;
    let wanted = wanted_once(alloc, conf, topics)?;
    let session = session_of(sessions, &caller);
    Ok(fetch_by_epoch(alloc, &caller, session, epoch, wanted, &forgotten)?)
}

// What a ShareAcknowledge asks for.
fn planned_ack(
    alloc: Global,
    sessions: &[Session],
    request: &ShareAckRequest,
    conf: &Config,
) -> Result<Planned, SessionFault>
    ensures refused { IfErr result (IsRefusedBy (ack_refusal sessions.now request.now)) }
    ensures granted { IfOk result (λ _. ack_refusal sessions.now request.now ≡ None) }
    ensures plan { IfOk result (λ plan. plan_of plan ≡ ack_plan sessions.now conf.now.topics request.now) }
{
    let topics = request.topics.as_slice();
    let epoch = request.share_session_epoch;
    let caller = admit(
        alloc,
        sessions,
        false,
        &request.group_id,
        &request.member_id,
        epoch,
        topics,
    )?;
    let wanted = wanted_once(alloc, conf, topics)?;
    let session = session_of(sessions, &caller);
    Ok(ack_by_epoch(alloc, &caller, session, epoch, wanted)?)
}

impl Sessions {
    ghost use Rattle.share_session.specs.SessionParts.{most_sessions};
    ghost use Rattle.share_session.specs.Sessions.{applied};

    /// No sessions. It takes no memory.
    pub fn new(alloc: Global) -> Sessions
        ensures { result ≡ [] }
    {
        Sessions {
            list: Vec::new(alloc),
        }
    }

    /// What a ShareFetch asks for. It changes nothing.
    pub fn plan_fetch(
        &self,
        request: &ShareFetchRequest,
        conf: &Config,
    ) -> Result<Planned, SessionFault>
        ensures refused { IfErr result (IsRefusedBy (fetch_refusal self.now request.now)) }
        ensures granted { IfOk result (λ _. fetch_refusal self.now request.now ≡ None) }
        ensures plan { IfOk result (λ plan. plan_of plan ≡ fetch_plan self.now conf.now.topics request.now) }
        ensures few { IfOk result (λ plan. length (applied plan.change self.now) ≤ most_sessions) }
    {
        let plan = planned_fetch(*self.list.allocator(), &self.list, request, conf)?;
        Ok(plan)
    }

    /// What a ShareAcknowledge asks for. It changes nothing.
    pub fn plan_ack(
        &self,
        request: &ShareAckRequest,
        conf: &Config,
    ) -> Result<Planned, SessionFault>
        ensures refused { IfErr result (IsRefusedBy (ack_refusal self.now request.now)) }
        ensures granted { IfOk result (λ _. ack_refusal self.now request.now ≡ None) }
        ensures plan { IfOk result (λ plan. plan_of plan ≡ ack_plan self.now conf.now.topics request.now) }
        ensures few { IfOk result (λ plan. length (applied plan.change self.now) ≤ most_sessions) }
    {
        let plan = planned_ack(*self.list.allocator(), &self.list, request, conf)?;
        Ok(plan)
    }

    /// Makes a change behind which there are at most 100 sessions, as that of a plan is. Where there is no memory for
    /// it, the sessions are as they were.
    pub fn apply(&mut self, change: SessionChange) -> Result<(), NoMemory>
        requires { length (applied change self.old) ≤ most_sessions }
        ensures done { OnOk result (self.new ≡ applied change self.old) }
        ensures kept { OnErr result (self.new ≡ self.old) }
    {
        apply(&mut self.list, change)
    }

    /// Begins a ShareFetch: its steps, in order. Where it is refused, the sessions are as they were.
    pub fn begin_fetch(
        &mut self,
        request: &ShareFetchRequest,
        conf: &Config,
    ) -> Result<VisitPlan, SessionFault>
        ensures refused { IfErr result (IsRefusedBy (fetch_refusal self.old request.now)) }
        ensures granted { OnOk result (fetch_refusal self.old request.now ≡ None) }
        ensures sessions { OnOk result (self.new ≡ (begun_fetch self.old conf.now.topics request.now).sessions) }
        ensures steps { IfOk result (λ steps. steps.items ≡ (begun_fetch self.old conf.now.topics request.now).steps) }
        ensures kept { OnErr result (self.new ≡ self.old) }
    {
        let (steps, change) = self.plan_fetch(request, conf)?.into_parts()?;
        self.apply(change)?;
        Ok(steps)
    }

    /// Begins a ShareAcknowledge: its steps, in order. Where it is refused, the sessions are as they were.
    pub fn begin_ack(
        &mut self,
        request: &ShareAckRequest,
        conf: &Config,
    ) -> Result<VisitPlan, SessionFault>
        ensures refused { IfErr result (IsRefusedBy (ack_refusal self.old request.now)) }
        ensures granted { OnOk result (ack_refusal self.old request.now ≡ None) }
        ensures sessions { OnOk result (self.new ≡ (begun_ack self.old conf.now.topics request.now).sessions) }
        ensures steps { IfOk result (λ steps. steps.items ≡ (begun_ack self.old conf.now.topics request.now).steps) }
        ensures kept { OnErr result (self.new ≡ self.old) }
    {
        let (steps, change) = self.plan_ack(request, conf)?.into_parts()?;
        self.apply(change)?;
        Ok(steps)
    }

    /// The first of the releases on the partitions of all sessions, in the order in which they were opened. `None`
    /// where there is none. It takes no memory.
    pub fn next_release(&self) -> Option<PlanStep>
        ensures { result ≡ slice_get (releases_of self.now) 0 }
    {
        first_release(*self.list.allocator(), &self.list)
    }

    /// The first of these releases is done, where there is one: the sessions are such that the others are left. It
    /// takes no memory.
    pub fn release_done(&mut self)
        ensures { releases_of self.new ≡ others_of (releases_of self.old) }
    {
        release_first(&mut self.list);
    }

    /// Closes all sessions: the releases on the partitions of each. Where there is no memory, the sessions are as
    /// they were.
    pub fn close_all(&mut self) -> Result<VisitPlan, NoMemory>
        ensures closed { OnOk result (self.new ≡ []) }
        ensures steps { IfOk result (λ steps. steps.items ≡ releases_of self.old) }
        ensures kept { OnErr result (self.new ≡ self.old) }
    {
        let steps = releases_of(*self.list.allocator(), &self.list)?;
        self.list.clear();
        Ok(steps)
    }
}
