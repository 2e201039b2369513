// The group link: heartbeats and their replies.
ghost use Rattle.std.specs.Prelude.{◌≡◌, ◌≤◌, ◌^◌, ◌+◌, true, false, IfOk, OnOk, OnErr};
ghost use Rattle.std.specs.Option.{option_or, unwrap_or};
ghost use Rattle.rec_batch.specs.Batches.{at_least_zero};
ghost use Rattle.share_session.specs.Sessions.{next_epoch};
ghost use Rattle.share_client.specs.declared.step.Took.TheVariants.{Stray};
ghost use Rattle.share_client.specs.Frames.{IsAnswer, IsFrame};
ghost use Rattle.share_client.specs.Heartbeats.{epoch_of, heard, heartbeat, heartbeat_frame, is_refusal, rejoins, topics_for};
ghost use Rattle.share_client.specs.Kept.{beat_epoch};
ghost use Rattle.share_client.specs.Groups.{HearsReply, IsAsked, IsLost, IsTold, asks_now, due_behind, group_awaits, new_group, wait_end};

use crate::conf::ClientConf;
use crate::fault::ClientFault;
use crate::frame::{has_correlation, read_reply, request_frame};
use crate::step::Took;
use flex_fields::{Items, Text};
use msgs_group::{Assignment, HeartbeatReply, HeartbeatRequest};
use req_head::RequestHead;
use share_model::{Blob, Moment, Name, NoMemory};
use share_session::next_epoch;
use std::alloc::Global;

const HEARTBEAT_KEY: i16 = 76;

const HEARTBEAT_VERSION: i16 = 1;

const UNKNOWN_MEMBER_ID: i16 = 25;

const FENCED_MEMBER_EPOCH: i16 = 110;

const LEAVING_EPOCH: i32 = -1;

const END_OF_TIME: u64 = 1 << 62;

/// The group link of a consumer.
#[derive(Drop)]
pub struct GroupLink {
    /// The moment of the request that awaits its reply, if one does.
    pub asked: Option<Moment>,
    /// The correlation id of the last request, 0 before the first.
    pub number: i32,
    /// The moment from which on a heartbeat is due.
    pub due: u64,
    /// The member's epoch.
    pub epoch: i32,
    /// What the member is to read, by the last reply that said it.
    pub assigned: Option<Assignment>,
}

fn text_of(alloc: Global, name: &Name) -> Result<Text, NoMemory>
    ensures { IfOk result (λ text. text ≡ name.now) }
{
    Text::new(alloc, name.as_str())
}

// The topic's name where the member joins.
fn names(alloc: Global, topic: &Name, epoch: i32) -> Result<Option<Items<Text>>, NoMemory>
    ensures { IfOk result (λ names. names ≡ topics_for topic.now epoch) }
{
    if epoch != 0 {
        return Ok(None);
    }
    let mut names = Vec::new(alloc);
    names.push(text_of(alloc, topic)?)?;
    Ok(Some(Items::new(names)))
}

fn heartbeat(alloc: Global, conf: &ClientConf, epoch: i32) -> Result<HeartbeatRequest, NoMemory>
    ensures { IfOk result (λ request. request ≡ heartbeat conf.now epoch) }
{
    Ok(HeartbeatRequest {
        group_id: text_of(alloc, &conf.group)?,
        member_id: text_of(alloc, &conf.member)?,
        member_epoch: epoch,
        rack_id: None,
        subscribed_topic_names: names(alloc, &conf.topic, epoch)?,
    })
}

fn heartbeat_frame(
    alloc: Global,
    conf: &ClientConf,
    number: i32,
    epoch: i32,
) -> Result<Blob, NoMemory>
    ensures { IfOk result (λ frame. frame ≡ heartbeat_frame conf.now number epoch) }
{
    let head = RequestHead {
        key: HEARTBEAT_KEY,
        version: HEARTBEAT_VERSION,
        correlation: number,
        client: None,
    };
    let body = heartbeat(alloc, conf, epoch)?;
    request_frame(alloc, &head, &body)
}

// Whether the member is to join anew.
fn rejoins(code: i16) -> bool
    ensures { result ≡ rejoins code }
{
    code == UNKNOWN_MEMBER_ID || code == FENCED_MEMBER_EPOCH
}

// Whether a code ends the member.
fn is_refusal(code: i16) -> bool
    ensures { result ≡ is_refusal code }
{
    code != 0 && !rejoins(code)
}

fn epoch_of(code: i16, epoch: i32) -> i32
    ensures { result ≡ epoch_of code epoch }
{
    if rejoins(code) { 0 } else { epoch }
}

// The moment so much later. An interval below 0 counts as 0.
fn later(moment: u64, interval: i32) -> u64
    requires { moment ≤ 2 ^ 62 }
    ensures { result ≡ moment + at_least_zero interval }
{
    if interval < 0 {
        moment
    } else {
        moment + interval as u64
    }
}

fn moment_of(asked: &Option<Moment>) -> u64
    ensures is { result ≡ unwrap_or asked.now 0 }
    ensures bounded { result ≤ 2 ^ 62 }
{
    match asked {
        Some(moment) => moment.ms(),
        None => 0,
    }
}

// The moment from which on the next heartbeat is due.
fn due_behind(asked: &Option<Moment>, interval: i32) -> u64
    ensures { result ≡ due_behind asked.now interval }
{
    later(moment_of(asked), interval)
}

fn newer(assigned: &mut Option<Assignment>, told: Option<Assignment>)
    ensures { assigned.new ≡ option_or told assigned.old }
{
    if told.is_some() {
        *assigned = told;
    }
}

// What a heartbeat's reply says, unless it is a refusal.
#[tactic(auto, using(crate::proofs::Hearing::hears_fault, crate::proofs::Hearing::hears_code))]
fn hear(alloc: Global, frame: &[u8]) -> Result<HeartbeatReply, ClientFault>
    requires { IsFrame frame.now }
    ensures { IsAnswer result (heard frame.now) }
{
    let reply: HeartbeatReply = match read_reply(alloc, frame) {
        Ok(reply) => reply,
        Err(fault) => return Err(fault),
    };
    let code = reply.error_code;
    if is_refusal(code) {
        return Err(ClientFault::Refused { code });
    }
    Ok(reply)
}

impl GroupLink {
    /// A link on which nothing was sent.
    pub fn new() -> GroupLink
        ensures { result ≡ new_group }
    {
        GroupLink {
            asked: None,
            number: 0,
            due: 0,
            epoch: 0,
            assigned: None,
        }
    }

    /// Whether a heartbeat is to be sent, one that leaves the group at once.
    pub fn is_due(&self, leaving: bool, now: u64) -> bool
        ensures { result ≡ asks_now self.now leaving now }
    {
        self.asked.is_none() && (leaving || self.due <= now)
    }

    /// Until when no heartbeat is due.
    pub fn wait_end(&self) -> u64
        ensures { result ≡ wait_end self.now }
    {
        match &self.asked {
            Some(_) => END_OF_TIME,
            None => self.due,
        }
    }

    /// Makes the next heartbeat. Where there is no memory for it, nothing changes.
    pub fn ask(
        &mut self,
        alloc: Global,
        conf: &ClientConf,
        leaving: bool,
        now: u64,
    ) -> Result<Blob, NoMemory>
        requires { now ≤ 2 ^ 62 }
        ensures frame { IfOk result (λ frame. frame ≡ heartbeat_frame conf.now (next_epoch self.old.number) (beat_epoch leaving self.old.epoch)) }
        ensures ok { OnOk result (IsAsked now self.old self.new) }
        ensures err { OnErr result (self.new ≡ self.old) }
    {
        let number = next_epoch(self.number);
        let epoch = if leaving { LEAVING_EPOCH } else { self.epoch };
        let frame = heartbeat_frame(alloc, conf, number, epoch)?;
        self.number = number;
        self.asked = Some(Moment::new(now));
        Ok(frame)
    }

    // Keeps what a reply says.
    fn tell(&mut self, due: u64, reply: HeartbeatReply)
        ensures { IsTold due reply self.old self.new }
    {
        let HeartbeatReply {
            error_code,
            member_epoch,
            assignment,
            ..
        } = reply;
        self.asked = None;
        self.due = due;
        self.epoch = epoch_of(error_code, member_epoch);
        newer(&mut self.assigned, assignment);
    }

    // Whether a frame is the awaited reply.
    fn is_awaited(&self, frame: &[u8]) -> bool
        requires { IsFrame frame.now }
        ensures { result ≡ group_awaits frame.now self.now }
    {
        self.asked.is_some() && has_correlation(frame, self.number)
    }

    // Takes a frame that is the awaited reply.
    fn take_reply(&mut self, alloc: Global, frame: &[u8]) -> Result<Took, ClientFault>
        requires { IsFrame frame.now }
        ensures { HearsReply frame.now self.old result self.new }
    {
        match hear(alloc, frame) {
            Ok(reply) => {
                let due = due_behind(&self.asked, reply.heartbeat_interval_ms);
                self.tell(due, reply);
                Ok(Took::Taken)
            }
            Err(fault) => Err(fault),
        }
    }

    /// Takes a frame that came on the link.
    pub fn take(&mut self, alloc: Global, frame: &[u8]) -> Result<Took, ClientFault>
        requires { IsFrame frame.now }
        ensures stray { group_awaits frame.now self.old ≡ false → (result ≡ Ok Stray) × (self.new ≡ self.old) }
        ensures awaited { group_awaits frame.now self.old ≡ true → HearsReply frame.now self.old result self.new }
    {
        if !self.is_awaited(frame) {
            return Ok(Took::Stray);
        }
        self.take_reply(alloc, frame)
    }

    /// The link ended: what was sent on it isn't answered any more.
    pub fn lose(&mut self)
        ensures { IsLost self.old self.new }
    {
        self.asked = None;
        self.due = 0;
    }
}
