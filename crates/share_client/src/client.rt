ghost use Rattle.std.specs.Prelude.{◌≡◌, ◌≤◌, ◌^◌, ◌||◌, [], ◌∷◌, List, true};
ghost use Rattle.share_client.specs.declared.conf.ClientConf.{ClientConf};
ghost use Rattle.share_client.specs.Frames.{IsFrame};
ghost use Rattle.share_client.specs.Traces.{Call, is_writing};
ghost use Rattle.share_client.specs.Traces.Call.{Asked, Got, Lost, Wrote};
ghost use Rattle.share_client.specs.Cores.{StandsFor};
ghost use Rattle.share_client.specs.Groups.{BeatsBy, GoesOnBy, LosesOn, RepliesBy, StepsBy, TakesOn, ends_with, parts_with};
ghost use Rattle.share_client.specs.Kept.{unacknowledged};

use crate::conf::ClientConf;
use crate::data_link::DataLink;
use crate::fault::ClientFault;
use crate::group::GroupLink;
use crate::step::{ClientStep, LinkKind, Took};
use share_model::NoMemory;
use std::alloc::Global;

/// A share consumer: it stays in its group, takes as many records as it was asked for, and leaves.
#[derive(Drop)]
pub struct ClientCore {
    conf: ClientConf,
    group: GroupLink,
    fetches: DataLink,
    /// Whether the last heartbeat leaves the group.
    parting: bool,
    ended: bool,
}

// Takes a frame that came on a link.
fn take_on(
    group: &mut GroupLink,
    fetches: &mut DataLink,
    alloc: Global,
    on: LinkKind,
    frame: &[u8],
) -> Result<Took, ClientFault>
    requires { IsFrame frame.now }
    ensures { TakesOn on frame.now group.old fetches.old result group.new fetches.new }
{
    match on {
        LinkKind::Group => group.take(alloc, frame),
        LinkKind::Data => fetches.take(alloc, frame),
    }
}

// A link ended.
fn lose_on(group: &mut GroupLink, fetches: &mut DataLink, on: LinkKind)
    ensures { LosesOn on group.old fetches.old group.new fetches.new }
{
    match on {
        LinkKind::Group => group.lose(),
        LinkKind::Data => fetches.lose(),
    }
}

// Takes a frame that came on a link, unless the consumer is at its end.
fn reply_on(
    group: &mut GroupLink,
    fetches: &mut DataLink,
    alloc: Global,
    ended: bool,
    on: LinkKind,
    frame: &[u8],
) -> Result<Took, ClientFault>
    requires { IsFrame frame.now }
    ensures { RepliesBy ended on frame.now group.old fetches.old result group.new fetches.new }
{
    if ended {
        return Ok(Took::Stray);
    }
    take_on(group, fetches, alloc, on, frame)
}

// Whether an answer to a frame ends the consumer.
fn ends_with(on: LinkKind, parting: bool, took: &Result<Took, ClientFault>) -> bool
    ensures { result ≡ ends_with on parting took.now }
{
    match took {
        Err(_) => true,
        Ok(Took::Stray) => false,
        Ok(Took::Taken) => match on {
            LinkKind::Group => parting,
            LinkKind::Data => false,
        },
    }
}

// Whether the consumer is at its end behind an answer to a frame.
fn ends(ended: bool, on: LinkKind, parting: bool, took: &Result<Took, ClientFault>) -> bool
    ensures { result ≡ (ended || ends_with on parting took.now) }
{
    ended || ends_with(on, parting, took)
}

// Whether the last heartbeat leaves the group, behind an answer.
fn parts_with(leaving: bool, parting: bool, step: &Result<ClientStep, NoMemory>) -> bool
    ensures { result ≡ parts_with leaving parting step.now }
{
    match step {
        Ok(ClientStep::Heartbeat(_)) => leaving,
        Ok(ClientStep::Fetch(_)) => parting,
        Ok(ClientStep::Write(_)) => parting,
        Ok(ClientStep::Wait { .. }) => parting,
        Ok(ClientStep::Done) => parting,
        Err(_) => parting,
    }
}

// A request on the data link, or to wait.
fn fetch_or_wait(
    group: &GroupLink,
    fetches: &mut DataLink,
    alloc: Global,
    conf: &ClientConf,
) -> Result<ClientStep, NoMemory>
    ensures { GoesOnBy conf.now group.now fetches.old result fetches.new }
{
    if !fetches.sends(&group.assigned) {
        return Ok(ClientStep::Wait {
            until: group.wait_end(),
        });
    }
    match fetches.ask(alloc, conf, &group.assigned) {
        Ok(frame) => Ok(ClientStep::Fetch(frame)),
        Err(fault) => Err(fault),
    }
}

// A heartbeat, a request on the data link, or to wait.
fn beat_or_fetch(
    group: &mut GroupLink,
    fetches: &mut DataLink,
    alloc: Global,
    conf: &ClientConf,
    now: u64,
) -> Result<ClientStep, NoMemory>
    requires { now ≤ 2 ^ 62 }
    ensures { BeatsBy conf.now now group.old fetches.old result group.new fetches.new }
{
    let leaving = fetches.left;
    if !group.is_due(leaving, now) {
        return fetch_or_wait(group, fetches, alloc, conf);
    }
    match group.ask(alloc, conf, leaving, now) {
        Ok(frame) => Ok(ClientStep::Heartbeat(frame)),
        Err(fault) => Err(fault),
    }
}

// What is to be done.
fn step(
    group: &mut GroupLink,
    fetches: &mut DataLink,
    alloc: Global,
    conf: &ClientConf,
    ended: bool,
    now: u64,
) -> Result<ClientStep, NoMemory>
    requires { now ≤ 2 ^ 62 }
    ensures { StepsBy conf.now ended now group.old fetches.old result group.new fetches.new }
{
    if ended {
        return Ok(ClientStep::Done);
    }
    if !fetches.writes() {
        return beat_or_fetch(group, fetches, alloc, conf, now);
    }
    match fetches.text(alloc) {
        Ok(text) => Ok(ClientStep::Write(text)),
        Err(fault) => Err(fault),
    }
}

impl ClientCore {
    /// A consumer that has sent nothing. It takes no memory.
    pub fn new(conf: ClientConf) -> ClientCore
        ensures { StandsFor conf result [] }
    {
        ClientCore {
            conf,
            group: GroupLink::new(),
            fetches: DataLink::new(conf.count),
            parting: false,
            ended: false,
        }
    }

    /// What is to be done at this moment. Where there is no memory to say it, nothing changes.
    pub fn next(&mut self, alloc: Global, now: u64) -> Result<ClientStep, NoMemory>
        requires { now ≤ 2 ^ 62 }
        ensures { (conf : ClientConf) (trace : List Call) → StandsFor conf self.old trace → StandsFor conf self.new (Asked now result ∷ trace) }
    {
        let next = step(
            &mut self.group,
            &mut self.fetches,
            alloc,
            &self.conf,
            self.ended,
            now,
        );
        self.parting = parts_with(self.fetches.left, self.parting, &next);
        next
    }

    /// Takes a frame that came on a link. Behind a fault the consumer is done.
    pub fn reply(&mut self, alloc: Global, on: LinkKind, frame: &[u8]) -> Result<Took, ClientFault>
        requires { IsFrame frame.now }
        ensures { (conf : ClientConf) (trace : List Call) → StandsFor conf self.old trace → StandsFor conf self.new (Got on frame.now result ∷ trace) }
    {
        let took = reply_on(
            &mut self.group,
            &mut self.fetches,
            alloc,
            self.ended,
            on,
            frame,
        );
        self.ended = ends(self.ended, on, self.parting, &took);
        took
    }

    /// The lines that `next` handed out last are written.
    pub fn wrote(&mut self)
        requires { (conf : ClientConf) × (trace : List Call) × StandsFor conf self.old trace × (is_writing trace ≡ true) }
        ensures { (conf : ClientConf) (trace : List Call) → StandsFor conf self.old trace → is_writing trace ≡ true
            → StandsFor conf self.new (Wrote ∷ trace) }
    {
        self.fetches.wrote();
    }

    /// A link ended, and another one comes in its place.
    pub fn lost(&mut self, on: LinkKind)
        ensures { (conf : ClientConf) (trace : List Call) → StandsFor conf self.old trace → StandsFor conf self.new (Lost on ∷ trace) }
    {
        lose_on(&mut self.group, &mut self.fetches, on);
    }

    /// Whether all records are written, and the data link was lost behind the reply with the last of them, before that of
    /// the last acknowledgement.
    pub fn unacknowledged(&self) -> bool
        ensures { (conf : ClientConf) (trace : List Call) → StandsFor conf self.now trace → result ≡ unacknowledged conf trace }
    {
        self.fetches.wanted == 0 && self.fetches.cut
    }
}
