// The session so far.
ghost use Rattle.std.specs.Prelude.{◌≡◌, ◌<◌, ◌≤◌, ◌+◌, ◌++◌, [], ◌∷◌, ◌^◌, pos, None, OnOk};
ghost use Rattle.share_model.specs.declared.ack.AckKind.TheVariants.{Release};
ghost use Rattle.gen_load.specs.Session.{round_acts, verdict_of, each};
ghost use Rattle.gen_load.specs.Session.Act.{produces, fetches, settles, expires, restarts};
ghost use Rattle.gen_load.specs.Scripts.{Adds};
ghost use Rattle.gen_load.specs.Bounds.{AreFew};

use crate::counts::{Counts, Member};
use crate::lines::{put_expiry, put_restart, put_sent};
use crate::messages::{ack_message, fetch_message, produce_message};
use crate::records::batch_size;
use flex_fields::NoMemory;
use msgs_base::{produce_version, write_produce_request};
use msgs_share::{write_share_ack_request, write_share_fetch_request};
use req_head::RequestHead;
use share_model::AckKind;
use std::alloc::Global;
use text_pieces::Pieces;

/// What is counted over the acts so far, and the lines that wait to be written.
#[derive(Drop)]
pub struct Script {
    pub counts: Counts,
    pub text: Pieces,
}

fn head_of(key: i16, version: i16, frames: u32) -> RequestHead
    requires { frames < 2 ^ 30 }
    ensures { result ≡ record { key = key; version = version; correlation = pos (frames + 1); client = None } }
{
    RequestHead {
        key,
        version,
        correlation: (frames + 1) as i32,
        client: None,
    }
}

fn verdict_of(round: u32) -> AckKind
    ensures { result ≡ verdict_of round }
{
    if round % 5 == 0 {
        AckKind::Reject
    } else {
        AckKind::Accept
    }
}

impl Script {
    fn produce(&mut self, alloc: Global, round: u32) -> Result<(), NoMemory>
        requires { AreFew 2000000 self.old.counts }
        ensures { OnOk result (Adds self.old self.new (produces round ∷ [])) }
    {
        let message = produce_message(alloc, round)?;
        let body = write_produce_request(alloc, produce_version(9), &message)?;
        let head = head_of(0, 9, self.counts.frames);
        put_sent(alloc, &mut self.text, 1, round, &head, body.as_slice())?;
        self.counts = Counts {
            frames: self.counts.frames + 1,
            first: self.counts.end,
            end: self.counts.end + batch_size(round),
            ..self.counts
        };
        Ok(())
    }

    fn fetch(&mut self, alloc: Global, round: u32) -> Result<(), NoMemory>
        requires { AreFew 2000000 self.old.counts }
        ensures { OnOk result (Adds self.old self.new (fetches round ∷ [])) }
    {
        let member = Member::of_round(round);
        let message = fetch_message(alloc, member, self.counts.asked_by(member))?;
        let body = write_share_fetch_request(alloc, &message)?;
        let head = head_of(78, 1, self.counts.frames);
        put_sent(
            alloc,
            &mut self.text,
            member.conn(),
            round,
            &head,
            body.as_slice(),
        )?;
        self.counts = self.counts.asked_again(member);
        Ok(())
    }

    fn settle(&mut self, alloc: Global, round: u32, kind: AckKind) -> Result<(), NoMemory>
        requires { AreFew 2000000 self.old.counts }
        ensures { OnOk result (Adds self.old self.new (settles round kind ∷ [])) }
    {
        let member = Member::of_round(round);
        let epoch = self.counts.asked_by(member);
        let last = self.counts.end.saturating_sub(1);
        let message = ack_message(alloc, member, epoch, kind, self.counts.first, last)?;
        let body = write_share_ack_request(alloc, &message)?;
        let head = head_of(79, 1, self.counts.frames);
        put_sent(
            alloc,
            &mut self.text,
            member.conn(),
            round,
            &head,
            body.as_slice(),
        )?;
        self.counts = self.counts.asked_again(member);
        Ok(())
    }

    fn expire(&mut self, round: u32) -> Result<(), NoMemory>
        ensures { OnOk result (Adds self.old self.new (expires round ∷ [])) }
    {
        put_expiry(&mut self.text, round)
    }

    fn restart(&mut self) -> Result<(), NoMemory>
        ensures { OnOk result (Adds self.old self.new (restarts ∷ [])) }
    {
        put_restart(&mut self.text)?;
        self.counts = Counts {
            asked_a: 0,
            asked_b: 0,
            ..self.counts
        };
        Ok(())
    }

    /// In each third round the batch is released, and fetched again.
    fn release(&mut self, alloc: Global, round: u32) -> Result<(), NoMemory>
        requires { AreFew 1000010 self.old.counts }
        ensures { OnOk result (Adds self.old self.new (each 3 round (settles round Release ∷ fetches round ∷ []))) }
    {
        if round % 3 != 0 {
            return Ok(());
        }
        self.settle(alloc, round, AckKind::Release)?;
        self.fetch(alloc, round)
    }

    /// In each seventh round its lock expires, and it is fetched again.
    fn lapse(&mut self, alloc: Global, round: u32) -> Result<(), NoMemory>
        requires { AreFew 1000020 self.old.counts }
        ensures { OnOk result (Adds self.old self.new (each 7 round (expires round ∷ fetches round ∷ []))) }
    {
        if round % 7 != 0 {
            return Ok(());
        }
        self.expire(round)?;
        self.fetch(alloc, round)
    }

    /// Behind each 250th round power is lost.
    fn lose_power(&mut self, round: u32) -> Result<(), NoMemory>
        ensures { OnOk result (Adds self.old self.new (each 250 round (restarts ∷ []))) }
    {
        if round % 250 != 0 {
            return Ok(());
        }
        self.restart()
    }

    /// The acts of a round.
    pub(crate) fn round(&mut self, alloc: Global, round: u32) -> Result<(), NoMemory>
        requires { AreFew 1000000 self.old.counts }
        ensures { OnOk result (Adds self.old self.new (round_acts round)) }
    {
        self.produce(alloc, round)?;
        self.fetch(alloc, round)?;
        self.release(alloc, round)?;
        self.lapse(alloc, round)?;
        self.settle(alloc, round, verdict_of(round))?;
        self.lose_power(round)
    }
}
