// One turn of a consumer: what the core says is done, and it is told what came of it.
ghost use Rattle.std.specs.Prelude.{◌≡◌, ◌≢◌, ◌≤◌, ◌⊎◌, List, ℕ, Option, IfNone, IfSome};
ghost use Rattle.edge_io.specs.Causes.{Rose};
ghost use Rattle.share_client.specs.declared.conf.ClientConf.{ClientConf};
ghost use Rattle.share_client.specs.declared.fault.ClientFault.{ClientFault};
ghost use Rattle.consume_run.specs.Consuming.{ComesByLinks, ComesByOutput};
ghost use Rattle.consume_run.specs.Ends.{end_of};
ghost use Rattle.consume_run.specs.Turns.{Goes, IsLossEnd, IsNewsEnd, Offers, Stops};

use crate::end::{ConsumeEnd, end_of};
use crate::mailbox::Request;
use crate::post::{Post, wait};
use crate::reply::{News, Reply};
use edge_io::{Clock, Link, Listener, Sink, write_all};
use share_client::{ClientCore, ClientStep, LinkKind, Took};
use share_model::{Blob, NoMemory};
use std::alloc::Global;
use std::sync::Wait;

// Writes lines that the core gave, and tells it so.
fn write_lines<O: Sink>(core: &mut ClientCore, output: &mut O, lines: &Blob) -> Option<ConsumeEnd>
    requires { (conf : ClientConf) × (start : Option (List ℕ)) × Offers conf start core.old (O.held output.old) lines.now }
    ensures goes { IfNone result ((conf : ClientConf) (start : Option (List ℕ)) → Offers conf start core.old (O.held output.old) lines.now
        → Goes conf start core.new (O.held output.new)) }
    ensures stops { IfSome result (λ end. (conf : ClientConf) (start : Option (List ℕ)) → Offers conf start core.old (O.held output.old) lines.now
        → Stops conf start (O.held output.new) end) }
    ensures output { IfSome result (λ end. end ≡ ConsumeEnd.Output) }
    ensures rose { IfSome result (λ end. Rose (O.faults output.old) (O.faults output.new)) }
    ensures counted { IfNone result (O.faults output.new ≡ O.faults output.old) }
{
    match write_all(output, lines.as_slice()) {
        Ok(()) => {
            core.wrote();
            None
        }
        Err(_) => Some(ConsumeEnd::Output),
    }
}

// Gives the core a reply. Of one that isn't awaited nothing comes, and the link's job reads on.
fn take_reply<R: Wait, K: Link + Drop>(
    rt: &R,
    post: &Post<K>,
    alloc: Global,
    core: &mut ClientCore,
    on: LinkKind,
    reply: &Reply,
) -> Option<ConsumeEnd>
    ensures goes { IfNone result ((conf : ClientConf) (start held : Option (List ℕ)) → Goes conf start core.old held → Goes conf start core.new held) }
    ensures stops { IfSome result (λ end. (conf : ClientConf) (start held : Option (List ℕ)) → Goes conf start core.old held → Stops conf start held end) }
    ensures fault { IfSome result (λ end. (fault : ClientFault) × (end ≡ end_of fault)) }
{
    match core.reply(alloc, on, reply.as_slice()) {
        Ok(Took::Taken) => None,
        Ok(Took::Stray) => {
            post.ask(rt, on, Request::Hear);
            None
        }
        Err(fault) => Some(end_of(fault)),
    }
}

/// Takes a link from the listener, and hands it to a job.
pub fn take_link<R: Wait, L: Listener>(
    rt: &R,
    post: &Post<L::L>,
    on: LinkKind,
    listener: &mut L,
) -> Option<ConsumeEnd>
where
    L::L: Drop,
    ensures kinds { IfSome result (λ end. (end ≡ ConsumeEnd.NoLink) ⊎ (end ≡ ConsumeEnd.Listener)) }
    ensures links { IfSome result (λ end. ComesByLinks end (L.done listener.new) (L.faults listener.old) (L.faults listener.new)) }
    ensures later { L.faults listener.old ≤ L.faults listener.new }
{
    match listener.next() {
        Ok(Some(link)) => {
            post.serve(rt, on, link);
            None
        }
        Ok(None) => Some(ConsumeEnd::NoLink),
        Err(_) => Some(ConsumeEnd::Listener),
    }
}

// Tells the core that a link was lost, and takes another one, unless records stay unacknowledged.
fn lose_link<R: Wait, L: Listener>(
    rt: &R,
    post: &Post<L::L>,
    core: &mut ClientCore,
    on: LinkKind,
    listener: &mut L,
) -> Option<ConsumeEnd>
where
    L::L: Drop,
    ensures goes { IfNone result ((conf : ClientConf) (start held : Option (List ℕ)) → Goes conf start core.old held → Goes conf start core.new held) }
    ensures stops { IfSome result (λ end. (conf : ClientConf) (start held : Option (List ℕ)) → Goes conf start core.old held → Stops conf start held end) }
    ensures kinds { IfSome result IsLossEnd }
    ensures links { IfSome result (λ end. ComesByLinks end (L.done listener.new) (L.faults listener.old) (L.faults listener.new)) }
    ensures later { L.faults listener.old ≤ L.faults listener.new }
{
    core.lost(on);
    if core.unacknowledged() {
        return Some(ConsumeEnd::Unacknowledged);
    }
    take_link(rt, post, on, listener)
}

// Tells the core what a link brought.
fn take_news<R: Wait, L: Listener>(
    rt: &R,
    post: &Post<L::L>,
    alloc: Global,
    core: &mut ClientCore,
    on: LinkKind,
    news: News,
    listener: &mut L,
) -> Option<ConsumeEnd>
where
    L::L: Drop,
    ensures goes { IfNone result ((conf : ClientConf) (start held : Option (List ℕ)) → Goes conf start core.old held → Goes conf start core.new held) }
    ensures stops { IfSome result (λ end. (conf : ClientConf) (start held : Option (List ℕ)) → Goes conf start core.old held → Stops conf start held end) }
    ensures kinds { IfSome result IsNewsEnd }
    ensures links { IfSome result (λ end. ComesByLinks end (L.done listener.new) (L.faults listener.old) (L.faults listener.new)) }
    ensures later { L.faults listener.old ≤ L.faults listener.new }
{
    match news {
        News::Reply(reply) => take_reply(rt, post, alloc, core, on, &reply),
        News::Lost => lose_link(rt, post, core, on, listener),
        News::NoMemory => Some(ConsumeEnd::NoMemory),
    }
}

// Waits for what a link brings, or until a moment, and tells the core.
fn wait_on<R: Wait, C: Clock + Drop, L: Listener>(
    rt: &R,
    post: &Post<L::L>,
    alloc: Global,
    core: &mut ClientCore,
    until: u64,
    clock: &mut C,
    listener: &mut L,
) -> Option<ConsumeEnd>
where
    L::L: Drop,
    ensures goes { IfNone result ((conf : ClientConf) (start held : Option (List ℕ)) → Goes conf start core.old held → Goes conf start core.new held) }
    ensures stops { IfSome result (λ end. (conf : ClientConf) (start held : Option (List ℕ)) → Goes conf start core.old held → Stops conf start held end) }
    ensures kinds { IfSome result IsNewsEnd }
    ensures links { IfSome result (λ end. ComesByLinks end (L.done listener.new) (L.faults listener.old) (L.faults listener.new)) }
    ensures later { L.faults listener.old ≤ L.faults listener.new }
{
    match wait(rt, post, until, clock) {
        Ok(Some((on, news))) => take_news(rt, post, alloc, core, on, news, listener),
        Ok(None) => None,
        Err(NoMemory) => Some(ConsumeEnd::NoMemory),
    }
}

/// Asks the core what is to be done, does it, and tells the core what came of it. None: the program goes on.
pub fn turn<R: Wait, O: Sink, C: Clock + Drop, L: Listener>(
    rt: &R,
    post: &Post<L::L>,
    alloc: Global,
    core: &mut ClientCore,
    output: &mut O,
    clock: &mut C,
    listener: &mut L,
) -> Option<ConsumeEnd>
where
    L::L: Drop,
    requires { (conf : ClientConf) × (start : Option (List ℕ)) × Goes conf start core.old (O.held output.old) }
    ensures goes { IfNone result ((conf : ClientConf) (start : Option (List ℕ)) → Goes conf start core.old (O.held output.old)
        → Goes conf start core.new (O.held output.new)) }
    ensures stops { IfSome result (λ end. (conf : ClientConf) (start : Option (List ℕ)) → Goes conf start core.old (O.held output.old)
        → Stops conf start (O.held output.new) end) }
    ensures jobs { IfSome result (λ end. end ≢ ConsumeEnd.Spawner) }
    ensures links { IfSome result (λ end. ComesByLinks end (L.done listener.new) (L.faults listener.old) (L.faults listener.new)) }
    ensures output { IfSome result (λ end. ComesByOutput end (O.faults output.old) (O.faults output.new)) }
    ensures later { L.faults listener.old ≤ L.faults listener.new }
    ensures counted { IfNone result (O.faults output.new ≡ O.faults output.old) }
{
    let step = match core.next(alloc, clock.now_ms()) {
        Ok(step) => step,
        Err(NoMemory) => return Some(ConsumeEnd::NoMemory),
    };
    match step {
        ClientStep::Heartbeat(frame) => post.ask(rt, LinkKind::Group, Request::Ask(frame)),
        ClientStep::Fetch(frame) => post.ask(rt, LinkKind::Data, Request::Ask(frame)),
        ClientStep::Write(lines) => return write_lines(core, output, &lines),
        ClientStep::Wait { until } => {
            return wait_on(rt, post, alloc, core, until, clock, listener);
        }
        ClientStep::Done => return Some(ConsumeEnd::Done),
    }
    None
}
