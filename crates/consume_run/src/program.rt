// A consumer, from its first link to its end.
ghost use Rattle.std.specs.Prelude.{◌≡◌, ◌≢◌, ◌⊎◌, ◌≤◌, List, ℕ, Option, IfSome};
ghost use Rattle.share_client.specs.declared.conf.ClientConf.{ClientConf};
ghost use Rattle.consume_run.specs.Consuming.{ComesByJobs, ComesByLinks, ComesByOutput, Consumes};
ghost use Rattle.consume_run.specs.Turns.{Goes, Stops};

use crate::end::ConsumeEnd;
use crate::jobs::begin_all;
use crate::last_line::finish;
use crate::post::Post;
use crate::turn::{take_link, turn};
use edge_io::{Clock, Listener, Sink, Spawner};
use share_client::{ClientConf, ClientCore, LinkKind};
use std::alloc::Global;
use std::sync::Wait;

// Takes a link for each job.
fn take_links<R: Wait, L: Listener>(
    rt: &R,
    post: &Post<L::L>,
    listener: &mut L,
) -> Option<ConsumeEnd>
where
    L::L: Drop,
    ensures kinds { IfSome result (λ end. (end ≡ ConsumeEnd.NoLink) ⊎ (end ≡ ConsumeEnd.Listener)) }
    ensures links { IfSome result (λ end. ComesByLinks end (L.done listener.new) (L.faults listener.old) (L.faults listener.new)) }
    ensures later { L.faults listener.old ≤ L.faults listener.new }
{
    match take_link(rt, post, LinkKind::Group, listener) {
        Some(end) => Some(end),
        None => take_link(rt, post, LinkKind::Data, listener),
    }
}

// Does what the core says, turn by turn, until the program ends.
fn turn_all<R: Wait, O: Sink, C: Clock + Drop, L: Listener>(
    rt: &R,
    post: &Post<L::L>,
    alloc: Global,
    core: &mut ClientCore,
    output: &mut O,
    clock: &C,
    listener: &mut L,
) -> ConsumeEnd
where
    L::L: Drop,
    requires { (conf : ClientConf) × (start : Option (List ℕ)) × Goes conf start core.old (O.held output.old) }
    ensures stops { (conf : ClientConf) (start : Option (List ℕ)) → Goes conf start core.old (O.held output.old)
        → Stops conf start (O.held output.new) result }
    ensures jobs { result ≢ ConsumeEnd.Spawner }
    ensures links { ComesByLinks result (L.done listener.new) (L.faults listener.old) (L.faults listener.new) }
    ensures output { ComesByOutput result (O.faults output.old) (O.faults output.new) }
{
    let mut clock = clock.another();
    for _ in rt.forever() {
        if let Some(end) = turn(rt, post, alloc, core, output, &mut clock, listener) {
            return end;
        }
    }
    unreachable!()
}

// Takes two links, and does what the core says.
fn serve_core<R: Wait, O: Sink, C: Clock + Drop, L: Listener>(
    rt: &R,
    post: &Post<L::L>,
    alloc: Global,
    core: &mut ClientCore,
    output: &mut O,
    clock: &C,
    listener: &mut L,
) -> ConsumeEnd
where
    L::L: Drop,
    requires { (conf : ClientConf) × (start : Option (List ℕ)) × Goes conf start core.old (O.held output.old) }
    ensures stops { (conf : ClientConf) (start : Option (List ℕ)) → Goes conf start core.old (O.held output.old)
        → Stops conf start (O.held output.new) result }
    ensures jobs { result ≢ ConsumeEnd.Spawner }
    ensures links { ComesByLinks result (L.done listener.new) (L.faults listener.old) (L.faults listener.new) }
    ensures output { ComesByOutput result (O.faults output.old) (O.faults output.new) }
{
    match take_links(rt, post, listener) {
        Some(end) => return end,
        None => return turn_all(rt, post, alloc, core, output, clock, listener),
    }
}

// Starts the jobs, takes two links, and does what the core says.
fn begin_and_serve<
    R: Wait + Clone + Drop + Send + Sync + 'static,
    O: Sink,
    C: Clock + Drop + Send + 'static,
    L: Listener,
    P: Spawner,
>(
    rt: &R,
    post: &Post<L::L>,
    alloc: Global,
    core: &mut ClientCore,
    output: &mut O,
    clock: &C,
    listener: &mut L,
    spawner: &mut P,
) -> ConsumeEnd
where
    L::L: Drop + Send + 'static,
    requires goes { (conf : ClientConf) × (start : Option (List ℕ)) × Goes conf start core.old (O.held output.old) }
    ensures stops { (conf : ClientConf) (start : Option (List ℕ)) → Goes conf start core.old (O.held output.old)
        → Stops conf start (O.held output.new) result }
    ensures links { ComesByLinks result (L.done listener.new) (L.faults listener.old) (L.faults listener.new) }
    ensures output { ComesByOutput result (O.faults output.old) (O.faults output.new) }
    ensures jobs { ComesByJobs result (P.faults spawner.old) (P.faults spawner.new) }
{
    match begin_all(rt, alloc, post, clock, spawner) {
        Ok(()) => return serve_core(rt, post, alloc, core, output, clock, listener),
        Err(end) => return end,
    }
}

// Does all but the last line. The jobs are told the end.
fn work<
    R: Wait + Clone + Drop + Send + Sync + 'static,
    O: Sink,
    C: Clock + Drop + Send + 'static,
    L: Listener,
    P: Spawner,
>(
    rt: &R,
    alloc: Global,
    conf: ClientConf,
    output: &mut O,
    clock: &C,
    listener: &mut L,
    spawner: &mut P,
) -> ConsumeEnd
where
    L::L: Drop + Send + 'static,
    ensures stops { Stops conf (O.held output.old) (O.held output.new) result }
    ensures links { ComesByLinks result (L.done listener.new) (L.faults listener.old) (L.faults listener.new) }
    ensures output { ComesByOutput result (O.faults output.old) (O.faults output.new) }
    ensures jobs { ComesByJobs result (P.faults spawner.old) (P.faults spawner.new) }
{
    let mut core = ClientCore::new(conf);
    let Ok(post) = Post::new(alloc) else {
        return ConsumeEnd::NoMemory;
    };
    let end = begin_and_serve(
        rt, &post, alloc, &mut core, output, clock, listener, spawner,
    );
    post.end(rt);
    end
}

/// Takes records of a topic as a member of a share group, as many as the words say; writes a line for each to the
/// output, and acknowledges it then.
///
/// It starts three jobs and takes two links, one for heartbeats and one for fetches. A job has each link, writes the
/// requests and reads the replies; the third one turns the timer. A link that ends or fails is lost, and another one is
/// taken in its place. The jobs aren't waited for: each ends by itself once it has no reply to read.
///
/// What is written is what the core gives to be written, and for some ends a last line. At `Output` a front of that is
/// written. Whatever the end, records whose acknowledgement wasn't answered may be delivered again.
pub fn consume<
    R: Wait + Clone + Drop + Send + Sync + 'static,
    O: Sink,
    C: Clock + Drop + Send + 'static,
    L: Listener,
    P: Spawner,
>(
    rt: &R,
    alloc: Global,
    conf: ClientConf,
    output: &mut O,
    clock: &C,
    listener: &mut L,
    spawner: &mut P,
) -> ConsumeEnd
where
    L::L: Drop + Send + 'static,

    // The core's trace says whether the program ends and what was written.
    ensures consumes { Consumes conf (O.held output.old) (O.held output.new) result }

    // Else it ends only where no link was given, or where a count rose.
    ensures links { ComesByLinks result (L.done listener.new) (L.faults listener.old) (L.faults listener.new) }
    ensures output { ComesByOutput result (O.faults output.old) (O.faults output.new) }
    ensures jobs { ComesByJobs result (P.faults spawner.old) (P.faults spawner.new) }
{
    let end = work(rt, alloc, conf, output, clock, listener, spawner);
    finish(output, end)
}
