// The clients that are connected, each under the number of its connection.
ghost use Rattle.std.specs.Prelude.{◌≡◌, ◌≤◌, ◌^◌, ◌∷◌, ◌++◌, [], List, All, OnOk, OnErr, IfOk, length, if◌then◌else◌};
ghost use Rattle.std.specs.Map.{remove_entry};
ghost use Rattle.session_script.specs.declared.event.Outcome.{Outcome};
ghost use Rattle.session_script.specs.Output.{IsTold};
ghost use Rattle.topic_conf.specs.Topics.{partitions};
ghost use Rattle.conn_core.specs.Conns.{ConnParts, conn_after_bytes, without_replies, is_gone};
ghost use Rattle.conn_core.specs.Turning.{Awaits, turn};
ghost use Rattle.broker_model.specs.Machine.{Machine, named, opened, at_connection, conn_at, ended_in};
ghost use Rattle.broker_model.specs.Steps.{Does, DoesTurn, Serves, replies_to};
ghost use Rattle.broker_hosts.specs.Hosts.{AreApart, AreOpen, parts_of};
ghost use Rattle.broker_core.specs.Calls.{HaltsBy, LeadsBy, StaysOpen};

use crate::hosts::act;
use crate::told::{fault_of_visit, told, visit_of};
use broker_hosts::Hosts;
use conn_core::{Conn, Next, Part};
use edge_io::Disk;
use session_script::Outcome;
use share_model::NoMemory;
use std::alloc::Global;
use std::collections::BTreeMap;
use topic_conf::Config;

pub fn one(alloc: Global, outcome: Outcome) -> Result<Vec<Outcome>, NoMemory>
    ensures { IfOk result (λ outcomes. outcomes.items ≡ outcome ∷ []) }
{
    let mut outcomes = Vec::new(alloc);
    outcomes.push(outcome)?;
    Ok(outcomes)
}

// The finished replies are sent.
#[tactic(auto, using(crate::proofs::Stepping::none_waiting))]
fn replies(id: u32, conn: &mut Conn, outcomes: &mut Vec<Outcome>) -> Result<(), NoMemory>
    ensures told { OnOk result (outcomes.new.items ≡ outcomes.old.items ++ replies_to id conn.old) }
    ensures conn { OnOk result (conn.new ≡ without_replies conn.old) }
{
    while let Some(frame) = conn.take_reply() {
        outcomes.push(Outcome::Reply { conn: id, frame })?;
    }
    Ok(())
}

// The part that the connection asks is done.
fn ask<D: Disk>(
    alloc: Global,
    conf: &Config,
    id: u32,
    now: u64,
    part: Part,
    conn: &mut Conn,
    hosts: &mut Hosts<D>,
) -> Result<Vec<Outcome>, NoMemory>
    requires asked { Awaits (Next.Ask part) conn.old }
    requires now { now ≤ 2 ^ 62 }
    requires open { AreOpen (parts_of hosts.old) }
    requires apart { AreApart (parts_of hosts.old) }
    requires hosted { length hosts.old.parts.items ≡ partitions conf.now.topics }
    ensures ok { IfOk result (λ outcomes. LeadsBy D.seen (parts_of hosts.old) (parts_of hosts.new)
        (λ counts ends a call b. Does counts ends id now (Next.Ask part) conn.old a b call outcomes.items conn.new)) }
    ensures stopped { OnErr result (HaltsBy D.seen (parts_of hosts.old) (parts_of hosts.new)
        (λ counts ends a call b. (outcomes : List Outcome) × (after : ConnParts)
        × Does counts ends id now (Next.Ask part) conn.old a b call outcomes after)) }
    ensures told { IfOk result (λ outcomes. All (IsTold conf.now.topics) outcomes.items) }
    ensures stays { StaysOpen D.seen (parts_of hosts.old) (parts_of hosts.new) }
{
    let visit = visit_of(&part);
    let answer = act(alloc, now, part, hosts)?;
    let mut outcomes = told(alloc, fault_of_visit(visit, &answer))?;
    conn.give(conf, answer)?;
    replies(id, conn, &mut outcomes)?;
    Ok(outcomes)
}

// What the connection tells is done.
fn done<D: Disk>(
    alloc: Global,
    conf: &Config,
    id: u32,
    now: u64,
    next: Next,
    conn: &mut Conn,
    hosts: &mut Hosts<D>,
) -> Result<Vec<Outcome>, NoMemory>
    requires asked { Awaits next conn.old }
    requires now { now ≤ 2 ^ 62 }
    requires open { AreOpen (parts_of hosts.old) }
    requires apart { AreApart (parts_of hosts.old) }
    requires hosted { length hosts.old.parts.items ≡ partitions conf.now.topics }
    ensures ok { IfOk result (λ outcomes. LeadsBy D.seen (parts_of hosts.old) (parts_of hosts.new)
        (λ counts ends a call b. Does counts ends id now next conn.old a b call outcomes.items conn.new)) }
    ensures stopped { OnErr result (HaltsBy D.seen (parts_of hosts.old) (parts_of hosts.new)
        (λ counts ends a call b. (outcomes : List Outcome) × (after : ConnParts)
        × Does counts ends id now next conn.old a b call outcomes after)) }
    ensures told { IfOk result (λ outcomes. All (IsTold conf.now.topics) outcomes.items) }
    ensures stays { StaysOpen D.seen (parts_of hosts.old) (parts_of hosts.new) }
{
    match next {
        Next::Ask(part) => ask(alloc, conf, id, now, part, conn, hosts),
        Next::Ready => {
            let mut outcomes = Vec::new(alloc);
            replies(id, conn, &mut outcomes)?;
            Ok(outcomes)
        }
        Next::Closed(cause) => one(alloc, Outcome::Closed { conn: id, cause }),
        Next::Idle | Next::Gone => Ok(Vec::new(alloc)),
    }
}

// One step of a client: one part, or the answer to a request that asks none, or the end. Beside the outcomes it tells
// whether the client is gone.
fn step<D: Disk>(
    alloc: Global,
    conf: &Config,
    id: u32,
    now: u64,
    conn: &mut Conn,
    hosts: &mut Hosts<D>,
) -> Result<(Vec<Outcome>, bool), NoMemory>
    requires now { now ≤ 2 ^ 62 }
    requires open { AreOpen (parts_of hosts.old) }
    requires apart { AreApart (parts_of hosts.old) }
    requires hosted { length hosts.old.parts.items ≡ partitions conf.now.topics }
    ensures ok { IfOk result (λ did. LeadsBy D.seen (parts_of hosts.old) (parts_of hosts.new)
        (λ counts ends a call b. DoesTurn counts ends id now (turn conf.now conn.old) a b call did.0.items conn.new)) }
    ensures stopped { OnErr result (HaltsBy D.seen (parts_of hosts.old) (parts_of hosts.new)
        (λ counts ends a call b. (outcomes : List Outcome) × (after : ConnParts)
        × DoesTurn counts ends id now (turn conf.now conn.old) a b call outcomes after)) }
    ensures told { IfOk result (λ did. All (IsTold conf.now.topics) did.0.items) }
    ensures gone { IfOk result (λ did. did.1 ≡ is_gone conn.new) }
    ensures stays { StaysOpen D.seen (parts_of hosts.old) (parts_of hosts.new) }
{
    let next = conn.next_part(conf)?;
    let outcomes = done(alloc, conf, id, now, next, conn, hosts)?;
    Ok((outcomes, conn.is_gone()))
}

// A client that is gone is removed.
fn let_go(gone: bool, id: u32, clients: &mut BTreeMap<u32, Conn>)
    ensures { clients.new.entries ≡ (if gone then remove_entry (named id) clients.old.entries else clients.old.entries) }
{
    if gone {
        drop(clients.remove(&id));
    }
}

/// The client of this number does one step, if it is connected.
pub fn serve<D: Disk>(
    alloc: Global,
    conf: &Config,
    id: u32,
    now: u64,
    clients: &mut BTreeMap<u32, Conn>,
    hosts: &mut Hosts<D>,
) -> Result<Vec<Outcome>, NoMemory>
    requires now { now ≤ 2 ^ 62 }
    requires open { AreOpen (parts_of hosts.old) }
    requires apart { AreApart (parts_of hosts.old) }
    requires hosted { length hosts.old.parts.items ≡ partitions conf.now.topics }
    ensures ok { IfOk result (λ outcomes. LeadsBy D.seen (parts_of hosts.old) (parts_of hosts.new)
        (λ counts ends a call b. Serves conf.now counts ends (record { connections = clients.old.entries; shards = a }) id now
        (conn_at id clients.old.entries) call outcomes.items (record { connections = clients.new.entries; shards = b }))) }
    ensures stopped { OnErr result (HaltsBy D.seen (parts_of hosts.old) (parts_of hosts.new)
        (λ counts ends a call b. (outcomes : List Outcome) × (after : Machine) × (after.shards ≡ b)
        × Serves conf.now counts ends (record { connections = clients.old.entries; shards = a }) id now
        (conn_at id clients.old.entries) call outcomes after)) }
    ensures told { IfOk result (λ outcomes. All (IsTold conf.now.topics) outcomes.items) }
    ensures stays { StaysOpen D.seen (parts_of hosts.old) (parts_of hosts.new) }
{
    let Some(conn) = clients.get_mut(&id) else {
        return Ok(Vec::new(alloc));
    };
    let (outcomes, gone) = step(alloc, conf, id, now, conn, hosts)?;
    let_go(gone, id, clients);
    Ok(outcomes)
}

/// A client connects, unless one of this number is connected.
pub fn connect(alloc: Global, id: u32, clients: &mut BTreeMap<u32, Conn>) -> Result<(), NoMemory>
    ensures { OnOk result (clients.new.entries ≡ opened id clients.old.entries) }
{
    if clients.contains_key(&id) {
        return Ok(());
    }
    match clients.insert(id, Conn::open(alloc)) {
        Ok(before) => {
            drop(before);
            Ok(())
        }
        Err(_) => Err(NoMemory),
    }
}

/// Bytes come from the client of this number, if there is one.
pub fn send(id: u32, bytes: &[u8], clients: &mut BTreeMap<u32, Conn>) -> Result<(), NoMemory>
    ensures { OnOk result (clients.new.entries ≡ at_connection id (conn_after_bytes bytes.now) clients.old.entries) }
{
    match clients.get_mut(&id) {
        None => Ok(()),
        Some(conn) => conn.feed(bytes),
    }
}

/// The client of this number closes its connection.
pub fn disconnect(id: u32, clients: &mut BTreeMap<u32, Conn>)
    ensures { clients.new.entries ≡ ended_in id (conn_at id clients.old.entries) clients.old.entries }
{
    if let Some(conn) = clients.get_mut(&id) {
        conn.end();
        let gone = conn.is_gone();
        let_go(gone, id, clients);
    }
}
