// A connection that is served through the passes of one worker.
ghost use Rattle.std.specs.Prelude.{◌≡◌, ◌≤◌, [], OnOk, OnErr, IfOk, true, false, ℕ, List, length};
ghost use Rattle.std.specs.Io.KnownBytes.{Consumes};
ghost use Rattle.edge_io.specs.Causes.{HasCause};
ghost use Rattle.topic_conf.specs.Configs.{ConfigParts};
ghost use Rattle.conn_core.specs.HostedShards.{IsHostedPart};
ghost use Rattle.conn_core.specs.Conns.{new_conn};
ghost use Rattle.conn_core.specs.Turning.{Awaits};
ghost use Rattle.conn_core.specs.declared.work.Work.TheVariants.{Closing};
ghost use Rattle.broker_locks.specs.Acting.{AreOf, HostsAll, StayOf};
ghost use Rattle.broker_run.specs.Serving.{Asked, Breaks, CanServe, HasEndCause, HasTurnCause, Interrupted, IsServed, Reached};
ghost use Rattle.broker_run.specs.Serving.{Fails, Received, Releases, Replied, Stopped, Talks, TurnsTo, scene_of};

use broker_locks::{Passes, Shared, do_part, wait_for};
use call_fold::Part;
use conn_core::{Conn, Next};
use edge_io::{Clock, Disk, Failed, Gate, GatePlace, Link, send_all};
use share_model::{CloseCause, NoMemory};
use std::alloc::Global;
use std::sync::Wait;
use topic_conf::Config;

// How many bytes are read at a time.
const PIECE: usize = 65536;

/// How serving a connection ended.
#[derive(Clone, Copy)]
pub enum Ended {
    /// The peer closed it.
    Peer,
    /// It was closed for this cause.
    Closed(CloseCause),
    /// A read failed.
    Read,
    /// A write failed.
    Write,
    /// No memory was found. What was done until then stands.
    NoMemory,
}

/// What a turn came to.
#[derive(Clone, Copy)]
pub enum Turned {
    Goes,
    Closes(Ended),
}

// Asks the shard of the part that the connection awaits, and gives the answer.
fn ask<R: Wait, C: Clock, D: Disk>(
    rt: &R,
    conf: &Config,
    shared: &Shared<D>,
    passes: &mut Passes<D>,
    conn: &mut Conn,
    part: Part,
    clock: &mut C,
) -> Result<(), NoMemory>
    requires of { AreOf shared.now passes.old }
    requires asked { Awaits (Next.Ask part) conn.old }
    requires hosted { IsHostedPart (length shared.now.parts) part }
    ensures stay { StayOf shared.now passes.old passes.new }
    ensures ok { OnOk result (Asked conf.now D.seen shared.now part
        conn.old conn.new passes.old passes.new (C.told clock.old) (C.told clock.new)) }
    ensures err { OnErr result (Stopped conf.now D.seen shared.now part
        conn.old conn.new passes.old passes.new (C.told clock.old) (C.told clock.new)) }
{
    let now = clock.now_ms();
    match do_part(rt, shared, passes, now, part) {
        Ok(answer) => conn.give(conf, answer),
        Err(fault) => Err(fault),
    }
}

// Waits where the connection wishes to, and asks the shard of the part that it awaits.
fn do_next<R: Wait, K: Link, C: Clock + Drop, G: Gate, D: Disk + Drop>(
    rt: &R,
    conf: &Config,
    shared: &Shared<D>,
    passes: &mut Passes<D>,
    number: u32,
    conn: &mut Conn,
    part: Part,
    link: &K,
    clock: &mut C,
    gate: &G,
) -> Result<(), NoMemory>
    requires of { AreOf shared.now passes.old }
    requires asked { Awaits (Next.Ask part) conn.old }
    requires hosted { IsHostedPart (length shared.now.parts) part }
    ensures stay { StayOf shared.now passes.old passes.new }
    ensures ok { OnOk result (Reached conf.now D.seen shared.now part (K.left link.now)
        conn.old conn.new passes.old passes.new (C.told clock.old) (C.told clock.new)) }
    ensures err { OnErr result (Interrupted conf.now D.seen shared.now part
        conn.old conn.new passes.old passes.new (C.told clock.old) (C.told clock.new)) }
{
    if let Some(wish) = conn.wait_wish() {
        match wait_for(rt, shared, passes, wish, link, clock) {
            Ok(()) => {}
            Err(fault) => return Err(fault),
        }
    }
    gate.at(GatePlace::Part { link: number });
    ask(rt, conf, shared, passes, conn, part, clock)
}

// Sends all finished replies.
fn reply<K: Link, G: Gate>(
    conn: &mut Conn,
    link: &mut K,
    number: u32,
    gate: &G,
) -> Result<(), Failed>
    ensures ok { OnOk result (
        ((conf : ConfigParts) → Replied conf conn.old conn.new (K.held link.old) (K.held link.new))
        × (conn.new.replies ≡ [])) }
    ensures err { OnErr result (
        (conf : ConfigParts) → Fails conf conn.old conn.new (K.held link.old) (K.held link.new)) }
    ensures same { (K.left link.new ≡ K.left link.old) × (K.ended link.new ≡ K.ended link.old) }
    ensures cause { HasCause (K.faults link.old) (K.faults link.new) result }
{
    while let Some(frame) = conn.take_reply() {
        if let Err(fault) = send_all(link, frame.as_slice()) {
            return Err(fault);
        }
        gate.at(GatePlace::Replied { link: number });
    }
    Ok(())
}

// Reads what comes next from the link, for a connection that waits. What the buffer has is any.
fn receive<K: Link>(
    conn: &mut Conn,
    link: &mut K,
    buffer: &mut [u8; PIECE],
) -> Result<Turned, NoMemory>
    ensures ok { IfOk result (λ turned. Received turned conn.old conn.new (K.left link.old) (K.left link.new)) }
    ensures err { OnErr result ((conn.new ≡ conn.old) × ((lost : List ℕ) × Consumes (K.left link.old) (K.left link.new) lost)) }
    ensures cause { IfOk result (λ turned.
        HasTurnCause turned (K.ended link.new) (K.left link.new) (K.faults link.old) (K.faults link.new)) }
    ensures same { K.held link.new ≡ K.held link.old }
    ensures later { K.faults link.old ≤ K.faults link.new }
{
    match link.read(buffer) {
        Ok(0) => {
            conn.end();
            Ok(Turned::Closes(Ended::Peer))
        }
        Ok(count) => {
            let (front, _) = buffer.split_at(count);
            match conn.feed(front) {
                Ok(()) => Ok(Turned::Goes),
                Err(fault) => Err(fault),
            }
        }
        Err(_) => {
            conn.end();
            Ok(Turned::Closes(Ended::Read))
        }
    }
}

// One turn of the connection, whose finished replies were written.
fn turn<R: Wait, K: Link, C: Clock + Drop, G: Gate, D: Disk + Drop>(
    rt: &R,
    conf: &Config,
    shared: &Shared<D>,
    passes: &mut Passes<D>,
    number: u32,
    conn: &mut Conn,
    link: &mut K,
    clock: &mut C,
    gate: &G,
    buffer: &mut [u8; PIECE],
) -> Result<Turned, NoMemory>
    requires ready { CanServe conf.now shared.now passes.old conn.old }
    requires answered { conn.old.replies ≡ [] }
    ensures stay { StayOf shared.now passes.old passes.new }
    ensures ok { IfOk result (λ turned. TurnsTo conf.now D.seen shared.now turned
        (scene_of K.left K.held C.told conn.old passes.old link.old clock.old)
        (scene_of K.left K.held C.told conn.new passes.new link.new clock.new)) }
    ensures err { OnErr result (Breaks conf.now D.seen shared.now
        (scene_of K.left K.held C.told conn.old passes.old link.old clock.old)
        (scene_of K.left K.held C.told conn.new passes.new link.new clock.new)) }
    ensures cause { IfOk result (λ turned.
        HasTurnCause turned (K.ended link.new) (K.left link.new) (K.faults link.old) (K.faults link.new)) }
    ensures later { K.faults link.old ≤ K.faults link.new }
{
    match conn.next_part(conf) {
        Ok(Next::Idle) => receive(conn, link, buffer),
        Ok(Next::Ask(part)) => {
            match do_next(
                rt, conf, shared, passes, number, conn, part, link, clock, gate,
            ) {
                Ok(()) => Ok(Turned::Goes),
                Err(fault) => Err(fault),
            }
        }
        Ok(Next::Closed(cause)) => Ok(Turned::Closes(Ended::Closed(cause))),
        Ok(Next::Ready) => Ok(Turned::Goes),
        Ok(Next::Gone) => Ok(Turned::Goes),
        Err(fault) => Err(fault),
    }
}

// Serves the connection until it closes.
fn talk<R: Wait, K: Link, C: Clock + Drop, G: Gate, D: Disk + Drop>(
    rt: &R,
    conf: &Config,
    shared: &Shared<D>,
    passes: &mut Passes<D>,
    number: u32,
    conn: &mut Conn,
    link: &mut K,
    clock: &mut C,
    gate: &G,
) -> Result<Ended, NoMemory>
    requires ready { CanServe conf.now shared.now passes.old conn.old }
    ensures stay { StayOf shared.now passes.old passes.new }
    ensures ok { IfOk result (λ ended. Talks conf.now D.seen shared.now ended
        (scene_of K.left K.held C.told conn.old passes.old link.old clock.old)
        (scene_of K.left K.held C.told conn.new passes.new link.new clock.new)) }
    ensures err { OnErr result (Breaks conf.now D.seen shared.now
        (scene_of K.left K.held C.told conn.old passes.old link.old clock.old)
        (scene_of K.left K.held C.told conn.new passes.new link.new clock.new)) }
    ensures cause { IfOk result (λ ended.
        HasEndCause ended (K.ended link.new) (K.left link.new) (K.faults link.old) (K.faults link.new)) }
    ensures later { K.faults link.old ≤ K.faults link.new }
{
    let mut buffer = [0; PIECE];
    for _ in rt.forever() {
        if let Err(_) = reply(conn, link, number, gate) {
            conn.end();
            return Ok(Ended::Write);
        }
        match turn(
            rt,
            conf,
            shared,
            passes,
            number,
            conn,
            link,
            clock,
            gate,
            &mut buffer,
        ) {
            Ok(Turned::Goes) => {}
            Ok(Turned::Closes(ended)) => return Ok(ended),
            Err(fault) => return Err(fault),
        }
    }
    unreachable!()
}

// Does what a connection that closes has left to do, until it is gone.
fn finish<R: Wait, C: Clock + Drop, G: Gate, D: Disk + Drop>(
    rt: &R,
    conf: &Config,
    shared: &Shared<D>,
    passes: &mut Passes<D>,
    number: u32,
    conn: &mut Conn,
    clock: &mut C,
    gate: &G,
) -> Result<(), NoMemory>
    requires ready { CanServe conf.now shared.now passes.old conn.old }
    requires closing { conn.old.work ≡ Closing }
    ensures stay { StayOf shared.now passes.old passes.new }
    ensures ok { OnOk result (Releases conf.now D.seen shared.now true
        conn.old conn.new passes.old passes.new (C.told clock.old) (C.told clock.new)) }
    ensures err { OnErr result (Releases conf.now D.seen shared.now false
        conn.old conn.new passes.old passes.new (C.told clock.old) (C.told clock.new)) }
{
    for _ in rt.forever() {
        match conn.next_part(conf) {
            Ok(Next::Ask(part)) => {
                gate.at(GatePlace::Part { link: number });
                if let Err(fault) = ask(rt, conf, shared, passes, conn, part, clock) {
                    return Err(fault);
                }
            }
            Ok(Next::Gone) => return Ok(()),
            Ok(_) => {}
            Err(fault) => return Err(fault),
        }
    }
    unreachable!()
}

// Serves a connection that has just come, by this configuration.
fn serve_new<R: Wait, D: Disk + Drop, K: Link, C: Clock + Drop, G: Gate>(
    rt: &R,
    conf: &Config,
    shared: &Shared<D>,
    passes: &mut Passes<D>,
    number: u32,
    conn: &mut Conn,
    link: &mut K,
    clock: &mut C,
    gate: &G,
) -> Ended
    requires of { AreOf shared.now passes.old }
    requires hosts { HostsAll conf.now shared.now }
    requires new { conn.old ≡ new_conn }
    ensures stay { StayOf shared.now passes.old passes.new }
    ensures served { IsServed conf.now D.seen shared.now passes.old passes.new (K.left link.old) (K.left link.new)
        (K.held link.old) (K.held link.new) (C.told clock.old) (C.told clock.new) result }
    ensures cause { HasEndCause result (K.ended link.new) (K.left link.new) (K.faults link.old) (K.faults link.new) }
    ensures later { K.faults link.old ≤ K.faults link.new }
{
    let Ok(ended) = talk(rt, conf, shared, passes, number, conn, link, clock, gate) else {
        return Ended::NoMemory;
    };
    match finish(rt, conf, shared, passes, number, conn, clock, gate) {
        Ok(()) => ended,
        Err(NoMemory) => Ended::NoMemory,
    }
}

// Serves one connection from its beginning, by this configuration.
fn serve<R: Wait, D: Disk + Drop, K: Link, C: Clock + Drop, G: Gate>(
    rt: &R,
    alloc: Global,
    conf: &Config,
    shared: &Shared<D>,
    passes: &mut Passes<D>,
    number: u32,
    link: &mut K,
    clock: &mut C,
    gate: &G,
) -> Ended
    requires of { AreOf shared.now passes.old }
    requires hosts { HostsAll conf.now shared.now }
    ensures stay { StayOf shared.now passes.old passes.new }
    ensures served { IsServed conf.now D.seen shared.now passes.old passes.new (K.left link.old) (K.left link.new)
        (K.held link.old) (K.held link.new) (C.told clock.old) (C.told clock.new) result }
    ensures cause { HasEndCause result (K.ended link.new) (K.left link.new) (K.faults link.old) (K.faults link.new) }
    ensures later { K.faults link.old ≤ K.faults link.new }
{
    let mut conn = Conn::open(alloc);
    let ended = serve_new(
        rt, conf, shared, passes, number, &mut conn, link, clock, gate,
    );
    drop(conn);
    ended
}

/// Serves the connection of a link, through these passes, until it has closed and what its members held is released.
///
/// The bytes that the link gives are fed to a connection that has just come. Each part that it asks is done by one
/// act of the pass of its shard, at a moment of its own, and its answer is given. A finished reply is written at
/// once. The link is read only where the connection is idle: no request is in hand, none can be taken up, and no
/// reply is left to be written. A fetch that may wait does so before its first part, as `wait_for` says. Where the peer ends or a call of the link fails, the releases are done all the same;
/// where no memory is found, the call ends there.
pub fn serve_connection<R: Wait, D: Disk + Drop, K: Link, C: Clock + Drop, G: Gate>(
    rt: &R,
    alloc: Global,
    broker: &Shared<D>,
    passes: &mut Passes<D>,
    number: u32,
    link: &mut K,
    clock: &mut C,
    gate: &G,
) -> Ended
    requires of { AreOf broker.now passes.old }
    requires hosts { HostsAll broker.now.conf broker.now }
    ensures stay { StayOf broker.now passes.old passes.new }
    ensures served { IsServed broker.now.conf D.seen broker.now passes.old passes.new (K.left link.old) (K.left link.new)
        (K.held link.old) (K.held link.new) (C.told clock.old) (C.told clock.new) result }
    ensures cause { HasEndCause result (K.ended link.new) (K.left link.new) (K.faults link.old) (K.faults link.new) }
    ensures later { K.faults link.old ≤ K.faults link.new }
{
    serve(
        rt,
        alloc,
        broker.conf(),
        broker,
        passes,
        number,
        link,
        clock,
        gate,
    )
}
