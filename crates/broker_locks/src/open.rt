// The locks around a broker's shards, opened on the disks of a bay.
ghost use Rattle.std.specs.List.{AllByRecursion};
ghost use Rattle.std.specs.Prelude.{◌≡◌, ◌<◌, ◌≤◌, ◌⊎◌, [], List, ℕ, IfErr, IfOk, map};
ghost use Rattle.edge_io.specs.Bays.{SameSlot};
ghost use Rattle.broker_model.specs.Hosted.{IsTaken};
ghost use Rattle.broker_hosts.specs.Bays.{AreOut, TellsStill};
ghost use Rattle.broker_hosts.specs.Hosts.{AreOpen, AreOpenParts, IsOpen, IsOpenState, IsWhole, parts_of};
ghost use Rattle.broker_hosts.specs.declared.slot.ForeignSlot.TheVariants as foreign;
ghost use Rattle.broker_locks.specs.Opening.{AreWhole, IsOpening, IsRefused, hosts_of, slot_of};
ghost use Rattle.broker_locks.specs.Rows.{AreAll, IsUnused, shards_of};
ghost use Rattle.broker_locks.specs.Shared.{first_shards};

use crate::shared::{Passes, ShardSet, Shared, lock_shards};
use broker_hosts::{CoreOpen, ForeignSlot, Hosts, PartSlot, PartState, open_hosts};
use broker_shards::{ForeignHost, PartHost};
use edge_io::{Bay, Disk};
use share_model::NoMemory;
use std::alloc::Global;
use topic_conf::Config;

// The shard of a partition, as a lock guards it.
fn part_of<D: Disk + Drop>(alloc: Global, slot: PartSlot<D>) -> PartHost<D>
    requires { IsOpenState slot.state }
    ensures { slot_of result ≡ slot }
{
    let PartSlot { topic, conf, state } = slot;
    match state {
        PartState::Open(part) => PartHost {
            topic,
            conf,
            part,
            alloc,
        },
        _ => unreachable!(),
    }
}

// The shards of all partitions.
fn parts_in<D: Disk + Drop>(
    alloc: Global,
    slots: Vec<PartSlot<D>>,
) -> Result<Vec<PartHost<D>>, NoMemory>
    requires { AreOpenParts slots.items }
    ensures { IfOk result (λ hosts. map slot_of hosts.items ≡ slots.items) }
{
    let mut hosts = Vec::with_capacity(alloc, slots.len())?;
    for slot in slots {
        hosts.push(part_of(alloc, slot))?;
    }
    Ok(hosts)
}

// The shard of foreign state, as a lock guards it.
fn foreign_of<D: Disk + Drop>(slot: ForeignSlot<D>) -> ForeignHost<D>
    requires { IsOpen slot }
    ensures { foreign.Open result.foreign ≡ slot }
{
    match slot {
        ForeignSlot::Open(foreign) => ForeignHost { foreign },
        _ => unreachable!(),
    }
}

// All shards.
fn shards_in<D: Disk + Drop>(alloc: Global, hosts: Hosts<D>) -> Result<ShardSet<D>, NoMemory>
    requires { AreOpen (parts_of hosts) }
    ensures { IfOk result (λ shards. hosts_of (shards_of shards) ≡ parts_of hosts) }
{
    let Hosts {
        parts,
        members,
        foreign,
    } = hosts;
    let parts = parts_in(alloc, parts)?;
    Ok(ShardSet {
        parts,
        members,
        foreign: foreign_of(foreign),
    })
}

// A lock around each shard that was just opened, and so many passes. Where no memory is found the disks are dropped.
fn lock_hosts<D: Disk + Drop>(
    alloc: Global,
    conf: Config,
    hosts: Hosts<D>,
    seats: u32,
) -> Result<(Shared<D>, Vec<Passes<D>>), CoreOpen>
    requires open { AreOpen (parts_of hosts) }
    requires whole { IsWhole conf (parts_of hosts) }
    requires some { 0 < seats }
    ensures locks { IfOk result (λ r. hosts_of (first_shards r.0) ≡ parts_of hosts) }
    ensures whole { IfOk result (λ r. (r.0.conf ≡ conf) × AreWhole conf (first_shards r.0)) }
    ensures passes { IfOk result (λ r. AreAll r.0 seats r.1.items) }
    ensures unused { IfOk result (λ r. AllByRecursion IsUnused r.1.items) }
    ensures memory { IfErr result (λ e. e ≡ CoreOpen.NoMemory) }
{
    let Ok(shards) = shards_in(alloc, hosts) else {
        return Err(CoreOpen::NoMemory);
    };
    let Ok(locked) = lock_shards(alloc, conf, shards, seats) else {
        return Err(CoreOpen::NoMemory);
    };
    Ok(locked)
}

/// Takes the broker's disks from the bay, opens its shards, and makes a lock around each, with so many passes: those
/// that the disks stand for, with nothing pending, to which nobody is connected.
///
/// After a refusal other than for want of memory each disk is back in the bay. Where no memory is found, disks may be
/// dropped.
pub fn open_shared<D: Disk + Drop, B: Bay<D = D>>(
    alloc: Global,
    bay: &mut B,
    conf: Config,
    seats: u32,
) -> Result<(Shared<D>, Vec<Passes<D>>), CoreOpen>
    requires out { AreOut B.seen [] bay.old }
    requires some { 0 < seats }
    ensures opens { IfOk result (λ r. (r.0.conf ≡ conf) × IsOpening B.seen D.seen conf bay.old bay.new (first_shards r.0)) }
    ensures passes { IfOk result (λ r. AreAll r.0 seats r.1.items) }
    ensures unused { IfOk result (λ r. AllByRecursion IsUnused r.1.items) }
    // Each refusal has its cause.
    ensures refused { IfErr result (λ e. IsRefused B.seen D.seen conf bay.old e bay.new) }
    // A disk that isn't the broker's is as it was.
    ensures others { (name : List ℕ) → (IsTaken conf name → ⊥) → SameSlot B.seen name bay.old bay.new }
    ensures later { (B.seen bay.old).faults ≤ (B.seen bay.new).faults }
    ensures told { TellsStill B.seen bay.old bay.new }
{
    match open_hosts(alloc, bay, &conf) {
        Ok(hosts) => lock_hosts(alloc, conf, hosts, seats),
        Err(fault) => Err(fault),
    }
}
