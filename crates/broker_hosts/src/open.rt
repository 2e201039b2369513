// All shards are opened on the disks of a bay, and their disks put back.
ghost use Rattle.std.specs.Prelude.{◌≡◌, ◌⊎◌, ◌≤◌, [], List, ℕ, true, false, IfOk, IfErr};
ghost use Rattle.edge_io.specs.Bays.{SameSlot};
ghost use Rattle.topic_conf.specs.Topics.{IsTopicList};
ghost use Rattle.broker_model.specs.Hosted.{IsOneOf, IsTaken};
ghost use Rattle.broker_hosts.specs.Hosts.{AreApart, AreHeld, AreNamed, all_names, hosted_slots, parts_of};
ghost use Rattle.broker_hosts.specs.Bays.{AreOpened, AreOut, AreRefused, IsOfDevice, TellsStill};
ghost use Rattle.broker_hosts.specs.Taking.{RefusesAll, TakesAll, PutsAllBack};

use crate::bay::{hosted_parts, put_foreign_back, put_parts_back, take_foreign, take_parts};
use crate::fault::CoreOpen;
use crate::hosts::Hosts;
use broker_shards::MembersHost;
use edge_io::{Bay, Disk};
use share_members::GroupShard;
use std::alloc::Global;
use topic_conf::Config;

// Takes and opens all shards.
fn take_hosts<D: Disk + Drop, B: Bay<D = D>>(
    alloc: Global,
    bay: &mut B,
    conf: &Config,
) -> Result<Hosts<D>, CoreOpen>
    requires { AreOut B.seen [] bay.old }
    ensures ok { IfOk result (λ hosts. TakesAll B.seen D.seen
        conf.now bay.old (parts_of hosts) bay.new) }
    ensures err { IfErr result (λ e. RefusesAll B.seen D.seen
        conf.now e bay.old bay.new) }
    ensures list { IsTopicList conf.now.topics }
{
    let Ok(hosted) = hosted_parts(alloc, conf) else {
        return Err(CoreOpen::NoMemory);
    };
    let Ok(members) = GroupShard::new(alloc, conf) else {
        return Err(CoreOpen::NoMemory);
    };
    let parts = take_parts(alloc, bay, hosted)?;
    match take_foreign(alloc, bay) {
        Ok(foreign) => Ok(Hosts {
            parts,
            members: MembersHost { members },
            foreign,
        }),
        Err(fault) => {
            put_parts_back(parts, bay);
            Err(fault)
        }
    }
}

// What is told of a start that was refused: want of memory in place of a fault of a device or of the bay, where the
// bay has found none.
fn told_of<B: Bay>(bay: &B, fault: CoreOpen) -> CoreOpen
    ensures told { (result ≡ fault) ⊎ (result ≡ CoreOpen.NoMemory) }
    ensures fed { IsOfDevice result → (B.seen bay.now).starved ≡ false }
{
    let starved = bay.starved();
    match fault {
        CoreOpen::Device if starved => CoreOpen::NoMemory,
        CoreOpen::Bay if starved => CoreOpen::NoMemory,
        told => told,
    }
}

/// Takes the broker's disks from the bay, and opens its shards: those that the disks stand for, with nothing pending,
/// and of no member. The hosted partitions come first, in the order of the configuration, and foreign state last.
///
/// After a refusal each disk is back in the bay.
pub fn open_hosts<D: Disk + Drop, B: Bay<D = D>>(
    alloc: Global,
    bay: &mut B,
    conf: &Config,
) -> Result<Hosts<D>, CoreOpen>
    requires { AreOut B.seen [] bay.old }
    ensures opened { IfOk result (λ hosts. AreOpened B.seen D.seen conf.now bay.old (parts_of hosts) bay.new) }
    // Each refusal has its cause.
    ensures refused { IfErr result (λ e. AreRefused B.seen D.seen conf.now bay.old e bay.new) }
    // A disk that isn't the broker's is as it was.
    ensures others { (name : List ℕ) → (IsTaken conf.now name → ⊥) → SameSlot B.seen name bay.old bay.new }
    ensures later { (B.seen bay.old).faults ≤ (B.seen bay.new).faults }
    ensures told { TellsStill B.seen bay.old bay.new }
{
    match take_hosts(alloc, bay, conf) {
        Ok(hosts) => Ok(hosts),
        Err(fault) => Err(told_of(bay, fault)),
    }
}

/// Puts the disks of all shards back.
pub fn put_hosts_back<D: Disk + Drop, B: Bay<D = D>>(hosts: Hosts<D>, bay: &mut B)
    requires named { AreNamed (hosted_slots (parts_of hosts).parts) }
    requires held { AreHeld (parts_of hosts) }
    requires apart { AreApart (parts_of hosts) }
    requires out { (name : List ℕ) → IsOneOf (all_names (hosted_slots (parts_of hosts).parts)) name → (B.seen bay.old).out name ≡ true }
    ensures { PutsAllBack B.seen D.seen (parts_of hosts) bay.old bay.new }
{
    let Hosts { parts, foreign, .. } = hosts;
    put_parts_back(parts, bay);
    put_foreign_back(foreign, bay);
}
