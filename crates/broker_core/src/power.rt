// Power losses: all disks lose their power, and each shard is opened again.
ghost use Rattle.std.specs.Prelude.{◌≡◌, ◌≢◌, ◌-◌, IfErr, OnOk, Err};
ghost use Rattle.std.specs.List.{AllZip};
ghost use Rattle.edge_io.specs.Names.{IsTopicName};
ghost use Rattle.broker_model.specs.Shards.{Shards};
ghost use Rattle.broker_hosts.specs.Hosts.{AreApart, AreCarried, AreHeld, AreNamed, AreOpen, AreOpenParts, IsOpen, IsOpenState, LogsReach, StandStill, disks_in, ends_in, hosted_slots, parts_of};
ghost use Rattle.broker_core.specs.Calls.{GoOn, OneRose, StaysHosted};
ghost use Rattle.broker_core.specs.Restarts.{ReopensSlot, ShutsSlot, StopsAt};
ghost use Rattle.broker_core.specs.Cores.{AreReopened};
ghost use Rattle.broker_core.specs.Foreign.{ReopensForeign, ShutsForeign};

use crate::fault::{CoreFault, told};
use crate::part::restart_part;
use crate::shard::restart;
use broker_hosts::{CoreOpen, ForeignSlot, Hosts, PartSlot, PartState};
use broker_shards::MembersHost;
use edge_io::Disk;
use share_members::GroupShard;
use std::alloc::Global;
use std::mem;
use topic_conf::Config;

fn lose_part<D: Disk + Drop>(
    alloc: Global,
    choice: u64,
    slot: &mut PartSlot<D>,
) -> Result<(), CoreFault>
    requires open { IsOpenState slot.old.state }
    requires named { IsTopicName slot.old.topic }
    ensures ok { OnOk result (ReopensSlot D.seen choice slot.old slot.new) }
    ensures stopped { IfErr result (λ e. ShutsSlot D.seen e slot.old slot.new) }
{
    match mem::replace(&mut slot.state, PartState::Gone) {
        PartState::Open(part) => match restart_part(alloc, &slot.topic, slot.conf, part, choice) {
            Ok(part) => {
                slot.state = PartState::Open(part);
                Ok(())
            }
            Err((disks, fault)) => {
                let (log, first, second) = disks;
                slot.state = PartState::Shut(log, first, second);
                Err(told(fault))
            }
        },
        _ => unreachable!(),
    }
}

// Loses the power of each partition's disks, and opens them again, one partition after another.
fn lose_parts<D: Disk + Drop>(
    alloc: Global,
    choice: u64,
    parts: &mut Vec<PartSlot<D>>,
) -> Result<(), CoreFault>
    requires open { AreOpenParts parts.old.items }
    requires named { AreNamed (hosted_slots parts.old.items) }
    ensures ok { OnOk result (AllZip (ReopensSlot D.seen choice)
        parts.old.items parts.new.items) }
    ensures stopped { IfErr result (λ e.
        StopsAt D.seen choice e parts.old.items parts.new.items) }
{
    let mut place = 0;
    'parts: while place < parts.len() {
        lose_part(alloc, choice, &mut parts[place])?;
        place += 1;
    }
    Ok(())
}

fn lose_foreign<D: Disk + Drop>(
    alloc: Global,
    choice: u64,
    slot: &mut ForeignSlot<D>,
) -> Result<(), CoreFault>
    requires { IsOpen slot.old }
    ensures ok { OnOk result (ReopensForeign D.seen choice slot.old slot.new) }
    ensures stopped { IfErr result (λ e. ShutsForeign D.seen e slot.old slot.new) }
{
    match mem::replace(slot, ForeignSlot::Gone) {
        ForeignSlot::Open(shard) => match restart(alloc, shard, choice) {
            Ok(shard) => {
                *slot = ForeignSlot::Open(shard);
                Ok(())
            }
            Err((first, second, fault)) => {
                *slot = ForeignSlot::Shut(first, second);
                Err(told(fault))
            }
        },
        _ => unreachable!(),
    }
}

/// Loses the power of all disks, and opens each shard again. No group has a member then.
pub fn lose_power<D: Disk + Drop>(
    alloc: Global,
    conf: &Config,
    choice: u64,
    hosts: &mut Hosts<D>,
) -> Result<(), CoreFault>
    requires open { AreOpen (parts_of hosts.old) }
    requires apart { AreApart (parts_of hosts.old) }
    requires named { AreNamed (hosted_slots hosts.old.parts.items) }
    requires topics { hosts.old.members.members.topics ≡ conf.now.topics }
    ensures ok { OnOk result ((s : Shards) → AreCarried D.seen (parts_of hosts.old) s →
        AreReopened D.seen choice (parts_of hosts.old) s (parts_of hosts.new)) }
    ensures stopped { IfErr result (λ e. (s : Shards) → AreCarried D.seen (parts_of hosts.old) s →
        StandStill D.seen s (disks_in (parts_of hosts.new))
        × LogsReach D.seen (disks_in (parts_of hosts.new)) (λ name. ends_in (parts_of hosts.old) name - 1) × (e ≡ CoreFault.NoMemory)) }
    ensures device { result ≡ Err (CoreFault.Reopen CoreOpen.Device) →
        OneRose D.seen (disks_in (parts_of hosts.old)) (disks_in (parts_of hosts.new)) }
    ensures never { (f : CoreOpen) → result ≡ Err (CoreFault.Reopen f) → (f ≢ CoreOpen.Bay) × (f ≢ CoreOpen.NoMemory) }
    ensures disks { GoOn D.seen (disks_in (parts_of hosts.old)) (disks_in (parts_of hosts.new)) }
    ensures open { OnOk result (AreOpen (parts_of hosts.new)) }
    ensures held { AreHeld (parts_of hosts.new) }
    ensures stays { StaysHosted (parts_of hosts.old) (parts_of hosts.new) }
{
    let members = GroupShard::new(alloc, conf)?;
    lose_parts(alloc, choice, &mut hosts.parts)?;
    lose_foreign(alloc, choice, &mut hosts.foreign)?;
    hosts.members = MembersHost { members };
    Ok(())
}
