// Armed faults, by the names of disks.
ghost use Rattle.std.specs.Prelude.{◌≡◌, ◌↔◌, IsTrue, IfSome, MatchOption};
ghost use Rattle.edge_io.specs.Names.{IsTextPlace, IsTopicName, hosted_name};
ghost use Rattle.broker_model.specs.Hosted.{HoldsAt, disks_of, part_disks};
ghost use Rattle.broker_model.specs.Shards.{Shards};
ghost use Rattle.broker_hosts.specs.Hosts.{AreApart, AreCarried, AreNamed, AreOpen, IsOpen, IsOpenState, NotIn, hosted_slot, hosted_slots, parts_of};
ghost use Rattle.broker_core.specs.Calls.{ArmsSlot, StaysOpen};
ghost use Rattle.broker_core.specs.Cores.{IsArmed};
ghost use Rattle.broker_core.specs.Foreign.{ArmsForeign};

use broker_hosts::{ForeignSlot, Hosts, PartSlot, PartState, disk_name};
use edge_io::{Disk, DiskName, DiskPlace, FaultMode};

fn arm_part<D: Disk>(place: DiskPlace, after: u64, mode: FaultMode, slot: &mut PartSlot<D>)
    requires open { IsOpenState slot.old.state }
    requires of_text { IsTextPlace place }
    ensures { ArmsSlot D.seen place after mode slot.old slot.new }
{
    match &mut slot.state {
        PartState::Open(part) => part.arm(place, after, mode),
        _ => unreachable!(),
    }
}

// Arms a fault of the disk of this name, if foreign state has it.
fn arm_foreign<D: Disk>(disk: &DiskName, after: u64, mode: FaultMode, slot: &mut ForeignSlot<D>)
    requires { IsOpen slot.old }
    ensures { ArmsForeign D.seen disk.now after mode slot.old slot.new }
{
    match slot {
        ForeignSlot::Open(shard) => {
            if disk.as_bytes() == DiskName::foreign_state_a().as_bytes() {
                shard.arm(DiskPlace::StateA, after, mode);
            } else if disk.as_bytes() == DiskName::foreign_state_b().as_bytes() {
                shard.arm(DiskPlace::StateB, after, mode);
            }
        }
        _ => unreachable!(),
    }
}

fn is_disk_of<D: Disk>(disk: &DiskName, slot: &PartSlot<D>, place: DiskPlace) -> bool
    requires { IsTopicName slot.now.topic }
    ensures { IsTrue result ↔ (hosted_name slot.now.topic slot.now.conf.part place ≡ disk.now) }
{
    disk_name(&slot.topic, &slot.conf, place).as_bytes() == disk.as_bytes()
}

// Which of a partition's three disks has this name.
fn place_in<D: Disk>(disk: &DiskName, slot: &PartSlot<D>) -> Option<DiskPlace>
    requires { IsTopicName slot.now.topic }
    ensures at { MatchOption result (NotIn (disks_of (hosted_slot slot.now)) disk.now)
        (λ place. hosted_name slot.now.topic slot.now.conf.part place ≡ disk.now) }
    ensures of_text { IfSome result (λ place. IsTextPlace place) }
{
    if is_disk_of(disk, slot, DiskPlace::Log) {
        return Some(DiskPlace::Log);
    }
    if is_disk_of(disk, slot, DiskPlace::StateA) {
        return Some(DiskPlace::StateA);
    }
    if is_disk_of(disk, slot, DiskPlace::StateB) {
        return Some(DiskPlace::StateB);
    }
    None
}

// Which slot has the disk of this name, and as which of its three.
fn place_of<D: Disk>(disk: &DiskName, parts: &[PartSlot<D>]) -> Option<(usize, DiskPlace)>
    requires { AreNamed (hosted_slots parts.now) }
    ensures at { MatchOption result (NotIn (part_disks (hosted_slots parts.now)) disk.now)
        (λ found. HoldsAt found.0 (λ s. hosted_name s.topic s.conf.part found.1 ≡ disk.now) parts.now) }
    ensures of_text { IfSome result (λ found. IsTextPlace found.1) }
{
    let mut number = 0;
    let mut rest = parts;
    while let Some((slot, others)) = rest.split_first() {
        if let Some(place) = place_in(disk, slot) {
            return Some((number, place));
        }
        number += 1;
        rest = others;
    }
    None
}

/// Arms a fault of the disk of this name, if a shard has it.
pub fn arm<D: Disk>(disk: &DiskName, after: u64, mode: FaultMode, hosts: &mut Hosts<D>)
    requires open { AreOpen (parts_of hosts.old) }
    requires apart { AreApart (parts_of hosts.old) }
    requires named { AreNamed (hosted_slots hosts.old.parts.items) }
    ensures ok { (s : Shards) → AreCarried D.seen (parts_of hosts.old) s →
        IsArmed D.seen disk.now after mode (parts_of hosts.old) s (parts_of hosts.new) }
    ensures stays { StaysOpen D.seen (parts_of hosts.old) (parts_of hosts.new) }
{
    match place_of(disk, &hosts.parts) {
        Some((number, place)) => arm_part(place, after, mode, &mut hosts.parts[number]),
        None => arm_foreign(disk, after, mode, &mut hosts.foreign),
    }
}
