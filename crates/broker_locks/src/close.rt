// The locks around a broker's shards are closed, and its disks put back.
ghost use Rattle.std.specs.Prelude.{◌≡◌, ◌<◌, List, ℕ, map, true};
ghost use Rattle.std.specs.List.{AllByRecursion, AllZip};
ghost use Rattle.broker_model.specs.Hosted.{IsOneOf, disks_of, part_disks};
ghost use Rattle.broker_hosts.specs.Hosts.{AreDistinct, AreNamed, IsNamed, hosted_slot, hosted_slots, slot_disks, slots_disks};
ghost use Rattle.broker_hosts.specs.Taking.{PutsAll};
ghost use Rattle.broker_shards.specs.Acts.{ActsPart};
ghost use Rattle.broker_shards.specs.Hosts.{Host};
ghost use Rattle.broker_locks.specs.Closing.{Closes};
ghost use Rattle.broker_locks.specs.Opening.{AreWhole, names_in, slot_of};
ghost use Rattle.broker_locks.specs.Rows.{AreAll, AreEnded, StandsFor};
ghost use Rattle.broker_locks.specs.Shared.{first_shards};

use crate::shared::{Passes, Shared, gather};
use broker_hosts::{ForeignSlot, PartSlot, PartState, put_foreign_back, put_part_back};
use broker_shards::{ForeignHost, PartHost};
use edge_io::{Bay, Disk};
use shard_lock::{Pass, ShardLock};

// Puts the disks of a partition back.
fn put_back<D: Disk + Drop, B: Bay<D = D>>(host: PartHost<D>, bay: &mut B)
    requires named { IsNamed (hosted_slot (slot_of host)) }
    requires apart { AreDistinct (disks_of (hosted_slot (slot_of host))) }
    requires out { (name : List ℕ) → IsOneOf (disks_of (hosted_slot (slot_of host))) name → (B.seen bay.old).out name ≡ true }
    ensures { PutsAll B.seen D.seen (slot_disks (slot_of host)) bay.old bay.new }
{
    let PartHost {
        topic,
        conf,
        part,
        ..
    } = host;
    let slot = PartSlot {
        topic,
        conf,
        state: PartState::Open(part),
    };
    put_part_back(slot, bay);
}

// Closes the locks of partitions, whose passes stand for all, and puts the disks of each partition back.
fn close_parts<D: Disk + Drop, B: Bay<D = D>>(
    locks: Vec<ShardLock<PartHost<D>>>,
    passes: Vec<Pass<PartHost<D>>>,
    bay: &mut B,
)
    requires all { (seats : _) × AllZip (StandsFor seats) locks.items passes.items × AllByRecursion (λ l. l.seats ≡ seats) locks.items }
    requires named { AreNamed (hosted_slots (map (λ l. slot_of l.first) locks.items)) }
    requires apart { AreDistinct (part_disks (hosted_slots (map (λ l. slot_of l.first) locks.items))) }
    requires out { (name : List ℕ) → IsOneOf (part_disks (hosted_slots (map (λ l. slot_of l.first) locks.items))) name
        → (B.seen bay.old).out name ≡ true }
    ensures { (last : List (Host D)) × AreEnded (ActsPart D.seen) locks.items passes.items last
        × PutsAll B.seen D.seen (slots_disks (map slot_of last)) bay.old bay.new }
{
    let mut passes = passes.into_iter();
    for lock in locks {
        let Some(pass) = passes.next() else {
            unreachable!()
        };
        put_back(lock.close(pass), bay);
    }
}

/// Joins all passes and closes the locks, and puts the disks of each shard back into the bay from which they were
/// taken. They stand for the states that legal histories leave, which have exactly the entries of these passes. It
/// takes no memory.
pub fn close_shared<D: Disk + Drop, B: Bay<D = D>>(
    shared: Shared<D>,
    passes: Vec<Passes<D>>,
    bay: &mut B,
)
    requires opened { AreWhole shared.conf (first_shards shared) }
    requires all { (seats : _) × AreAll shared seats passes.items × (0 < seats) }
    requires out { (name : List ℕ) → IsOneOf (names_in (first_shards shared)) name → (B.seen bay.old).out name ≡ true }
    ensures { Closes B.seen D.seen shared passes.items bay.old bay.new }
{
    let pass = gather(&shared, passes);
    let Shared {
        parts,
        members,
        foreign,
        ..
    } = shared;
    let Passes {
        parts: part_passes,
        members: member_pass,
        foreign: foreign_pass,
        ..
    } = pass;
    close_parts(parts, part_passes, bay);
    members.close(member_pass);
    let ForeignHost { foreign } = foreign.close(foreign_pass);
    put_foreign_back(ForeignSlot::Open(foreign), bay);
}
