// The disks of the shards are taken from a bay, and put back.
ghost use Rattle.std.specs.Prelude.{◌≡◌, ◌⊎◌, ◌≤◌, ◌++◌, ◌∷◌, [], List, ℕ, true, false, Some, IfOk, IfErr, OnOk};
ghost use Rattle.edge_io.specs.Names.{IsTopicName, most_partitions};
ghost use Rattle.edge_io.specs.declared.name.DiskPlace.TheVariants.{Log, StateA, StateB};
ghost use Rattle.topic_conf.specs.Topics.{IsTopicList};
ghost use Rattle.broker_model.specs.Hosted.{IsOneOf, disks_of, hosted_from, hosted_of, part_disks, state_a, state_b};
ghost use Rattle.broker_hosts.specs.Hosts.{AreDistinct, AreHeldParts, AreNamed, IsHeldState, IsHeld, IsNamed, foreign_disks, hosted_slot, hosted_slots, part_disk, slot_disks, slots_disks};
ghost use Rattle.broker_hosts.specs.Bays.{AreOut};
ghost use Rattle.broker_hosts.specs.declared.slot.PartSlot.{PartSlot};
ghost use Rattle.broker_hosts.specs.Taking.{GetsAll, GetsNone, PutsAll, PutsForeignBack, RefusesAt, RefusesForeign, RefusesPart, TakesForeign, TakesPart, TakesParts};

use crate::fault::CoreOpen;
use crate::names::{PartNames, names_of};
use crate::part::open_part;
use crate::shard::open_foreign;
use crate::slot::{ForeignSlot, PartSlot, PartState};
use edge_io::{Bay, Disk, DiskName};
use share_model::{Name, NoMemory};
use share_part::PartConf;
use std::alloc::Global;
use std::marker::Model;
use topic_conf::{Config, Topic};

// ---- hosted partitions

/// A hosted partition: its topic's name, and what its shard is configured with.
#[derive(Drop)]
pub struct HostedPart {
    topic: Name,
    conf: PartConf,
}

impl Model for HostedPart {
    ghost use Rattle.broker_model.specs.Hosted.{Hosted};

    ghost Value = { Hosted };

    ghost view = { λ h. record { topic = h.topic; conf = h.conf } };
}

// The partitions of a topic are added.
fn push_parts(conf: &Config, topic: &Topic, parts: &mut Vec<HostedPart>) -> Result<(), NoMemory>
    requires name { IsTopicName topic.now.name }
    requires few { topic.now.parts ≤ most_partitions }
    ensures { OnOk result (parts.new.items ≡ parts.old.items ++ hosted_from conf.now topic.now 0 topic.now.parts) }
{
    for part in 0..topic.parts {
        parts.push(HostedPart {
            topic: topic.name,
            conf: PartConf::new(topic.id, part, conf.reset(), conf.lock_ms(), conf.limit()),
        })?;
    }
    Ok(())
}

/// The hosted partitions of a configuration, in the order of their shards.
pub fn hosted_parts(alloc: Global, conf: &Config) -> Result<Vec<HostedPart>, NoMemory>
    ensures parts { IfOk result (λ parts. parts.items ≡ hosted_of conf.now) }
    ensures list { IsTopicList conf.now.topics }
{
    let topics = conf.topics();
    let mut parts = Vec::new(alloc);
    for topic in topics {
        push_parts(conf, topic, &mut parts)?;
    }
    Ok(parts)
}

// ---- disks

// Why a bay gave no disk.
fn no_disk<B: Bay>(bay: &B) -> CoreOpen
    ensures bay { result ≡ CoreOpen.Bay → (B.seen bay.now).starved ≡ false }
    ensures only { (result ≡ CoreOpen.Bay) ⊎ (result ≡ CoreOpen.NoMemory) }
{
    if bay.starved() {
        CoreOpen::NoMemory
    } else {
        CoreOpen::Bay
    }
}

// Takes two disks. After a refusal neither is out.
fn take_two<D: Disk, B: Bay<D = D>>(
    bay: &mut B,
    first_name: &DiskName,
    second_name: &DiskName,
) -> Result<(D, D), CoreOpen>
    requires apart { AreDistinct (first_name.now ∷ second_name.now ∷ []) }
    requires first { (B.seen bay.old).out first_name.now ≡ false }
    requires second { (B.seen bay.old).out second_name.now ≡ false }
    ensures ok { IfOk result (λ disks. GetsAll B.seen D.seen
        ((first_name.now, disks.0) ∷ (second_name.now, disks.1) ∷ []) bay.old bay.new) }
    ensures err { IfErr result (λ e. GetsNone B.seen (first_name.now ∷ second_name.now ∷ []) e bay.old bay.new) }
{
    let Ok(first) = bay.take(first_name) else {
        return Err(no_disk(bay));
    };
    let Ok(second) = bay.take(second_name) else {
        let fault = no_disk(bay);
        bay.put_back(first_name, first);
        return Err(fault);
    };
    Ok((first, second))
}

// Takes the three disks of a partition. After a refusal none is out.
fn take_three<D: Disk, B: Bay<D = D>>(bay: &mut B, names: &PartNames) -> Result<(D, D, D), CoreOpen>
    requires apart { AreDistinct (names.now.log ∷ names.now.first ∷ names.now.second ∷ []) }
    requires log { (B.seen bay.old).out names.now.log ≡ false }
    requires first { (B.seen bay.old).out names.now.first ≡ false }
    requires second { (B.seen bay.old).out names.now.second ≡ false }
    ensures ok { IfOk result (λ disks. GetsAll B.seen D.seen
        ((names.now.log, disks.0) ∷ (names.now.first, disks.1) ∷ (names.now.second, disks.2) ∷ []) bay.old bay.new) }
    ensures err { IfErr result (λ e. GetsNone B.seen
        (names.now.log ∷ names.now.first ∷ names.now.second ∷ []) e bay.old bay.new) }
{
    let Ok(log) = bay.take(&names.log) else {
        return Err(no_disk(bay));
    };
    match take_two(bay, &names.first, &names.second) {
        Ok((first, second)) => Ok((log, first, second)),
        Err(fault) => {
            bay.put_back(&names.log, log);
            Err(fault)
        }
    }
}

// Puts the three disks of a partition back.
fn put_three<D: Disk, B: Bay<D = D>>(bay: &mut B, names: &PartNames, disks: (D, D, D))
    requires apart { AreDistinct (names.now.log ∷ names.now.first ∷ names.now.second ∷ []) }
    requires log { (B.seen bay.old).out names.now.log ≡ true }
    requires first { (B.seen bay.old).out names.now.first ≡ true }
    requires second { (B.seen bay.old).out names.now.second ≡ true }
    ensures { PutsAll B.seen D.seen
        ((names.now.log, Some disks.0) ∷ (names.now.first, Some disks.1) ∷ (names.now.second, Some disks.2) ∷ []) bay.old bay.new }
{
    let (log, first, second) = disks;
    bay.put_back(&names.log, log);
    bay.put_back(&names.first, first);
    bay.put_back(&names.second, second);
}

// ---- partitions

// The disks of a partition are taken, and its shard opened.
fn take_part<D: Disk, B: Bay<D = D>>(
    alloc: Global,
    bay: &mut B,
    part: HostedPart,
) -> Result<PartSlot<D>, CoreOpen>
    requires named { IsNamed part }
    requires apart { AreDistinct (disks_of part) }
    requires not_out { (name : List ℕ) → IsOneOf (disks_of part) name → (B.seen bay.old).out name ≡ false }
    ensures ok { IfOk result (λ slot. TakesPart B.seen D.seen
        part bay.old slot bay.new) }
    ensures err { IfErr result (λ e. RefusesPart B.seen D.seen
        part e bay.old bay.new) }
{
    let HostedPart { topic, conf } = part;
    let names = names_of(&topic, &conf);
    let disks = take_three(bay, &names)?;
    match open_part(alloc, &topic, conf, disks) {
        Ok(shard) => Ok(PartSlot {
            topic,
            conf,
            state: PartState::Open(shard),
        }),
        Err((disks, fault)) => {
            put_three(bay, &names, disks);
            Err(fault)
        }
    }
}

// One partition more.
fn add_part<D: Disk, B: Bay<D = D>>(
    alloc: Global,
    bay: &mut B,
    part: HostedPart,
    slots: &mut Vec<PartSlot<D>>,
) -> Result<(), CoreOpen>
    requires named { IsNamed part }
    requires apart { AreDistinct (disks_of part) }
    requires not_out { (name : List ℕ) → IsOneOf (disks_of part) name → (B.seen bay.old).out name ≡ false }
    ensures ok { OnOk result ((slot : PartSlot D)
        × TakesPart B.seen D.seen part bay.old slot bay.new
        × (slots.new.items ≡ slots.old.items ++ slot ∷ [])) }
    ensures err { IfErr result (λ e. RefusesPart B.seen D.seen
        part e bay.old bay.new × (slots.new.items ≡ slots.old.items)) }
{
    if let Err(_) = slots.reserve(1) {
        return Err(CoreOpen::NoMemory);
    }
    let slot = take_part(alloc, bay, part)?;
    if let Err(_) = slots.push(slot) {
        unreachable!()
    }
    Ok(())
}

// The disks of a partition that has them.
fn disks_of_part<D: Disk>(state: PartState<D>) -> (D, D, D)
    requires { IsHeldState state }
    ensures log { part_disk state Log ≡ Some result.0 }
    ensures first { part_disk state StateA ≡ Some result.1 }
    ensures second { part_disk state StateB ≡ Some result.2 }
{
    match state {
        PartState::Open(shard) => shard.into_disks(),
        PartState::Shut(log, first, second) => (log, first, second),
        PartState::Gone => unreachable!(),
    }
}

/// Puts the disks of a partition back.
pub fn put_part_back<D: Disk, B: Bay<D = D>>(slot: PartSlot<D>, bay: &mut B)
    requires named { IsNamed (hosted_slot slot) }
    requires held { IsHeldState slot.state }
    requires apart { AreDistinct (disks_of (hosted_slot slot)) }
    requires out { (name : List ℕ) → IsOneOf (disks_of (hosted_slot slot)) name → (B.seen bay.old).out name ≡ true }
    ensures { PutsAll B.seen D.seen (slot_disks slot) bay.old bay.new }
{
    let PartSlot { topic, conf, state } = slot;
    let names = names_of(&topic, &conf);
    put_three(bay, &names, disks_of_part(state));
}

/// Puts the disks of partitions back.
pub fn put_parts_back<D: Disk + Drop, B: Bay<D = D>>(slots: Vec<PartSlot<D>>, bay: &mut B)
    requires named { AreNamed (hosted_slots slots.items) }
    requires held { AreHeldParts slots.items }
    requires distinct { AreDistinct (part_disks (hosted_slots slots.items)) }
    requires out { (name : List ℕ) → IsOneOf (part_disks (hosted_slots slots.items)) name → (B.seen bay.old).out name ≡ true }
    ensures { PutsAll B.seen D.seen (slots_disks slots.items) bay.old bay.new }
{
    for slot in slots {
        put_part_back(slot, bay);
    }
}

/// Takes the disks of these partitions, and opens their shards, one partition after another. After a refusal each
/// disk is back in the bay.
pub fn take_parts<D: Disk + Drop, B: Bay<D = D>>(
    alloc: Global,
    bay: &mut B,
    parts: Vec<HostedPart>,
) -> Result<Vec<PartSlot<D>>, CoreOpen>
    requires named { AreNamed parts.items }
    requires distinct { AreDistinct (part_disks parts.items) }
    requires out { AreOut B.seen [] bay.old }
    ensures ok { IfOk result (λ slots. TakesParts B.seen D.seen
        parts.items bay.old slots.items bay.new) }
    ensures err { IfErr result (λ e. RefusesAt B.seen D.seen
        parts.items e bay.old bay.new) }
{
    let mut slots = Vec::new(alloc);
    for part in parts {
        if let Err(fault) = add_part(alloc, bay, part, &mut slots) {
            put_parts_back(slots, bay);
            return Err(fault);
        }
    }
    Ok(slots)
}

// ---- foreign state

/// Takes the two disks of foreign state, and opens it. After a refusal they are back in the bay.
pub fn take_foreign<D: Disk, B: Bay<D = D>>(
    alloc: Global,
    bay: &mut B,
) -> Result<ForeignSlot<D>, CoreOpen>
    requires first { (B.seen bay.old).out state_a ≡ false }
    requires second { (B.seen bay.old).out state_b ≡ false }
    ensures ok { IfOk result (λ slot. TakesForeign B.seen D.seen
        bay.old slot bay.new) }
    ensures err { IfErr result (λ e. RefusesForeign B.seen D.seen
        e bay.old bay.new) }
{
    let first_name = DiskName::foreign_state_a();
    let second_name = DiskName::foreign_state_b();
    let (first, second) = take_two(bay, &first_name, &second_name)?;
    match open_foreign(alloc, first, second) {
        Ok(shard) => Ok(ForeignSlot::Open(shard)),
        Err((first, second, fault)) => {
            bay.put_back(&first_name, first);
            bay.put_back(&second_name, second);
            Err(fault)
        }
    }
}

// The two disks of foreign state, where it has them.
fn disks_of_foreign<D: Disk>(slot: ForeignSlot<D>) -> (D, D)
    requires { IsHeld slot }
    ensures { foreign_disks slot ≡ Some result }
{
    match slot {
        ForeignSlot::Open(shard) => shard.into_disks(),
        ForeignSlot::Shut(first, second) => (first, second),
        ForeignSlot::Gone => unreachable!(),
    }
}

/// Puts the two disks of foreign state back.
pub fn put_foreign_back<D: Disk, B: Bay<D = D>>(slot: ForeignSlot<D>, bay: &mut B)
    requires held { IsHeld slot }
    requires first { (B.seen bay.old).out state_a ≡ true }
    requires second { (B.seen bay.old).out state_b ≡ true }
    ensures { PutsForeignBack B.seen D.seen slot bay.old bay.new }
{
    let (first, second) = disks_of_foreign(slot);
    bay.put_back(&DiskName::foreign_state_a(), first);
    bay.put_back(&DiskName::foreign_state_b(), second);
}
