// What is stored of share groups, as text.
ghost use Rattle.std.specs.Prelude.{◌≡◌, ◌≢◌, ◌++◌, ◌∷◌, [], codes, Err, List, OnOk, ℕ};
ghost use Rattle.std.specs.List.{flat_map};
ghost use Rattle.edge_io.specs.Bays.{IsSound};
ghost use Rattle.text_pieces.specs.Pieces.{WritesPieces};
ghost use Rattle.broker_hosts.specs.Hosts.{AreOpen, AreOpenParts, IsOpen, states_at};
ghost use Rattle.broker_model.specs.Hosted.{IsTaken};
ghost use Rattle.share_top.specs.Apart.{LeavesOthers};
ghost use Rattle.share_top.specs.Changes.{bay_change, output_change};
ghost use Rattle.share_top.specs.Dumping.{IsDump, foreign_texts, tables_text};
ghost use Rattle.share_top.specs.Loading.{NoneIsOut};
ghost use Rattle.share_top.specs.Sessions.{HoldsStates};
ghost use Rattle.share_top.specs.Slots.{core_text, slot_text};

use crate::hosting::are_hosted;
use crate::refusal::refuse;
use crate::status::Status;
use broker_core::Core;
use broker_hosts::{ForeignSlot, PartSlot};
use edge_io::{Bay, Disk, Sink, write_all};
use share_coord::States;
use share_model::Name;
use state_text::{GenFault, write_foreign, write_table};
use std::alloc::Global;
use topic_conf::Config;

// The tables of a partition.
fn write_tables<O: Sink>(
    alloc: Global,
    topic: &Name,
    part: u32,
    mut states: States<'_>,
    output: &mut O,
) -> Result<(), GenFault>
    ensures { WritesPieces (O.held output.old) (O.held output.new) (O.faults output.old) (O.faults output.new)
        (tables_text topic.now part states.entry) result }
{
    while let Some((key, view)) = states.next() {
        match write_table(alloc, &key.group, topic.as_str(), part, view, output) {
            Ok(()) => {}
            Err(fault) => return Err(fault),
        }
    }
    Ok(())
}

// The states of partitions that aren't hosted.
fn write_foreign_states<O: Sink>(
    alloc: Global,
    mut states: States<'_>,
    output: &mut O,
) -> Result<(), GenFault>
    ensures { WritesPieces (O.held output.old) (O.held output.new) (O.faults output.old) (O.faults output.new)
        (foreign_texts states.entry) result }
{
    while let Some((key, view)) = states.next() {
        match write_foreign(alloc, key, view, output) {
            Ok(()) => {}
            Err(fault) => return Err(fault),
        }
    }
    Ok(())
}

// The tables of all hosted partitions.
fn write_parts<D: Disk, O: Sink>(
    alloc: Global,
    slots: &[PartSlot<D>],
    output: &mut O,
) -> Result<(), GenFault>
    requires { AreOpenParts slots.now }
    ensures { WritesPieces (O.held output.old) (O.held output.new) (O.faults output.old) (O.faults output.new)
        (flat_map slot_text slots.now) result }
{
    let mut rest = slots;
    while let Some((slot, others)) = rest.split_first() {
        rest = others;
        match write_tables(alloc, &slot.topic, slot.conf.part(), slot.states(), output) {
            Ok(()) => {}
            Err(fault) => return Err(fault),
        }
    }
    Ok(())
}

// The last line.
fn write_end<O: Sink>(output: &mut O) -> Result<(), GenFault>
    ensures { WritesPieces (O.held output.old) (O.held output.new) (O.faults output.old) (O.faults output.new)
        (codes "end" ++ 10 ∷ []) result }
{
    match write_all(output, b"end\n") {
        Ok(()) => Ok(()),
        Err(_) => Err(GenFault::Write),
    }
}

// Foreign state and the last line.
fn write_rest<D: Disk, O: Sink>(
    alloc: Global,
    foreign: &ForeignSlot<D>,
    output: &mut O,
) -> Result<(), GenFault>
    requires { IsOpen foreign.now }
    ensures { WritesPieces (O.held output.old) (O.held output.new) (O.faults output.old) (O.faults output.new)
        (foreign_texts (states_at foreign.now) ++ (codes "end" ++ 10 ∷ [])) result }
{
    match write_foreign_states(alloc, foreign.states(), output) {
        Ok(()) => write_end(output),
        Err(fault) => Err(fault),
    }
}

// All that is stored.
fn write_states<D: Disk + Drop, O: Sink>(
    alloc: Global,
    core: &Core<D>,
    output: &mut O,
) -> Result<(), GenFault>
    requires { AreOpen core.now.hosts }
    ensures { WritesPieces (O.held output.old) (O.held output.new) (O.faults output.old) (O.faults output.new)
        (core_text core.now.hosts) result }
{
    match write_parts(alloc, core.parts(), output) {
        Ok(()) => write_rest(alloc, core.foreign(), output),
        Err(fault) => Err(fault),
    }
}

/// Opens the broker over the bay, writes what is stored of share groups, and puts the disks back.
pub fn dump<O: Sink, B: Bay>(alloc: Global, conf: Config, output: &mut O, bay: &mut B) -> Status
where
    B::D: Drop,
    requires { NoneIsOut B.seen bay.old }
    ensures back { NoneIsOut B.seen bay.new }
    ensures dump { IsDump (bay_change B.seen B.D.seen bay.old bay.new) conf
        (output_change O.held O.faults output.old output.new) result }
    ensures counted { result ≢ Status.WriteFault → O.faults output.new ≡ O.faults output.old }
    ensures recovers { HoldsStates (bay_change B.seen B.D.seen bay.old bay.new) conf → result ≢ Status.Damaged }
    ensures sound { IsSound B.seen B.D.seen bay.old → result ≢ Status.Device }
    ensures others { LeavesOthers (bay_change B.seen B.D.seen bay.old bay.new) (IsTaken conf) }
{
    are_hosted(&conf);
    match Core::start(alloc, bay, conf) {
        Ok(core) => {
            let written = write_states(alloc, &core, output);
            core.finish(bay);
            status_of(written)
        }
        Err(fault) => refuse(alloc, fault, output),
    }
}

// The status with which a text was written.
fn status_of(written: Result<(), GenFault>) -> Status
    ensures ok { OnOk written (result ≡ Status.Done) }
    ensures write { written ≡ Err GenFault.Write → result ≡ Status.WriteFault }
    ensures memory { written ≡ Err GenFault.NoMemory → result ≡ Status.NoMemory }
{
    match written {
        Ok(()) => Status::Done,
        Err(GenFault::Write) => Status::WriteFault,
        Err(GenFault::NoMemory) => Status::NoMemory,
    }
}
