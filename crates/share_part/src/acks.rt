// The acknowledgements of a visit.
ghost use Rattle.std.specs.Prelude.{◌≡◌, ◌≤◌, ◌<◌, ◌^◌, ℕ, List, None, IfSome, IfNone, false, length};
ghost use Rattle.coord_checkpoint.specs.Disks.{HasFailed};
ghost use Rattle.coord_checkpoint.specs.Writes.{StaysOn};
ghost use Rattle.topic_conf.specs.Configs.{IsLimit};
ghost use Rattle.ack_ranges.specs.Batches.{IsWellFormed};
ghost use Rattle.offset_runs.specs.Changes.{room_of};
ghost use Rattle.part_log.specs.Logs.{IsStoredLog, log_in};
ghost use Rattle.share_model.specs.Acks.{types_in};
ghost use Rattle.share_model.specs.ForeignRules.{share_state_at};
ghost use Rattle.share_part.specs.Acting.{IsFirstNamed, JudgesGroup};
ghost use Rattle.share_part.specs.Hosting.{AreHosted, HoldsWell, key_of};
ghost use Rattle.share_part.specs.Named.{named_from};
ghost use Rattle.share_coord.specs.States.{states_of};
ghost use Rattle.share_part.specs.Settling.{held_after};
ghost use Rattle.share_part.specs.Shards.{held_in, with_held};
ghost use Rattle.share_part.specs.Foreseeing.{HasSpare, JudgesAcks, JudgesGiven};
ghost use Rattle.share_part.specs.Storing.{AcksOnce, AreCanonical, IsAcksWritten, SettlesGroup, WritesWithin, answer_to};
ghost use Rattle.share_part.specs.declared.settle.Moved.{Moved};
ghost use Rattle.share_part.specs.Failures.{RunOnBoth};

use crate::conf::PartConf;
use crate::ending::end_acknowledged;
use crate::fetch::start_of;
use crate::named::Named;
use crate::settle::{Judged, Moved, acknowledge};
use crate::storing::store_change;
use ack_ranges::check;
use edge_io::Disk;
use lock_index::Window;
use offset_runs::Runs;
use part_log::PartLog;
use share_coord::Coord;
use share_model::{AckBatch, AckFault, AckOutcome, Name, Visit};
use std::collections::BTreeMap;

/// What the acknowledgements of a visit come to, before anything is stored.
#[derive(Clone, Copy)]
pub enum Acks {
    /// They aren't well formed.
    Malformed(AckFault),
    /// They name no offset from the log's start on.
    Empty,
    /// The member doesn't hold this offset, the least such one.
    NotHeld(u64),
    /// The rows that were put are to be stored, with the start.
    Changes(Moved),
}

// The least offset that well-formed acknowledgements name from the log's start on. `None` where they name none.
pub fn first_named<D: Disk>(log: &PartLog<D>, batches: &[AckBatch]) -> Option<u64>
    requires { IsWellFormed batches.now }
    ensures some { IfSome result (IsFirstNamed (named_from log.now.start batches.now)) }
    ensures none { IfNone result ((offset : ℕ) → named_from log.now.start batches.now offset ≡ None) }
{
    let mut pieces = Named::new(batches, log.start());
    match pieces.next_piece() {
        Some(piece) => Some(piece.first),
        None => None,
    }
}

// What well-formed acknowledgements come to on the table of a group, if it has one. A group without a table holds
// nothing.
fn judge_group<D: Disk, W: Window>(
    rows: &mut Runs,
    conf: &PartConf,
    log: &PartLog<D>,
    states: &Coord<D>,
    windows: &BTreeMap<Name, W>,
    group: &Name,
    member: &Name,
    batches: &[AckBatch],
    first: u64,
) -> Judged
    requires sound { IsStoredLog log.now.batches }
    requires hosted { AreHosted conf.now (log_in log.now) (states_of states.now.entries) }
    requires well_formed { IsWellFormed batches.now }
    requires first { IsFirstNamed (named_from log.now.start batches.now) first }
    requires well { HoldsWell log.now.batches
        (share_state_at (states_of states.now.entries) (key_of conf.now group.now))
        (held_in W.held windows.now.entries group.now) }
    requires room { 4000 ≤ room_of rows.old }
    ensures judged { JudgesGroup conf.now.limit member.now (named_from log.now.start batches.now) log.now.batches
        (held_in W.held windows.now.entries group.now)
        (share_state_at (states_of states.now.entries) (key_of conf.now group.now)) rows.new.list result }
    ensures canonical { (moved : Moved) → result ≡ Judged.Changes moved →
        AreCanonical (share_state_at (states_of states.now.entries) (key_of conf.now group.now)) }
    ensures room { room_of rows.old ≤ room_of rows.new }
{
    let Some(window) = windows.get(group) else {
        return Judged::NotHeld(first);
    };
    window.known();
    match states.look(&conf.key(group)) {
        Some(view) => {
            // what is stored is canonical
            let _stored = view.runs.list();
            acknowledge(
                rows,
                log,
                start_of(view),
                &view.runs,
                window,
                member,
                conf.limit(),
                batches,
            )
        }
        None => Judged::NotHeld(first),
    }
}

/// What acknowledgements of a member of a group come to; what they say of offsets below the log's start is passed over.
/// The rows that they change are put into `rows`, which has memory for those of all that a group holds: two runs for
/// each of 2000 records. It takes none.
pub fn judge_given<D: Disk, W: Window>(
    rows: &mut Runs,
    conf: &PartConf,
    log: &PartLog<D>,
    states: &Coord<D>,
    windows: &BTreeMap<Name, W>,
    group: &Name,
    member: &Name,
    batches: &[AckBatch],
) -> Acks
    requires few { length batches.now < 2 ^ 32 }
    requires few_types { types_in batches.now < 2 ^ 32 }
    requires sound { IsStoredLog log.now.batches }
    requires hosted { AreHosted conf.now (log_in log.now) (states_of states.now.entries) }
    requires well { HoldsWell log.now.batches
        (share_state_at (states_of states.now.entries) (key_of conf.now group.now))
        (held_in W.held windows.now.entries group.now) }
    requires room { 4000 ≤ room_of rows.old }
    ensures judged { JudgesGiven conf.now.limit log.now.start member.now batches.now log.now.batches
        (held_in W.held windows.now.entries group.now)
        (share_state_at (states_of states.now.entries) (key_of conf.now group.now)) rows.new.list result }
    ensures canonical { (moved : Moved) → result ≡ Acks.Changes moved →
        AreCanonical (share_state_at (states_of states.now.entries) (key_of conf.now group.now)) }
    ensures room { room_of rows.old ≤ room_of rows.new }
{
    if let Err(fault) = check(batches) {
        return Acks::Malformed(fault);
    }
    let Some(first) = first_named(log, batches) else {
        return Acks::Empty;
    };
    match judge_group(
        rows, conf, log, states, windows, group, member, batches, first,
    ) {
        Judged::NotHeld(offset) => Acks::NotHeld(offset),
        Judged::Changes(moved) => Acks::Changes(moved),
    }
}

/// Does acknowledgements of a member of a group, by what they come to, with these rows: all of them by one write, or
/// none. The holds of the named offsets end once they are stored, and what was set aside for holds stays.
///
/// It takes no memory. Nothing changes where they aren't well formed, or name no offset from the log's start on, or
/// where the member doesn't hold one that they name from there on; after a store fault the table is as it was. Where it
/// `tidies`, a checkpoint that is due is tried before the write.
pub fn settle_given<D: Disk, W: Window>(
    rows: &Runs,
    conf: &PartConf,
    log: &PartLog<D>,
    states: &mut Coord<D>,
    windows: &mut BTreeMap<Name, W>,
    group: &Name,
    member: &Name,
    batches: &[AckBatch],
    acks: &Acks,
    tidies: bool,
) -> AckOutcome
    requires sound { IsStoredLog log.now.batches }
    requires limit { IsLimit conf.now.limit }
    requires hosted { AreHosted conf.now (log_in log.now) (states_of states.old.entries) }
    requires well { HoldsWell log.now.batches
        (share_state_at (states_of states.old.entries) (key_of conf.now group.now))
        (held_in W.held windows.old.entries group.now) }
    requires judged { JudgesGiven conf.now.limit log.now.start member.now batches.now log.now.batches
        (held_in W.held windows.old.entries group.now)
        (share_state_at (states_of states.old.entries) (key_of conf.now group.now)) rows.now.list acks.now }
    requires canonical { (moved : Moved) → acks.now ≡ Acks.Changes moved →
        AreCanonical (share_state_at (states_of states.old.entries) (key_of conf.now group.now)) }
    requires room { 6000 ≤ states.old.room }
    ensures once { AcksOnce log.now.start batches.now
        ((states.new ≡ states.old)
        × ((other : List ℕ) → held_in W.held windows.new.entries other ≡ held_in W.held windows.old.entries other))
        (SettlesGroup D.seen (HasFailed D.seen) conf.now log.now.batches
        group.now member.now (named_from log.now.start batches.now) (held_in W.held windows.old.entries group.now) tidies states.old states.new
        ((other : List ℕ) → held_in W.held windows.new.entries other ≡ held_in W.held windows.old.entries other)
        ((other : List ℕ) → held_in W.held windows.new.entries other ≡ with_held (held_in W.held windows.old.entries) group.now
        (held_after (named_from log.now.start batches.now) (held_in W.held windows.old.entries group.now)) other)) result }
    ensures moments { tidies ≡ false → WritesWithin D.seen
        (IsAcksWritten conf.now (log_in log.now) group.now member.now batches.now
        (held_in W.held windows.old.entries group.now) states.old.entries) states.old states.new }
    ensures alone { tidies ≡ false → StaysOn D.seen states.old.journal states.new.journal (answer_to result) }
    ensures malformed { (fault : AckFault) → acks.now ≡ Acks.Malformed fault →
        result ≡ AckOutcome.Malformed fault }
    ensures spare { (n : ℕ) → HasSpare W.spare windows.old.entries group.now n →
        HasSpare W.spare windows.new.entries group.now n }
    ensures room { states.new.room ≡ states.old.room }
    ensures runs { RunOnBoth D.seen states.old states.new }
    ensures range { IsLimit conf.now.limit }
{
    let moved = match acks {
        Acks::Malformed(fault) => return AckOutcome::Malformed(*fault),
        Acks::Empty => return AckOutcome::Done,
        Acks::NotHeld(offset) => return AckOutcome::NotHeld { offset: *offset },
        Acks::Changes(moved) => moved,
    };
    let key = conf.key(group);
    let fault = store_change(states, &key, moved.start, rows.list(), tidies);
    if let Some(fault) = fault {
        return AckOutcome::Store(fault);
    }
    end_acknowledged(windows, group, batches, log.start());
    AckOutcome::Done
}

/// What the acknowledgements of a visit come to, as `judge_given` tells it.
pub fn judge_acks<D: Disk, W: Window>(
    rows: &mut Runs,
    conf: &PartConf,
    log: &PartLog<D>,
    states: &Coord<D>,
    windows: &BTreeMap<Name, W>,
    visit: &Visit,
) -> Acks
    requires sound { IsStoredLog log.now.batches }
    requires hosted { AreHosted conf.now (log_in log.now) (states_of states.now.entries) }
    requires well { HoldsWell log.now.batches
        (share_state_at (states_of states.now.entries) (key_of conf.now visit.now.group))
        (held_in W.held windows.now.entries visit.now.group) }
    requires room { 4000 ≤ room_of rows.old }
    ensures judged { JudgesAcks conf.now.limit log.now.start visit.now log.now.batches
        (held_in W.held windows.now.entries visit.now.group)
        (share_state_at (states_of states.now.entries) (key_of conf.now visit.now.group)) rows.new.list result }
    ensures canonical { (moved : Moved) → result ≡ Acks.Changes moved →
        AreCanonical (share_state_at (states_of states.now.entries) (key_of conf.now visit.now.group)) }
    ensures room { room_of rows.old ≤ room_of rows.new }
{
    judge_given(
        rows,
        conf,
        log,
        states,
        windows,
        &visit.group,
        &visit.member,
        visit.acks.as_slice(),
    )
}

/// Does the acknowledgements of a visit, as `settle_given` does them.
pub fn settle_acks<D: Disk, W: Window>(
    rows: &Runs,
    conf: &PartConf,
    log: &PartLog<D>,
    states: &mut Coord<D>,
    windows: &mut BTreeMap<Name, W>,
    visit: &Visit,
    acks: &Acks,
    tidies: bool,
) -> AckOutcome
    requires sound { IsStoredLog log.now.batches }
    requires limit { IsLimit conf.now.limit }
    requires hosted { AreHosted conf.now (log_in log.now) (states_of states.old.entries) }
    requires well { HoldsWell log.now.batches
        (share_state_at (states_of states.old.entries) (key_of conf.now visit.now.group))
        (held_in W.held windows.old.entries visit.now.group) }
    requires judged { JudgesAcks conf.now.limit log.now.start visit.now log.now.batches
        (held_in W.held windows.old.entries visit.now.group)
        (share_state_at (states_of states.old.entries) (key_of conf.now visit.now.group)) rows.now.list acks.now }
    requires canonical { (moved : Moved) → acks.now ≡ Acks.Changes moved →
        AreCanonical (share_state_at (states_of states.old.entries) (key_of conf.now visit.now.group)) }
    requires room { 6000 ≤ states.old.room }
    ensures once { AcksOnce log.now.start visit.now.acks
        ((states.new ≡ states.old)
        × ((other : List ℕ) → held_in W.held windows.new.entries other ≡ held_in W.held windows.old.entries other))
        (SettlesGroup D.seen (HasFailed D.seen) conf.now log.now.batches
        visit.now.group visit.now.member (named_from log.now.start visit.now.acks) (held_in W.held windows.old.entries visit.now.group) tidies states.old states.new
        ((other : List ℕ) → held_in W.held windows.new.entries other ≡ held_in W.held windows.old.entries other)
        ((other : List ℕ) → held_in W.held windows.new.entries other ≡ with_held (held_in W.held windows.old.entries) visit.now.group
        (held_after (named_from log.now.start visit.now.acks) (held_in W.held windows.old.entries visit.now.group)) other)) result }
    ensures malformed { (fault : AckFault) → acks.now ≡ Acks.Malformed fault →
        result ≡ AckOutcome.Malformed fault }
    ensures spare { (n : ℕ) → HasSpare W.spare windows.old.entries visit.now.group n →
        HasSpare W.spare windows.new.entries visit.now.group n }
    ensures room { states.new.room ≡ states.old.room }
    ensures runs { RunOnBoth D.seen states.old states.new }
    ensures range { IsLimit conf.now.limit }
{
    settle_given(
        rows,
        conf,
        log,
        states,
        windows,
        &visit.group,
        &visit.member,
        visit.acks.as_slice(),
        acks,
        tidies,
    )
}
