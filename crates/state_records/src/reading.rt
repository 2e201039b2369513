ghost use Rattle.std.specs.Prelude.{◌≡◌, ◌+◌, ◌^◌, ◌<◌, Ok, None, length, IfOk};
ghost use Rattle.state_records.specs.Reading.{Gives, Moves, runs_at, all_runs_at, complete_at, state_at, fields_at, record_at, versions};
ghost use Rattle.state_records.specs.declared.record.StateRecord.{StateRecord};
ghost use Rattle.state_records.specs.States.{AreStoredRuns};
ghost use Rattle.state_records.specs.Spelling.{IsRecord, record_bytes};

use crate::fault::RecordFault;
use crate::fields::{read_epoch, read_key, read_run, read_start, read_u8_below};
use crate::reader::Reader;
use crate::record::{KeyState, StateRecord};
use flex_fields::Items;
use share_model::{Run, RunList};
use std::alloc::Global;

// The bytes of one run.
const RUN: usize = 19;

// So many runs. The memory for them is found once, and no more than the bytes can hold.
fn read_runs(alloc: Global, reader: &mut Reader<'_>, count: u32) -> Result<Vec<Run>, RecordFault>
    ensures read { Moves (λ v. v.items) reader.new result (runs_at count None reader.old) }
{
    let room = (count as usize).min(reader.len() / RUN);
    let mut runs = Vec::with_capacity(alloc, room)?;
    let mut before = None;
    for _ in 0..count {
        let run = read_run(reader, before)?;
        runs.push(run)?;
        before = Some(run);
    }
    Ok(runs)
}

// A count of all ones is no fault by itself. So many runs find no memory, since a list holds one fewer.
#[tactic(auto, unfolding(crate::specs::Reading::all_runs_at))]
fn read_all_runs(alloc: Global, reader: &mut Reader<'_>) -> Result<RunList, RecordFault>
    ensures read { Moves (λ v. v) reader.new result (all_runs_at reader.old) }
    ensures stored { IfOk result AreStoredRuns }
{
    let count = reader.take_u32()?;
    let runs = read_runs(alloc, reader, count)?;
    if count == u32::MAX {
        return Err(RecordFault::NoMemory);
    }
    Ok(Items::new(runs))
}

// How many rows are complete, where the version tells it.
#[tactic(auto, unfolding(crate::specs::Reading::complete_at))]
fn read_complete(reader: &mut Reader<'_>, version: u8) -> Result<Option<u64>, RecordFault>
    ensures { Moves (λ c. c) reader.new result (complete_at version reader.old) }
{
    match version {
        0 => Ok(None),
        _ => Ok(Some(reader.take_u64()?)),
    }
}

#[tactic(auto, unfolding(crate::specs::Reading::state_at))]
fn read_state(alloc: Global, reader: &mut Reader<'_>, version: u8) -> Result<KeyState, RecordFault>
    ensures { Moves (λ s. s) reader.new result (state_at version reader.old) }
{
    let key = read_key(reader)?;
    let snapshot = reader.take_u64()?;
    let state_epoch = read_epoch(reader)?;
    let leader_epoch = read_epoch(reader)?;
    let start = read_start(reader)?;
    let complete = read_complete(reader, version)?;
    let runs = read_all_runs(alloc, reader)?;
    Ok(KeyState {
        key,
        snapshot,
        state_epoch,
        leader_epoch,
        start,
        complete,
        runs,
    })
}

#[tactic(auto, unfolding(crate::specs::Reading::fields_at))]
fn read_fields(
    alloc: Global,
    reader: &mut Reader<'_>,
    kind: u8,
    version: u8,
) -> Result<StateRecord, RecordFault>
    ensures { Moves (λ r. r) reader.new result (fields_at kind version reader.old) }
{
    match kind {
        0 => Ok(StateRecord::Snapshot(read_state(alloc, reader, version)?)),
        1 => Ok(StateRecord::Update(read_state(alloc, reader, version)?)),
        2 => Ok(StateRecord::Removal {
            key: read_key(reader)?,
        }),
        3 => Ok(StateRecord::Head {
            generation: reader.take_u64()?,
        }),
        _ => Ok(StateRecord::Seal),
    }
}

// How many versions a kind has.
#[tactic(auto, unfolding(crate::specs::Reading::versions))]
fn versions(kind: u8) -> u8
    ensures { result ≡ versions kind }
{
    match kind {
        0 => 2,
        1 => 2,
        _ => 1,
    }
}

#[tactic(auto, unfolding(crate::specs::Reading::record_at))]
fn read_whole(alloc: Global, bytes: &[u8]) -> Result<StateRecord, RecordFault>
    ensures { Gives (λ r. r) result (record_at bytes.now) }
{
    let mut reader = Reader::new(bytes);
    let kind = read_u8_below(&mut reader, 5)?;
    let version = read_u8_below(&mut reader, versions(kind))?;
    let record = read_fields(alloc, &mut reader, kind, version)?;
    if reader.len() > 0 {
        return Err(RecordFault::BadState {
            place: reader.place(),
        });
    }
    Ok(record)
}

/// Reads a state record that the bytes spell, all of them.
///
/// A fault names the first byte of the first field that can't be read or is out of range, or of bytes
/// that follow. The group with its length is one field, and each number of a run is one; a run that
/// isn't in order, or could be joined with the one before it, is wrong at its first byte.
pub fn read_record(alloc: Global, bytes: &[u8]) -> Result<StateRecord, RecordFault>
    // What is read is a record, and the bytes are its one spelling.
    ensures found { IfOk result (λ r. IsRecord r × (bytes.now ≡ record_bytes r)) }
    // What is a record's spelling is read as that record, unless no memory is found.
    ensures only { (r : StateRecord) → IsRecord r → bytes.now ≡ record_bytes r → Gives (λ x. x) result (Ok r) }
    // Which place a fault has.
    ensures exact { Gives (λ r. r) result (record_at bytes.now) }
{
    read_whole(alloc, bytes)
}
