ghost use Rattle.std.specs.Prelude.{◌≡◌, ◌≤◌, ◌<◌, ◌^◌, length, OnOk, IfOk, IfSome};
ghost use Rattle.std.specs.Int.{w16, w32, w64, to_be_bytes};
ghost use Rattle.std.specs.List.{flat_map};
ghost use Rattle.share_model.specs.Names.{IsName};
ghost use Rattle.share_model.specs.Rooms.{Appends};
ghost use Rattle.state_records.specs.Spelling.{IsRecord, name_bytes, key_bytes, run_bytes, runs_bytes, state_bytes, record_bytes};
ghost use Rattle.state_records.specs.Spelling.{complete_bytes, epoch_number, start_number};
ghost use Rattle.state_records.specs.States.{IsKey, IsState, IsEpoch, IsStart};
ghost use Rattle.state_records.specs.declared.record.StateRecord.TheVariants.{Snapshot as snapshot_record, Update as update_record};

use crate::lengths::record_len;
use crate::lent::LentState;
use crate::record::StateRecord;
use share_model::{Blob, Key, Name, NoMemory, Room, Run};
use std::alloc::Global;
use uuid::Uuid;

// Appends bytes for which there is room.
fn put(out: &mut Room, more: &[u8])
    requires { length more.now ≤ out.old.spare }
    ensures { Appends out.old out.new more.now }
{
    if let Err(_) = out.append(more) {
        unreachable!()
    }
}

fn put_u16(out: &mut Room, number: u16)
    requires { 2 ≤ out.old.spare }
    ensures { Appends out.old out.new (to_be_bytes w16 number) }
{
    put(out, &number.to_be_bytes());
}

fn put_u32(out: &mut Room, number: u32)
    requires { 4 ≤ out.old.spare }
    ensures { Appends out.old out.new (to_be_bytes w32 number) }
{
    put(out, &number.to_be_bytes());
}

fn put_u64(out: &mut Room, number: u64)
    requires { 8 ≤ out.old.spare }
    ensures written { Appends out.old out.new (to_be_bytes w64 number) }
    ensures fits { number < 2 ^ 64 }
{
    put(out, &number.to_be_bytes());
}

fn put_name(out: &mut Room, name: &Name)
    requires { length (name_bytes name.now) ≤ out.old.spare }
    ensures written { Appends out.old out.new (name_bytes name.now) }
    ensures name { IsName name.now }
{
    let bytes = name.as_bytes();
    put_u16(out, bytes.len() as u16);
    put(out, bytes);
}

fn put_topic(out: &mut Room, topic: &Uuid)
    requires { length topic.now ≤ out.old.spare }
    ensures written { Appends out.old out.new topic.now }
    ensures len { length topic.now ≡ 16 }
{
    put(out, topic.as_bytes());
}

fn put_key(out: &mut Room, key: &Key)
    requires { length (key_bytes key.now) ≤ out.old.spare }
    ensures written { Appends out.old out.new (key_bytes key.now) }
    ensures key { IsKey key.now }
{
    put_name(out, &key.group);
    put_topic(out, &key.topic);
    put_u32(out, key.part);
}

fn put_run(out: &mut Room, run: &Run)
    requires { 19 ≤ out.old.spare }
    ensures { Appends out.old out.new (run_bytes run.now) }
{
    put_u64(out, run.first);
    put_u64(out, run.last);
    put(out, &[run.state.number()]);
    put_u16(out, run.count);
}

fn put_each(out: &mut Room, runs: &[Run])
    requires { length (flat_map run_bytes runs.now) ≤ out.old.spare }
    ensures { Appends out.old out.new (flat_map run_bytes runs.now) }
{
    for run in runs {
        put_run(out, run);
    }
}

fn put_runs(out: &mut Room, runs: &[Run])
    requires few { length runs.now < 2 ^ 32 }
    requires room { length (runs_bytes runs.now) ≤ out.old.spare }
    ensures { Appends out.old out.new (runs_bytes runs.now) }
{
    put_u32(out, runs.len() as u32);
    put_each(out, runs);
}

fn epoch_bits(epoch: i32) -> u32
    requires { IsEpoch epoch }
    ensures { result ≡ epoch_number epoch }
{
    epoch as u32
}

// The start in two's complement, in which -1 has all bits.
fn start_bits(start: i64) -> u64
    requires { IsStart start }
    ensures { result ≡ start_number start }
{
    if start < 0 { u64::MAX } else { start as u64 }
}

#[tactic(auto, using(crate::proofs::Appends::appended0))]
fn put_complete(out: &mut Room, complete: Option<u64>)
    requires { length (complete_bytes complete) ≤ out.old.spare }
    ensures written { Appends out.old out.new (complete_bytes complete) }
    ensures fits { IfSome complete (λ n. n < 2 ^ 64) }
{
    if let Some(number) = complete {
        put_u64(out, number);
    }
}

fn put_state(out: &mut Room, state: &LentState<'_>)
    requires { length (state_bytes state.now) ≤ out.old.spare }
    ensures written { Appends out.old out.new (state_bytes state.now) }
    ensures state { IsState state.now }
{
    put_key(out, state.key);
    put_u64(out, state.snapshot);
    put_u32(out, epoch_bits(state.state_epoch));
    put_u32(out, epoch_bits(state.leader_epoch));
    put_u64(out, start_bits(state.start));
    put_complete(out, state.complete);
    put_runs(out, state.runs);
}

/// Appends the snapshot of a state, where there is room for it. It takes no memory.
pub fn write_snapshot(state: &LentState<'_>, out: &mut Room)
    requires room { length (record_bytes (snapshot_record state.now)) ≤ out.old.spare }
    ensures written { Appends out.old out.new (record_bytes (snapshot_record state.now)) }
    ensures valid { IsRecord (snapshot_record state.now) }
{
    put(out, &[0, state.version()]);
    put_state(out, state);
}

/// Appends the update of a state, where there is room for it. It takes no memory.
pub fn write_update(state: &LentState<'_>, out: &mut Room)
    requires room { length (record_bytes (update_record state.now)) ≤ out.old.spare }
    ensures written { Appends out.old out.new (record_bytes (update_record state.now)) }
    ensures valid { IsRecord (update_record state.now) }
{
    put(out, &[1, state.version()]);
    put_state(out, state);
}

/// Appends a record, where there is room for it. It takes no memory.
pub fn write_into(record: &StateRecord, out: &mut Room)
    requires room { length (record_bytes «record».now) ≤ out.old.spare }
    ensures written { Appends out.old out.new (record_bytes «record».now) }
    ensures valid { IsRecord «record».now }
{
    match record {
        StateRecord::Snapshot(state) => write_snapshot(&state.lend(), out),
        StateRecord::Update(state) => write_update(&state.lend(), out),
        StateRecord::Removal { key } => {
            put(out, &[2, 0]);
            put_key(out, key);
        }
        StateRecord::Head { generation } => {
            put(out, &[3, 0]);
            put_u64(out, *generation);
        }
        StateRecord::Seal => put(out, &[4, 0]),
    }
}

/// The bytes of a record, in memory that is found at once.
pub fn write_record(alloc: Global, record: &StateRecord) -> Result<Blob, NoMemory>
    ensures value { IfOk result (λ b. b ≡ record_bytes «record».now) }
    ensures valid { OnOk result (IsRecord «record».now) }
{
    let mut out = Room::of(Vec::with_capacity(alloc, record_len(record) as usize)?);
    write_into(record, &mut out);
    Ok(out.into_blob())
}
