ghost use Rattle.std.specs.Prelude.{◌≡◌, ◌^◌, ◌<◌, nat_lt, IfOk};
ghost use Rattle.std.specs.Int.{w16, w32, w64};
ghost use Rattle.state_records.specs.Reading.{Moves, only_at, below_at, byte_at, name_at, key_at, epoch_at, start_at, row_state_at, run_at, raw_at, is_behind};
ghost use Rattle.state_records.specs.States.{IsEpoch, IsStart};

use crate::fault::RecordFault;
use crate::reader::Reader;
use offset_runs::touches;
use share_model::{Key, Name, RowState, Run};
use uuid::Uuid;

fn bad<T>(place: u64) -> Result<T, RecordFault>
    ensures { result ≡ Err (RecordFault.BadState place) }
{
    Err(RecordFault::BadState { place })
}

// A byte below a limit.
pub(crate) fn read_u8_below(reader: &mut Reader<'_>, limit: u8) -> Result<u8, RecordFault>
    ensures { Moves (λ x. x) reader.new result (only_at (λ n. nat_lt n limit) byte_at reader.old) }
{
    let place = reader.place();
    let number = reader.take_u8()?;
    if number >= limit {
        return bad(place);
    }
    Ok(number)
}

pub(crate) fn read_u16_below(reader: &mut Reader<'_>, limit: u16) -> Result<u16, RecordFault>
    ensures read { Moves (λ x. x) reader.new result (below_at w16 limit reader.old) }
    ensures below { IfOk result (λ n. n < limit) }
{
    let place = reader.place();
    let number = reader.take_u16()?;
    if number >= limit {
        return bad(place);
    }
    Ok(number)
}

pub(crate) fn read_u32_below(reader: &mut Reader<'_>, limit: u32) -> Result<u32, RecordFault>
    ensures read { Moves (λ x. x) reader.new result (below_at w32 limit reader.old) }
    ensures below { IfOk result (λ n. n < limit) }
{
    let place = reader.place();
    let number = reader.take_u32()?;
    if number >= limit {
        return bad(place);
    }
    Ok(number)
}

pub(crate) fn read_u64_below(reader: &mut Reader<'_>, limit: u64) -> Result<u64, RecordFault>
    ensures read { Moves (λ x. x) reader.new result (below_at w64 limit reader.old) }
    ensures below { IfOk result (λ n. n < limit) }
{
    let place = reader.place();
    let number = reader.take_u64()?;
    if number >= limit {
        return bad(place);
    }
    Ok(number)
}

#[tactic(auto, unfolding(crate::specs::Reading::name_at))]
fn read_name(reader: &mut Reader<'_>) -> Result<Name, RecordFault>
    ensures { Moves (λ x. x) reader.new result (name_at reader.old) }
{
    let place = reader.place();
    let count = reader.take_u16()? as usize;
    if reader.len() < count {
        return bad(place);
    }
    match Name::from_bytes(reader.take(count)?) {
        Some(name) => Ok(name),
        None => bad(place),
    }
}

fn read_topic(reader: &mut Reader<'_>) -> Result<Uuid, RecordFault>
    ensures { Moves (λ x. x) reader.new result (raw_at 16 reader.old) }
{
    let bytes = reader.take(16)?;
    match Uuid::from_slice(bytes) {
        Ok(topic) => Ok(topic),
        Err(_) => unreachable!(),
    }
}

#[tactic(auto, unfolding(crate::specs::Reading::key_at))]
pub(crate) fn read_key(reader: &mut Reader<'_>) -> Result<Key, RecordFault>
    ensures { Moves (λ x. x) reader.new result (key_at reader.old) }
{
    let group = read_name(reader)?;
    let topic = read_topic(reader)?;
    let part = read_u32_below(reader, 1 << 31)?;
    Ok(Key { group, topic, part })
}

#[tactic(auto, unfolding(crate::specs::Reading::epoch_at))]
pub(crate) fn read_epoch(reader: &mut Reader<'_>) -> Result<i32, RecordFault>
    ensures read { Moves (λ x. x) reader.new result (epoch_at reader.old) }
    ensures epoch { IfOk result IsEpoch }
{
    let number = read_u32_below(reader, 1 << 31)?;
    Ok(number as i32)
}

#[tactic(auto, unfolding(crate::specs::Reading::start_at))]
pub(crate) fn read_start(reader: &mut Reader<'_>) -> Result<i64, RecordFault>
    ensures read { Moves (λ x. x) reader.new result (start_at reader.old) }
    ensures start { IfOk result IsStart }
{
    let place = reader.place();
    let number = reader.take_u64()?;
    if number < 1 << 63 {
        Ok(number as i64)
    } else if number == u64::MAX {
        Ok(-1)
    } else {
        bad(place)
    }
}

#[tactic(auto, unfolding(crate::specs::Reading::row_state_at))]
fn read_row_state(reader: &mut Reader<'_>) -> Result<RowState, RecordFault>
    ensures { Moves (λ x. x) reader.new result (row_state_at reader.old) }
{
    let place = reader.place();
    match RowState::from_number(reader.take_u8()?) {
        Some(state) => Ok(state),
        None => bad(place),
    }
}

// The first offset of a run, behind the run before it.
fn read_first(reader: &mut Reader<'_>, before: Option<Run>) -> Result<u64, RecordFault>
    ensures { Moves (λ x. x) reader.new result (only_at (is_behind before) (below_at w64 (2 ^ 63)) reader.old) }
{
    let place = reader.place();
    let first = read_u64_below(reader, 1 << 63)?;
    match before {
        Some(run) if first <= run.last => bad(place),
        _ => Ok(first),
    }
}

#[tactic(auto, unfolding(crate::specs::Reading::run_at))]
pub(crate) fn read_run(reader: &mut Reader<'_>, before: Option<Run>) -> Result<Run, RecordFault>
    ensures { Moves (λ x. x) reader.new result (run_at before reader.old) }
{
    let place = reader.place();
    let first = read_first(reader, before)?;
    let last = reader.take_u64()?;
    if last >= 1 << 63 || last < first {
        return bad(place);
    }
    let state = read_row_state(reader)?;
    let count = read_u16_below(reader, 1 << 15)?;
    let run = Run {
        first,
        last,
        state,
        count,
    };
    match before {
        Some(other) if touches(&other, &run) => bad(place),
        _ => Ok(run),
    }
}
