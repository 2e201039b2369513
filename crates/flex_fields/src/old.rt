// The fields of older messages, from one place to the next.
ghost use Rattle.std.specs.Prelude.{◌≡◌, ◌^◌, ◌<◌, ◌≤◌, length, IfOk};
ghost use Rattle.std.specs.Int.{w16, w32};
ghost use Rattle.flex_fields.specs.Old.{behind_len, old_bytes_at, old_str_at, old_count_at, old_null_at, unless_minus_at};
ghost use Rattle.flex_fields.specs.Cursors.{Gives, TakesNoMemory, TakesMemoryFor};
ghost use Rattle.flex_fields.specs.Spots.{at_of};

use crate::bytes::Bytes;
use crate::fault::{NoMemory, WireFault};
use crate::numbers::{int16, int32, skip};
use crate::spot::Spot;
use crate::text::{Text, as_text};
use std::alloc::Global;

// So many bytes, of which the length stood at this place.
fn behind<'a>(place: u64, size: i32, at: Spot<'a>) -> Result<(&'a [u8], Spot<'a>), WireFault>
    ensures read { Gives (λ x. (x.0.now, at_of x.1)) result (behind_len place size (at_of at.entry)) }
    ensures memory { TakesNoMemory result }
    ensures few { IfOk result (λ x. length x.0.now < 2 ^ 31) }
{
    if size < 0 {
        return Err(WireFault::BadLength { place });
    }
    let count = size as usize;
    if at.rest.len() < count {
        return Err(WireFault::Short { place });
    }
    let (bytes, _) = at.rest.split_at(count);
    Ok((bytes, skip(at, count)))
}

#[tactic(auto, unfolding(crate::specs::Old::old_bytes_at))]
fn short_slice(at: Spot<'_>) -> Result<(&[u8], Spot<'_>), WireFault>
    ensures read { Gives (λ x. (x.0.now, at_of x.1)) result (old_bytes_at w16 (at_of at.entry)) }
    ensures memory { TakesNoMemory result }
    ensures few { IfOk result (λ x. length x.0.now < 2 ^ 31) }
{
    let (length, after) = int16(at)?;
    behind(at.place, i32::from(length), after)
}

#[tactic(auto, unfolding(crate::specs::Old::old_bytes_at))]
fn long_slice(at: Spot<'_>) -> Result<(&[u8], Spot<'_>), WireFault>
    ensures read { Gives (λ x. (x.0.now, at_of x.1)) result (old_bytes_at w32 (at_of at.entry)) }
    ensures memory { TakesNoMemory result }
{
    let (length, after) = int32(at)?;
    let (bytes, after) = behind(at.place, length, after)?;
    Ok((bytes, after))
}

#[tactic(auto, unfolding(crate::specs::Old::old_str_at))]
pub fn old_text(alloc: Global, at: Spot<'_>) -> Result<(Text, Spot<'_>), WireFault>
    ensures read { Gives (λ x. (x.0, at_of x.1)) result (old_str_at (at_of at.entry)) }
    ensures memory { TakesMemoryFor result (old_str_at (at_of at.entry)) }
{
    let (bytes, after) = short_slice(at)?;
    match as_text(bytes) {
        None => Err(WireFault::NotUtf8 { place: at.place }),
        Some(text) => match Text::new(alloc, text) {
            Ok(text) => Ok((text, after)),
            Err(NoMemory) => Err(WireFault::NoMemory),
        },
    }
}

pub fn old_bytes(alloc: Global, at: Spot<'_>) -> Result<(Bytes, Spot<'_>), WireFault>
    ensures read { Gives (λ x. (x.0, at_of x.1)) result (old_bytes_at w32 (at_of at.entry)) }
    ensures memory { TakesMemoryFor result (old_bytes_at w32 (at_of at.entry)) }
{
    let (bytes, after) = long_slice(at)?;
    Ok((Bytes::new(bytes.to_vec(alloc)?), after))
}

#[tactic(auto, unfolding(crate::specs::Old::unless_minus_at))]
pub fn old_null_text(alloc: Global, at: Spot<'_>) -> Result<(Option<Text>, Spot<'_>), WireFault>
    ensures read { Gives (λ x. (x.0, at_of x.1)) result (unless_minus_at w16 old_str_at (at_of at.entry)) }
    ensures memory { TakesMemoryFor result (unless_minus_at w16 old_str_at (at_of at.entry)) }
{
    let (length, after) = int16(at)?;
    if length == -1 {
        return Ok((None, after));
    }
    let (text, after) = old_text(alloc, at)?;
    Ok((Some(text), after))
}

#[tactic(auto, unfolding(crate::specs::Old::unless_minus_at))]
pub fn old_null_bytes(alloc: Global, at: Spot<'_>) -> Result<(Option<Bytes>, Spot<'_>), WireFault>
    ensures read { Gives (λ x. (x.0, at_of x.1)) result (unless_minus_at w32 (old_bytes_at w32) (at_of at.entry)) }
    ensures memory { TakesMemoryFor result (unless_minus_at w32 (old_bytes_at w32) (at_of at.entry)) }
{
    let (length, after) = int32(at)?;
    if length == -1 {
        return Ok((None, after));
    }
    let (bytes, after) = old_bytes(alloc, at)?;
    Ok((Some(bytes), after))
}

#[tactic(auto, unfolding(crate::specs::Old::old_count_at))]
pub fn old_count(at: Spot<'_>) -> Result<(u32, Spot<'_>), WireFault>
    ensures read { Gives (λ x. (x.0, at_of x.1)) result (old_count_at (at_of at.entry)) }
    ensures memory { TakesNoMemory result }
    ensures few { IfOk result (λ x. x.0 < 2 ^ 31) }
{
    let (count, after) = int32(at)?;
    if count < 0 {
        return Err(WireFault::BadLength { place: at.place });
    }
    if after.rest.len() < count as usize {
        return Err(WireFault::BadLength { place: at.place });
    }
    Ok((count as u32, after))
}

/// Whether a null array stands there, which is passed over then; else nothing is.
pub fn old_null(at: Spot<'_>) -> Result<(bool, Spot<'_>), WireFault>
    ensures read { Gives (λ x. (x.0, at_of x.1)) result (old_null_at w32 (at_of at.entry)) }
    ensures memory { TakesNoMemory result }
{
    let (number, after) = int32(at)?;
    if number == -1 {
        return Ok((true, after));
    }
    Ok((false, at))
}
