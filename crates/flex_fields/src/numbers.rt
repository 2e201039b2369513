// Numbers, from one place to the next.
ghost use Rattle.std.specs.Prelude.{◌≡◌, ◌+◌, ◌^◌, ◌<◌, ◌≤◌, length, IfOk};
ghost use Rattle.std.specs.Int.{w8, w16, w32, w64};
ghost use Rattle.flex_fields.specs.Reading.{past, int_at, raw_at, bool_at, groups_at, uvarint_at, long_uvarint_at, unzigzag, varint_at};
ghost use Rattle.flex_fields.specs.Reading.{varlong_at, limit};
ghost use Rattle.flex_fields.specs.Cursors.{Gives, TakesNoMemory};
ghost use Rattle.flex_fields.specs.Spots.{at_of};

use crate::fault::WireFault;
use crate::spot::Spot;
use uuid::Uuid;

/// Goes on by this many bytes.
pub fn skip(at: Spot<'_>, count: usize) -> Spot<'_>
    requires bound { count ≤ length at.rest.now }
    ensures { at_of result ≡ past count (at_of at.entry) }
{
    let (_, rest) = at.rest.split_at(count);
    Spot {
        place: at.place + count as u64,
        rest,
    }
}

pub fn int8(at: Spot<'_>) -> Result<(i8, Spot<'_>), WireFault>
    ensures read { Gives (λ x. (x.0, at_of x.1)) result (int_at w8 (at_of at.entry)) }
    ensures memory { TakesNoMemory result }
{
    if at.rest.is_empty() {
        return Err(WireFault::Short { place: at.place });
    }
    let value = i8::from_be_bytes([at.rest[0]]);
    Ok((value, skip(at, 1)))
}

pub fn int16(at: Spot<'_>) -> Result<(i16, Spot<'_>), WireFault>
    ensures read { Gives (λ x. (x.0, at_of x.1)) result (int_at w16 (at_of at.entry)) }
    ensures memory { TakesNoMemory result }
{
    if at.rest.len() < 2 {
        return Err(WireFault::Short { place: at.place });
    }
    let value = i16::from_be_bytes([at.rest[0], at.rest[1]]);
    Ok((value, skip(at, 2)))
}

pub fn int32(at: Spot<'_>) -> Result<(i32, Spot<'_>), WireFault>
    ensures read { Gives (λ x. (x.0, at_of x.1)) result (int_at w32 (at_of at.entry)) }
    ensures memory { TakesNoMemory result }
{
    if at.rest.len() < 4 {
        return Err(WireFault::Short { place: at.place });
    }
    let bytes = at.rest;
    let value = i32::from_be_bytes([bytes[0], bytes[1], bytes[2], bytes[3]]);
    Ok((value, skip(at, 4)))
}

pub fn int64(at: Spot<'_>) -> Result<(i64, Spot<'_>), WireFault>
    ensures read { Gives (λ x. (x.0, at_of x.1)) result (int_at w64 (at_of at.entry)) }
    ensures memory { TakesNoMemory result }
{
    if at.rest.len() < 8 {
        return Err(WireFault::Short { place: at.place });
    }
    let b = at.rest;
    let value = i64::from_be_bytes([b[0], b[1], b[2], b[3], b[4], b[5], b[6], b[7]]);
    Ok((value, skip(at, 8)))
}

pub fn uuid(at: Spot<'_>) -> Result<(Uuid, Spot<'_>), WireFault>
    ensures read { Gives (λ x. (x.0, at_of x.1)) result (raw_at 16 (at_of at.entry)) }
    ensures memory { TakesNoMemory result }
{
    if at.rest.len() < 16 {
        return Err(WireFault::Short { place: at.place });
    }
    let (front, _) = at.rest.split_at(16);
    let mut bytes = [0; 16];
    bytes.copy_from_slice(front);
    Ok((Uuid::from_bytes(bytes), skip(at, 16)))
}

#[tactic(auto, unfolding(crate::specs::Reading::bool_at))]
pub fn boolean(at: Spot<'_>) -> Result<(bool, Spot<'_>), WireFault>
    ensures read { Gives (λ x. (x.0, at_of x.1)) result (bool_at (at_of at.entry)) }
    ensures memory { TakesNoMemory result }
{
    if at.rest.is_empty() {
        return Err(WireFault::Short { place: at.place });
    }
    let value = at.rest[0] != 0;
    Ok((value, skip(at, 1)))
}

// A number in groups of seven bits, of which `more` may follow the first, and how many bytes it
// takes. The last of so many groups is at most `top`.
#[tactic(auto, unfolding(crate::specs::Reading::groups_at), using(crate::specs::Sound::Limits::limit_at_least, crate::specs::Sound::Limits::limit_down))]
fn groups(place: u64, top: u8, more: u32, bytes: &[u8]) -> Result<(u64, usize), WireFault>
    requires fits { limit top more ≤ 2 ^ 64 }
    ensures read { Gives (λ x. x) result (groups_at place top more bytes.now) }
    ensures memory { TakesNoMemory result }
    ensures small { IfOk result (λ x. x.0 < limit top more) }
    ensures within { IfOk result (λ x. x.1 ≤ length bytes.now) }
{
    match bytes {
        [] => Err(WireFault::Short { place }),
        [byte, rest @ ..] => {
            if more == 0 {
                if *byte > top {
                    Err(WireFault::BadVarint { place })
                } else {
                    Ok((*byte as u64, 1))
                }
            } else if *byte < 128 {
                Ok((*byte as u64, 1))
            } else {
                let (high, count) = groups(place, top, more - 1, rest)?;
                Ok(((*byte as u64 - 128) + 128 * high, count + 1))
            }
        }
    }
}

#[tactic(auto, unfolding(crate::specs::Reading::uvarint_at))]
pub fn uvarint(at: Spot<'_>) -> Result<(u32, Spot<'_>), WireFault>
    ensures read { Gives (λ x. (x.0, at_of x.1)) result (uvarint_at (at_of at.entry)) }
    ensures memory { TakesNoMemory result }
{
    let (value, count) = groups(at.place, 15, 4, at.rest)?;
    Ok((value as u32, skip(at, count)))
}

#[tactic(auto, unfolding(crate::specs::Reading::long_uvarint_at))]
fn long_uvarint(at: Spot<'_>) -> Result<(u64, Spot<'_>), WireFault>
    ensures read { Gives (λ x. (x.0, at_of x.1)) result (long_uvarint_at (at_of at.entry)) }
    ensures memory { TakesNoMemory result }
{
    let (value, count) = groups(at.place, 1, 9, at.rest)?;
    Ok((value, skip(at, count)))
}

#[tactic(auto, unfolding(crate::specs::Reading::unzigzag))]
fn signed(n: u32) -> i32
    ensures { result ≡ unzigzag n }
{
    if n % 2 == 0 {
        (n / 2) as i32
    } else {
        -1 - (n / 2) as i32
    }
}

#[tactic(auto, unfolding(crate::specs::Reading::unzigzag))]
fn long_signed(n: u64) -> i64
    ensures { result ≡ unzigzag n }
{
    if n % 2 == 0 {
        (n / 2) as i64
    } else {
        -1 - (n / 2) as i64
    }
}

#[tactic(auto, unfolding(crate::specs::Reading::varint_at))]
pub fn varint(at: Spot<'_>) -> Result<(i32, Spot<'_>), WireFault>
    ensures read { Gives (λ x. (x.0, at_of x.1)) result (varint_at (at_of at.entry)) }
    ensures memory { TakesNoMemory result }
{
    let (value, after) = uvarint(at)?;
    Ok((signed(value), after))
}

#[tactic(auto, unfolding(crate::specs::Reading::varlong_at))]
pub fn varlong(at: Spot<'_>) -> Result<(i64, Spot<'_>), WireFault>
    ensures read { Gives (λ x. (x.0, at_of x.1)) result (varlong_at (at_of at.entry)) }
    ensures memory { TakesNoMemory result }
{
    let (value, after) = long_uvarint(at)?;
    Ok((long_signed(value), after))
}
