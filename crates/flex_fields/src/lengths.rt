// Lengths with what they count, and tags, from one place to the next.
ghost use Rattle.std.specs.Prelude.{◌≡◌, ◌+◌, ◌-◌, ◌^◌, ◌<◌, ◌≤◌, length, IfOk};
ghost use Rattle.flex_fields.specs.Reading.{len_at, array_len_at, bytes_at, str_at, nullable_at, tag_at, some_tags_at, tags_at};
ghost use Rattle.flex_fields.specs.Cursors.{Gives, IsOfBytes, TakesNoMemory, TakesMemoryFor};
ghost use Rattle.flex_fields.specs.Spots.{at_of};

use crate::bytes::Bytes;
use crate::fault::{NoMemory, WireFault};
use crate::numbers::{skip, uvarint};
use crate::spot::Spot;
use crate::text::{Text, as_text};
use std::alloc::Global;

// A number that is one more than a length; `beyond` where so much isn't there.
#[tactic(auto, unfolding(crate::specs::Reading::len_at))]
fn len(at: Spot<'_>, beyond: WireFault) -> Result<(u32, Spot<'_>), WireFault>
    requires { IsOfBytes beyond }
    ensures read { Gives (λ x. (x.0, at_of x.1)) result (len_at beyond (at_of at.entry)) }
    ensures memory { TakesNoMemory result }
    ensures within { IfOk result (λ x. x.0 ≤ length x.1.rest.now) }
    ensures few { IfOk result (λ x. x.0 + 1 < 2 ^ 32) }
{
    let (count, after) = uvarint(at)?;
    if count == 0 {
        return Err(WireFault::BadLength { place: at.place });
    }
    if after.rest.len() < (count - 1) as usize {
        return Err(beyond);
    }
    Ok((count - 1, after))
}

#[tactic(auto, unfolding(crate::specs::Reading::array_len_at))]
pub fn array_len(at: Spot<'_>) -> Result<(u32, Spot<'_>), WireFault>
    ensures read { Gives (λ x. (x.0, at_of x.1)) result (array_len_at (at_of at.entry)) }
    ensures memory { TakesNoMemory result }
    ensures few { IfOk result (λ x. x.0 + 1 < 2 ^ 32) }
{
    len(at, WireFault::BadLength { place: at.place })
}

// The bytes behind a length.
#[tactic(auto, unfolding(crate::specs::Reading::bytes_at))]
fn slice(at: Spot<'_>) -> Result<(&[u8], Spot<'_>), WireFault>
    ensures read { Gives (λ x. (x.0.now, at_of x.1)) result (bytes_at (at_of at.entry)) }
    ensures memory { TakesNoMemory result }
    ensures few { IfOk result (λ x. length x.0.now + 1 < 2 ^ 32) }
{
    let (count, after) = len(at, WireFault::Short { place: at.place })?;
    let (bytes, _) = after.rest.split_at(count as usize);
    Ok((bytes, skip(after, count as usize)))
}

pub fn bytes(alloc: Global, at: Spot<'_>) -> Result<(Bytes, Spot<'_>), WireFault>
    ensures read { Gives (λ x. (x.0, at_of x.1)) result (bytes_at (at_of at.entry)) }
    ensures memory { TakesMemoryFor result (bytes_at (at_of at.entry)) }
{
    let (bytes, after) = slice(at)?;
    Ok((Bytes::new(bytes.to_vec(alloc)?), after))
}

#[tactic(auto, unfolding(crate::specs::Reading::str_at))]
pub fn text(alloc: Global, at: Spot<'_>) -> Result<(Text, Spot<'_>), WireFault>
    ensures read { Gives (λ x. (x.0, at_of x.1)) result (str_at (at_of at.entry)) }
    ensures memory { TakesMemoryFor result (str_at (at_of at.entry)) }
{
    let (bytes, after) = slice(at)?;
    match as_text(bytes) {
        None => Err(WireFault::NotUtf8 { place: at.place }),
        Some(text) => match Text::new(alloc, text) {
            Ok(text) => Ok((text, after)),
            Err(NoMemory) => Err(WireFault::NoMemory),
        },
    }
}

#[tactic(auto, unfolding(crate::specs::Reading::nullable_at))]
pub fn null_array_len(at: Spot<'_>) -> Result<(Option<u32>, Spot<'_>), WireFault>
    ensures read { Gives (λ x. (x.0, at_of x.1)) result (nullable_at array_len_at (at_of at.entry)) }
    ensures memory { TakesNoMemory result }
{
    let (number, after) = uvarint(at)?;
    if number == 0 {
        return Ok((None, after));
    }
    let (count, after) = array_len(at)?;
    Ok((Some(count), after))
}

#[tactic(auto, unfolding(crate::specs::Reading::nullable_at))]
pub fn null_bytes(alloc: Global, at: Spot<'_>) -> Result<(Option<Bytes>, Spot<'_>), WireFault>
    ensures read { Gives (λ x. (x.0, at_of x.1)) result (nullable_at bytes_at (at_of at.entry)) }
    ensures memory { TakesMemoryFor result (nullable_at bytes_at (at_of at.entry)) }
{
    let (number, after) = uvarint(at)?;
    if number == 0 {
        return Ok((None, after));
    }
    let (bytes, after) = bytes(alloc, at)?;
    Ok((Some(bytes), after))
}

#[tactic(auto, unfolding(crate::specs::Reading::nullable_at))]
pub fn null_text(alloc: Global, at: Spot<'_>) -> Result<(Option<Text>, Spot<'_>), WireFault>
    ensures read { Gives (λ x. (x.0, at_of x.1)) result (nullable_at str_at (at_of at.entry)) }
    ensures memory { TakesMemoryFor result (nullable_at str_at (at_of at.entry)) }
{
    let (number, after) = uvarint(at)?;
    if number == 0 {
        return Ok((None, after));
    }
    let (text, after) = text(alloc, at)?;
    Ok((Some(text), after))
}

#[tactic(auto, unfolding(crate::specs::Reading::tag_at))]
fn tag(at: Spot<'_>) -> Result<Spot<'_>, WireFault>
    ensures read { Gives at_of result (tag_at (at_of at.entry)) }
    ensures memory { TakesNoMemory result }
{
    let (_, after) = uvarint(at)?;
    let (size, bytes) = uvarint(after)?;
    let size = size as usize;
    if bytes.rest.len() < size {
        return Err(WireFault::Short { place: after.place });
    }
    Ok(skip(bytes, size))
}

fn some_tags(count: u32, at: Spot<'_>) -> Result<Spot<'_>, WireFault>
    ensures read { Gives at_of result (some_tags_at count (at_of at.entry)) }
    ensures memory { TakesNoMemory result }
{
    let mut rest = at;
    for _ in 0..count {
        rest = tag(rest)?;
    }
    Ok(rest)
}

#[tactic(auto, unfolding(crate::specs::Reading::tags_at))]
pub fn tags(at: Spot<'_>) -> Result<Spot<'_>, WireFault>
    ensures read { Gives at_of result (tags_at (at_of at.entry)) }
    ensures memory { TakesNoMemory result }
{
    let (count, after) = uvarint(at)?;
    some_tags(count, after)
}
