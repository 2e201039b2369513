ghost use Rattle.std.specs.Prelude.{◌≡◌, ◌+◌, ◌^◌, ◌<◌, ◌++◌, List, ℕ, length, vec_len, Option, OnOk, OnErr, IfOk};
ghost use Rattle.std.specs.List.{flat_map};
ghost use Rattle.flex_fields.specs.Reading.{many_at, whole_at};
ghost use Rattle.flex_fields.specs.Grammar.{AreMany};
ghost use Rattle.flex_fields.specs.Cursors.{Gives, Moves};
ghost use Rattle.flex_fields.specs.Formats.{Format, ReadsWhole, ReadsFront, front_at, Writes, StartsWith, IsSpelling, array, null_array};

use crate::bytes::Bytes;
use crate::cursor::Cursor;
use crate::fault::{NoMemory, WireFault};
use crate::items::Items;
use crate::out::Out;
use std::alloc::Global;

/// What stands in a message: a structure, or an element of an array.
pub trait Wire: Sized + Drop {
    /// Its schema.
    ghost format: { Format Self };

    /// Takes it from the cursor. After a refusal the cursor may stand anywhere.
    fn take(alloc: Global, cursor: &mut Cursor<'_>) -> Result<Self, WireFault>
        ensures { Moves cursor.new result (format.read cursor.old) };

    /// Writes it behind what was written before. Where memory runs out, that still stands, and a
    /// part of this may follow it.
    fn put(&self, out: &mut Out) -> Result<(), NoMemory>
        ensures ok { OnOk result (Writes format out.old out.new self.now) }
        ensures err { OnErr result (StartsWith out.old out.new) };
}

/// Takes so many elements, one after the other, as an array has them behind its length. After a
/// refusal the cursor may stand anywhere.
pub fn take_many<T: Wire>(
    alloc: Global,
    count: u32,
    cursor: &mut Cursor<'_>,
) -> Result<Items<T>, WireFault>
    requires few { count + 1 < 2 ^ 32 }
    ensures read { Moves cursor.new result (many_at T.format.read count cursor.old) }
    ensures all { IfOk result (λ xs. length xs ≡ count) }
{
    let mut items = Vec::new(alloc);
    for _ in 0..count {
        let item = T::take(alloc, cursor)?;
        items.push(item)?;
    }
    Ok(Items::new(items))
}

/// Takes an array, which can't be null here. After a refusal the cursor may stand anywhere.
#[tactic(auto, unfolding(crate::specs::Reading::array_at))]
pub fn take_array<T: Wire>(alloc: Global, cursor: &mut Cursor<'_>) -> Result<Items<T>, WireFault>
    ensures { Moves cursor.new result ((array T.format).read cursor.old) }
{
    let count = cursor.take_array_len()?;
    take_many(alloc, count, cursor)
}

/// Writes elements, one after the other, as an array has them behind its length. Where memory runs
/// out, what was written before stands, and a part of this may follow it.
pub fn put_many<T: Wire>(out: &mut Out, items: &[T]) -> Result<(), NoMemory>
    ensures bytes { OnOk result (out.new ≡ out.old ++ flat_map T.format.bytes items.now) }
    ensures stands { OnOk result (AreMany T.format.is (flat_map T.format.bytes items.now) items.now) }
    ensures err { OnErr result (StartsWith out.old out.new) }
{
    for item in items {
        item.put(out)?;
    }
    Ok(())
}

/// Writes an array. Where memory runs out, what was written before stands, and a part of this may
/// follow it.
pub fn put_array<T: Wire>(out: &mut Out, items: &Items<T>) -> Result<(), NoMemory>
    ensures ok { OnOk result (Writes (array T.format) out.old out.new items.now) }
    ensures err { OnErr result (StartsWith out.old out.new) }
{
    let items = items.as_slice();
    out.put_array_len(items.len() as u32)?;
    put_many(out, items)?;
    Ok(())
}

/// Takes an array or null. After a refusal the cursor may stand anywhere.
#[tactic(auto, unfolding(crate::specs::Reading::nullable_at))]
pub fn take_null_array<T: Wire>(
    alloc: Global,
    cursor: &mut Cursor<'_>,
) -> Result<Option<Items<T>>, WireFault>
    ensures { Moves cursor.new result ((null_array T.format).read cursor.old) }
{
    if cursor.skip_null()? {
        return Ok(None);
    }
    Ok(Some(take_array(alloc, cursor)?))
}

/// Writes an array or null. Where memory runs out, what was written before stands, and a part of
/// this may follow it.
pub fn put_null_array<T: Wire>(out: &mut Out, items: &Option<Items<T>>) -> Result<(), NoMemory>
    ensures ok { OnOk result (Writes (null_array T.format) out.old out.new items.now) }
    ensures err { OnErr result (StartsWith out.old out.new) }
{
    match items {
        None => out.put_uvarint(0),
        Some(items) => put_array(out, items),
    }
}

fn take_all<T: Wire>(alloc: Global, bytes: &[u8]) -> Result<T, WireFault>
    ensures { Gives (λ x. x) result (whole_at T.format.read bytes.now) }
{
    let mut cursor = Cursor::new(bytes);
    let message = T::take(alloc, &mut cursor)?;
    cursor.end()?;
    Ok(message)
}

/// Reads all of the bytes as one message; bytes behind it are refused as `Trailing`. Places count
/// from the first byte.
pub fn read_whole<T: Wire>(alloc: Global, bytes: &[u8]) -> Result<T, WireFault>
    ensures { ReadsWhole T.format bytes.now result }
{
    take_all(alloc, bytes)
}

fn take_front<T: Wire>(alloc: Global, bytes: &[u8]) -> Result<(T, u64), WireFault>
    ensures { Gives (λ x. x) result (front_at T.format.read bytes.now) }
{
    let mut cursor = Cursor::new(bytes);
    let value = T::take(alloc, &mut cursor)?;
    let length = cursor.place();
    Ok((value, length))
}

/// Reads one value from the front of the bytes, and gives its length. What follows isn't looked at.
pub fn read_front<T: Wire>(alloc: Global, bytes: &[u8]) -> Result<(T, u64), WireFault>
    ensures { ReadsFront T.format bytes.now result }
{
    take_front(alloc, bytes)
}

/// The bytes of a message, which stand for it again; `NoMemory` where no memory was found for them.
pub fn write_whole<T: Wire>(alloc: Global, message: &T) -> Result<Bytes, NoMemory>
    ensures { IfOk result (IsSpelling T.format message.now) }
{
    let mut out = Out::new(alloc);
    message.put(&mut out)?;
    Ok(out.into_bytes())
}

/// Bytes stand for one message at most.
pub fn stand_for_one<T: Wire>()
    ensures { (bytes : List ℕ) (x y : T) → T.format.is bytes x → T.format.is bytes y → x ≡ y }
{}
