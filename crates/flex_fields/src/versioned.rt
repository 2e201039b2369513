// What stands in a message of several versions.
ghost use Rattle.std.specs.Prelude.{◌≡◌, ◌+◌, ◌^◌, ◌<◌, ◌++◌, map, OnOk, OnErr, IfOk};
ghost use Rattle.std.specs.List.{flat_map};
ghost use Rattle.flex_fields.specs.Reading.{many_at, whole_at};
ghost use Rattle.flex_fields.specs.Grammar.{AreMany};
ghost use Rattle.flex_fields.specs.Cursors.{Gives, Moves};
ghost use Rattle.flex_fields.specs.Formats.{ReadsWhole, StartsWith};
ghost use Rattle.flex_fields.specs.Versions.{Schema, Tells, IsTold, FieldTells, WritesEnd, WritesLen, WritesNull, array_of, null_array_of, stands_where};
ghost use Rattle.flex_fields.specs.Sound.Parts.{where_at, end_at};
ghost use Rattle.flex_fields.specs.Cursors.{no_value};

use crate::bytes::Bytes;
use crate::cursor::Cursor;
use crate::fault::{NoMemory, WireFault};
use crate::items::Items;
use crate::out::Out;
use crate::version::Version;
use std::alloc::Global;

/// The most elements, and the most bytes, whose number has four bytes and a sign.
const MOST_COUNTED: usize = i32::MAX as usize;

/// What stands in a message of several versions: a structure, or a field.
pub trait Versioned: Sized + Drop {
    ghost use Rattle.flex_fields.specs.declared.version.Version.{Version as VersionParts};

    /// Its schema, by the version.
    ghost schema: { VersionParts → Schema Self };

    /// Takes it from the cursor. After a refusal the cursor may stand anywhere.
    fn take_at(alloc: Global, version: Version, cursor: &mut Cursor<'_>) -> Result<Self, WireFault>
        ensures { Moves cursor.new result ((schema version).format.read cursor.old) };

    /// Writes it behind what was written before. A text, bytes or an array that is too long for the length that it has
    /// in this version is answered as want of memory. Where memory runs out, what was written before stands, and a part
    /// of this may follow it.
    fn put_at(&self, version: Version, out: &mut Out) -> Result<(), NoMemory>
        ensures ok { OnOk result (Tells (schema version) out.old out.new self.now) }
        ensures err { OnErr result (StartsWith out.old out.new) };
}

/// Takes so many elements, one after the other, as an array has them behind its length. After a
/// refusal the cursor may stand anywhere.
fn take_many_at<T: Versioned>(
    alloc: Global,
    version: Version,
    count: u32,
    cursor: &mut Cursor<'_>,
) -> Result<Items<T>, WireFault>
    requires few { count + 1 < 2 ^ 32 }
    ensures { Moves cursor.new result (many_at (T.schema version).format.read count cursor.old) }
{
    let mut items = Vec::new(alloc);
    for _ in 0..count {
        let item = T::take_at(alloc, version, cursor)?;
        items.push(item)?;
    }
    Ok(Items::new(items))
}

/// Takes an array, which can't be null here. After a refusal the cursor may stand anywhere.
#[tactic(auto, unfolding(crate::specs::Reading::array_at, crate::specs::Old::counted_at))]
pub fn take_array_at<T: Versioned>(
    alloc: Global,
    version: Version,
    cursor: &mut Cursor<'_>,
) -> Result<Items<T>, WireFault>
    ensures { Moves cursor.new result ((array_of version (T.schema version)).format.read cursor.old) }
{
    if version.flexible {
        let count = cursor.take_array_len()?;
        return take_many_at(alloc, version, count, cursor);
    }
    let count = cursor.take_old_array_len()?;
    take_many_at(alloc, version, count, cursor)
}

/// Takes an array or null. After a refusal the cursor may stand anywhere.
#[tactic(auto, unfolding(crate::specs::Reading::nullable_at, crate::specs::Old::unless_minus_at))]
pub fn take_null_array_at<T: Versioned>(
    alloc: Global,
    version: Version,
    cursor: &mut Cursor<'_>,
) -> Result<Option<Items<T>>, WireFault>
    ensures { Moves cursor.new result ((null_array_of version (T.schema version)).format.read cursor.old) }
{
    let null = if version.flexible {
        cursor.skip_null()?
    } else {
        cursor.skip_old_null()?
    };
    if null {
        return Ok(None);
    }
    Ok(Some(take_array_at(alloc, version, cursor)?))
}

fn put_many_at<T: Versioned>(version: Version, out: &mut Out, items: &[T]) -> Result<(), NoMemory>
    ensures bytes { OnOk result (out.new ≡ out.old ++ flat_map (T.schema version).format.bytes items.now) }
    ensures stands { OnOk result (AreMany (T.schema version).format.is (flat_map (T.schema version).format.bytes items.now) (map (T.schema version).told items.now)) }
    ensures err { OnErr result (StartsWith out.old out.new) }
{
    for item in items {
        item.put_at(version, out)?;
    }
    Ok(())
}

// The number of elements of an array.
#[tactic(auto, using(crate::proofs::Told::len_written, crate::proofs::Told::old_len_written))]
fn put_len(flexible: bool, count: usize, out: &mut Out) -> Result<(), NoMemory>
    requires { count + 1 < 2 ^ 32 }
    ensures ok { OnOk result (WritesLen flexible out.old out.new count) }
    ensures err { OnErr result (StartsWith out.old out.new) }
{
    if flexible {
        return out.put_array_len(count as u32);
    }
    if count > MOST_COUNTED {
        return Err(NoMemory);
    }
    out.put_old_array_len(count as u32)
}

// A null array.
fn put_null(flexible: bool, out: &mut Out) -> Result<(), NoMemory>
    ensures ok { OnOk result (WritesNull flexible out.old out.new) }
    ensures err { OnErr result (StartsWith out.old out.new) }
{
    if flexible {
        return out.put_uvarint(0);
    }
    out.put_i32(-1)
}

/// Writes an array. Where memory runs out, what was written before stands, and a part of this may
/// follow it.
pub fn put_array_at<T: Versioned>(
    version: Version,
    out: &mut Out,
    items: &Items<T>,
) -> Result<(), NoMemory>
    ensures ok { OnOk result (Tells (array_of version (T.schema version)) out.old out.new items.now) }
    ensures err { OnErr result (StartsWith out.old out.new) }
{
    let items = items.as_slice();
    put_len(version.flexible, items.len(), out)?;
    put_many_at(version, out, items)?;
    Ok(())
}

/// Writes an array or null. Where memory runs out, what was written before stands, and a part of
/// this may follow it.
pub fn put_null_array_at<T: Versioned>(
    version: Version,
    out: &mut Out,
    items: &Option<Items<T>>,
) -> Result<(), NoMemory>
    ensures ok { OnOk result (Tells (null_array_of version (T.schema version)) out.old out.new items.now) }
    ensures err { OnErr result (StartsWith out.old out.new) }
{
    match items {
        None => put_null(version.flexible, out),
        Some(items) => put_array_at(version, out, items),
    }
}

/// Takes a field that stands where `there` is true, and is `absent` elsewhere. After a refusal the cursor may stand
/// anywhere.
pub fn take_where<T: Versioned>(
    alloc: Global,
    version: Version,
    there: bool,
    absent: T,
    cursor: &mut Cursor<'_>,
) -> Result<T, WireFault>
    ensures { Moves cursor.new result (where_at there absent (T.schema version).format.read cursor.old) }
{
    if there {
        drop(absent);
        return T::take_at(alloc, version, cursor);
    }
    Ok(absent)
}

/// Writes a field that stands where `there` is true, and else nothing.
pub fn put_where<T: Versioned>(
    version: Version,
    there: bool,
    field: &T,
    out: &mut Out,
) -> Result<(), NoMemory>
    ensures ok { OnOk result ((absent : T) → FieldTells (stands_where there absent (T.schema version)) out.old out.new field.now) }
    ensures err { OnErr result (StartsWith out.old out.new) }
{
    if there {
        return field.put_at(version, out);
    }
    Ok(())
}

/// Takes what ends a structure.
pub fn take_end(version: Version, cursor: &mut Cursor<'_>) -> Result<(), WireFault>
    ensures { Moves cursor.new result (no_value (end_at version.flexible cursor.old)) }
{
    if version.flexible {
        return cursor.skip_tags();
    }
    Ok(())
}

/// Writes what ends a structure.
pub fn put_end(version: Version, out: &mut Out) -> Result<(), NoMemory>
    ensures ok { OnOk result (WritesEnd version.flexible out.old out.new) }
    ensures err { OnErr result (StartsWith out.old out.new) }
{
    if version.flexible {
        return out.put_tags();
    }
    Ok(())
}

fn take_all_at<T: Versioned>(alloc: Global, version: Version, bytes: &[u8]) -> Result<T, WireFault>
    ensures { Gives (λ x. x) result (whole_at (T.schema version).format.read bytes.now) }
{
    let mut cursor = Cursor::new(bytes);
    let message = T::take_at(alloc, version, &mut cursor)?;
    cursor.end()?;
    Ok(message)
}

/// Reads all of the bytes as one message of this version; bytes behind it are refused as `Trailing`. Places count from
/// the first byte.
pub fn read_whole_at<T: Versioned>(
    alloc: Global,
    version: Version,
    bytes: &[u8],
) -> Result<T, WireFault>
    ensures { ReadsWhole (T.schema version).format bytes.now result }
{
    take_all_at(alloc, version, bytes)
}

/// The bytes of a message in this version, which stand for what it tells again; `NoMemory` where no memory was found for
/// them, and where a text, bytes or an array is too long for the length that it has in this version.
pub fn write_whole_at<T: Versioned>(
    alloc: Global,
    version: Version,
    message: &T,
) -> Result<Bytes, NoMemory>
    ensures { IfOk result (IsTold (T.schema version) message.now) }
{
    let mut out = Out::new(alloc);
    message.put_at(version, &mut out)?;
    Ok(out.into_bytes())
}
