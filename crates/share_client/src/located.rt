// Reading with places: what is read of a reply, and where it stands.
ghost use Rattle.std.specs.Prelude.{◌≡◌, ◌+◌, ◌^◌, ◌<◌, length, IfOk, Result};
ghost use Rattle.flex_fields.specs.declared.fault.WireFault.{WireFault};
ghost use Rattle.flex_fields.specs.Cursors.{Moves};
ghost use Rattle.flex_fields.specs.Formats.{int16, int32, null_string, uuid as uuid_field};
ghost use Rattle.flex_fields.specs.Reading.{At, array_at, many_at, tagged_at, then_at};
ghost use Rattle.share_client.specs.Locating.{located_at};

use flex_fields::{Cursor, Items, Text, Wire, WireFault};
use msgs_share::Records;
use std::alloc::Global;
use uuid::Uuid;

/// What is read, and its place.
#[derive(Drop)]
pub struct Located<T> {
    /// The place of its first byte.
    pub place: u64,
    pub item: T,
}

/// What is read of a reply with the places of what stands in it.
pub trait Locate: Sized + Drop {
    /// What reading gives.
    ghost reading: { At → Result (Self × At) WireFault };

    /// Takes it from the cursor. After a refusal the cursor may stand anywhere.
    fn locate(alloc: Global, cursor: &mut Cursor<'_>) -> Result<Self, WireFault>
        ensures { Moves cursor.new result (reading cursor.old) };
}

impl Locate for i16 {
    ghost reading = { int16.read };

    fn locate(alloc: Global, cursor: &mut Cursor<'_>) -> Result<Self, WireFault> {
        Wire::take(alloc, cursor)
    }
}

impl Locate for i32 {
    ghost reading = { int32.read };

    fn locate(alloc: Global, cursor: &mut Cursor<'_>) -> Result<Self, WireFault> {
        Wire::take(alloc, cursor)
    }
}

impl Locate for Uuid {
    ghost reading = { uuid_field.read };

    fn locate(alloc: Global, cursor: &mut Cursor<'_>) -> Result<Self, WireFault> {
        Wire::take(alloc, cursor)
    }
}

impl Locate for Option<Text> {
    ghost reading = { null_string.read };

    fn locate(alloc: Global, cursor: &mut Cursor<'_>) -> Result<Self, WireFault> {
        Wire::take(alloc, cursor)
    }
}

impl<A: Locate, B: Locate> Locate for (A, B) {
    ghost reading = { then_at A.reading B.reading };

    fn locate(alloc: Global, cursor: &mut Cursor<'_>) -> Result<Self, WireFault> {
        let first = A::locate(alloc, cursor)?;
        let second = B::locate(alloc, cursor)?;
        Ok((first, second))
    }
}

impl<T: Locate> Locate for Located<T> {
    ghost reading = { located_at T.reading };

    fn locate(alloc: Global, cursor: &mut Cursor<'_>) -> Result<Self, WireFault> {
        let place = cursor.place();
        let item = T::locate(alloc, cursor)?;
        Ok(Located { place, item })
    }
}

// So many elements, one after the other.
fn locate_many<T: Locate>(
    alloc: Global,
    count: u32,
    cursor: &mut Cursor<'_>,
) -> Result<Items<T>, WireFault>
    requires few { count + 1 < 2 ^ 32 }
    ensures read { Moves cursor.new result (many_at T.reading count cursor.old) }
    ensures all { IfOk result (λ xs. length xs ≡ count) }
{
    let mut items = Vec::new(alloc);
    for _ in 0..count {
        let item = T::locate(alloc, cursor)?;
        items.push(item)?;
    }
    Ok(Items::new(items))
}

impl<T: Locate> Locate for Items<T> {
    ghost reading = { array_at T.reading };

    #[tactic(auto, unfolding(flex_fields::specs::Reading::array_at))]
    fn locate(alloc: Global, cursor: &mut Cursor<'_>) -> Result<Self, WireFault> {
        let count = cursor.take_array_len()?;
        locate_many(alloc, count, cursor)
    }
}

/// Record batches or null, as a field. The place is that of the first byte behind their length.
#[derive(Drop)]
pub struct LocatedRecords {
    pub records: Option<Located<Records>>,
}

impl Locate for LocatedRecords {
    ghost use Rattle.share_client.specs.Locating.{located_records_at};

    ghost reading = { located_records_at };

    #[tactic(auto, unfolding(flex_fields::specs::Reading::nullable_at, flex_fields::specs::Reading::len_at, crate::specs::Locating::located_bytes_at, crate::specs::Locating::located_records_at))]
    fn locate(alloc: Global, cursor: &mut Cursor<'_>) -> Result<Self, WireFault> {
        let start = cursor.place();
        let number = cursor.take_uvarint()?;
        if number == 0 {
            return Ok(LocatedRecords { records: None });
        }
        let place = cursor.place();
        let Ok(bytes) = cursor.take_slice((number - 1) as usize) else {
            return Err(WireFault::Short { place: start });
        };
        let item = Items::new(Vec::from_slice(alloc, bytes)?);
        Ok(LocatedRecords {
            records: Some(Located { place, item }),
        })
    }
}

/// Takes the fields of a structure, and the tags behind them. After a refusal the cursor may stand anywhere.
pub fn locate_fields<T: Locate>(alloc: Global, cursor: &mut Cursor<'_>) -> Result<T, WireFault>
    ensures { Moves cursor.new result (tagged_at T.reading cursor.old) }
{
    let fields = T::locate(alloc, cursor)?;
    cursor.skip_tags()?;
    Ok(fields)
}
