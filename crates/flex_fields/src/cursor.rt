ghost use Rattle.std.specs.Prelude.{◌≡◌, ◌≢◌, ◌+◌, ◌^◌, ◌<◌, [], MatchResult, IfOk, OnErr};
ghost use Rattle.std.specs.Int.{w8, w16, w32, w64};
ghost use Rattle.flex_fields.specs.Reading.{raw_at, int_at, bool_at, uvarint_at, varint_at, varlong_at, array_len_at, bytes_at, str_at};
ghost use Rattle.flex_fields.specs.Reading.{null_at, nullable_at, tags_at};
ghost use Rattle.flex_fields.specs.Cursors.{no_value, Gives, Reads, TakesNoMemory, TakesMemoryFor};

use crate::bytes::Bytes;
use crate::fault::WireFault;
use crate::lengths::{array_len, bytes, null_array_len, null_bytes, null_text, tags, text};
use crate::numbers::{boolean, int8, int16, int32, int64, skip, uuid, uvarint, varint, varlong};
use crate::spot::Spot;
use crate::text::Text;
use std::alloc::Global;
use std::marker::Model;
use uuid::Uuid;

/// Reads the fields of a message one after the other, in the flexible encoding (KIP-482). Places
/// count from its first byte.
///
/// A reader either takes its field or refuses it with the place where the field begins; the cursor
/// then stands where it stood. Any refuses as `Short` a field that the bytes end within. Only
/// strings and bytes take memory, and they answer `NoMemory` only where the field stands.
#[derive(Drop)]
pub struct Cursor<'a> {
    pub(crate) at: Spot<'a>,
}

impl<'a> Model for Cursor<'a> {
    ghost use Rattle.flex_fields.specs.Reading.{At};

    ghost Value = { At };

    ghost use Rattle.flex_fields.specs.Spots.{at_of};

    ghost view = { λ c. at_of c.at };
}

impl<'a> Cursor<'a> {
    /// A cursor at the first of these bytes, whose place is 0.
    pub fn new(bytes: &'a [u8]) -> Cursor<'a>
        ensures { result ≡ record { place = 0; left = bytes.now } }
    {
        Cursor {
            at: Spot {
                place: 0,
                rest: bytes,
            },
        }
    }

    /// The place of the next byte: how many bytes were taken.
    pub fn place(&self) -> u64
        ensures { result ≡ self.now.place }
    {
        self.at.place
    }

    /// The bytes that are left.
    pub fn rest(&self) -> &'a [u8]
        ensures { result.now ≡ self.now.left }
    {
        self.at.rest
    }

    /// Refuses bytes that are left, as `Trailing`, with the place of the first one.
    pub fn end(&self) -> Result<(), WireFault>
        ensures { MatchResult result (λ _. self.now.left ≡ []) (λ f. (f ≡ WireFault.Trailing self.now.place) × (self.now.left ≢ [])) }
    {
        if self.at.rest.is_empty() {
            Ok(())
        } else {
            Err(WireFault::Trailing {
                place: self.at.place,
            })
        }
    }

    /// A signed number in one byte.
    pub fn take_i8(&mut self) -> Result<i8, WireFault>
        ensures read { Reads self.old self.new result (int_at w8 self.old) }
        ensures memory { TakesNoMemory result }
    {
        let (value, after) = int8(self.at)?;
        self.at = after;
        Ok(value)
    }

    /// A signed number in two bytes, the high one first.
    pub fn take_i16(&mut self) -> Result<i16, WireFault>
        ensures read { Reads self.old self.new result (int_at w16 self.old) }
        ensures memory { TakesNoMemory result }
    {
        let (value, after) = int16(self.at)?;
        self.at = after;
        Ok(value)
    }

    /// A signed number in four bytes, the high one first.
    pub fn take_i32(&mut self) -> Result<i32, WireFault>
        ensures read { Reads self.old self.new result (int_at w32 self.old) }
        ensures memory { TakesNoMemory result }
    {
        let (value, after) = int32(self.at)?;
        self.at = after;
        Ok(value)
    }

    /// A signed number in eight bytes, the high one first.
    pub fn take_i64(&mut self) -> Result<i64, WireFault>
        ensures read { Reads self.old self.new result (int_at w64 self.old) }
        ensures memory { TakesNoMemory result }
    {
        let (value, after) = int64(self.at)?;
        self.at = after;
        Ok(value)
    }

    /// A byte: 0 is false, and any other is true.
    pub fn take_bool(&mut self) -> Result<bool, WireFault>
        ensures read { Reads self.old self.new result (bool_at self.old) }
        ensures memory { TakesNoMemory result }
    {
        let (value, after) = boolean(self.at)?;
        self.at = after;
        Ok(value)
    }

    /// Sixteen bytes, in the order of the text form.
    pub fn take_uuid(&mut self) -> Result<Uuid, WireFault>
        ensures read { Reads self.old self.new result (raw_at 16 self.old) }
        ensures memory { TakesNoMemory result }
    {
        match uuid(self.at) {
            Ok((value, after)) => {
                self.at = after;
                Ok(value)
            }
            Err(fault) => Err(fault),
        }
    }

    /// An unsigned number below 2^32 in at most five bytes. A longer spelling than the shortest is
    /// read; a fifth byte above 15 is refused as `BadVarint`.
    pub fn take_uvarint(&mut self) -> Result<u32, WireFault>
        ensures read { Reads self.old self.new result (uvarint_at self.old) }
        ensures memory { TakesNoMemory result }
    {
        let (value, after) = uvarint(self.at)?;
        self.at = after;
        Ok(value)
    }

    /// A signed number, zigzag, in at most five bytes; a fifth byte above 15 is refused as
    /// `BadVarint`.
    pub fn take_varint(&mut self) -> Result<i32, WireFault>
        ensures read { Reads self.old self.new result (varint_at self.old) }
        ensures memory { TakesNoMemory result }
    {
        let (value, after) = varint(self.at)?;
        self.at = after;
        Ok(value)
    }

    /// A signed number, zigzag, in at most ten bytes; a tenth byte above 1 is refused as
    /// `BadVarint`.
    pub fn take_varlong(&mut self) -> Result<i64, WireFault>
        ensures read { Reads self.old self.new result (varlong_at self.old) }
        ensures memory { TakesNoMemory result }
    {
        let (value, after) = varlong(self.at)?;
        self.at = after;
        Ok(value)
    }

    /// A string: a length plus one, and that many bytes of UTF-8. Null is refused as `BadLength`,
    /// and what isn't UTF-8 as `NotUtf8`.
    pub fn take_str(&mut self, alloc: Global) -> Result<Text, WireFault>
        ensures read { Reads self.old self.new result (str_at self.old) }
        ensures memory { TakesMemoryFor result (str_at self.old) }
    {
        let (value, after) = text(alloc, self.at)?;
        self.at = after;
        Ok(value)
    }

    /// A string or null, which stands as the length 0.
    pub fn take_null_str(&mut self, alloc: Global) -> Result<Option<Text>, WireFault>
        ensures read { Reads self.old self.new result (nullable_at str_at self.old) }
        ensures memory { TakesMemoryFor result (nullable_at str_at self.old) }
    {
        let (value, after) = null_text(alloc, self.at)?;
        self.at = after;
        Ok(value)
    }

    /// Bytes: a length plus one, and that many. Null is refused as `BadLength`.
    pub fn take_bytes(&mut self, alloc: Global) -> Result<Bytes, WireFault>
        ensures read { Reads self.old self.new result (bytes_at self.old) }
        ensures memory { TakesMemoryFor result (bytes_at self.old) }
    {
        let (value, after) = bytes(alloc, self.at)?;
        self.at = after;
        Ok(value)
    }

    /// Bytes or null, which stands as the length 0.
    pub fn take_null_bytes(&mut self, alloc: Global) -> Result<Option<Bytes>, WireFault>
        ensures read { Reads self.old self.new result (nullable_at bytes_at self.old) }
        ensures memory { TakesMemoryFor result (nullable_at bytes_at self.old) }
    {
        let (value, after) = null_bytes(alloc, self.at)?;
        self.at = after;
        Ok(value)
    }

    /// So many bytes as they are, which are lent and not copied.
    pub fn take_slice(&mut self, count: usize) -> Result<&'a [u8], WireFault>
        ensures read { Gives (λ s. (s.now, self.new)) result (raw_at count self.old) }
        ensures err { OnErr result (self.new ≡ self.old) }
        ensures memory { TakesNoMemory result }
    {
        let at = self.at;
        if at.rest.len() < count {
            return Err(WireFault::Short { place: at.place });
        }
        let (bytes, _) = at.rest.split_at(count);
        self.at = skip(at, count);
        Ok(bytes)
    }

    /// The number of elements of an array, which stands with one added. Null, and more elements than
    /// bytes are left behind their number, are refused as `BadLength`.
    pub fn take_array_len(&mut self) -> Result<u32, WireFault>
        ensures read { Reads self.old self.new result (array_len_at self.old) }
        ensures memory { TakesNoMemory result }
        ensures few { IfOk result (λ n. n + 1 < 2 ^ 32) }
    {
        let (value, after) = array_len(self.at)?;
        self.at = after;
        Ok(value)
    }

    /// The number of elements of an array, or null, which stands as 0.
    pub fn take_null_array_len(&mut self) -> Result<Option<u32>, WireFault>
        ensures read { Reads self.old self.new result (nullable_at array_len_at self.old) }
        ensures memory { TakesNoMemory result }
    {
        let (value, after) = null_array_len(self.at)?;
        self.at = after;
        Ok(value)
    }

    /// Takes a null, and nothing else: whether one stood there.
    pub fn skip_null(&mut self) -> Result<bool, WireFault>
        ensures read { Reads self.old self.new result (null_at self.old) }
        ensures memory { TakesNoMemory result }
    {
        let (number, after) = uvarint(self.at)?;
        if number == 0 {
            self.at = after;
            return Ok(true);
        }
        Ok(false)
    }

    /// The tagged fields that end a structure, none of which says anything here. A fault is at the
    /// count, the tag or the size that can't be read, and at a size where its bytes aren't all there.
    pub fn skip_tags(&mut self) -> Result<(), WireFault>
        ensures read { Reads self.old self.new result (no_value (tags_at self.old)) }
        ensures memory { TakesNoMemory result }
    {
        self.at = tags(self.at)?;
        Ok(())
    }
}
