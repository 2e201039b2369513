// The fields of older messages, off a cursor.
ghost use Rattle.std.specs.Prelude.{◌^◌, ◌<◌, IfOk};
ghost use Rattle.std.specs.Int.{w16, w32};
ghost use Rattle.flex_fields.specs.Old.{old_bytes_at, old_str_at, old_count_at, old_null_at, unless_minus_at};
ghost use Rattle.flex_fields.specs.Cursors.{Reads, TakesNoMemory, TakesMemoryFor};

use crate::bytes::Bytes;
use crate::cursor::Cursor;
use crate::fault::WireFault;
use crate::old::{old_bytes, old_count, old_null, old_null_bytes, old_null_text, old_text};
use crate::text::Text;
use std::alloc::Global;

impl<'a> Cursor<'a> {
    /// A string of an older message: a length of two bytes, and that many bytes of UTF-8. A length below 0 is refused
    /// as `BadLength`, and what isn't UTF-8 as `NotUtf8`.
    pub fn take_old_str(&mut self, alloc: Global) -> Result<Text, WireFault>
        ensures read { Reads self.old self.new result (old_str_at self.old) }
        ensures memory { TakesMemoryFor result (old_str_at self.old) }
    {
        let (value, after) = old_text(alloc, self.at)?;
        self.at = after;
        Ok(value)
    }

    /// A string of an older message or null, which stands as the length -1.
    pub fn take_old_null_str(&mut self, alloc: Global) -> Result<Option<Text>, WireFault>
        ensures read { Reads self.old self.new result (unless_minus_at w16 old_str_at self.old) }
        ensures memory { TakesMemoryFor result (unless_minus_at w16 old_str_at self.old) }
    {
        let (value, after) = old_null_text(alloc, self.at)?;
        self.at = after;
        Ok(value)
    }

    /// Bytes of an older message: a length of four bytes, and that many. A length below 0 is refused as `BadLength`.
    pub fn take_old_bytes(&mut self, alloc: Global) -> Result<Bytes, WireFault>
        ensures read { Reads self.old self.new result (old_bytes_at w32 self.old) }
        ensures memory { TakesMemoryFor result (old_bytes_at w32 self.old) }
    {
        let (value, after) = old_bytes(alloc, self.at)?;
        self.at = after;
        Ok(value)
    }

    /// Bytes of an older message or null, which stands as the length -1.
    pub fn take_old_null_bytes(&mut self, alloc: Global) -> Result<Option<Bytes>, WireFault>
        ensures read { Reads self.old self.new result (unless_minus_at w32 (old_bytes_at w32) self.old) }
        ensures memory { TakesMemoryFor result (unless_minus_at w32 (old_bytes_at w32) self.old) }
    {
        let (value, after) = old_null_bytes(alloc, self.at)?;
        self.at = after;
        Ok(value)
    }

    /// The number of elements of an array of an older message, in four bytes. A number below 0, and one above that of
    /// the bytes left behind it, is refused as `BadLength`.
    pub fn take_old_array_len(&mut self) -> Result<u32, WireFault>
        ensures read { Reads self.old self.new result (old_count_at self.old) }
        ensures memory { TakesNoMemory result }
        ensures few { IfOk result (λ n. n < 2 ^ 31) }
    {
        let (value, after) = old_count(self.at)?;
        self.at = after;
        Ok(value)
    }

    /// Takes a null array of an older message, and nothing else: whether one stood there.
    pub fn skip_old_null(&mut self) -> Result<bool, WireFault>
        ensures read { Reads self.old self.new result (old_null_at w32 self.old) }
        ensures memory { TakesNoMemory result }
    {
        let (null, after) = old_null(self.at)?;
        self.at = after;
        Ok(null)
    }
}
