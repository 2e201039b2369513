ghost use Rattle.std.specs.Prelude.{◌≡◌, ◌+◌, ◌^◌, ◌<◌, ◌++◌, [], ℕ, List, length, Some, None, OnOk, OnErr, IfSome};
ghost use Rattle.std.specs.Option.{option_copied};
ghost use Rattle.flex_fields.specs.Reading.{limit};
ghost use Rattle.flex_fields.specs.Grammar.{IsUvarint, IsVarint, IsVarlong};
ghost use Rattle.flex_fields.specs.Formats.{Writes, WritesNoTags, StartsWith, int8, int16, int32, int64, boolean, uuid as uuid_field};
ghost use Rattle.flex_fields.specs.Formats.{string, null_string, byte_string, null_byte_string};
ghost use Rattle.flex_fields.specs.Writing.{groups_of, uvarint_bytes, zigzag, varint_bytes, varlong_bytes, nullable_bytes};

use crate::bytes::Bytes;
use crate::fault::NoMemory;
use std::alloc::Global;
use std::marker::Model;
use uuid::Uuid;

/// Writes the fields of a message one after the other, in the flexible encoding (KIP-482), each in
/// its shortest form.
///
/// A writer that finds no memory answers `NoMemory`, and leaves what was written before and nothing
/// of its own.
#[derive(Drop)]
pub struct Out {
    pub(crate) bytes: Vec<u8>,
}

impl Model for Out {
    ghost use Rattle.std.specs.Prelude.{List, ℕ};

    ghost Value = { List ℕ };

    ghost view = { λ o. o.bytes.items };
}

// Groups of seven bits, of which `more` may follow the first.
#[tactic(auto, unfolding(crate::specs::Writing::groups_of), using(crate::specs::Sound::Limits::limit_down))]
fn put_groups(out: &mut Vec<u8>, more: u32, value: u64) -> Result<(), NoMemory>
    requires { value < limit 127 more }
    ensures ok { OnOk result (out.new.items ≡ out.old.items ++ groups_of more value) }
    ensures err { OnErr result (StartsWith out.old.items out.new.items) }
{
    if more == 0 || value < 128 {
        out.push(value as u8)?;
        return Ok(());
    }
    out.push((value % 128 + 128) as u8)?;
    put_groups(out, more - 1, value / 128)?;
    Ok(())
}

fn zigzag_of(value: i64) -> u64
    ensures { result ≡ zigzag value }
{
    if value >= 0 {
        2 * value as u64
    } else {
        2 * (-1 - value) as u64 + 1
    }
}

impl Out {
    /// Nothing is written yet.
    pub fn new(alloc: Global) -> Out
        ensures { result ≡ [] }
    {
        Out {
            bytes: Vec::new(alloc),
        }
    }

    /// One byte.
    pub fn put_i8(&mut self, value: i8) -> Result<(), NoMemory>
        ensures ok { OnOk result (Writes int8 self.old self.new value) }
        ensures err { OnErr result (self.new ≡ self.old) }
    {
        self.bytes.extend_from_slice(&value.to_be_bytes())?;
        Ok(())
    }

    /// Two bytes, the high one first.
    pub fn put_i16(&mut self, value: i16) -> Result<(), NoMemory>
        ensures ok { OnOk result (Writes int16 self.old self.new value) }
        ensures err { OnErr result (self.new ≡ self.old) }
    {
        self.bytes.extend_from_slice(&value.to_be_bytes())?;
        Ok(())
    }

    /// Four bytes, the high one first.
    pub fn put_i32(&mut self, value: i32) -> Result<(), NoMemory>
        ensures ok { OnOk result (Writes int32 self.old self.new value) }
        ensures err { OnErr result (self.new ≡ self.old) }
    {
        self.bytes.extend_from_slice(&value.to_be_bytes())?;
        Ok(())
    }

    /// Eight bytes, the high one first.
    pub fn put_i64(&mut self, value: i64) -> Result<(), NoMemory>
        ensures ok { OnOk result (Writes int64 self.old self.new value) }
        ensures err { OnErr result (self.new ≡ self.old) }
    {
        self.bytes.extend_from_slice(&value.to_be_bytes())?;
        Ok(())
    }

    /// A byte, 0 or 1.
    pub fn put_bool(&mut self, value: bool) -> Result<(), NoMemory>
        ensures ok { OnOk result (Writes boolean self.old self.new value) }
        ensures err { OnErr result (self.new ≡ self.old) }
    {
        let byte = if value { 1 } else { 0 };
        self.bytes.push(byte)?;
        Ok(())
    }

    /// Sixteen bytes, in the order of the text form.
    pub fn put_uuid(&mut self, value: Uuid) -> Result<(), NoMemory>
        ensures ok { OnOk result (Writes uuid_field self.old self.new value) }
        ensures err { OnErr result (self.new ≡ self.old) }
    {
        self.bytes.extend_from_slice(value.as_bytes())?;
        Ok(())
    }

    // Groups of seven bits, or nothing.
    fn put_grouped(&mut self, more: u32, value: u64) -> Result<(), NoMemory>
        requires { value < limit 127 more }
        ensures ok { OnOk result (self.new ≡ self.old ++ groups_of more value) }
        ensures err { OnErr result (self.new ≡ self.old) }
    {
        let len = self.bytes.len();
        let written = put_groups(&mut self.bytes, more, value);
        if written.is_err() {
            self.bytes.truncate(len);
        }
        written
    }

    /// An unsigned number in as few bytes as it has groups of seven bits.
    #[tactic(auto, using(crate::proofs::Written::uvarint_spells))]
    pub fn put_uvarint(&mut self, value: u32) -> Result<(), NoMemory>
        ensures ok { OnOk result (self.new ≡ self.old ++ uvarint_bytes value) }
        ensures err { OnErr result (self.new ≡ self.old) }
        ensures stands { IsUvarint (uvarint_bytes value) value }
    {
        self.put_grouped(4, u64::from(value))
    }

    /// A signed number, zigzag.
    #[tactic(auto, using(crate::proofs::Written::varint_spells))]
    pub fn put_varint(&mut self, value: i32) -> Result<(), NoMemory>
        ensures ok { OnOk result (self.new ≡ self.old ++ varint_bytes value) }
        ensures err { OnErr result (self.new ≡ self.old) }
        ensures stands { IsVarint (varint_bytes value) value }
    {
        self.put_grouped(4, zigzag_of(i64::from(value)))
    }

    /// A signed number of 64 bits, zigzag.
    #[tactic(auto, using(crate::proofs::Written::varlong_spells))]
    pub fn put_varlong(&mut self, value: i64) -> Result<(), NoMemory>
        ensures ok { OnOk result (self.new ≡ self.old ++ varlong_bytes value) }
        ensures err { OnErr result (self.new ≡ self.old) }
        ensures stands { IsVarlong (varlong_bytes value) value }
    {
        self.put_grouped(9, zigzag_of(value))
    }

    /// A string. It is never null.
    #[tactic(auto, using(crate::proofs::Written::str_spells))]
    pub fn put_str(&mut self, text: &str) -> Result<(), NoMemory>
        requires { length text.now + 1 < 2 ^ 32 }
        ensures ok { OnOk result (Writes string self.old self.new text.now) }
        ensures err { OnErr result (self.new ≡ self.old) }
    {
        self.put_bytes(text.as_bytes())
    }

    /// A string, or the length 0 for null.
    pub fn put_null_str(&mut self, text: Option<&str>) -> Result<(), NoMemory>
        requires { IfSome text (λ t. length t.now + 1 < 2 ^ 32) }
        ensures ok { OnOk result (Writes null_string self.old self.new (option_copied text.entry)) }
        ensures err { OnErr result (self.new ≡ self.old) }
    {
        match text {
            None => self.put_uvarint(0),
            Some(text) => self.put_str(text),
        }
    }

    /// A length and the bytes. They are never null.
    #[tactic(auto, using(crate::proofs::Written::sized_spells))]
    pub fn put_bytes(&mut self, bytes: &[u8]) -> Result<(), NoMemory>
        requires { length bytes.now + 1 < 2 ^ 32 }
        ensures ok { OnOk result (Writes byte_string self.old self.new bytes.now) }
        ensures err { OnErr result (self.new ≡ self.old) }
    {
        let len = self.bytes.len();
        self.put_uvarint(bytes.len() as u32 + 1)?;
        if self.bytes.extend_from_slice(bytes).is_err() {
            self.bytes.truncate(len);
            return Err(NoMemory);
        }
        Ok(())
    }

    /// Bytes, or the length 0 for null.
    pub fn put_null_bytes(&mut self, bytes: Option<&[u8]>) -> Result<(), NoMemory>
        requires { IfSome bytes (λ b. length b.now + 1 < 2 ^ 32) }
        ensures ok { OnOk result (Writes null_byte_string self.old self.new (option_copied bytes.entry)) }
        ensures err { OnErr result (self.new ≡ self.old) }
    {
        match bytes {
            None => self.put_uvarint(0),
            Some(bytes) => self.put_bytes(bytes),
        }
    }

    /// Bytes as they are, without a length.
    pub fn put_slice(&mut self, bytes: &[u8]) -> Result<(), NoMemory>
        ensures ok { OnOk result (self.new ≡ self.old ++ bytes.now) }
        ensures err { OnErr result (self.new ≡ self.old) }
    {
        self.bytes.extend_from_slice(bytes)?;
        Ok(())
    }

    /// The number of elements of an array, with one added; they follow it.
    pub fn put_array_len(&mut self, count: u32) -> Result<(), NoMemory>
        requires { count + 1 < 2 ^ 32 }
        ensures ok { OnOk result (self.new ≡ self.old ++ uvarint_bytes (count + 1)) }
        ensures err { OnErr result (self.new ≡ self.old) }
    {
        self.put_uvarint(count + 1)?;
        Ok(())
    }

    /// The number of elements of an array, or 0 for null.
    pub fn put_null_array_len(&mut self, count: Option<u32>) -> Result<(), NoMemory>
        requires { IfSome count (λ n. n + 1 < 2 ^ 32) }
        ensures ok { OnOk result (self.new ≡ self.old ++ nullable_bytes (λ n. uvarint_bytes (n + 1)) count) }
        ensures err { OnErr result (self.new ≡ self.old) }
    {
        match count {
            None => self.put_uvarint(0),
            Some(count) => self.put_uvarint(count + 1),
        }
    }

    /// No tags.
    #[tactic(auto, using(crate::proofs::Written::no_tags))]
    pub fn put_tags(&mut self) -> Result<(), NoMemory>
        ensures ok { OnOk result (WritesNoTags self.old self.new) }
        ensures err { OnErr result (self.new ≡ self.old) }
    {
        self.put_uvarint(0)?;
        Ok(())
    }

    /// What was written, which takes no memory.
    pub fn into_bytes(self) -> Bytes
        ensures { result ≡ self }
    {
        let Out { bytes } = self;
        Bytes::new(bytes)
    }
}
