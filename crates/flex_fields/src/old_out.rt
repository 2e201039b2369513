// The fields of older messages, and a tagged field.
ghost use Rattle.std.specs.Prelude.{◌≡◌, ◌+◌, ◌^◌, ◌<◌, ◌≤◌, ◌++◌, length, OnOk, OnErr, IfSome, pos};
ghost use Rattle.std.specs.Int.{w32};
ghost use Rattle.std.specs.Option.{option_copied};
ghost use Rattle.flex_fields.specs.Formats.{Writes, StartsWith};
ghost use Rattle.flex_fields.specs.Grammar.{IsTags};
ghost use Rattle.flex_fields.specs.Writing.{int_bytes, one_tag_bytes};
ghost use Rattle.flex_fields.specs.Versions.{old_string, old_null_string, old_byte_string, old_null_byte_string};

use crate::fault::NoMemory;
use crate::out::Out;

impl Out {
    /// A string of an older message. It is never null.
    #[tactic(auto, using(crate::proofs::Olds::string_writes))]
    pub fn put_old_str(&mut self, text: &str) -> Result<(), NoMemory>
        requires { length text.now ≤ 32767 }
        ensures ok { OnOk result (Writes old_string self.old self.new text.now) }
        ensures err { OnErr result (self.new ≡ self.old) }
    {
        let len = self.bytes.len();
        self.put_i16(text.len() as i16)?;
        if self.bytes.extend_from_slice(text.as_bytes()).is_err() {
            self.bytes.truncate(len);
            return Err(NoMemory);
        }
        Ok(())
    }

    /// A string of an older message, or the length -1 for null.
    pub fn put_old_null_str(&mut self, text: Option<&str>) -> Result<(), NoMemory>
        requires { IfSome text (λ t. length t.now ≤ 32767) }
        ensures ok { OnOk result (Writes old_null_string self.old self.new (option_copied text.entry)) }
        ensures err { OnErr result (self.new ≡ self.old) }
    {
        match text {
            None => self.put_i16(-1),
            Some(text) => self.put_old_str(text),
        }
    }

    /// A length of four bytes and the bytes. They are never null.
    pub fn put_old_bytes(&mut self, bytes: &[u8]) -> Result<(), NoMemory>
        requires { length bytes.now < 2 ^ 31 }
        ensures ok { OnOk result (Writes old_byte_string self.old self.new bytes.now) }
        ensures err { OnErr result (self.new ≡ self.old) }
    {
        let len = self.bytes.len();
        self.put_i32(bytes.len() as i32)?;
        if self.bytes.extend_from_slice(bytes).is_err() {
            self.bytes.truncate(len);
            return Err(NoMemory);
        }
        Ok(())
    }

    /// Bytes of an older message, or the length -1 for null.
    pub fn put_old_null_bytes(&mut self, bytes: Option<&[u8]>) -> Result<(), NoMemory>
        requires { IfSome bytes (λ b. length b.now < 2 ^ 31) }
        ensures ok { OnOk result (Writes old_null_byte_string self.old self.new (option_copied bytes.entry)) }
        ensures err { OnErr result (self.new ≡ self.old) }
    {
        match bytes {
            None => self.put_i32(-1),
            Some(bytes) => self.put_old_bytes(bytes),
        }
    }

    /// The number of elements of an array of an older message; they follow it.
    pub fn put_old_array_len(&mut self, count: u32) -> Result<(), NoMemory>
        requires { count < 2 ^ 31 }
        ensures ok { OnOk result (self.new ≡ self.old ++ int_bytes w32 (pos count)) }
        ensures err { OnErr result (self.new ≡ self.old) }
    {
        self.put_i32(count as i32)?;
        Ok(())
    }

    /// One tagged field: the number of such fields, its tag, its size and its bytes. Where memory runs out, what was
    /// written before stands, and a part of this may follow it.
    #[tactic(auto, using(crate::proofs::Olds::one_tag_spells))]
    pub fn put_tag(&mut self, tag: u32, bytes: &[u8]) -> Result<(), NoMemory>
        requires { length bytes.now < 2 ^ 32 }
        ensures ok { OnOk result (self.new ≡ self.old ++ one_tag_bytes tag bytes.now) }
        ensures err { OnErr result (StartsWith self.old self.new) }
        ensures stands { IsTags (one_tag_bytes tag bytes.now) }
    {
        self.put_uvarint(1)?;
        self.put_uvarint(tag)?;
        self.put_uvarint(bytes.len() as u32)?;
        self.put_slice(bytes)?;
        Ok(())
    }
}
