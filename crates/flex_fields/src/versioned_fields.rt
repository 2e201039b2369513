// Fields of messages of several versions, which are also elements of arrays.
ghost use Rattle.std.specs.Prelude.{◌≡◌, ◌+◌, ◌^◌, ◌<◌, length, Option, None, OnOk, OnErr};
ghost use Rattle.flex_fields.specs.Cursors.{Moves};
ghost use Rattle.flex_fields.specs.Formats.{StartsWith, Writes, int16, int32, int64, boolean, uuid as uuid_field};
ghost use Rattle.flex_fields.specs.Versions.{string_by, null_string_by, byte_string_by, null_byte_string_by, null_octets, simply, text, null_text, array_of, null_array_of};

use crate::bytes::Bytes;
use crate::cursor::Cursor;
use crate::fault::{NoMemory, WireFault};
use crate::items::Items;
use crate::out::Out;
use crate::text::Text;
use crate::version::Version;
use crate::versioned::{
    Versioned, put_array_at, put_null_array_at, take_array_at, take_null_array_at,
};
use std::alloc::Global;
use uuid::Uuid;

/// The most bytes whose length has four bytes and a sign.
const MOST_BYTES: usize = i32::MAX as usize;

/// The longest text whose length has two bytes and a sign.
const LONGEST_TEXT: usize = i16::MAX as usize;

impl Versioned for i16 {
    ghost schema = { λ _. simply int16 };

    #[tactic(auto, using(crate::proofs::Moved::reads_move))]
    fn take_at(_: Global, _: Version, cursor: &mut Cursor<'_>) -> Result<Self, WireFault> {
        cursor.take_i16()
    }

    fn put_at(&self, _: Version, out: &mut Out) -> Result<(), NoMemory> {
        out.put_i16(*self)
    }
}

impl Versioned for i32 {
    ghost schema = { λ _. simply int32 };

    #[tactic(auto, using(crate::proofs::Moved::reads_move))]
    fn take_at(_: Global, _: Version, cursor: &mut Cursor<'_>) -> Result<Self, WireFault> {
        cursor.take_i32()
    }

    fn put_at(&self, _: Version, out: &mut Out) -> Result<(), NoMemory> {
        out.put_i32(*self)
    }
}

impl Versioned for i64 {
    ghost schema = { λ _. simply int64 };

    #[tactic(auto, using(crate::proofs::Moved::reads_move))]
    fn take_at(_: Global, _: Version, cursor: &mut Cursor<'_>) -> Result<Self, WireFault> {
        cursor.take_i64()
    }

    fn put_at(&self, _: Version, out: &mut Out) -> Result<(), NoMemory> {
        out.put_i64(*self)
    }
}

impl Versioned for bool {
    ghost schema = { λ _. simply boolean };

    #[tactic(auto, using(crate::proofs::Moved::reads_move))]
    fn take_at(_: Global, _: Version, cursor: &mut Cursor<'_>) -> Result<Self, WireFault> {
        cursor.take_bool()
    }

    fn put_at(&self, _: Version, out: &mut Out) -> Result<(), NoMemory> {
        out.put_bool(*self)
    }
}

impl Versioned for Uuid {
    ghost schema = { λ _. simply uuid_field };

    #[tactic(auto, using(crate::proofs::Moved::reads_move))]
    fn take_at(_: Global, _: Version, cursor: &mut Cursor<'_>) -> Result<Self, WireFault> {
        cursor.take_uuid()
    }

    fn put_at(&self, _: Version, out: &mut Out) -> Result<(), NoMemory> {
        out.put_uuid(*self)
    }
}

// A text; one that is too long for its length is answered as want of memory.
fn put_text(flexible: bool, text: &str, out: &mut Out) -> Result<(), NoMemory>
    requires { length text.now + 1 < 2 ^ 32 }
    ensures ok { OnOk result (Writes (string_by flexible) out.old out.new text.now) }
    ensures err { OnErr result (StartsWith out.old out.new) }
{
    if flexible {
        return out.put_str(text);
    }
    if text.len() > LONGEST_TEXT {
        return Err(NoMemory);
    }
    out.put_old_str(text)
}

impl Versioned for Text {
    ghost schema = { text };

    #[tactic(auto, using(crate::proofs::Moved::reads_move))]
    fn take_at(
        alloc: Global,
        version: Version,
        cursor: &mut Cursor<'_>,
    ) -> Result<Self, WireFault> {
        if version.flexible {
            return cursor.take_str(alloc);
        }
        cursor.take_old_str(alloc)
    }

    fn put_at(&self, version: Version, out: &mut Out) -> Result<(), NoMemory> {
        put_text(version.flexible, self.as_str(), out)
    }
}

// A null text.
fn put_null_text(flexible: bool, out: &mut Out) -> Result<(), NoMemory>
    ensures ok { OnOk result (Writes (null_string_by flexible) out.old out.new None) }
    ensures err { OnErr result (StartsWith out.old out.new) }
{
    if flexible {
        return out.put_null_str(None);
    }
    out.put_old_null_str(None)
}

impl Versioned for Option<Text> {
    ghost schema = { null_text };

    #[tactic(auto, using(crate::proofs::Moved::reads_move))]
    fn take_at(
        alloc: Global,
        version: Version,
        cursor: &mut Cursor<'_>,
    ) -> Result<Self, WireFault> {
        if version.flexible {
            return cursor.take_null_str(alloc);
        }
        cursor.take_old_null_str(alloc)
    }

    fn put_at(&self, version: Version, out: &mut Out) -> Result<(), NoMemory> {
        match self {
            None => put_null_text(version.flexible, out),
            Some(text) => put_text(version.flexible, text.as_str(), out),
        }
    }
}

impl<T: Versioned> Versioned for Items<T> {
    ghost schema = { λ v. array_of v (T.schema v) };

    fn take_at(
        alloc: Global,
        version: Version,
        cursor: &mut Cursor<'_>,
    ) -> Result<Self, WireFault> {
        take_array_at(alloc, version, cursor)
    }

    fn put_at(&self, version: Version, out: &mut Out) -> Result<(), NoMemory> {
        put_array_at(version, out, self)
    }
}

impl<T: Versioned> Versioned for Option<Items<T>> {
    ghost schema = { λ v. null_array_of v (T.schema v) };

    fn take_at(
        alloc: Global,
        version: Version,
        cursor: &mut Cursor<'_>,
    ) -> Result<Self, WireFault> {
        take_null_array_at(alloc, version, cursor)
    }

    fn put_at(&self, version: Version, out: &mut Out) -> Result<(), NoMemory> {
        put_null_array_at(version, out, self)
    }
}

// Bytes; more than their length can say are as many as no memory holds.
fn put_octets(flexible: bool, bytes: &[u8], out: &mut Out) -> Result<(), NoMemory>
    ensures ok { OnOk result (Writes (byte_string_by flexible) out.old out.new bytes.now) }
    ensures err { OnErr result (StartsWith out.old out.new) }
{
    if bytes.len() > MOST_BYTES {
        return Err(NoMemory);
    }
    if flexible {
        return out.put_bytes(bytes);
    }
    out.put_old_bytes(bytes)
}

// Null bytes.
fn put_null_octets(flexible: bool, out: &mut Out) -> Result<(), NoMemory>
    ensures ok { OnOk result (Writes (null_byte_string_by flexible) out.old out.new None) }
    ensures err { OnErr result (StartsWith out.old out.new) }
{
    if flexible {
        return out.put_null_bytes(None);
    }
    out.put_old_null_bytes(None)
}

impl Versioned for Option<Bytes> {
    ghost schema = { null_octets };

    #[tactic(auto, using(crate::proofs::Moved::reads_move))]
    fn take_at(
        alloc: Global,
        version: Version,
        cursor: &mut Cursor<'_>,
    ) -> Result<Self, WireFault> {
        if version.flexible {
            return cursor.take_null_bytes(alloc);
        }
        cursor.take_old_null_bytes(alloc)
    }

    fn put_at(&self, version: Version, out: &mut Out) -> Result<(), NoMemory> {
        match self {
            None => put_null_octets(version.flexible, out),
            Some(bytes) => put_octets(version.flexible, bytes.as_slice(), out),
        }
    }
}
