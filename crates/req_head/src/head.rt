ghost use Rattle.std.specs.Prelude.{IfOk, true};
ghost use Rattle.flex_fields.specs.Cursors.{Gives, TakesNoMemory};
ghost use Rattle.flex_fields.specs.Formats.{ReadsFront, IsSpelling, front_at};
ghost use Rattle.req_head.specs.Heads.{request_head, reply_head};

use crate::client::{put_client, take_client};
use flex_fields::{Bytes, Cursor, NoMemory, Out, Text, Wire, WireFault, read_front, write_whole};
use std::alloc::Global;
use std::marker::Model;

/// What a request header says. A client id has at most 32767 bytes, as its length has two.
#[derive(Debug, Drop)]
pub struct RequestHead {
    pub key: i16,
    pub version: i16,
    pub correlation: i32,
    pub client: Option<Text>,
}

impl Model for RequestHead {
    ghost use Rattle.std.specs.Prelude.{◌≤◌, length};
    ghost use Rattle.std.specs.Option.{ForSome};
    ghost use Rattle.req_head.specs.Heads.{HeadParts};

    ghost Value = { HeadParts };

    ghost view = { λ h. record { key = h.key; version = h.version; correlation = h.correlation; client = h.client } };

    ghost invariant = { λ h. ForSome h.client (λ t. length t ≤ 32767) };
}

impl Wire for RequestHead {
    ghost format = { request_head };

    #[tactic(auto, unfolding(crate::specs::Heads::request_head))]
    fn take(alloc: Global, cursor: &mut Cursor<'_>) -> Result<Self, WireFault> {
        let key = cursor.take_i16()?;
        let version = cursor.take_i16()?;
        let correlation = cursor.take_i32()?;
        let client = take_client(alloc, cursor)?;
        cursor.skip_tags()?;
        Ok(RequestHead {
            key,
            version,
            correlation,
            client,
        })
    }

    fn put(&self, out: &mut Out) -> Result<(), NoMemory> {
        self.key.put(out)?;
        self.version.put(out)?;
        self.correlation.put(out)?;
        put_client(out, &self.client)?;
        out.put_tags()?;
        Ok(())
    }
}

/// Reads a request header of version 2 (KIP-482) from the front of the bytes, and gives its length
/// in bytes. What follows isn't looked at, so it never answers `Trailing`. A fault is at the first
/// byte of the field, tag or size that can't be read.
pub fn read_head(alloc: Global, bytes: &[u8]) -> Result<(RequestHead, u64), WireFault>
    ensures { ReadsFront request_head bytes.now result }
{
    read_front(alloc, bytes)
}

/// Writes a request header of version 2; `NoMemory` where no memory was found for it.
pub fn write_head(alloc: Global, head: &RequestHead) -> Result<Bytes, NoMemory>
    ensures { IfOk result (IsSpelling request_head head.now) }
{
    write_whole(alloc, head)
}

fn take_reply_head(bytes: &[u8]) -> Result<(i32, u64), WireFault>
    ensures read { Gives (λ x. x) result (front_at (reply_head true).read bytes.now) }
    ensures memory { TakesNoMemory result }
{
    let mut cursor = Cursor::new(bytes);
    let correlation = cursor.take_i32()?;
    cursor.skip_tags()?;
    Ok((correlation, cursor.place()))
}

/// Reads a response header of version 1 from the front of the bytes: the correlation id and the
/// header's length. It takes no memory.
pub fn read_reply_head(bytes: &[u8]) -> Result<(i32, u64), WireFault>
    ensures read { ReadsFront (reply_head true) bytes.now result }
    ensures memory { TakesNoMemory result }
{
    take_reply_head(bytes)
}

/// Writes a response header, of version 1 where `tags` is true and else of version 0; `NoMemory`
/// where no memory was found for it.
pub fn write_reply_head(alloc: Global, correlation: i32, tags: bool) -> Result<Bytes, NoMemory>
    ensures { IfOk result (IsSpelling (reply_head tags) correlation) }
{
    let mut out = Out::new(alloc);
    out.put_i32(correlation)?;
    if tags {
        out.put_tags()?;
    }
    Ok(out.into_bytes())
}
