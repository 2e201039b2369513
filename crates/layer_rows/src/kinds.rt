// Kafka's fields and headers.
use crate::messages::client_told;
use crate::plain::{debug_text, fault_text, hex_text, plain, word};
use flex_fields::{
    Bytes, Cursor, Items, NoMemory, Out, Text, Wire, WireFault, read_whole, write_whole,
};
use req_head::{RequestHead, read_head, read_reply_head, write_head, write_reply_head};
use std::alloc::Global;
use std::fmt::Debug;
use std::io;
use uuid::Uuid;

/// Adds how a value is written, where that isn't how it was read.
fn push_written(
    alloc: Global,
    text: &mut String,
    bytes: &[u8],
    written: &Result<Bytes, NoMemory>,
) -> io::Result<()> {
    match written {
        Ok(written) if written.as_slice() == bytes => {}
        Ok(written) => {
            text.push_str(", written ")?;
            text.push_str(hex_text(alloc, written.as_slice())?.as_str())?;
        }
        Err(_) => text.push_str(", and not written")?,
    }
    Ok(())
}

/// Whether some proper front of the bytes is read.
fn is_front_read<M: Wire>(alloc: Global, bytes: &[u8]) -> bool {
    for length in 0..bytes.len().min(200) {
        let (front, _) = bytes.split_at(length);
        let read: Result<M, WireFault> = read_whole(alloc, front);
        if read.is_ok() {
            return true;
        }
    }
    false
}

/// What a value that was read is, how it is written, where that isn't how it was read, and whether a front is read.
pub fn written_told<M: Debug>(
    alloc: Global,
    bytes: &[u8],
    message: &M,
    written: &Result<Bytes, NoMemory>,
    front: bool,
) -> io::Result<String> {
    let mut text = plain(alloc, message)?;
    push_written(alloc, &mut text, bytes, written)?;
    if front {
        text.push_str(", and a front of it is read")?;
    }
    Ok(text)
}

/// What a value that was read is, and how it is written, where that isn't how it was read.
pub fn read_told<M: Wire + Debug>(
    alloc: Global,
    bytes: &[u8],
    message: &M,
    written: &Result<Bytes, NoMemory>,
) -> io::Result<String> {
    let front = is_front_read::<M>(alloc, bytes);
    written_told(alloc, bytes, message, written, front)
}

/// What a field is read as, and written.
fn told<M: Wire + Debug>(alloc: Global, bytes: &[u8]) -> io::Result<String> {
    let read: Result<M, WireFault> = read_whole(alloc, bytes);
    match read {
        Ok(value) => read_told(alloc, bytes, &value, &write_whole(alloc, &value)),
        Err(fault) => fault_text(alloc, &fault),
    }
}

/// Reads a number of variable length, behind which nothing stands.
fn take_number(kind: &str, bytes: &[u8]) -> Result<i64, WireFault> {
    let mut cursor = Cursor::new(bytes);
    let number = match kind {
        "uvarint" => i64::from(cursor.take_uvarint()?),
        "varint" => i64::from(cursor.take_varint()?),
        _ => cursor.take_varlong()?,
    };
    cursor.end()?;
    Ok(number)
}

/// Writes a number of variable length.
fn put_number(alloc: Global, kind: &str, number: i64) -> Result<Bytes, NoMemory> {
    let mut out = Out::new(alloc);
    match kind {
        "uvarint" => out.put_uvarint(u32::try_from(number).unwrap_or(0))?,
        "varint" => out.put_varint(i32::try_from(number).unwrap_or(0))?,
        _ => out.put_varlong(number)?,
    }
    Ok(out.into_bytes())
}

/// What a number of variable length is read as, and written.
fn number_told(alloc: Global, kind: &str, bytes: &[u8]) -> io::Result<String> {
    match take_number(kind, bytes) {
        Ok(number) => {
            let mut text = debug_text(alloc, &number)?;
            push_written(alloc, &mut text, bytes, &put_number(alloc, kind, number))?;
            Ok(text)
        }
        Err(fault) => fault_text(alloc, &fault),
    }
}

/// A text and a number of bytes.
fn length_text(alloc: Global, front: &str, length: u64) -> io::Result<String> {
    Ok(format!(in alloc; "{front}{length} bytes")?)
}

/// What tags are read as: how many bytes they have.
fn tags_told(alloc: Global, bytes: &[u8]) -> io::Result<String> {
    let mut cursor = Cursor::new(bytes);
    match cursor.skip_tags() {
        Ok(()) => length_text(alloc, "", cursor.place()),
        Err(fault) => fault_text(alloc, &fault),
    }
}

/// Reads bytes with their length before them, behind which nothing stands.
fn take_sized(alloc: Global, kind: &str, bytes: &[u8]) -> Result<Option<Bytes>, WireFault> {
    let mut cursor = Cursor::new(bytes);
    let value = match kind {
        "bytes-field" => Some(cursor.take_bytes(alloc)?),
        _ => cursor.take_null_bytes(alloc)?,
    };
    cursor.end()?;
    Ok(value)
}

/// Writes bytes with their length before them.
fn put_sized(alloc: Global, kind: &str, value: &Option<Bytes>) -> Result<Bytes, NoMemory> {
    let mut out = Out::new(alloc);
    let Some(value) = value else {
        out.put_null_bytes(None)?;
        return Ok(out.into_bytes());
    };
    let bytes = value.as_slice();
    if bytes.len() >= u32::MAX as usize {
        return Err(NoMemory);
    }
    match kind {
        "bytes-field" => out.put_bytes(bytes)?,
        _ => out.put_null_bytes(Some(bytes))?,
    }
    Ok(out.into_bytes())
}

/// What bytes with their length before them are read as, and written.
fn bytes_told(alloc: Global, kind: &str, bytes: &[u8]) -> io::Result<String> {
    let value = match take_sized(alloc, kind, bytes) {
        Ok(value) => value,
        Err(fault) => return fault_text(alloc, &fault),
    };
    let mut text = match &value {
        None => word(alloc, "null")?,
        Some(value) => hex_text(alloc, value.as_slice())?,
    };
    push_written(alloc, &mut text, bytes, &put_sized(alloc, kind, &value))?;
    Ok(text)
}

/// Writes a string or null.
fn put_text(alloc: Global, value: &Option<Text>) -> Result<Bytes, NoMemory> {
    let mut out = Out::new(alloc);
    match value {
        None => out.put_null_str(None)?,
        Some(text) => out.put_null_str(Some(text.as_str()))?,
    }
    Ok(out.into_bytes())
}

/// What a string or null is read as, and written.
fn text_told(alloc: Global, bytes: &[u8]) -> io::Result<String> {
    match read_whole::<Option<Text>>(alloc, bytes) {
        Ok(value) => read_told(alloc, bytes, &value, &put_text(alloc, &value)),
        Err(fault) => fault_text(alloc, &fault),
    }
}

/// Writes the number of elements of an array, or that it is null.
fn put_count(alloc: Global, count: Option<u32>) -> Result<Bytes, NoMemory> {
    let mut out = Out::new(alloc);
    match count {
        None => out.put_null_array_len(None)?,
        Some(count) => {
            if count == u32::MAX {
                return Err(NoMemory);
            }
            out.put_null_array_len(Some(count))?;
        }
    }
    Ok(out.into_bytes())
}

/// What the number of elements of an array, or null, is read as, and written. The elements may follow it.
fn count_told(alloc: Global, bytes: &[u8]) -> io::Result<String> {
    let mut cursor = Cursor::new(bytes);
    let count = match cursor.take_null_array_len() {
        Ok(count) => count,
        Err(fault) => return fault_text(alloc, &fault),
    };
    let (front, _) = bytes.split_at(
        bytes
            .len()
            .min(usize::try_from(cursor.place()).unwrap_or(0)),
    );
    let mut text = plain(alloc, &count)?;
    push_written(alloc, &mut text, front, &put_count(alloc, count))?;
    Ok(text)
}

/// What a request header that was read from a front of the bytes is, and how it is written.
fn head_text(alloc: Global, bytes: &[u8], head: &RequestHead, length: u64) -> io::Result<String> {
    let mut text = plain(alloc, head)?;
    text.push_str(length_text(alloc, ", ", length)?.as_str())?;
    let (front, _) = bytes.split_at(bytes.len().min(usize::try_from(length).unwrap_or(0)));
    push_written(alloc, &mut text, front, &write_head(alloc, head))?;
    Ok(text)
}

/// What a request header is read as, and written.
fn head_told(alloc: Global, bytes: &[u8]) -> io::Result<String> {
    match read_head(alloc, bytes) {
        Ok((head, length)) => head_text(alloc, bytes, &head, length),
        Err(fault) => fault_text(alloc, &fault),
    }
}

/// What a reply header is read as.
fn reply_head_told(alloc: Global, bytes: &[u8]) -> io::Result<String> {
    match read_reply_head(bytes) {
        Ok((correlation, length)) => {
            let front = format!(in alloc; "correlation {correlation}, ")?;
            length_text(alloc, front.as_str(), length)
        }
        Err(fault) => fault_text(alloc, &fault),
    }
}

/// The bytes of a reply header with the number that is read, of version 1 where it has tags and else of version 0.
fn reply_head_of(alloc: Global, bytes: &[u8], tags: bool) -> io::Result<String> {
    let Ok((correlation, _)) = read_reply_head(bytes) else {
        return word(alloc, "no header");
    };
    match write_reply_head(alloc, correlation, tags) {
        Ok(written) => hex_text(alloc, written.as_slice()),
        Err(_) => word(alloc, "no memory"),
    }
}

/// What bytes are as a field, a header or a message. `None` where there is no such kind.
pub fn wire_told(alloc: Global, kind: &str, bytes: &[u8]) -> io::Result<Option<String>> {
    let text = match kind {
        "int8" => told::<i8>(alloc, bytes),
        "int16" => told::<i16>(alloc, bytes),
        "int32" => told::<i32>(alloc, bytes),
        "int64" => told::<i64>(alloc, bytes),
        "bool" => told::<bool>(alloc, bytes),
        "uuid" => told::<Uuid>(alloc, bytes),
        "uvarint" | "varint" | "varlong" => number_told(alloc, kind, bytes),
        "string" => told::<Text>(alloc, bytes),
        "nullable-string" => told::<Option<Text>>(alloc, bytes),
        "nullable-text" => text_told(alloc, bytes),
        "bytes-field" | "nullable-bytes" => bytes_told(alloc, kind, bytes),
        "nullable-array-length" => count_told(alloc, bytes),
        "int32-array" => told::<Items<i32>>(alloc, bytes),
        "nullable-int32-array" => told::<Option<Items<i32>>>(alloc, bytes),
        "tags" => tags_told(alloc, bytes),
        "RequestHeader" => head_told(alloc, bytes),
        "RequestHeader-alone" => told::<RequestHead>(alloc, bytes),
        "ResponseHeader" => reply_head_told(alloc, bytes),
        "ResponseHeader-1-bytes" => reply_head_of(alloc, bytes, true),
        "ResponseHeader-0-bytes" => reply_head_of(alloc, bytes, false),
        _ => return client_told(alloc, kind, bytes),
    };
    Ok(Some(text?))
}
