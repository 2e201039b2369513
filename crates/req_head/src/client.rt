// The client id of a request header.
ghost use Rattle.std.specs.Prelude.{◌≡◌, ◌≤◌, length, Some, None, OnOk, OnErr, IfOk, IfSome};
ghost use Rattle.std.specs.Option.{ForSome};
ghost use Rattle.flex_fields.specs.Cursors.{Moves, TakesMemoryFor};
ghost use Rattle.flex_fields.specs.Formats.{Writes, StartsWith};
ghost use Rattle.req_head.specs.Client.{client_at};
ghost use Rattle.req_head.specs.Heads.{client_id};

use flex_fields::{Cursor, NoMemory, Out, Text, WireFault, as_text};
use std::alloc::Global;

/// A client id or null. After a refusal the cursor may stand anywhere.
#[tactic(auto, unfolding(crate::specs::Client::client_at))]
pub fn take_client(alloc: Global, cursor: &mut Cursor<'_>) -> Result<Option<Text>, WireFault>
    ensures read { Moves cursor.new result (client_at cursor.old) }
    ensures memory { TakesMemoryFor result (client_at cursor.old) }
    ensures short { IfOk result (λ c. IfSome c (λ t. length t ≤ 32767)) }
{
    let place = cursor.place();
    let length = cursor.take_i16()?;
    if length == -1 {
        return Ok(None);
    }
    if length < 0 {
        return Err(WireFault::BadLength { place });
    }
    if cursor.rest().len() < length as usize {
        return Err(WireFault::Short { place });
    }
    let bytes = cursor.take_slice(length as usize)?;
    match as_text(bytes) {
        None => Err(WireFault::NotUtf8 { place }),
        Some(text) => match Text::new(alloc, text) {
            Ok(text) => Ok(Some(text)),
            Err(NoMemory) => Err(WireFault::NoMemory),
        },
    }
}

fn put_string(out: &mut Out, text: &str) -> Result<(), NoMemory>
    requires { length text.now ≤ 32767 }
    ensures ok { OnOk result (Writes client_id out.old out.new (Some text.now)) }
    ensures err { OnErr result (StartsWith out.old out.new) }
{
    out.put_i16(text.len() as i16)?;
    out.put_slice(text.as_bytes())?;
    Ok(())
}

/// Writes a client id, or -1 for null.
pub fn put_client(out: &mut Out, client: &Option<Text>) -> Result<(), NoMemory>
    requires { ForSome client.now (λ t. length t ≤ 32767) }
    ensures ok { OnOk result (Writes client_id out.old out.new client.now) }
    ensures err { OnErr result (StartsWith out.old out.new) }
{
    match client {
        None => {
            out.put_i16(-1)?;
            Ok(())
        }
        Some(text) => put_string(out, text.as_str()),
    }
}
