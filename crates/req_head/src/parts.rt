// A request header in two parts.
ghost use Rattle.flex_fields.specs.Cursors.{Moves, TakesNoMemory};
ghost use Rattle.req_head.specs.InTwo.{head_start, tagged_rest, head_rest};

use crate::client::take_client;
use flex_fields::{Cursor, Text, WireFault};
use std::alloc::Global;

/// Takes what every request header begins with: the key, the version and the correlation id. After a refusal the
/// cursor may stand anywhere.
pub fn take_head_start(cursor: &mut Cursor<'_>) -> Result<(i16, (i16, i32)), WireFault>
    ensures read { Moves cursor.new result (head_start.read cursor.old) }
    ensures memory { TakesNoMemory result }
{
    let key = cursor.take_i16()?;
    let version = cursor.take_i16()?;
    let correlation = cursor.take_i32()?;
    Ok((key, (version, correlation)))
}

// The client id, and tags.
#[tactic(auto, unfolding(crate::specs::InTwo::tagged_rest))]
fn take_tagged_rest(alloc: Global, cursor: &mut Cursor<'_>) -> Result<Option<Text>, WireFault>
    ensures { Moves cursor.new result (tagged_rest.read cursor.old) }
{
    let client = take_client(alloc, cursor)?;
    cursor.skip_tags()?;
    Ok(client)
}

/// Takes what stands behind that in a request header of version 2, where `tags` is true, and else of version 1: the
/// client id, and tags in version 2. After a refusal the cursor may stand anywhere.
pub fn take_head_rest(
    alloc: Global,
    tags: bool,
    cursor: &mut Cursor<'_>,
) -> Result<Option<Text>, WireFault>
    ensures { Moves cursor.new result ((head_rest tags).read cursor.old) }
{
    if tags {
        return take_tagged_rest(alloc, cursor);
    }
    take_client(alloc, cursor)
}
