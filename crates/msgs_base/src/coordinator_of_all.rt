// The reply to FindCoordinator where all keys have one coordinator: written key by key, with no list of coordinators.
ghost use Rattle.std.specs.Prelude.{◌≡◌, ◌++◌, ◌+◌, ◌<◌, ◌^◌, ℕ, List, pos, IfOk};
ghost use Rattle.std.specs.Int.{w32};
ghost use Rattle.flex_fields.specs.Writing.{int_bytes, uvarint_bytes};
ghost use Rattle.flex_fields.specs.Formats.{string};
ghost use Rattle.msgs_base.specs.FindCoordinatorReply.{coordinator, find_coordinator_reply};
ghost use Rattle.msgs_base.specs.CoordinatorOfAll.{with_key, all_have};

use crate::texts::Texts;
use flex_fields::{Bytes, NoMemory, Out, Text, put_fields};
use std::alloc::Global;

/// What the reply tells of each key alike. It has no error message.
#[derive(Drop)]
pub struct CoordinatorOfAll {
    pub node_id: i32,
    pub host: Text,
    pub port: i32,
    pub error_code: i16,
}

/// Room for what stands before a body in its frame.
const HEAD: usize = 16;

// What stands behind each key.
fn behind_key(alloc: Global, told: &CoordinatorOfAll) -> Result<Bytes, NoMemory>
    ensures { IfOk result (λ behind. (key : List ℕ) → coordinator.bytes (with_key told.now key) ≡ string.bytes key ++ behind) }
{
    let mut out = Out::new(alloc);
    let no_message: Option<Text> = None;
    let fields = (
        &told.node_id,
        (&told.host, (&told.port, (&told.error_code, &no_message))),
    );
    put_fields(&mut out, fields)?;
    Ok(out.into_bytes())
}

// What stands before the first of so many keys.
fn before_keys(alloc: Global, count: u32) -> Result<Vec<u8>, NoMemory>
    requires { count + 1 < 2 ^ 32 }
    ensures { IfOk result (λ body. body.items ≡ int_bytes w32 (pos 0) ++ uvarint_bytes (count + 1)) }
{
    let mut out = Out::new(alloc);
    out.put_i32(0)?;
    out.put_array_len(count)?;
    Ok(out.into_bytes().into_vec())
}

/// Writes the body of the reply to FindCoordinator that tells this of each key. Room for it, and for what stands
/// before it in its frame, is taken once.
pub fn write_coordinator_of_all(
    alloc: Global,
    keys: &Texts,
    told: &CoordinatorOfAll,
) -> Result<Bytes, NoMemory>
    ensures { IfOk result (λ body. body ≡ find_coordinator_reply.bytes (all_have told.now keys.now)) }
{
    let behind = behind_key(alloc, told)?;
    let behind = behind.as_slice();
    let mut body = before_keys(alloc, keys.len())?;
    let room = (keys.len() as usize).saturating_mul(behind.len());
    body.reserve_exact(room.saturating_add(keys.spelled_len()).saturating_add(HEAD))?;
    keys.put_before(behind, &mut body)?;
    body.push(0)?;
    Ok(Bytes::new(body))
}
