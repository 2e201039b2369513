// The lines of the events.
ghost use Rattle.std.specs.Prelude.{◌≡◌, ◌+◌, ◌++◌, ◌∷◌, codes, OnOk, IfOk};
ghost use Rattle.std.specs.Int.{w32, to_be_bytes};
ghost use Rattle.std.specs.List.{flat_map};
ghost use Rattle.req_head.specs.Heads.{request_head};
ghost use Rattle.session_script.specs.Script.{line_of, end_line};
ghost use Rattle.session_script.specs.declared.event.Event.TheVariants.{Bytes as bytes_event, Step, Expire, Power};
ghost use Rattle.gen_load.specs.Frames.{frame_of};
ghost use Rattle.gen_load.specs.Session.{opened, sent, moment_of};

use flex_fields::{Bytes, NoMemory, Out, Wire};
use req_head::RequestHead;
use std::alloc::Global;
use text_pieces::Pieces;

fn moment_of(round: u32) -> u64
    ensures { result ≡ moment_of round }
{
    40000 * u64::from(round)
}

/// The lines that open the three connections.
pub(crate) fn put_opened(text: &mut Pieces) -> Result<(), NoMemory>
    ensures { OnOk result (text.new ≡ text.old ++ flat_map line_of opened) }
{
    text.put("open 1\nopen 2\nopen 3\n")
}

/// The lines of a power loss, and of what opens the connections again.
pub(crate) fn put_restart(text: &mut Pieces) -> Result<(), NoMemory>
    ensures { OnOk result (text.new ≡ text.old ++ flat_map line_of (Power 0 ∷ opened)) }
{
    text.put("power 0\nopen 1\nopen 2\nopen 3\n")
}

/// The last line.
pub(crate) fn put_end(text: &mut Pieces) -> Result<(), NoMemory>
    ensures { OnOk result (text.new ≡ text.old ++ end_line) }
{
    text.put("end\n")
}

/// The line of the expiry in a round, 30 seconds behind its moment.
pub(crate) fn put_expiry(text: &mut Pieces, round: u32) -> Result<(), NoMemory>
    ensures { OnOk result (text.new ≡ text.old ++ line_of (Expire (codes "orders") 0 (moment_of round + 30000))) }
{
    text.put("expire orders 0 ")?;
    text.put_number(moment_of(round) + 30000)?;
    text.put("\n")
}

fn put_step(text: &mut Pieces, conn: u32, round: u32) -> Result<(), NoMemory>
    ensures { OnOk result (text.new ≡ text.old ++ line_of (Step conn (moment_of round))) }
{
    text.put("step ")?;
    text.put_number(u64::from(conn))?;
    text.put(" ")?;
    text.put_number(moment_of(round))?;
    text.put("\n")
}

fn put_bytes(text: &mut Pieces, conn: u32, size: u32, content: &[u8]) -> Result<(), NoMemory>
    ensures { OnOk result (text.new ≡ text.old ++ line_of (bytes_event conn (to_be_bytes w32 size ++ content.now))) }
{
    text.put("bytes ")?;
    text.put_number(u64::from(conn))?;
    text.put(" ")?;
    text.put_hex(&size.to_be_bytes())?;
    text.put_hex(content)?;
    text.put("\n")
}

fn content_of(alloc: Global, head: &RequestHead, body: &[u8]) -> Result<Bytes, NoMemory>
    ensures { IfOk result (λ bytes. bytes ≡ request_head.bytes head.now ++ body.now) }
{
    let mut out = Out::new(alloc);
    head.put(&mut out)?;
    out.put_slice(body)?;
    Ok(out.into_bytes())
}

/// The lines of a request and of the step that takes it. A frame of 2^32 bytes and more is answered as want of memory.
pub(crate) fn put_sent(
    alloc: Global,
    text: &mut Pieces,
    conn: u32,
    round: u32,
    head: &RequestHead,
    body: &[u8],
) -> Result<(), NoMemory>
    ensures { OnOk result (text.new ≡ text.old
        ++ flat_map line_of (sent conn round (frame_of head.now body.now))) }
{
    let content = content_of(alloc, head, body)?;
    let content = content.as_slice();
    let Ok(size) = u32::try_from(content.len()) else {
        return Err(NoMemory);
    };
    put_bytes(text, conn, size, content)?;
    put_step(text, conn, round)
}
