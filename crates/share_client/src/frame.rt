// Frames of requests and of replies.
ghost use Rattle.std.specs.Prelude.{◌≡◌, ◌≤◌, ◌++◌, length, drop, IfOk};
ghost use Rattle.req_head.specs.Heads.{request_head, reply_head};
ghost use Rattle.share_client.specs.Frames.{IsAnswer, IsFrame, framed, has_correlation, reply_in, said};

use crate::fault::{ClientFault, fault_of};
use flex_fields::{Bytes, Cursor, Out, Wire, WireFault, read_whole};
use req_head::RequestHead;
use share_model::{Blob, NoMemory};
use std::alloc::Global;
use std::marker::Model;

/// The most bytes that the size of a frame, an i32, can say.
const LONGEST_FRAME: usize = 2147483647;

/// The header of a reply: its correlation id, as a field that is taken.
#[derive(Drop)]
pub struct ReplyHead {
    correlation: i32,
}

impl Model for ReplyHead {
    ghost use Rattle.std.specs.Prelude.{ℤ};

    ghost Value = { ℤ };

    ghost view = { λ h. h.correlation };
}

impl Wire for ReplyHead {
    ghost use Rattle.std.specs.Prelude.{true};

    ghost format = { reply_head true };

    fn take(_: Global, cursor: &mut Cursor<'_>) -> Result<Self, WireFault> {
        let correlation = cursor.take_i32()?;
        cursor.skip_tags()?;
        Ok(ReplyHead { correlation })
    }

    fn put(&self, out: &mut Out) -> Result<(), NoMemory> {
        self.correlation.put(out)?;
        out.put_tags()?;
        Ok(())
    }
}

// The content behind the number of its bytes, in its own room.
fn sized(content: Bytes) -> Result<Blob, NoMemory>
    ensures { IfOk result (λ frame. frame ≡ framed content) }
{
    let mut frame = content.into_vec();
    if frame.len() > LONGEST_FRAME {
        return Err(NoMemory);
    }
    let size = frame.len() as u32;
    frame.reserve_exact(4)?;
    frame.extend_from_slice(&size.to_be_bytes())?;
    frame.rotate_right(4);
    Ok(Blob::new(frame))
}

/// The frame of a request; `NoMemory` also where it would have more than 2147483647 bytes behind its size.
pub fn request_frame<T: Wire>(alloc: Global, head: &RequestHead, body: &T) -> Result<Blob, NoMemory>
    ensures { IfOk result (λ frame. frame ≡ framed (request_head.bytes head.now ++ T.format.bytes body.now)) }
{
    let mut out = Out::new(alloc);
    head.put(&mut out)?;
    body.put(&mut out)?;
    sized(out.into_bytes())
}

// What stands behind the size of a frame.
pub fn content(frame: &[u8]) -> &[u8]
    requires { 4 ≤ length frame.now }
    ensures { result.now ≡ drop 4 frame.now }
{
    let (_, content) = frame.split_at(4);
    content
}

/// Whether a reply's frame has this correlation id.
#[tactic(auto, using(crate::proofs::Hearing::number_read, crate::proofs::Hearing::number_unread))]
pub fn has_correlation(frame: &[u8], number: i32) -> bool
    requires { IsFrame frame.now }
    ensures { result ≡ has_correlation frame.now number }
{
    match Cursor::new(content(frame)).take_i32() {
        Ok(correlation) => correlation == number,
        Err(_) => false,
    }
}

/// Reads the frame of a reply whole, and gives its body.
#[tactic(auto, using(crate::proofs::Hearing::body_said, crate::proofs::Hearing::fault_said))]
pub fn read_reply<T: Wire>(alloc: Global, frame: &[u8]) -> Result<T, ClientFault>
    requires { IsFrame frame.now }
    ensures { IsAnswer result (said (reply_in T.format frame.now)) }
{
    match read_whole::<(ReplyHead, T)>(alloc, content(frame)) {
        Ok((_, body)) => Ok(body),
        Err(fault) => Err(fault_of(fault)),
    }
}
