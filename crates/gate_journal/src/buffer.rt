// The buffer of an append.
ghost use Rattle.std.specs.Prelude.{◌≡◌, ◌+◌, ◌≤◌, ◌++◌, ◌∷◌, [], List, ℕ, length, take, drop, IfOk};
ghost use Rattle.gate_journal.specs.Frames.{frame_in, framed};
ghost use Rattle.gate_journal.specs.Groups.{group_text};

use std::alloc::{AllocError, Global};

/// The buffer of an append: a copy of this frame, behind four bytes and before one, which the append sets. Its memory
/// is reserved once.
pub fn buffer_of(alloc: Global, frame: &[u8]) -> Result<Vec<u8>, AllocError>
    ensures frame { IfOk result (λ b. frame_in b.items ≡ frame.now) }
    ensures len { IfOk result (λ b. length b.items ≡ length frame.now + 5) }
{
    let mut buffer = Vec::with_capacity(alloc, frame.len().saturating_add(5))?;
    buffer.extend_from_slice(&[0; 4])?;
    buffer.extend_from_slice(frame)?;
    buffer.push(0)?;
    Ok(buffer)
}

/// Sets the length before the frame and the closed gate behind it.
pub fn set_frame(buffer: &mut [u8])
    requires room { 5 ≤ length buffer.old }
    requires few { length buffer.old ≤ 33554437 }
    ensures { buffer.new ≡ framed (frame_in buffer.old) }
{
    let len = buffer.len() - 5;
    let (front, rest) = buffer.split_at_mut(4);
    front.copy_from_slice(&(len as u32).to_be_bytes());
    rest[len] = 0;
}

/// Joins the last frame of a buffer to those before it, which end at `place`: 0, where it is the first one.
///
/// From there on the buffer has the frame behind four bytes of any value and before one. These are set to the frame's
/// length and a closed gate, and the gate before them is opened, so that `append_all` may take the whole buffer.
pub fn join_frame(buffer: &mut [u8], place: usize)
    requires room { place + 5 ≤ length buffer.old }
    requires few { length buffer.old ≤ place + 33554437 }
    ensures joins { (group : List (List ℕ)) → take place buffer.old ≡ group_text group →
        buffer.new ≡ group_text (group ++ frame_in (drop place buffer.old) ∷ []) }
{
    if place == 0 {
        set_frame(buffer);
        return;
    }
    let (_, rest) = buffer.split_at_mut(place - 1);
    let (gate, frame) = rest.split_at_mut(1);
    gate.copy_from_slice(&[1]);
    set_frame(frame);
}
