// Replies to ShareFetch, as a consumer hears them. The bytes are a frame, its size with them.
ghost use Rattle.std.specs.Prelude.{true, IsTrue};
ghost use Rattle.share_client.specs.Frames.{IsFrame};

use crate::plain::word;
use share_client::{ClientFault, read_fetch};
use std::alloc::Global;
use std::io;

/// Whether the bytes are a frame.
pub fn is_frame(bytes: &[u8]) -> bool
    ensures { IsTrue result → IsFrame bytes.now }
{
    match bytes.split_first_chunk::<4>() {
        Some((size, content)) => u32::from_be_bytes(*size) as usize == content.len(),
        None => false,
    }
}

/// Why a consumer ends.
pub fn fault_text(alloc: Global, fault: ClientFault) -> io::Result<String> {
    match fault {
        ClientFault::Refused { code } => Ok(format!(in alloc; "refused {code}")?),
        ClientFault::Strange { place } => Ok(format!(in alloc; "strange {place}")?),
        ClientFault::NoMemory => word(alloc, "no memory"),
    }
}

/// What is heard by a reply that may grant so many offsets.
pub fn heard_told(alloc: Global, frame: &[u8], most: u32) -> io::Result<String> {
    if !is_frame(frame) {
        return word(alloc, "no frame");
    }
    match read_fetch(alloc, frame, most) {
        Ok(_) => word(alloc, "sound"),
        Err(fault) => fault_text(alloc, fault),
    }
}
