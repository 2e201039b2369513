// Whole replies, read from a link.
ghost use Rattle.std.specs.Prelude.{◌≡◌, ◌<◌, ◌≤◌, ◌++◌, List, ℕ, OnOk, vec_len};
ghost use Rattle.share_client.specs.Frames.{IsFrame};

use edge_io::{Link, send_all};
use share_model::{Blob, NoMemory};
use std::alloc::Global;

/// A whole reply: its size, and what stands behind it.
#[derive(Drop)]
pub struct Reply {
    bytes: Vec<u8>,
    ghost is: { IsFrame bytes.items },
}

impl Reply {
    pub fn as_slice(&self) -> &[u8]
        ensures { IsFrame result.now }
    {
        &self.bytes
    }
}

/// What a link brought, or that it didn't.
#[derive(Drop)]
pub enum News {
    /// A whole reply.
    Reply(Reply),
    /// The link ended, or it failed.
    Lost,
    /// No memory was found for a reply.
    NoMemory,
}

// Why no reply was read.
enum Broken {
    Lost,
    NoMemory,
}

impl From<NoMemory> for Broken {
    fn from(_: NoMemory) -> Broken {
        Broken::NoMemory
    }
}

// So many bytes are read at once at the most.
const PIECE: usize = 16384;

// Reads one piece more of what ends there.
fn read_piece<K: Link>(link: &mut K, bytes: &mut Vec<u8>, end: usize) -> Result<(), Broken>
    requires { vec_len bytes.old < end }
    ensures more { (more : List ℕ) × (bytes.new.items ≡ bytes.old.items ++ more) }
    ensures within { vec_len bytes.new ≤ end }
    ensures some { OnOk result (vec_len bytes.old < vec_len bytes.new) }
{
    let mut piece = [0; PIECE];
    let want = (end - bytes.len()).min(PIECE);
    let (room, _) = piece.split_at_mut(want);
    let Ok(count) = link.read(room) else {
        return Err(Broken::Lost);
    };
    if count == 0 {
        return Err(Broken::Lost);
    }
    let (got, _) = room.split_at(count);
    match bytes.extend_from_slice(got) {
        Ok(()) => Ok(()),
        Err(_) => Err(Broken::NoMemory),
    }
}

// Reads up to this end.
fn read_to<K: Link>(link: &mut K, bytes: &mut Vec<u8>, end: usize) -> Result<(), Broken>
    requires { vec_len bytes.old ≤ end }
    ensures more { (more : List ℕ) × (bytes.new.items ≡ bytes.old.items ++ more) }
    ensures whole { OnOk result (vec_len bytes.new ≡ end) }
{
    while bytes.len() < end {
        read_piece(link, bytes, end)?;
    }
    Ok(())
}

// Reads the next reply.
fn read_reply<K: Link>(alloc: Global, link: &mut K) -> Result<Reply, Broken> {
    let mut head = Vec::new(alloc);
    read_to(link, &mut head, 4)?;
    let Some(size) = head.as_slice().first_chunk::<4>() else {
        return Err(Broken::Lost);
    };
    let end = u32::from_be_bytes(*size) as usize + 4;
    let mut bytes = head;
    read_to(link, &mut bytes, end)?;
    Ok(Reply { bytes })
}

/// Reads the next reply of a link.
pub fn hear<K: Link>(alloc: Global, link: &mut K) -> News {
    match read_reply(alloc, link) {
        Ok(reply) => News::Reply(reply),
        Err(Broken::Lost) => News::Lost,
        Err(Broken::NoMemory) => News::NoMemory,
    }
}

/// Writes a request to a link, and reads its reply.
pub fn ask<K: Link>(alloc: Global, link: &mut K, request: &Blob) -> News {
    match send_all(link, request.as_slice()) {
        Ok(()) => hear(alloc, link),
        Err(_) => News::Lost,
    }
}
