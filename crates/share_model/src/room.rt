ghost use Rattle.std.specs.Prelude.{◌≡◌, ◌≤◌, ◌-◌, [], length, OnOk, OnErr, IsOk, vec_len, vec_capacity};

use crate::blob::Blob;
use flex_fields::NoMemory;
use std::alloc::Global;
use std::marker::Model;
use std::mem;

/// Bytes that grow, with room set aside for more.
///
/// A contract sees its bytes, and beside them the spare number: how many bytes may be appended with
/// no memory.
#[derive(Drop)]
pub struct Room {
    bytes: Vec<u8>,
}

impl Model for Room {
    ghost use Rattle.std.specs.Prelude.{◌-◌, vec_len, vec_capacity};
    ghost use Rattle.share_model.specs.Rooms.{Filled};

    ghost Value = { Filled };

    ghost view = { λ r. record { bytes = r.bytes.items; spare = vec_capacity r.bytes - vec_len r.bytes } };
}

impl Room {
    ghost use Rattle.share_model.specs.Rooms.{Appends, Reserves};

    /// An empty room, which takes no memory.
    pub fn new(alloc: Global) -> Room
        ensures { result.bytes ≡ [] }
    {
        Room {
            bytes: Vec::new(alloc),
        }
    }

    /// Makes the spare number at least `n`. After a refusal the room is as it was.
    pub fn reserve(&mut self, n: u32) -> Result<(), NoMemory>
        ensures ok { OnOk result (Reserves self.old self.new n) }
        ensures err { OnErr result (self.new ≡ self.old) }
        ensures spared { n ≤ self.old.spare → IsOk result }
    {
        self.bytes.reserve(n as usize)?;
        Ok(())
    }

    /// Appends bytes. It finds no memory only where the spare number is below their number, and the
    /// room is then as it was.
    pub fn append(&mut self, more: &[u8]) -> Result<(), NoMemory>
        ensures ok { OnOk result (Appends self.old self.new more.now) }
        ensures err { OnErr result (self.new ≡ self.old) }
        ensures spared { length more.now ≤ self.old.spare → IsOk result }
    {
        self.bytes.reserve(more.len())?;
        self.bytes.extend_from_slice(more)?;
        Ok(())
    }

    /// The bytes.
    pub fn as_slice(&self) -> &[u8]
        ensures { result.now ≡ self.now.bytes }
    {
        &self.bytes
    }

    /// The bytes, handed out with no memory.
    pub fn into_blob(self) -> Blob
        ensures { result ≡ self.bytes }
    {
        let Room { bytes } = self;
        Blob::new(bytes)
    }

    /// A room of the bytes of a vector, whose spare capacity is the spare number. It takes no memory.
    pub fn of(bytes: Vec<u8>) -> Room
        ensures bytes { result.bytes ≡ bytes.items }
        ensures spare { result.spare ≡ vec_capacity bytes - vec_len bytes }
    {
        Room { bytes }
    }

    /// The vector with the bytes, whose spare capacity is the spare number. An empty room stays behind. It takes no
    /// memory.
    pub fn take(&mut self) -> Vec<u8>
        ensures bytes { result.items ≡ self.old.bytes }
        ensures spare { vec_capacity result - vec_len result ≡ self.old.spare }
        ensures left { self.new.bytes ≡ [] }
    {
        let alloc = *self.bytes.allocator();
        mem::replace(&mut self.bytes, Vec::new(alloc))
    }
}
