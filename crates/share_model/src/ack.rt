ghost use Rattle.std.specs.Prelude.{◌≡◌, ◌<◌, ◌^◌, length, IfOk};

use crate::blob::Blob;
use flex_fields::{Items, NoMemory};
use std::alloc::Global;
use std::marker::Model;

/// What a consumer says of an acquired record: KIP-932's types of acknowledgement, but for the renewal of a lock.
#[derive(Clone, Copy, Debug)]
pub enum AckKind {
    /// There is no record at the offset.
    Gap,
    /// The record was processed.
    Accept,
    /// The record may be delivered again.
    Release,
    /// The record can't be processed and isn't delivered again.
    Reject,
}

impl AckKind {
    ghost use Rattle.share_model.specs.Acks.{kind_of};

    /// The kind with this number in messages: 0 gap, 1 accept, 2 release, 3 reject. `None` where there is none.
    pub fn from_number(number: u8) -> Option<AckKind>
        ensures { result ≡ kind_of number }
    {
        match number {
            0 => Some(AckKind::Gap),
            1 => Some(AckKind::Accept),
            2 => Some(AckKind::Release),
            3 => Some(AckKind::Reject),
            _ => None,
        }
    }
}

/// An acknowledgement batch as it came, not yet judged: its first and its last offset, and the numbers of the types,
/// one for each offset or one for all.
#[derive(Drop)]
pub struct AckBatch {
    pub first: i64,
    pub last: i64,
    pub types: Blob,
}

impl AckBatch {
    /// A copy, where there is memory for it.
    pub fn copied(&self, alloc: Global) -> Result<AckBatch, NoMemory>
        ensures { IfOk result (λ batch. batch ≡ self.now) }
    {
        let types = self.types.as_slice();
        let mut copy = Vec::with_capacity(alloc, types.len())?;
        copy.extend_from_slice(types)?;
        Ok(AckBatch {
            first: self.first,
            last: self.last,
            types: Blob::new(copy),
        })
    }
}

/// Why acknowledgement batches aren't well formed: the first batch that isn't, counted from 0, and its first fault in
/// the order of these variants.
#[derive(Clone, Copy, Debug)]
pub enum AckFault {
    /// Its offsets are negative, or the last one is below the first.
    BadRange { batch: u32 },
    /// Its first offset isn't above the last one of the batch before it.
    Unsorted { batch: u32 },
    /// It has neither one type nor one for each of its offsets.
    BadCount { batch: u32 },
    /// Its type at `index`, counted from 0, is none of the four.
    BadType { batch: u32, index: u32 },
}

/// The acknowledgement batches of one partition in one request, not yet judged. A contract sees them as a list. There
/// are fewer than 2^32 - 1 of them, with fewer than 2^32 types in all.
#[derive(Drop)]
pub struct AckList {
    batches: Items<AckBatch>,
}

impl Model for AckList {
    ghost use Rattle.std.specs.Prelude.{List, ◌^◌, ◌<◌};
    ghost use Rattle.share_model.specs.Acks.{types_in};
    ghost use Rattle.share_model.specs.declared.ack.AckBatch.{AckBatch};

    ghost Value = { List AckBatch };

    ghost view = { λ l. l.batches };

    ghost invariant = { λ l. types_in l.batches < 2 ^ 32 };
}

impl AckList {
    ghost use Rattle.std.specs.Prelude.{◌+◌};
    ghost use Rattle.share_model.specs.Acks.{types_in};

    /// The list of these batches. It takes no memory.
    pub fn new(batches: Items<AckBatch>) -> AckList
        requires few_types { types_in batches < 2 ^ 32 }
        ensures { result ≡ batches }
    {
        AckList { batches }
    }

    /// The batches, lent.
    pub fn as_slice(&self) -> &[AckBatch]
        ensures items { result.now ≡ self.now }
        ensures few { length self.now + 1 < 2 ^ 32 }
        ensures few_types { types_in self.now < 2 ^ 32 }
    {
        self.batches.as_slice()
    }

    /// A copy, where there is memory for it.
    pub fn copied(&self, alloc: Global) -> Result<AckList, NoMemory>
        ensures { IfOk result (λ list. list ≡ self.now) }
    {
        let batches = self.as_slice();
        let mut copy = Vec::with_capacity(alloc, batches.len())?;
        for batch in batches {
            copy.push(batch.copied(alloc)?)?;
        }
        Ok(AckList::new(Items::new(copy)))
    }
}
