ghost use Rattle.std.specs.Prelude.{◌≡◌, List, ℕ, Option};
ghost use Rattle.flex_fields.specs.Formats.{null_byte_string};

use flex_fields::{Cursor, Items, NoMemory, Out, Put, Wire, WireFault};
use std::alloc::Global;
use std::marker::Model;

/// Record batches, one after another: fewer than 2^32 - 1 bytes.
pub type Records = Items<u8>;

/// Record batches or null, as a field that is taken: the batches are copied once.
#[derive(Drop)]
pub struct NullRecords {
    records: Option<Records>,
}

impl Model for NullRecords {
    ghost use Rattle.std.specs.Prelude.{List, ℕ, Option};

    ghost Value = { Option (List ℕ) };

    ghost view = { λ r. r.records };
}

impl NullRecords {
    /// Hands out the record batches.
    pub fn into_records(self) -> Option<Records>
        ensures { result ≡ self }
    {
        let NullRecords { records } = self;
        records
    }
}

impl Wire for NullRecords {
    ghost format = { null_byte_string };

    #[tactic(auto, unfolding(flex_fields::specs::Reading::nullable_at, flex_fields::specs::Reading::bytes_at, flex_fields::specs::Reading::len_at))]
    fn take(alloc: Global, cursor: &mut Cursor<'_>) -> Result<Self, WireFault> {
        let place = cursor.place();
        let number = cursor.take_uvarint()?;
        if number == 0 {
            return Ok(NullRecords { records: None });
        }
        let count = number - 1;
        let Ok(bytes) = cursor.take_slice(count as usize) else {
            return Err(WireFault::Short { place });
        };
        let records = Items::new(Vec::from_slice(alloc, bytes)?);
        Ok(NullRecords {
            records: Some(records),
        })
    }

    fn put(&self, out: &mut Out) -> Result<(), NoMemory> {
        let records = &self.records;
        LentRecords { records }.put_behind(out)
    }
}

/// Record batches or null, as a field that is lent to be written.
#[derive(Clone, Copy)]
pub struct LentRecords<'a> {
    pub records: &'a Option<Records>,
}

impl Put for LentRecords<'_> {
    ghost Value = { Option (List ℕ) };

    ghost format = { null_byte_string };

    ghost value = { λ r. r.records.now };

    fn put_behind(self, out: &mut Out) -> Result<(), NoMemory> {
        match self.records {
            None => out.put_null_bytes(None),
            Some(records) => out.put_bytes(records.as_slice()),
        }
    }
}
