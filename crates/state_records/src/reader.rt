ghost use Rattle.std.specs.Prelude.{◌≡◌, ◌<◌, length, IfOk};
ghost use Rattle.std.specs.Int.{w16, w32, w64};

use crate::fault::RecordFault;
use std::marker::Model;

// The bytes of a record that are still to be read, and the place of the first of them.
#[derive(Drop)]
pub(crate) struct Reader<'a> {
    place: u64,
    rest: &'a [u8],
}

impl<'a> Model for Reader<'a> {
    ghost use Rattle.std.specs.Prelude.{◌+◌, ◌^◌, ◌<◌, length};
    ghost use Rattle.flex_fields.specs.Reading.{At};

    ghost Value = { At };

    ghost view = { λ r. record { place = r.place; left = r.rest.now } };

    ghost invariant = { λ r. r.place + length r.rest.now < 2 ^ 64 };
}

impl<'a> Reader<'a> {
    ghost use Rattle.state_records.specs.Reading.{Moves, byte_at, raw_at, number_at};

    pub fn new(bytes: &'a [u8]) -> Reader<'a>
        ensures { result ≡ record { place = 0; left = bytes.now } }
    {
        Reader {
            place: 0,
            rest: bytes,
        }
    }

    pub fn place(&self) -> u64
        ensures { result ≡ self.now.place }
    {
        self.place
    }

    pub fn len(&self) -> usize
        ensures { result ≡ length self.now.left }
    {
        self.rest.len()
    }

    pub fn take(&mut self, count: usize) -> Result<&'a [u8], RecordFault>
        ensures read { Moves (λ x. x.now) self.new result (raw_at count self.old) }
        ensures count { IfOk result (λ x. length x.now ≡ count) }
    {
        if self.rest.len() < count {
            return Err(RecordFault::BadState { place: self.place });
        }
        let (front, rest) = self.rest.split_at(count);
        self.rest = rest;
        self.place += count as u64;
        Ok(front)
    }

    pub fn take_u8(&mut self) -> Result<u8, RecordFault>
        ensures read { Moves (λ x. x) self.new result (byte_at self.old) }
    {
        let Some((first, rest)) = self.rest.split_first() else {
            return Err(RecordFault::BadState { place: self.place });
        };
        self.rest = rest;
        self.place += 1;
        Ok(*first)
    }

    pub fn take_u16(&mut self) -> Result<u16, RecordFault>
        ensures read { Moves (λ x. x) self.new result (number_at w16 self.old) }
    {
        let bytes = self.take(2)?;
        Ok(u16::from_be_bytes([bytes[0], bytes[1]]))
    }

    pub fn take_u32(&mut self) -> Result<u32, RecordFault>
        ensures read { Moves (λ x. x) self.new result (number_at w32 self.old) }
    {
        let bytes = self.take(4)?;
        Ok(u32::from_be_bytes([bytes[0], bytes[1], bytes[2], bytes[3]]))
    }

    pub fn take_u64(&mut self) -> Result<u64, RecordFault>
        ensures read { Moves (λ x. x) self.new result (number_at w64 self.old) }
    {
        let bytes = self.take(8)?;
        Ok(u64::from_be_bytes([
            bytes[0], bytes[1], bytes[2], bytes[3], bytes[4], bytes[5], bytes[6], bytes[7],
        ]))
    }
}
