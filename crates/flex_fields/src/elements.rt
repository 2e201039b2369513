// Fields, which are also elements of arrays.
ghost use Rattle.std.specs.Prelude.{Option};
ghost use Rattle.flex_fields.specs.Formats.{int8, int16, int32, int64, boolean, uuid as uuid_field, string, null_string, array, null_array};

use crate::cursor::Cursor;
use crate::fault::{NoMemory, WireFault};
use crate::items::Items;
use crate::out::Out;
use crate::text::Text;
use crate::wire::{Wire, put_array, put_null_array, take_array, take_null_array};
use std::alloc::Global;
use uuid::Uuid;

impl Wire for i8 {
    ghost format = { int8 };

    #[tactic(auto, using(crate::proofs::Moved::reads_move))]
    fn take(_: Global, cursor: &mut Cursor<'_>) -> Result<Self, WireFault> {
        cursor.take_i8()
    }

    fn put(&self, out: &mut Out) -> Result<(), NoMemory> {
        out.put_i8(*self)
    }
}

impl Wire for i16 {
    ghost format = { int16 };

    #[tactic(auto, using(crate::proofs::Moved::reads_move))]
    fn take(_: Global, cursor: &mut Cursor<'_>) -> Result<Self, WireFault> {
        cursor.take_i16()
    }

    fn put(&self, out: &mut Out) -> Result<(), NoMemory> {
        out.put_i16(*self)
    }
}

impl Wire for i32 {
    ghost format = { int32 };

    #[tactic(auto, using(crate::proofs::Moved::reads_move))]
    fn take(_: Global, cursor: &mut Cursor<'_>) -> Result<Self, WireFault> {
        cursor.take_i32()
    }

    fn put(&self, out: &mut Out) -> Result<(), NoMemory> {
        out.put_i32(*self)
    }
}

impl Wire for i64 {
    ghost format = { int64 };

    #[tactic(auto, using(crate::proofs::Moved::reads_move))]
    fn take(_: Global, cursor: &mut Cursor<'_>) -> Result<Self, WireFault> {
        cursor.take_i64()
    }

    fn put(&self, out: &mut Out) -> Result<(), NoMemory> {
        out.put_i64(*self)
    }
}

impl Wire for bool {
    ghost format = { boolean };

    #[tactic(auto, using(crate::proofs::Moved::reads_move))]
    fn take(_: Global, cursor: &mut Cursor<'_>) -> Result<Self, WireFault> {
        cursor.take_bool()
    }

    fn put(&self, out: &mut Out) -> Result<(), NoMemory> {
        out.put_bool(*self)
    }
}

impl Wire for Uuid {
    ghost format = { uuid_field };

    #[tactic(auto, using(crate::proofs::Moved::reads_move))]
    fn take(_: Global, cursor: &mut Cursor<'_>) -> Result<Self, WireFault> {
        cursor.take_uuid()
    }

    fn put(&self, out: &mut Out) -> Result<(), NoMemory> {
        out.put_uuid(*self)
    }
}

impl Wire for Text {
    ghost format = { string };

    #[tactic(auto, using(crate::proofs::Moved::reads_move))]
    fn take(alloc: Global, cursor: &mut Cursor<'_>) -> Result<Self, WireFault> {
        cursor.take_str(alloc)
    }

    fn put(&self, out: &mut Out) -> Result<(), NoMemory> {
        out.put_str(self.as_str())
    }
}

impl Wire for Option<Text> {
    ghost format = { null_string };

    #[tactic(auto, using(crate::proofs::Moved::reads_move))]
    fn take(alloc: Global, cursor: &mut Cursor<'_>) -> Result<Self, WireFault> {
        cursor.take_null_str(alloc)
    }

    fn put(&self, out: &mut Out) -> Result<(), NoMemory> {
        match self {
            None => out.put_null_str(None),
            Some(text) => out.put_str(text.as_str()),
        }
    }
}

impl<T: Wire> Wire for Items<T> {
    ghost format = { array T.format };

    fn take(alloc: Global, cursor: &mut Cursor<'_>) -> Result<Self, WireFault> {
        take_array(alloc, cursor)
    }

    fn put(&self, out: &mut Out) -> Result<(), NoMemory> {
        put_array(out, self)
    }
}

impl<T: Wire> Wire for Option<Items<T>> {
    ghost format = { null_array T.format };

    fn take(alloc: Global, cursor: &mut Cursor<'_>) -> Result<Self, WireFault> {
        take_null_array(alloc, cursor)
    }

    fn put(&self, out: &mut Out) -> Result<(), NoMemory> {
        put_null_array(out, self)
    }
}
