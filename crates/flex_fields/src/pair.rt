// Fields that follow each other, and a structure of them.
ghost use Rattle.flex_fields.specs.Cursors.{Moves};
ghost use Rattle.flex_fields.specs.Reading.{tagged_at};
ghost use Rattle.flex_fields.specs.Formats.{◌▹◌};

use crate::cursor::Cursor;
use crate::fault::{NoMemory, WireFault};
use crate::out::Out;
use crate::wire::Wire;
use std::alloc::Global;

impl<A: Wire, B: Wire> Wire for (A, B) {
    ghost format = { A.format ▹ B.format };

    fn take(alloc: Global, cursor: &mut Cursor<'_>) -> Result<Self, WireFault> {
        let first = A::take(alloc, cursor)?;
        let second = B::take(alloc, cursor)?;
        Ok((first, second))
    }

    fn put(&self, out: &mut Out) -> Result<(), NoMemory> {
        self.0.put(out)?;
        self.1.put(out)?;
        Ok(())
    }
}

/// Takes the fields of a structure, and the tags behind them. After a refusal the cursor may stand
/// anywhere.
pub fn take_fields<T: Wire>(alloc: Global, cursor: &mut Cursor<'_>) -> Result<T, WireFault>
    ensures { Moves cursor.new result (tagged_at T.format.read cursor.old) }
{
    let fields = T::take(alloc, cursor)?;
    cursor.skip_tags()?;
    Ok(fields)
}

/// The answer of a structure's `take`: its fields in the order of the schema, each by its own
/// `Wire`, and the tags behind them.
#[macro_export]
macro_rules! take_structure {
    (@ $last:ident) => { $last };
    (@ $first:ident, $($others:ident),+) => {
        ($first, $crate::take_structure!(@ $($others),+))
    };
    ($alloc:expr, $cursor:expr, $name:ident { $($field:ident),+ $(,)? }) => {{
        let $crate::take_structure!(@ $($field),+) = $crate::take_fields($alloc, $cursor)?;
        Ok($name { $($field),+ })
    }};
}
