// Fields that are lent to be written, and a structure of them.
ghost use Rattle.std.specs.Prelude.{ℕ, List, OnOk};
ghost use Rattle.flex_fields.specs.Formats.{Format, ◌▹◌, Writes, WritesNoTags, StartsWith};

use crate::fault::NoMemory;
use crate::out::Out;
use crate::wire::Wire;

/// A field that is lent to be written, or such fields one after the other.
pub trait Put: Copy {
    /// What is written.
    ghost Value: { Type 0 };

    /// Its schema.
    ghost format: { Format Value };

    /// Of what was lent.
    ghost value: { Self → Value };

    /// Writes it behind what was written before. Where memory runs out, that still stands, and a
    /// part of this may follow it.
    fn put_behind(self, out: &mut Out) -> Result<(), NoMemory>
        ensures ok { OnOk result (Writes format out.old out.new (value self)) }
        ensures stands { StartsWith out.old out.new };
}

impl<T: Wire> Put for &T {
    ghost Value = { T };

    ghost format = { T.format };

    ghost value = { λ x. x.now };

    fn put_behind(self, out: &mut Out) -> Result<(), NoMemory> {
        self.put(out)
    }
}

impl<A: Put, B: Put> Put for (A, B) {
    ghost Value = { A.Value × B.Value };

    ghost format = { A.format ▹ B.format };

    ghost value = { λ x. (A.value x.0, B.value x.1) };

    fn put_behind(self, out: &mut Out) -> Result<(), NoMemory> {
        self.0.put_behind(out)?;
        self.1.put_behind(out)
    }
}

/// Writes the fields of a structure, and no tags behind them. Where memory runs out, what was
/// written before stands, and a part of this may follow it.
pub fn put_fields<T: Put>(out: &mut Out, fields: T) -> Result<(), NoMemory>
    ensures ok { OnOk result ((between : List ℕ) × Writes T.format out.old between (T.value fields) × WritesNoTags between out.new) }
    ensures stands { StartsWith out.old out.new }
{
    fields.put_behind(out)?;
    out.put_tags()
}

/// The answer of a structure's `put`: the named fields in this order, each by its own `Wire`, and no
/// tags behind them.
#[macro_export]
macro_rules! put_structure {
    (@ $it:expr, $last:ident) => { &$it.$last };
    (@ $it:expr, $first:ident, $($others:ident),+) => {
        (&$it.$first, $crate::put_structure!(@ $it, $($others),+))
    };
    ($out:expr, $it:expr, [$($field:ident),+ $(,)?]) => {
        $crate::put_fields($out, $crate::put_structure!(@ $it, $($field),+))
    };
}
