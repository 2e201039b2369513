ghost use Rattle.std.specs.Prelude.{◌≡◌, Option, OnOk, OnErr};
ghost use Rattle.flex_fields.specs.Formats.{Writes, StartsWith};
ghost use Rattle.msgs_group.specs.HeartbeatReply.{optional};

use flex_fields::{Cursor, NoMemory, Out, Wire, WireFault};
use std::alloc::Global;
use std::marker::Model;

/// Writes a structure or null. Where memory runs out, what was written before stands, and a part of this may follow it.
pub fn put_optional<T: Wire>(out: &mut Out, value: &Option<T>) -> Result<(), NoMemory>
    ensures ok { OnOk result (Writes (optional T.format) out.old out.new value.now) }
    ensures err { OnErr result (StartsWith out.old out.new) }
{
    match value {
        None => out.put_i8(-1),
        Some(value) => {
            out.put_i8(1)?;
            value.put(out)
        }
    }
}

/// A structure or null, as a field that is taken: the byte -1 alone, or 1 and then the structure. Any other byte is
/// refused as `BadLength`.
#[derive(Drop)]
pub struct Optional<T> {
    value: Option<T>,
}

impl<T> Model for Optional<T> {
    ghost use Rattle.std.specs.Prelude.{Option};

    ghost Value = { Option T };

    ghost view = { λ o. o.value };
}

impl<T> Optional<T> {
    /// Hands out the structure.
    pub fn into_option(self) -> Option<T>
        ensures { result ≡ self }
    {
        let Optional { value } = self;
        value
    }
}

impl<T: Wire> Wire for Optional<T> {
    ghost format = { optional T.format };

    #[tactic(auto, unfolding(crate::specs::Optional::optional_at))]
    fn take(alloc: Global, cursor: &mut Cursor<'_>) -> Result<Self, WireFault> {
        let place = cursor.place();
        let mark = cursor.take_i8()?;
        if mark == -1 {
            return Ok(Optional { value: None });
        }
        if mark != 1 {
            return Err(WireFault::BadLength { place });
        }
        let value = Some(T::take(alloc, cursor)?);
        Ok(Optional { value })
    }

    fn put(&self, out: &mut Out) -> Result<(), NoMemory> {
        put_optional(out, &self.value)
    }
}
