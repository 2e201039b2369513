// Texts that are kept as a message spells them.
ghost use Rattle.std.specs.Prelude.{◌≡◌, ◌++◌, ◌+◌, ◌<◌, ◌^◌, ℕ, List, length, OnOk};
ghost use Rattle.flex_fields.specs.Cursors.{Moves};
ghost use Rattle.flex_fields.specs.Reading.{str_at, many_at};
ghost use Rattle.flex_fields.specs.Formats.{array, string};
ghost use Rattle.msgs_base.specs.Texts.{IsText, spelled_before};

use flex_fields::{Bytes, Cursor, NoMemory, Out, Wire, WireFault, as_text};
use std::alloc::Global;
use std::fmt;
use std::marker::Model;

/// A list of texts, kept as a message spells them: each takes the bytes of its length and its own, and no memory of
/// its own. A contract sees them as a list. There are fewer than 2^32 - 1, as in every array of a message.
#[derive(Drop)]
pub struct Texts {
    count: u32,
    spelled: Bytes,
}

impl Model for Texts {
    ghost use Rattle.std.specs.Prelude.{List, ℕ};
    ghost use Rattle.msgs_base.specs.Texts.{AreKept, texts_in};

    ghost Value = { List (List ℕ) };

    ghost view = { λ t. texts_in t.count t.spelled };

    ghost invariant = { λ t. AreKept t.count t.spelled };
}

// What stands for the text in front, the text's own bytes, and what follows.
fn first(spelled: &[u8]) -> (&[u8], &[u8], &[u8])
    ensures { (text others : List ℕ) → IsText text → spelled.now ≡ string.bytes text ++ others →
        (result.0.now ≡ string.bytes text) × (result.1.now ≡ text) × (result.2.now ≡ others) }
{
    let mut cursor = Cursor::new(spelled);
    let Ok(number) = cursor.take_uvarint() else {
        return (spelled, &[], &[]);
    };
    let Ok(text) = cursor.take_slice(number.saturating_sub(1) as usize) else {
        return (spelled, &[], &[]);
    };
    let others = cursor.rest();
    let (front, _) = spelled.split_at(spelled.len().saturating_sub(others.len()));
    (front, text, others)
}

// So many texts, one after the other, as an array has them behind its length. After a refusal the cursor may stand
// anywhere.
fn take_texts(alloc: Global, count: u32, cursor: &mut Cursor<'_>) -> Result<Texts, WireFault>
    requires few { count + 1 < 2 ^ 32 }
    ensures { Moves cursor.new result (many_at str_at count cursor.old) }
{
    let mut out = Out::new(alloc);
    for _ in 0..count {
        let text = cursor.take_str(alloc)?;
        let Ok(()) = out.put_str(text.as_str()) else {
            return Err(WireFault::NoMemory);
        };
    }
    Ok(Texts {
        count,
        spelled: out.into_bytes(),
    })
}

impl Texts {
    /// How many there are.
    pub fn len(&self) -> u32
        ensures count { result ≡ length self.now }
        ensures few { length self.now + 1 < 2 ^ 32 }
    {
        self.count
    }

    /// How many bytes they are in a message, behind their number.
    pub fn spelled_len(&self) -> usize {
        self.spelled.as_slice().len()
    }

    /// Writes each as a message spells it, and behind each the same bytes, behind what is there. Where memory runs
    /// out, a part of this may follow it.
    pub fn put_before(&self, behind: &[u8], out: &mut Vec<u8>) -> Result<(), NoMemory>
        ensures { OnOk result (out.new.items ≡ out.old.items ++ spelled_before behind.now self.now) }
    {
        let mut rest = self.spelled.as_slice();
        for _ in 0..self.count {
            let (text, _, others) = first(rest);
            out.extend_from_slice(text)?;
            out.extend_from_slice(behind)?;
            rest = others;
        }
        Ok(())
    }
}

impl Wire for Texts {
    ghost format = { array string };

    #[tactic(auto, unfolding(flex_fields::specs::Reading::array_at))]
    fn take(alloc: Global, cursor: &mut Cursor<'_>) -> Result<Self, WireFault> {
        let count = cursor.take_array_len()?;
        take_texts(alloc, count, cursor)
    }

    fn put(&self, out: &mut Out) -> Result<(), NoMemory> {
        out.put_array_len(self.count)?;
        out.put_slice(self.spelled.as_slice())
    }
}

impl fmt::Debug for Texts {
    fn fmt<W: fmt::Write>(&self, f: &mut fmt::Formatter<W>) -> fmt::Result {
        let mut list = f.debug_list();
        let mut rest = self.spelled.as_slice();
        for _ in 0..self.count {
            let (_, text, others) = first(rest);
            list.entry(&as_text(text).unwrap_or(""));
            rest = others;
        }
        list.finish()
    }
}
