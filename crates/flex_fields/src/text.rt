ghost use Rattle.std.specs.Prelude.{◌≡◌, ◌+◌, ◌^◌, ◌<◌, length, true, false, IfOk, MatchOption};
ghost use Rattle.std.specs.Str.{IsUtf8, is_utf8};

use crate::fault::NoMemory;
use std::alloc::Global;
use std::marker::Model;

/// A string that a contract sees as its bytes, which are UTF-8. It has fewer than 2^32 - 1 bytes,
/// as every string of a message has.
#[derive(Debug, Drop)]
pub struct Text {
    string: String,
}

impl Model for Text {
    ghost use Rattle.std.specs.Prelude.{List, ℕ, string_bytes, ◌+◌, ◌^◌, ◌<◌, length};

    ghost Value = { List ℕ };

    ghost view = { λ t. string_bytes t.string };

    ghost invariant = { λ t. length (string_bytes t.string) + 1 < 2 ^ 32 };
}

impl Text {
    /// A copy of the text; `NoMemory` where no memory was found for it.
    pub fn new(alloc: Global, text: &str) -> Result<Self, NoMemory>
        requires few { length text.now + 1 < 2 ^ 32 }
        ensures bytes { IfOk result (λ t. t ≡ text.now) }
    {
        Ok(Text {
            string: String::from_str(alloc, text)?,
        })
    }

    /// The text, lent.
    pub fn as_str(&self) -> &str
        ensures bytes { result.now ≡ self.now }
        ensures utf8 { IsUtf8 self.now }
        ensures few { length self.now + 1 < 2 ^ 32 }
    {
        self.string.as_str()
    }
}

/// The bytes as a string, where they are UTF-8. It takes no memory.
#[tactic(auto, using(crate::proofs::Utf8::utf8_true, crate::proofs::Utf8::utf8_false))]
pub fn as_text(bytes: &[u8]) -> Option<&str>
    ensures { MatchOption result (is_utf8 bytes.now ≡ false) (λ s. (s.now ≡ bytes.now) × (is_utf8 bytes.now ≡ true)) }
{
    match std::str::from_utf8(bytes) {
        Err(_) => None,
        Ok(text) => Some(text),
    }
}
