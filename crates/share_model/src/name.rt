ghost use Rattle.std.specs.Prelude.{◌≡◌, ◌≤◌, ◌-◌, ◌++◌, replicate, length, IfSome, IfNone};
ghost use Rattle.std.specs.Str.{IsUtf8};
ghost use Rattle.std.specs.Ordering.{nat_cmp};
ghost use Rattle.std.specs.Cmp.Lexicographic.{pointwise, slice_cmp, nat_list_eq_equiv, nat_list_cmp_total, texts_ties, texts_po};
ghost use Rattle.std.specs.Cmp.{partial_equiv_from_equiv};
ghost use Rattle.std.specs.Prelude.{nat_eq, refl, Some};

use std::cmp::Ordering;
use std::fmt;
use std::marker::Model;

/// The id of a group or of a member, or the name of a topic: 1 to 255 bytes of UTF-8.
///
/// It is kept inside the value, so that copying it takes no memory. A contract sees it as its bytes.
#[derive(Clone, Copy)]
pub struct Name {
    bytes: [u8; 255],
    len: u8,
}

impl Model for Name {
    ghost use Rattle.std.specs.Prelude.{List, ℕ, ◌-◌, ◌++◌, length, take, replicate};
    ghost use Rattle.share_model.specs.Names.{IsName, IsPadded, padded_back, padded_length};

    ghost Value = { List ℕ };

    ghost view = { λ n. take n.len n.bytes };

    ghost invariant = { λ n. IsName (take n.len n.bytes) × IsPadded n.len n.bytes };

    ghost inverse = { λ v. record { bytes = v ++ replicate (255 - length v) 0; len = length v } };

    ghost inverse_ok = { λ a h. λ i. record { bytes = padded_back a.len a.bytes h.1 i; len = padded_length a.len a.bytes h.1 i } };
}

// The bytes, and zeros behind them.
fn padded(bytes: &[u8]) -> [u8; 255]
    requires { length bytes.now ≤ 255 }
    ensures { result ≡ bytes.now ++ replicate (255 - length bytes.now) 0 }
{
    let mut all = [0; 255];
    let (front, _) = all.split_at_mut(bytes.len());
    front.copy_from_slice(bytes);
    all
}

impl Name {
    ghost use Rattle.share_model.specs.Names.{IsName};

    /// The name with this text. `None` where it is empty or longer than 255 bytes.
    pub fn new(text: &str) -> Option<Name>
        ensures some { IfSome result (λ n. n ≡ text.now) }
        ensures none { IfNone result ((1 ≤ length text.now) × (length text.now ≤ 255) → ⊥) }
    {
        if text.is_empty() || text.len() > 255 {
            return None;
        }
        Some(Name {
            bytes: padded(text.as_bytes()),
            len: text.len() as u8,
        })
    }

    /// The name with these bytes. `None` where they aren't 1 to 255 bytes of UTF-8.
    pub fn from_bytes(bytes: &[u8]) -> Option<Name>
        ensures some { IfSome result (λ n. n ≡ bytes.now) }
        ensures none { IfNone result (IsName bytes.now → ⊥) }
    {
        match str::from_utf8(bytes) {
            Ok(text) => Name::new(text),
            Err(_) => None,
        }
    }

    /// Its bytes.
    pub fn as_bytes(&self) -> &[u8]
        ensures same { result.now ≡ self.now }
        ensures name { IsName self.now }
    {
        &self.bytes[..self.len as usize]
    }

    /// Its text.
    pub fn as_str(&self) -> &str
        ensures same { result.now ≡ self.now }
        ensures name { IsName self.now }
    {
        match str::from_utf8(self.as_bytes()) {
            Ok(text) => text,
            Err(_) => unreachable!(),
        }
    }
}

impl PartialEq for Name {
    ghost eq = { pointwise nat_eq };

    ghost laws = { partial_equiv_from_equiv nat_list_eq_equiv };

    fn eq(&self, other: &Name) -> bool {
        self.as_bytes() == other.as_bytes()
    }
}

impl Eq for Name {
    ghost laws = { nat_list_eq_equiv };
}

impl PartialOrd for Name {
    ghost partial_cmp = { λ x y. Some (slice_cmp nat_cmp x y) };

    ghost laws = { texts_po };

    fn partial_cmp(&self, other: &Name) -> Option<Ordering> {
        Some(self.cmp(other))
    }
}

impl Ord for Name {
    ghost cmp = { slice_cmp nat_cmp };

    ghost total = { nat_list_cmp_total };

    ghost matches_partial_cmp = { λ x y. refl };

    ghost matches_eq = { texts_ties };

    fn cmp(&self, other: &Name) -> Ordering {
        self.as_bytes().cmp(other.as_bytes())
    }
}

impl fmt::Debug for Name {
    fn fmt<W: fmt::Write>(&self, f: &mut fmt::Formatter<W>) -> fmt::Result {
        f.write_str(self.as_str())
    }
}

impl fmt::Display for Name {
    ghost output = { λ name. Some name };

    fn fmt<W: fmt::Write>(&self, f: &mut fmt::Formatter<W>) -> fmt::Result {
        f.write_str(self.as_str())
    }
}
