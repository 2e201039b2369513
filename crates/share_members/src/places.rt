ghost use Rattle.std.specs.Prelude.{◌≡◌, []};
ghost use Rattle.std.specs.Ordering.{nat_cmp};
ghost use Rattle.std.specs.List.Sorted.{IsStrictlySortedBy};
ghost use Rattle.share_members.specs.Assignments.{has_place};

use flex_fields::Items;
use std::alloc::Global;
use std::marker::Model;

/// What a member subscribes to: places of hosted topics, rising. A contract sees them as a list.
#[derive(Drop)]
pub struct Places {
    list: Items<u32>,
}

impl Model for Places {
    ghost use Rattle.std.specs.Prelude.{List, ℕ};
    ghost use Rattle.std.specs.Ordering.{nat_cmp};
    ghost use Rattle.std.specs.List.Sorted.{IsStrictlySortedBy};

    ghost Value = { List ℕ };

    ghost view = { λ p. p.list };

    ghost invariant = { λ p. IsStrictlySortedBy nat_cmp p.list };
}

impl Places {
    // Those of somebody who subscribes to nothing. It takes no memory.
    pub(crate) fn none(alloc: Global) -> Places
        ensures { result ≡ [] }
    {
        Places {
            list: Items::new(Vec::new(alloc)),
        }
    }

    // The places of a list that rises.
    pub(crate) fn new(list: Items<u32>) -> Places
        requires { IsStrictlySortedBy nat_cmp list }
        ensures { result ≡ list }
    {
        Places { list }
    }

    /// The places, lent.
    pub fn as_slice(&self) -> &[u32]
        ensures places { result.now ≡ self.now }
        ensures rising { IsStrictlySortedBy nat_cmp self.now }
    {
        self.list.as_slice()
    }

    /// Whether a topic's place is among them, found in the logarithm of their number.
    pub fn contains(&self, place: u32) -> bool
        ensures { result ≡ has_place place self.now }
    {
        has_place(place, self.list.as_slice())
    }
}

// Whether a topic's place is among those of a subscription.
pub(crate) fn has_place(place: u32, topics: &[u32]) -> bool
    requires { IsStrictlySortedBy nat_cmp topics.now }
    ensures { result ≡ has_place place topics.now }
{
    topics.binary_search(&place).is_ok()
}
