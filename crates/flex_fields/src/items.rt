ghost use Rattle.std.specs.Prelude.{◌≡◌, ◌+◌, ◌^◌, ◌<◌, vec_len, length};

use std::alloc::Global;
use std::marker::Model;

/// A list that a contract sees as one. It has fewer than 2^32 - 1 items, as every array of a
/// message has, so that writing it needs no condition.
#[derive(Debug, Drop)]
pub struct Items<T> {
    list: Vec<T>,
}

impl<T> Model for Items<T> {
    ghost use Rattle.std.specs.Prelude.{List, ◌+◌, ◌^◌, ◌<◌, length};

    ghost Value = { List T };

    ghost view = { λ a. a.list.items };

    ghost invariant = { λ a. length a.list.items + 1 < 2 ^ 32 };
}

impl<T> Items<T> {
    /// The items of a vector, which takes no memory.
    pub fn new(list: Vec<T>) -> Self
        requires few { vec_len list + 1 < 2 ^ 32 }
        ensures items { result ≡ list.items }
    {
        Items { list }
    }

    /// The items, lent.
    pub fn as_slice(&self) -> &[T]
        ensures items { result.now ≡ self.now }
        ensures few { length self.now + 1 < 2 ^ 32 }
    {
        &self.list
    }

    /// Hands out the vector, which takes no memory.
    pub fn into_vec(self) -> Vec<T>
        ensures items { result.items ≡ self }
        ensures few { length self + 1 < 2 ^ 32 }
    {
        let Items { list } = self;
        list
    }
}
