ghost use Rattle.std.specs.Prelude.{length};
ghost use Rattle.std.specs.Iterator.{at_most};
ghost use Rattle.std.specs.Map.Iter.{TakesFirst};
ghost use Rattle.share_coord.specs.States.{state_pair};

use crate::view::{Kept, StateView};
use share_model::Key;
use std::collections::btree_map::Iter;
use std::marker::Model;

/// The states of a store with their keys, in byte order of group, topic and partition.
///
/// A contract sees the list of what is left.
#[derive(Drop)]
pub struct States<'a> {
    pub inner: Iter<'a, Key, Kept>,
}

impl<'a> Model for States<'a> {
    ghost use Rattle.share_model.specs.ForeignRules.{ShareStates};
    ghost use Rattle.share_coord.specs.States.{states_of};
    ghost use Rattle.share_coord.specs.Tables.{entries_in};

    ghost Value = { ShareStates };

    ghost view = { λ s. states_of (entries_in s.inner) };
}

impl<'a> Iterator for States<'a> {
    type Item = (&'a Key, &'a StateView);

    ghost next_gives = { TakesFirst state_pair };

    ghost remaining = { λ s. at_most (length s) };

    fn next(&mut self) -> Option<(&'a Key, &'a StateView)> {
        match self.inner.next() {
            Some((key, kept)) => Some((key, &kept.view)),
            None => None,
        }
    }
}
