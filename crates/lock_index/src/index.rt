ghost use Rattle.std.specs.Prelude.{◌≡◌, ◌≤◌, ◌<◌, [], length, OnOk, OnErr, IsOk};
ghost use Rattle.lock_index.specs.Locks.{HasPair, IsLeastFirst, put_pair};

use crate::pairs::{count_before, find_due};
use share_model::NoMemory;
use std::alloc::Global;
use std::marker::Model;

/// The pairs of lock end, in milliseconds, and first offset of runs that are held, by rising end, and by rising
/// offset where the ends are equal. No pair stands twice.
///
/// A contract sees the pairs, and the room: how many there can be with no memory.
#[derive(Drop)]
pub struct LockIndex {
    pairs: Vec<(u64, u64)>,
}

impl Model for LockIndex {
    ghost use Rattle.std.specs.Prelude.{vec_capacity};
    ghost use Rattle.lock_index.specs.Locks.{IsOrdered, PairsInRoom};

    ghost Value = { PairsInRoom };

    ghost view = { λ i. record { pairs = i.pairs.items; room = vec_capacity i.pairs } };

    ghost invariant = { λ i. IsOrdered i.pairs.items };
}

impl LockIndex {
    /// No pairs. It takes no memory.
    pub fn new(alloc: Global) -> LockIndex
        ensures { result.pairs ≡ [] }
    {
        LockIndex {
            pairs: Vec::new(alloc),
        }
    }

    /// Makes room for at least `n` pairs in all. After want of memory the index is as it was.
    pub fn reserve(&mut self, n: u32) -> Result<(), NoMemory>
        ensures ok { OnOk result (n ≤ self.new.room) }
        ensures pairs { self.new.pairs ≡ self.old.pairs }
        ensures room { self.old.room ≤ self.new.room }
        ensures keeps { OnErr result (self.new ≡ self.old) }
        ensures spared { n ≤ self.old.room → IsOk result }
    {
        self.pairs
            .reserve((n as usize).saturating_sub(self.pairs.len()))?;
        Ok(())
    }

    /// Puts a pair in its place, which is found in the logarithm of the number of pairs. It takes no memory.
    pub fn put(&mut self, end: u64, first: u64)
        requires room { length self.old.pairs < self.old.room }
        requires absent { HasPair self.old.pairs (end, first) → ⊥ }
        ensures pairs { self.new.pairs ≡ put_pair (end, first) self.old.pairs }
        ensures room { self.old.room ≤ self.new.room }
    {
        let place = count_before(&self.pairs, end, first);
        if let Err(_) = self.pairs.insert(place, (end, first)) {
            unreachable!()
        }
    }

    /// Takes a pair away. It takes no memory.
    pub fn take(&mut self, end: u64, first: u64)
        requires { HasPair self.old.pairs (end, first) }
        ensures pairs { put_pair (end, first) self.new.pairs ≡ self.old.pairs }
        ensures room { self.new.room ≡ self.old.room }
    {
        let place = count_before(&self.pairs, end, first);
        let _ = self.pairs.remove(place);
    }

    /// The least first offset of the pairs that end at `now` or before. `None` where none does.
    pub fn due(&self, now: u64) -> Option<u64>
        ensures { IsLeastFirst self.now.pairs now result }
    {
        find_due(&self.pairs, now)
    }
}
