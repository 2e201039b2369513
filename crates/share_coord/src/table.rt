// What is kept of all keys.
ghost use Rattle.std.specs.Prelude.{◌≡◌, ◌⊎◌, ◌≤◌, ◌<◌, ◌^◌, [], length, ℕ, None, Some, true, OnOk, OnErr, IfSome, IsOk, IsSome, is_some, slice_get};
ghost use Rattle.std.specs.List.Sorted.{IsStrictlySortedBy};
ghost use Rattle.std.specs.Map.{keys_of};
ghost use Rattle.std.specs.Option.{option_copied, option_map};
ghost use Rattle.share_model.specs.Keys.{key_cmp};
ghost use Rattle.share_coord.specs.Stored.{kept_at, renewed, with_kept, without_key};
ghost use Rattle.share_coord.specs.Tables.{AreRoomy, entries_in, found, shown};
ghost use Rattle.share_coord.specs.Unwritten.{raised_all, raised_entries, raised_kept};

use crate::view::Kept;
use share_model::{Key, NoMemory};
use std::alloc::Global;
use std::collections::BTreeMap;
use std::collections::btree_map::Iter;
use std::marker::Model;

/// What is kept of each key, in byte order of group, topic and partition.
///
/// A contract sees it, and beside it for how many runs the rows of each key have memory.
#[derive(Drop)]
pub struct Table {
    map: BTreeMap<Key, Kept>,
    room: u32,
}

impl Model for Table {
    ghost use Rattle.share_coord.specs.Tables.{AreRoomy, TableParts, entries_in};

    ghost Value = { TableParts };

    ghost view = { λ t. record { entries = entries_in t.map.entries; room = t.room } };

    ghost invariant = { λ t. AreRoomy t.room t.map.entries };
}

// Whether the rows of each key have memory for so many runs.
fn are_roomy(map: &BTreeMap<Key, Kept>, room: u32) -> bool
    ensures { result ≡ true → AreRoomy room map.now.entries }
{
    for (_, kept) in map.iter() {
        if kept.view.room() < u64::from(room) {
            return false;
        }
    }
    true
}

// The room of a table that has this one, once this is kept in it too.
fn room_with(room: u32, kept: &Kept) -> u32
    ensures below { result ≤ room }
    ensures within { result ≤ kept.now.view.room }
    ensures least { (n : ℕ) → n ≤ room → n ≤ kept.now.view.room → n ≤ result }
    ensures same { room ≤ kept.now.view.room → result ≡ room }
{
    let has = kept.view.room();
    if has < u64::from(room) {
        return has as u32;
    }
    room
}

fn nth_key(map: &BTreeMap<Key, Kept>, place: u64) -> Option<&Key>
    ensures { option_copied result ≡ slice_get (keys_of map.now.entries) place }
{
    map.keys().nth(place as usize)
}

impl Table {
    /// A table of no keys.
    pub fn new(alloc: Global) -> Table
        ensures { result.entries ≡ [] }
    {
        Table {
            map: BTreeMap::new(alloc),
            room: 0,
        }
    }

    /// For how many runs the rows of each key have memory.
    pub fn room(&self) -> u32
        ensures { result ≡ self.now.room }
    {
        self.room
    }

    /// How many keys there are.
    pub fn len(&self) -> u64
        ensures keys { result ≡ length self.now.entries }
        ensures sorted { IsStrictlySortedBy key_cmp (keys_of self.now.entries) }
    {
        self.map.len() as u64
    }

    /// The keys ascend.
    pub fn ordered(&self)
        ensures { IsStrictlySortedBy key_cmp (keys_of self.now.entries) }
    {
        let _len = self.len();
    }

    /// What is kept of a key. `None` where it isn't there.
    pub fn get(&self, key: &Key) -> Option<&Kept>
        ensures { found result ≡ kept_at self.now.entries key.now }
    {
        self.map.get(key)
    }

    /// Whether a key is there.
    pub fn contains(&self, key: &Key) -> bool
        ensures { result ≡ is_some (kept_at self.now.entries key.now) }
    {
        self.map.contains_key(key)
    }

    /// Keeps this of a key, in place of what was kept of it. Only for a new key it takes memory. The room stays where the
    /// rows have it.
    pub fn insert(&mut self, key: &Key, kept: Kept) -> Result<(), NoMemory>
        ensures entries { OnOk result (self.new.entries ≡ with_kept self.old.entries key.now (shown kept)) }
        ensures absent { OnErr result (kept_at self.old.entries key.now ≡ None) }
        ensures err { OnErr result (self.new ≡ self.old) }
        ensures room { self.old.room ≤ kept.view.room → self.new.room ≡ self.old.room }
    {
        let room = room_with(self.room, &kept);
        match self.map.insert(*key, kept) {
            Ok(_) => {
                self.room = room;
                Ok(())
            }
            Err(_) => Err(NoMemory),
        }
    }

    /// Keeps this of a key that is there, and hands out what was kept of it. It takes no memory.
    pub fn exchange(&mut self, key: &Key, kept: Kept) -> Option<Kept>
        requires { IsSome (kept_at self.old.entries key.now) }
        ensures entries { self.new.entries ≡ with_kept self.old.entries key.now (shown kept) }
        ensures room { (n : ℕ) → n ≤ self.old.room → n ≤ kept.view.room → n ≤ self.new.room }
        ensures old { IfSome result (λ k. self.old.room ≤ k.view.room) }
        ensures there { IsSome result }
    {
        let room = room_with(self.room, &kept);
        match self.map.insert(*key, kept) {
            Ok(old) => {
                self.room = room;
                old
            }
            Err(_) => unreachable!(),
        }
    }

    /// Takes a key away, and hands out what was kept of it. `None` where it wasn't there.
    pub fn remove(&mut self, key: &Key) -> Option<Kept>
        ensures value { option_map shown result ≡ kept_at self.old.entries key.now }
        ensures entries { self.new.entries ≡ without_key self.old.entries key.now }
        ensures room { self.new.room ≡ self.old.room }
    {
        self.map.remove(key)
    }

    /// The last snapshot of each key is its first, and no update follows.
    pub fn renew(&mut self)
        ensures entries { self.new.entries ≡ renewed self.old.entries }
        ensures room { self.new.room ≡ self.old.room }
    {
        self.map.retain(|_, kept| {
            kept.snapshot = 0;
            kept.updates = 0;
            kept.raised = false;
            true
        });
    }

    /// Sets memory aside, so that the rows of each key have it for so many runs. After want of memory the room is as it
    /// was.
    pub fn reserve(&mut self, room: u32) -> Result<(), NoMemory>
        ensures ok { OnOk result (room ≤ self.new.room) }
        ensures entries { self.new.entries ≡ self.old.entries }
        ensures kept { self.old.room ≤ self.new.room }
    {
        if room <= self.room {
            return Ok(());
        }
        self.map.retain(
            |_, kept|
                ensures always { result ≡ true }
                ensures shown { shown kept.new ≡ shown kept.old }
                ensures room { kept.old.view.room ≤ kept.new.view.room }
            {
                let _ = kept.view.reserve(room);
                true
            },
        );
        if !are_roomy(&self.map, room) {
            return Err(NoMemory);
        }
        self.room = room;
        Ok(())
    }

    /// Lets the state of a key start at an offset, where it is there and starts below it. It takes no memory.
    pub fn raise(&mut self, key: &Key, start: i64)
        ensures entries { self.new.entries ≡ raised_entries self.old.entries key.now start }
        ensures room { self.new.room ≡ self.old.room }
    {
        let Some(kept) = self.map.get_mut(key) else {
            return;
        };
        kept.raise(start);
    }

    /// Lets the state of each key start at an offset, where it starts below it. It takes no memory.
    pub fn raise_all(&mut self, start: i64)
        ensures entries { self.new.entries ≡ raised_all start self.old.entries }
        ensures room { self.new.room ≡ self.old.room }
    {
        self.map.retain(
            |_, kept|
                ensures always { result ≡ true }
                ensures raised { shown kept.new ≡ raised_kept start (shown kept.old) }
                ensures room { kept.old.view.room ≤ kept.new.view.room }
            {
                kept.raise(start);
                true
            },
        );
    }

    /// What is kept, with the keys in order.
    pub fn iter(&self) -> Iter<'_, Key, Kept>
        ensures rest { entries_in result ≡ self.now.entries }
        ensures fits { length self.now.entries < 2 ^ 63 }
        ensures ordered { IsStrictlySortedBy key_cmp (keys_of self.now.entries) }
    {
        self.map.iter()
    }

    /// The key at a place, from place 0 on. It goes past the keys before it.
    pub fn key_at(&self, place: u64) -> Option<&Key>
        ensures { option_copied result ≡ slice_get (keys_of self.now.entries) place }
    {
        nth_key(&self.map, place)
    }
}
