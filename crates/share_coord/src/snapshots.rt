// The snapshots of all keys, for a checkpoint.
ghost use Rattle.std.specs.Prelude.{◌≡◌, length, IfOk};
ghost use Rattle.std.specs.Map.Iter.{TakesFirst};
ghost use Rattle.gate_journal.specs.Frames.{IsFrame, frame_in};
ghost use Rattle.checkpoint_journal.specs.Generations.{mark_of};
ghost use Rattle.checkpoint_journal.specs.declared.mark.Mark.TheVariants.{Snapshot};
ghost use Rattle.state_records.specs.Spelling.{record_bytes};
ghost use Rattle.share_coord.specs.Stored.{kept_left, snapshot_record};
ghost use Rattle.share_coord.specs.Tables.{shown_pair};

use crate::plan::key_fits;
use crate::records::buffer_for;
use crate::table::Table;
use crate::view::{Kept, StateView};
use coord_checkpoint::Snapshots;
use flex_fields::Items;
use share_model::{Key, NoMemory};
use state_records::{KeyState, StateRecord};
use std::alloc::Global;
use std::collections::btree_map::Iter;
use std::marker::Model;

/// The keys whose snapshots are still to be handed over, one of which is left out if it is named.
#[derive(Drop)]
pub(crate) struct KeySnapshots<'a> {
    alloc: Global,
    inner: Iter<'a, Key, Kept>,
    without: Option<Key>,
    count: u64,
}

impl<'a> Model for KeySnapshots<'a> {
    ghost use Rattle.std.specs.Prelude.{◌≡◌, length};
    ghost use Rattle.share_coord.specs.Stored.{Entries, kept_left};
    ghost use Rattle.share_coord.specs.Tables.{entries_in};

    ghost Value = { Entries };

    ghost view = { λ s. kept_left s.without (entries_in s.inner) };

    ghost invariant = { λ s. s.count ≡ length (kept_left s.without (entries_in s.inner)) };
}

// The snapshot of a key in a checkpoint.
fn first_snapshot(alloc: Global, key: &Key, view: &StateView) -> Result<StateRecord, NoMemory>
    ensures { IfOk result (λ r. r ≡ snapshot_record key.now view.now.state) }
{
    view.known();
    let copy = view.runs.list().to_vec(alloc)?;
    Ok(StateRecord::Snapshot(KeyState {
        key: *key,
        snapshot: 0,
        state_epoch: view.state_epoch,
        leader_epoch: view.leader_epoch,
        start: view.start,
        complete: Some(view.complete()),
        runs: Items::new(copy),
    }))
}

// The same in the buffer of an append.
fn snapshot_buffer(alloc: Global, key: &Key, view: &StateView) -> Result<Vec<u8>, NoMemory>
    ensures frame { IfOk result (λ b. frame_in b.items ≡ record_bytes (snapshot_record key.now view.now.state)) }
    ensures fits { IfOk result (λ b. IsFrame (frame_in b.items)) }
    ensures mark { IfOk result (λ b. mark_of (frame_in b.items) ≡ Snapshot) }
{
    view.known();
    key_fits(key);
    let written = first_snapshot(alloc, key, view)?;
    let buffer = buffer_for(alloc, &written)?;
    Ok(buffer)
}

impl<'a> KeySnapshots<'a> {
    // The keys of a table, of which there are so many, without this one.
    pub(crate) fn of(
        alloc: Global,
        table: &'a Table,
        without: Option<Key>,
        count: u64,
    ) -> KeySnapshots<'a>
        requires { count ≡ length (kept_left without table.now.entries) }
        ensures { result ≡ kept_left without table.now.entries }
    {
        KeySnapshots {
            alloc,
            inner: table.iter(),
            without,
            count,
        }
    }

    fn take(&mut self) -> Option<(&'a Key, &'a Kept)>
        ensures { TakesFirst shown_pair self.old result self.new }
    {
        self.count = self.count.saturating_sub(1);
        let Some((key, kept)) = self.inner.next() else {
            return None;
        };
        let Some(other) = self.without else {
            return Some((key, kept));
        };
        if other.cmp(key).is_eq() {
            self.without = None;
            return self.inner.next();
        }
        Some((key, kept))
    }
}

impl<'a> Snapshots for KeySnapshots<'a> {
    ghost use Rattle.share_coord.specs.Stored.{snapshot_frames};

    ghost rest = { λ s. snapshot_frames s };

    fn count(&self) -> u64 {
        self.count
    }

    fn next(&mut self, buffer: &mut Vec<u8>) -> Result<(), NoMemory> {
        let alloc = self.alloc;
        let Some((key, kept)) = self.take() else {
            unreachable!()
        };
        *buffer = snapshot_buffer(alloc, key, &kept.view)?;
        Ok(())
    }
}
