// What a write leaves of its key, and the record that says so.
ghost use Rattle.std.specs.Prelude.{◌≡◌, ◌≢◌, ◌⊎◌, ◌<◌, ◌≤◌, ◌+◌, ◌^◌, ℕ, List, length, true, Some, None, IfOk, IfErr, IfSome, false, []};
ghost use Rattle.std.specs.List.{list_all};
ghost use Rattle.share_model.specs.ShareStates.{is_writable, start_after};
ghost use Rattle.offset_runs.specs.Changes.{room_of};
ghost use Rattle.offset_runs.specs.Complete.{complete_rows};
ghost use Rattle.state_records.specs.States.{IsKey, IsEpoch, IsStart, AreStoredRuns};
ghost use Rattle.state_records.specs.declared.record.StateRecord.TheVariants.{Snapshot as snapshot_record, Update as update_record};
ghost use Rattle.share_coord.specs.Stored.{Entries, kept_at};
ghost use Rattle.share_coord.specs.Calls.{IsTooMany};
ghost use Rattle.share_coord.specs.Planning.{IsPlanned};
ghost use Rattle.share_coord.specs.Tables.{shown};

use crate::fault::CoordFault;
use crate::rows::{complete_after, empty_rows, laid, start_after, written};
use crate::view::{Kept, StateView};
use flex_fields::Items;
use offset_runs::Runs;
use share_model::{Key, NoMemory, Run};
use state_records::{KeyState, StateRecord};
use std::alloc::Global;
use uuid::Uuid;

const MAX_RUNS: usize = 1000000;

// The numbers of a call on a key, which are in range.
#[derive(Drop)]
pub(crate) struct Numbers {
    pub key: Key,
    pub state_epoch: i32,
    pub leader_epoch: i32,
    pub start: i64,
}

// What is kept of a key, and the record that makes it so where no checkpoint is made before it.
#[derive(Drop)]
pub(crate) struct Change {
    pub kept: Kept,
    pub written: StateRecord,
}

// The record behind a checkpoint, and what the key's numbers are then.
#[derive(Drop)]
pub(crate) struct Fresh {
    pub written: StateRecord,
    pub snapshot: u64,
    pub updates: u16,
}

// A change, and where a checkpoint is tried the record behind it.
#[derive(Drop)]
pub(crate) struct Changes {
    pub change: Change,
    pub fresh: Option<Fresh>,
}

fn sixteen(bytes: [u8; 16]) -> usize
    ensures { length bytes ≡ 16 }
{
    bytes.len()
}

fn topic_fits(topic: &Uuid)
    ensures { length topic.now ≡ 16 }
{
    let _len = sixteen(*topic.as_bytes());
}

// The ranges of a key.
pub(crate) fn key_fits(key: &Key)
    ensures { IsKey key.now }
{
    let _group = key.group.as_bytes();
    topic_fits(&key.topic);
    let _part = &key.part;
}

// An update with the rows that are written.
fn update(
    numbers: &Numbers,
    kept: &Kept,
    told: i64,
    start: i64,
    over: Runs,
    rows: Runs,
    complete: u64,
) -> Change
    requires ranges { IsEpoch numbers.now.state_epoch × IsEpoch numbers.now.leader_epoch × IsStart told }
    requires start { IsStart start }
    requires over { AreStoredRuns over.list }
    requires few { length over.list ≤ 1000000 }
    requires rows { AreStoredRuns rows.list }
    requires few_rows { length rows.list ≤ 1000000 }
    requires counted { complete ≡ complete_rows rows.list }
    requires updates { kept.now.updates < 500 }
    ensures written { result.written ≡ update_record (record {
      key = numbers.now.key;
      snapshot = kept.now.snapshot;
      state_epoch = numbers.now.state_epoch;
      leader_epoch = numbers.now.leader_epoch;
      start = told;
      complete = Some (complete_rows rows.list);
      runs = over.list;
    }) }
    ensures kept { shown result.kept ≡ record {
      view = record { state_epoch = numbers.now.state_epoch; leader_epoch = numbers.now.leader_epoch; start = start; runs = rows.list };
      snapshot = kept.now.snapshot;
      updates = kept.now.updates + 1;
      raised = false;
      tells = false;
    } }
    ensures room { result.kept.view.room ≡ room_of rows }
{
    Change {
        written: StateRecord::Update(KeyState {
            key: numbers.key,
            snapshot: kept.snapshot,
            state_epoch: numbers.state_epoch,
            leader_epoch: numbers.leader_epoch,
            start: told,
            complete: Some(complete),
            runs: Items::new(over.into_vec()),
        }),
        kept: Kept {
            view: StateView {
                state_epoch: numbers.state_epoch,
                leader_epoch: numbers.leader_epoch,
                start,
                complete,
                runs: rows,
            },
            snapshot: kept.snapshot,
            updates: kept.updates + 1,
            raised: false,
            tells: false,
        },
    }
}

// A snapshot of all rows that there are then.
pub(crate) fn snapshot(
    alloc: Global,
    numbers: &Numbers,
    snapshot: u64,
    start: i64,
    rows: Runs,
    complete: u64,
) -> Result<Change, NoMemory>
    requires ranges { IsEpoch numbers.now.state_epoch × IsEpoch numbers.now.leader_epoch }
    requires start { IsStart start }
    requires rows { AreStoredRuns rows.list }
    requires few_rows { length rows.list ≤ 1000000 }
    requires counted { complete ≡ complete_rows rows.list }
    ensures written { IfOk result (λ c. c.written ≡ snapshot_record (record {
      key = numbers.now.key;
      snapshot = snapshot;
      state_epoch = numbers.now.state_epoch;
      leader_epoch = numbers.now.leader_epoch;
      start = start;
      complete = Some (complete_rows rows.list);
      runs = rows.list;
    })) }
    ensures kept { IfOk result (λ c. shown c.kept ≡ record {
      view = record { state_epoch = numbers.now.state_epoch; leader_epoch = numbers.now.leader_epoch; start = start; runs = rows.list };
      snapshot = snapshot;
      updates = 0;
      raised = false;
      tells = false;
    }) }
    ensures room { IfOk result (λ c. c.kept.view.room ≡ room_of rows) }
{
    let copy = rows.list().to_vec(alloc)?;
    Ok(Change {
        written: StateRecord::Snapshot(KeyState {
            key: numbers.key,
            snapshot,
            state_epoch: numbers.state_epoch,
            leader_epoch: numbers.leader_epoch,
            start,
            complete: Some(complete),
            runs: Items::new(copy),
        }),
        kept: Kept {
            view: StateView {
                state_epoch: numbers.state_epoch,
                leader_epoch: numbers.leader_epoch,
                start,
                complete,
                runs: rows,
            },
            snapshot,
            updates: 0,
            raised: false,
            tells: false,
        },
    })
}

// A snapshot of no rows, which have memory for so many runs.
pub(crate) fn empty_snapshot(
    alloc: Global,
    numbers: &Numbers,
    snapshot: u64,
    room: u32,
) -> Result<Change, NoMemory>
    requires { IsEpoch numbers.now.state_epoch × IsEpoch numbers.now.leader_epoch × IsStart numbers.now.start }
    ensures written { IfOk result (λ c. c.written ≡ snapshot_record (record {
      key = numbers.now.key;
      snapshot = snapshot;
      state_epoch = numbers.now.state_epoch;
      leader_epoch = numbers.now.leader_epoch;
      start = numbers.now.start;
      complete = Some 0;
      runs = [];
    })) }
    ensures kept { IfOk result (λ c. shown c.kept ≡ record {
      view = record { state_epoch = numbers.now.state_epoch; leader_epoch = numbers.now.leader_epoch; start = numbers.now.start; runs = [] };
      snapshot = snapshot;
      updates = 0;
      raised = false;
      tells = false;
    }) }
    ensures room { IfOk result (λ c. room ≤ c.kept.view.room) }
{
    Ok(Change {
        written: StateRecord::Snapshot(KeyState {
            key: numbers.key,
            snapshot,
            state_epoch: numbers.state_epoch,
            leader_epoch: numbers.leader_epoch,
            start: numbers.start,
            complete: Some(0),
            runs: Items::new(Vec::new(alloc)),
        }),
        kept: Kept {
            view: StateView {
                state_epoch: numbers.state_epoch,
                leader_epoch: numbers.leader_epoch,
                start: numbers.start,
                complete: 0,
                runs: empty_rows(alloc, room)?,
            },
            snapshot,
            updates: 0,
            raised: false,
            tells: false,
        },
    })
}

// Behind a checkpoint a write is always stored as an update.
fn fresh_update(
    alloc: Global,
    numbers: &Numbers,
    told: i64,
    over: &Runs,
    complete: u64,
) -> Result<Fresh, NoMemory>
    requires ranges { IsEpoch numbers.now.state_epoch × IsEpoch numbers.now.leader_epoch × IsStart told }
    requires over { AreStoredRuns over.now.list }
    requires few { length over.now.list ≤ 1000000 }
    ensures written { IfOk result (λ f. f.written ≡ update_record (record {
      key = numbers.now.key;
      snapshot = 0;
      state_epoch = numbers.now.state_epoch;
      leader_epoch = numbers.now.leader_epoch;
      start = told;
      complete = Some complete;
      runs = over.now.list;
    })) }
    ensures numbers { IfOk result (λ f. (f.snapshot ≡ 0) × (f.updates ≡ 1)) }
{
    let copy = over.list().to_vec(alloc)?;
    Ok(Fresh {
        written: StateRecord::Update(KeyState {
            key: numbers.key,
            snapshot: 0,
            state_epoch: numbers.state_epoch,
            leader_epoch: numbers.leader_epoch,
            start: told,
            complete: Some(complete),
            runs: Items::new(copy),
        }),
        snapshot: 0,
        updates: 1,
    })
}

// The record behind a checkpoint, where one is tried. None is tried where there is no memory for it.
fn fresh_where(
    alloc: Global,
    numbers: &Numbers,
    told: i64,
    over: &Runs,
    complete: u64,
    tries: bool,
) -> Option<Fresh>
    requires ranges { IsEpoch numbers.now.state_epoch × IsEpoch numbers.now.leader_epoch × IsStart told }
    requires over { AreStoredRuns over.now.list }
    requires few { length over.now.list ≤ 1000000 }
    ensures { IfSome result (λ f. (f.written ≡ update_record (record {
      key = numbers.now.key;
      snapshot = 0;
      state_epoch = numbers.now.state_epoch;
      leader_epoch = numbers.now.leader_epoch;
      start = told;
      complete = Some complete;
      runs = over.now.list;
    })) × (f.snapshot ≡ 0) × (f.updates ≡ 1)) }
{
    if !tries {
        return None;
    }
    match fresh_update(alloc, numbers, told, over, complete) {
        Ok(fresh) => Some(fresh),
        Err(_) => None,
    }
}

// Behind a checkpoint an initialisation is the first snapshot of its key, or the second.
pub(crate) fn fresh_snapshot(alloc: Global, numbers: &Numbers, snapshot: u64) -> Fresh
    requires { IsEpoch numbers.now.state_epoch × IsEpoch numbers.now.leader_epoch × IsStart numbers.now.start }
    ensures written { result.written ≡ snapshot_record (record {
      key = numbers.now.key;
      snapshot = snapshot;
      state_epoch = numbers.now.state_epoch;
      leader_epoch = numbers.now.leader_epoch;
      start = numbers.now.start;
      complete = Some 0;
      runs = [];
    }) }
    ensures numbers { (result.snapshot ≡ snapshot) × (result.updates ≡ 0) }
{
    Fresh {
        written: StateRecord::Snapshot(KeyState {
            key: numbers.key,
            snapshot,
            state_epoch: numbers.state_epoch,
            leader_epoch: numbers.leader_epoch,
            start: numbers.start,
            complete: Some(0),
            runs: Items::new(Vec::new(alloc)),
        }),
        snapshot,
        updates: 0,
    }
}

// The change of a write whose numbers are not refused; with the record behind a checkpoint where one is tried.
pub(crate) fn planned(
    alloc: Global,
    numbers: &Numbers,
    kept: &Kept,
    runs: &[Run],
    tries: bool,
    room: u32,
) -> Result<Changes, CoordFault>
    requires ranges { IsEpoch numbers.now.state_epoch × IsEpoch numbers.now.leader_epoch × IsStart numbers.now.start }
    requires runs { list_all is_writable runs.now ≡ true }
    requires snapshot { kept.now.snapshot + 1 < 2 ^ 64 }
    ensures plan { IfOk result (λ p. IsPlanned numbers.now.key (shown kept.now) numbers.now.state_epoch numbers.now.leader_epoch numbers.now.start
        runs.now p.change.written (shown p.change.kept) p.fresh) }
    ensures room { IfOk result (λ p. room ≤ p.change.kept.view.room) }
    ensures many { IfErr result (λ e. (n : ℕ) → e ≡ CoordFault.TooMany n → (old : Entries) → kept_at old numbers.now.key ≡ Some (shown kept.now) →
        IsTooMany old numbers.now.key numbers.now.start runs.now n) }
    ensures causes { IfErr result (λ e. (e ≡ CoordFault.NoMemory) ⊎ ((n : ℕ) × (e ≡ CoordFault.TooMany n))) }
{
    kept.view.known();
    key_fits(&numbers.key);
    let told = kept.start_told(numbers.start);
    let start = start_after(kept.view.start, numbers.start);
    let Ok(over) = written(alloc, runs) else {
        return Err(CoordFault::NoMemory);
    };
    let Ok(rows) = laid(alloc, &kept.view.runs, &over, start, room) else {
        return Err(CoordFault::NoMemory);
    };
    let count = over.list().len().max(rows.list().len());
    if count > MAX_RUNS {
        return Err(CoordFault::TooMany { runs: count as u64 });
    }
    let complete = complete_after(&kept.view.runs, kept.view.complete(), &over, start);
    let fresh = fresh_where(alloc, numbers, told, &over, complete, tries);
    let updates = kept.counted(start);
    if updates < 500 {
        return Ok(Changes {
            change: update(numbers, kept, told, start, over, rows, complete),
            fresh,
        });
    }
    match snapshot(alloc, numbers, kept.snapshot + 1, start, rows, complete) {
        Ok(change) => Ok(Changes { change, fresh }),
        Err(_) => Err(CoordFault::NoMemory),
    }
}
