// The bytes of batches that are kept.
ghost use Rattle.std.specs.Prelude.{◌≡◌, ◌≢◌, ◌+◌, ◌≤◌, ◌++◌, ℕ, List, length, None, Err, IfOk, IfSome, IsOk, OnOk, OnErr, Contains};
ghost use Rattle.edge_io.specs.Counting.{MakesUpTo};
ghost use Rattle.edge_io.specs.Disk.{IsTold};
ghost use Rattle.gate_journal.specs.Reading.{ExtendsWithin, HasFrameAt, ReadsOnly};
ghost use Rattle.log_index.specs.Indexes.{CachesAlso};
ghost use Rattle.log_index.specs.Searches.{IsAppended};
ghost use Rattle.share_model.specs.Rooms.{Appends, Reserves};

use crate::entry::Entry;
use edge_io::Disk;
use gate_journal::Journal;
use lru::LruCache;
use share_model::{BatchRead, Blob, Room};
use std::alloc::{AllocError, Global};

// Appends the bytes that are kept for a number, if some are, which are then the latest.
pub fn append_kept(
    cache: &mut LruCache<u64, Blob>,
    number: u64,
    out: &mut Room,
) -> Option<Result<(), BatchRead>>
    ensures none { result ≡ None → out.new ≡ out.old }
    ensures some { IfSome result (λ r. (bytes : List ℕ) × Contains cache.old.entries (number, bytes) × IsAppended r out.old out.new bytes) }
    ensures cached { (e : ℕ × List ℕ) → Contains cache.new.entries e → Contains cache.old.entries e }
{
    let read = match out.append(cache.peek(&number)?.as_slice()) {
        Ok(()) => Ok(()),
        Err(_) => Err(BatchRead::NoMemory),
    };
    cache.promote(&number);
    Some(read)
}

// A copy of these bytes.
fn copy_of(alloc: Global, bytes: &[u8]) -> Result<Blob, AllocError>
    ensures { IfOk result (λ b. b ≡ bytes.now) }
{
    let bytes = bytes.to_vec(alloc)?;
    Ok(Blob::new(bytes))
}

// Keeps a copy of bytes for a number, if there is memory for it.
pub fn keep(cache: &mut LruCache<u64, Blob>, alloc: Global, number: u64, bytes: &[u8])
    ensures { CachesAlso cache.old.entries number (λ b. b ≡ bytes.now) cache.new.entries }
{
    let Ok(copy) = copy_of(alloc, bytes) else {
        return;
    };
    if let Err(_) = cache.put(number, copy) {
        return;
    }
}

// Appends the frame of an entry, and keeps it for its number, if there is memory for that.
pub fn append_frame<D: Disk>(
    cache: &mut LruCache<u64, Blob>,
    alloc: Global,
    journal: &mut Journal<D>,
    number: u64,
    entry: &Entry,
    out: &mut Room,
) -> Result<(), BatchRead>
    requires { (frame : List ℕ) × HasFrameAt D.seen journal.old entry.now.place frame × (length frame ≡ entry.now.size) }
    ensures ok { OnOk result (IsTold (D.seen journal.old.disk).content → (frame : List ℕ) → HasFrameAt D.seen journal.old entry.now.place frame →
        length frame ≤ entry.now.size → Appends out.old out.new frame) }
    ensures err { OnErr result (Reserves out.old out.new 0) }
    ensures extends { OnOk result (ExtendsWithin entry.now.size out.old.bytes out.new.bytes) }
    ensures less { OnOk result (out.old.spare ≤ out.new.spare + entry.now.size) }
    ensures spared { entry.now.size ≤ out.old.spare → result ≢ Err BatchRead.NoMemory }
    ensures cached { CachesAlso cache.old.entries number (λ bytes. IsOk result × (out.new.bytes ≡ out.old.bytes ++ bytes)) cache.new.entries }
    ensures only { ReadsOnly D.seen journal.old journal.new }
    ensures disk { MakesUpTo D.seen 2 journal.old.disk journal.new.disk (result ≡ Err BatchRead.Device) }
{
    let before = out.as_slice().len();
    journal.read_frame_within(entry.place, entry.size, out)?;
    keep(cache, alloc, number, &out.as_slice()[before..]);
    Ok(())
}
