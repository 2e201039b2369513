// Finds entries by offset.
ghost use Rattle.std.specs.Prelude.{◌≡◌, ◌<◌, ◌≤◌, length, map, MatchOption};
ghost use Rattle.share_model.specs.Logs.{IsLog, IsNextSlot, IsSlot};
ghost use Rattle.log_index.specs.Indexes.{IsPlaceOf, log_of};
ghost use Rattle.log_index.specs.Searches.{EndsBelow};

use crate::entry::Entry;
use share_model::BatchPlace;

// How many entries end below an offset.
fn count_below(entries: &[Entry], offset: u64) -> usize
    requires { IsLog (log_of entries.now) }
    ensures { EndsBelow entries.now offset result }
{
    entries.partition_point(|entry| entry.last < offset)
}

/// The least slot from an offset on.
pub fn next_slot(entries: &[Entry], from: u64) -> Option<u64>
    requires { IsLog (log_of entries.now) }
    ensures { IsNextSlot (log_of entries.now) from result }
{
    let count = count_below(entries, from);
    if count == entries.len() {
        return None;
    }
    Some(from.max(entries[count].base))
}

/// The batch that covers an offset.
pub fn place_of(entries: &[Entry], offset: u64) -> Option<BatchPlace>
    requires { IsLog (log_of entries.now) }
    ensures { MatchOption result (IsSlot (log_of entries.now) offset → ⊥) (IsPlaceOf entries.now offset) }
{
    let count = count_below(entries, offset);
    if count == entries.len() {
        return None;
    }
    let entry = &entries[count];
    if offset < entry.base {
        return None;
    }
    Some(BatchPlace {
        number: count as u64,
        base: entry.base,
        last: entry.last,
        size: entry.size,
    })
}
