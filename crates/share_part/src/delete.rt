// Deletes the records of a partition below an offset.
ghost use Rattle.std.specs.Prelude.{◌≡◌, ◌<◌, ◌≤◌, ◌^◌, ℕ, pos, List, IfSome};
ghost use Rattle.std.specs.Option.{option_map};
ghost use Rattle.std.specs.declared.option.Option.{Option};
ghost use Rattle.share_model.specs.ForeignRules.{size_of};
ghost use Rattle.share_model.specs.Held.{without_range};
ghost use Rattle.share_model.specs.Logs.{end_of};
ghost use Rattle.part_log.specs.Logs.{log_in};
ghost use Rattle.share_coord.specs.Holding.{Holds};
ghost use Rattle.share_coord.specs.Stored.{Entries};
ghost use Rattle.share_coord.specs.Unwritten.{raised_all};
ghost use Rattle.share_part.specs.Deleting.{holds_from, target_of};
ghost use Rattle.share_part.specs.Shards.{held_in};

use edge_io::Disk;
use lock_index::{Steps, Window};
use part_log::PartLog;
use share_coord::Coord;
use share_model::Name;
use std::collections::BTreeMap;
use std::marker::Brand;
use std::sync::ledger::{Blank, Ledger};

// The offset that a number is, or 0 where it is none.
fn offset_of(number: i64) -> u64
    ensures { result ≡ size_of number }
{
    if number < 0 { 0 } else { number as u64 }
}

/// The offset below which records go: -1 stands for the log's end. `None` where there is no such offset.
pub fn target<D: Disk>(log: &PartLog<D>, to: i64) -> Option<u64>
    ensures is { result ≡ target_of (log_in log.now) to }
    ensures within { IfSome result (λ target. target ≤ end_of log.now.batches) }
{
    let end = log.end();
    if to == -1 {
        return Some(end);
    }
    if to < 0 {
        return None;
    }
    let offset = offset_of(to);
    if end < offset {
        return None;
    }
    Some(offset)
}

/// Lets each table that starts below an offset start there. It takes no memory.
pub fn raise_tables<D: Disk>(states: &mut Coord<D>, start: u64)
    requires { start ≤ 2 ^ 62 }
    ensures entries { states.new.entries ≡ raised_all (pos start) states.old.entries }
    ensures journal { states.new.journal ≡ states.old.journal }
    ensures room { states.new.room ≡ states.old.room }
    ensures holds { (pending : Option Entries) → Holds D.seen states.old pending →
        Holds D.seen states.new (option_map (raised_all (pos start)) pending) }
{
    states.raise_all(start as i64);
}

// Ends what a window holds up to an offset, and counts the steps in a ledger.
fn end_in_ledger<W: Window, L: Ledger>(window: &mut W, last: u64, blank: Blank)
    requires name { blank.name ≡ L.name }
    requires parts { blank.parts ≡ L.parts }
    requires some { 0 < blank.parts }
    ensures { W.held window.new ≡ without_range 0 last (W.held window.old) }
{
    let mut steps = Steps::<L>::new(blank);
    window.end_hold_counted(0, last, &mut steps);
}

// The same in a ledger of its own.
fn end_up_to<W: Window>(window: &mut W, last: u64)
    ensures { W.held window.new ≡ without_range 0 last (W.held window.old) }
{
    end_in_ledger::<W, Brand>(window, last, Blank::new(1));
}

/// Ends what each group holds below an offset.
pub fn raise_windows<W: Window>(windows: &mut BTreeMap<Name, W>, start: u64)
    requires { 0 < start }
    ensures { (group : List ℕ) →
        held_in W.held windows.new.entries group ≡ holds_from start (held_in W.held windows.old.entries group) }
{
    let last = start - 1;
    windows.retain(|_, window| {
        end_up_to(window, last);
        true
    });
}
