ghost use Rattle.std.specs.Prelude.{◌≡◌, ◌≤◌, ◌+◌, ◌-◌, ◌*◌, ℕ, List, [], length, OnOk, OnErr, IsOk};
ghost use Rattle.std.specs.Option.{option_copied};
ghost use Rattle.std.specs.BTreeMap.{insert_entry};
ghost use Rattle.std.specs.Ordering.{nat_cmp};
ghost use Rattle.share_model.specs.Held.{Held, hold_at, without_range, IsLeastDue};
ghost use Rattle.lock_index.specs.Windows.{IsRising, IsRunFrom, holding};
ghost use Rattle.lock_index.specs.Runs.{IsRunList, met_count};
ghost use Rattle.lock_index.specs.declared.run.HoldRun.{HoldRun};

use crate::run::HoldRun;
use crate::steps::Steps;
use share_model::{Hold, NoMemory};
use std::alloc::Global;
use std::sync::ledger::Ledger;

/// The records of one share partition that are acquired, by offset. Times are in milliseconds.
pub trait Window: Sized + Drop {
    /// The holds by rising offset.
    ghost held: { Self → Held };

    /// How many more records can be held with no memory.
    ghost spare: { Self → ℕ };

    /// A window that holds nothing. It takes no memory.
    fn new(alloc: Global) -> Self
        ensures { held result ≡ [] };

    /// The offsets rise, and none is held twice.
    fn known(&self)
        ensures { IsRising (held self.now) };

    /// How many records are held.
    fn count(&self) -> u64
        ensures { result ≡ length (held self.now) };

    /// The hold of an offset. `None` where it isn't held.
    fn look(&self, offset: u64) -> Option<&Hold>
        ensures { option_copied result ≡ hold_at (held self.now) offset };

    /// The first run that doesn't end below `from`. `None` where there is none.
    fn run_from(&self, from: u64) -> Option<&HoldRun>
        ensures { IsRunFrom (held self.now) from (option_copied result) };

    /// The one run list of what is held: the runs are in order, and no two neighbours could be one. It takes no memory.
    fn list(&self) -> &[HoldRun]
        ensures { IsRunList (held self.now) result.now };

    /// The least offset whose lock ends at `now` or before. `None` where no lock does.
    fn due(&self, now: u64) -> Option<u64>
        ensures { IsLeastDue (held self.now) now result };

    /// Sets memory aside, so that `n` more records can be held with none. After want of memory the window is as it was.
    fn reserve(&mut self, n: u32) -> Result<(), NoMemory>
        ensures ok { OnOk result (n ≤ spare self.new) }
        ensures held { held self.new ≡ held self.old }
        ensures spare { spare self.old ≤ spare self.new }
        ensures keeps { OnErr result (spare self.new ≡ spare self.old) }
        ensures spared { n ≤ spare self.old → IsOk result };

    /// Holds an offset, in place of an older hold of it. After want of memory, which needs that none was set aside,
    /// the window is as it was.
    fn hold(&mut self, offset: u64, hold: Hold) -> Result<(), NoMemory>
        ensures ok { OnOk result (held self.new ≡ insert_entry nat_cmp (held self.old) offset hold) }
        ensures spends { OnOk result (spare self.old ≤ spare self.new + 1) }
        ensures err { OnErr result (held self.new ≡ held self.old) }
        ensures keeps { OnErr result (spare self.new ≡ spare self.old) }
        ensures spared { 1 ≤ spare self.old → IsOk result };

    /// Holds the offsets from `first` to `last` in one way, each in place of an older hold of it; there are none
    /// where `last` is below `first`. After want of memory, which needs that it wasn't set aside for so many, the
    /// window is as it was.
    fn hold_range(&mut self, first: u64, last: u64, hold: Hold) -> Result<(), NoMemory>
        ensures ok { OnOk result (held self.new ≡ holding first ((last + 1) - first) hold (held self.old)) }
        ensures spends { OnOk result (spare self.old ≤ spare self.new + ((last + 1) - first)) }
        ensures err { OnErr result (held self.new ≡ held self.old) }
        ensures keeps { OnErr result (spare self.new ≡ spare self.old) }
        ensures spared { (last + 1) - first ≤ spare self.old → IsOk result };

    /// Ends the holds of the offsets from `first` to `last`; there are none where `last` is below `first`. It takes
    /// no memory.
    fn end_hold(&mut self, first: u64, last: u64)
        ensures held { held self.new ≡ without_range first last (held self.old) }
        ensures spare { spare self.old ≤ spare self.new };

    /// Does what `end_hold` does, and counts its steps: for each run that the range meets there are at least one and
    /// at most four, and beside these at most sixteen.
    fn end_hold_counted<L: Ledger>(&mut self, first: u64, last: u64, steps: &mut Steps<L>)
        ensures held { held self.new ≡ without_range first last (held self.old) }
        ensures spare { spare self.old ≤ spare self.new }
        ensures at_most { (runs : List HoldRun) → IsRunList (held self.old) runs → steps.new ≤ steps.old + 4 * met_count first last runs + 16 }
        ensures at_least { (runs : List HoldRun) → IsRunList (held self.old) runs → steps.old + met_count first last runs ≤ steps.new };
}
