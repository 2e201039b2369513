ghost use Rattle.std.specs.Prelude.{◌≡◌, ◌≤◌, ◌+◌, ◌*◌, ◌^◌, List, pos, [], length, OnOk, OnErr, IsOk, IfSome};

use crate::change::{cut_front, put_over};
use crate::complete::{complete_between, complete_laid};
use crate::overlay::overlay;
use crate::search::find_row;
use share_model::{NoMemory, Row, Run, RunList};
use std::alloc::Global;
use std::marker::Model;

// How many runs there can be once so many lie over so many. `None` where that is no `usize`.
fn room_to_lay(under: usize, over: usize) -> Option<usize>
    ensures { IfSome result (λ room. room ≡ under + 2 * over) }
{
    let Some(twice) = over.checked_mul(2) else {
        return None;
    };
    twice.checked_add(under)
}

/// Rows by offset, kept as the canonical list of their runs.
///
/// A contract sees that list, and beside it the spare number: how many more runs there can be with no memory. `row_at`
/// of the list is the row at an offset. Offsets are those of a `u64`.
#[derive(Drop)]
pub struct Runs {
    list: Vec<Run>,
}

impl Model for Runs {
    ghost use Rattle.std.specs.Prelude.{◌-◌, vec_len, vec_capacity};
    ghost use Rattle.share_model.specs.Runs.{IsCanonical};
    ghost use Rattle.offset_runs.specs.Changes.{RunsParts};

    ghost Value = { RunsParts };

    ghost view = { λ r. record { list = r.list.items; spare = vec_capacity r.list - vec_len r.list } };

    ghost invariant = { λ r. IsCanonical r.list.items };
}

impl Runs {
    ghost use Rattle.share_model.specs.Runs.{IsCanonical, row_at};
    ghost use Rattle.share_model.specs.ShareStates.{AreLaid};
    ghost use Rattle.share_model.specs.declared.run.Run.{Run};
    ghost use Rattle.offset_runs.specs.Changes.{PutsRange, CutsBelow, Overlays, room_of};
    ghost use Rattle.offset_runs.specs.Complete.{complete_rows};
    ghost use Rattle.offset_runs.specs.Parts.{EndsBelow};

    /// No rows. It takes no memory.
    pub fn new(alloc: Global) -> Runs
        ensures { result.list ≡ [] }
    {
        Runs {
            list: Vec::new(alloc),
        }
    }

    /// Sets memory aside, so that the spare number is at least `runs`. After want of memory all is as it was.
    pub fn reserve(&mut self, runs: u32) -> Result<(), NoMemory>
        ensures ok { OnOk result (runs ≤ self.new.spare) }
        ensures list { self.new.list ≡ self.old.list }
        ensures kept { self.old.spare ≤ self.new.spare }
        ensures err { OnErr result (self.new ≡ self.old) }
        ensures spared { runs ≤ self.old.spare → IsOk result }
    {
        self.list.reserve(runs as usize)?;
        Ok(())
    }

    /// How many runs there is memory for.
    pub fn room(&self) -> u64
        ensures { result ≡ room_of self.now }
    {
        self.list.capacity() as u64
    }

    /// The row at an offset, found in the logarithm of the number of runs.
    pub fn look(&self, offset: u64) -> Option<Row>
        ensures { result ≡ row_at self.now.list offset }
    {
        find_row(&self.list, offset)
    }

    /// Gives each offset from `first` to `last` this row; there are none where `last` is below
    /// `first`. It finds the place in the logarithm of the number of runs, and moves each run at most
    /// twice. After want of memory, which needs that none was set aside, the rows are as before.
    pub fn put_range(&mut self, first: u64, last: u64, row: Row) -> Result<(), NoMemory>
        ensures ok { OnOk result (PutsRange self.old.list self.new.list first last row) }
        ensures err { OnErr result (self.new ≡ self.old) }
        ensures spared { 2 ≤ self.old.spare → IsOk result }
    {
        if last < first {
            return Ok(());
        }
        self.reserve(2)?;
        self.put_reserved(first, last, row);
        Ok(())
    }

    /// Does what [`Runs::put_range`] does, where two runs more can be had with no memory. It takes none.
    pub fn put_reserved(&mut self, first: u64, last: u64, row: Row)
        requires { 2 ≤ self.old.spare }
        ensures put { PutsRange self.old.list self.new.list first last row }
        ensures few { length self.new.list ≤ length self.old.list + 2 }
        ensures spare { self.old.spare ≤ self.new.spare + 2 }
        ensures room { room_of self.old ≤ room_of self.new }
    {
        if last < first {
            return;
        }
        let middle = Run {
            first,
            last,
            state: row.state,
            count: row.count,
        };
        put_over(&mut self.list, middle);
    }

    /// Takes away the rows below an offset. It finds the place in the logarithm of the number of runs, and
    /// moves each run at most once, and none where no run ends below the offset. It takes no memory.
    pub fn cut_below(&mut self, offset: u64)
        ensures cut { CutsBelow self.old.list self.new.list offset }
        ensures few { length self.new.list ≤ length self.old.list }
        ensures spare { self.old.spare ≤ self.new.spare }
        ensures room { room_of self.old ≤ room_of self.new }
    {
        cut_front(&mut self.list, offset);
    }

    /// Takes all rows away, and keeps the memory of their runs.
    pub fn clear(&mut self)
        ensures list { self.new.list ≡ [] }
        ensures room { room_of self.old ≤ self.new.spare }
    {
        self.list.clear();
    }

    /// Lays the rows of others over these, in one pass over both: where the others have a row, that is
    /// the row. After want of memory the rows are as before.
    pub fn merge_from(&mut self, other: &Runs) -> Result<(), NoMemory>
        ensures ok { OnOk result (Overlays self.old.list self.new.list other.now.list) }
        ensures err { OnErr result (self.new ≡ self.old) }
    {
        let Some(room) = room_to_lay(self.list.len(), other.list.len()) else {
            return Err(NoMemory);
        };
        let mut laid = Vec::with_capacity(*self.list.allocator(), room)?;
        overlay(&mut laid, &self.list, &other.list);
        self.list = laid;
        Ok(())
    }

    /// Puts rows that are laid over others in the place of these, in one pass over both. There is room for the runs
    /// that lie under, and for two for each that lies over. It takes no memory.
    pub fn lay_reserved(&mut self, under: &Runs, over: &Runs)
        requires { length under.now.list + 2 * length over.now.list ≤ room_of self.old }
        ensures laid { Overlays under.now.list self.new.list over.now.list }
        ensures few { length self.new.list ≤ length under.now.list + 2 * length over.now.list }
        ensures room { room_of self.old ≤ room_of self.new }
    {
        self.list.clear();
        overlay(&mut self.list, &under.list, &over.list);
    }

    /// How many rows are complete: acknowledged or archived. It goes over all runs. Offsets are below 2^63.
    pub fn complete(&self) -> u64
        requires { EndsBelow self.now.list (2 ^ 63) }
        ensures { result ≡ complete_rows self.now.list }
    {
        complete_between(&self.list, 0, 1 << 63)
    }

    /// How many rows are complete once others are laid over these, and those below an offset go; so many of these are.
    /// It goes over the runs of the others and over those of these that are covered or go, and finds each place in the
    /// logarithm of the number of these. Offsets are below 2^63.
    pub fn complete_laid(&self, complete: u64, over: &Runs, start: u64) -> u64
        requires now { complete ≡ complete_rows self.now.list }
        requires low { EndsBelow self.now.list (2 ^ 63) }
        requires low_over { EndsBelow over.now.list (2 ^ 63) }
        ensures { (laid : List Run) → AreLaid (pos start) self.now.list over.now.list laid → result ≡ complete_rows laid }
    {
        complete_laid(&self.list, complete, &over.list, start)
    }

    /// The rows of canonical runs. It takes no memory.
    pub fn from_list(runs: RunList) -> Runs
        requires { IsCanonical runs }
        ensures { result.list ≡ runs }
    {
        Runs {
            list: runs.into_vec(),
        }
    }

    /// The canonical runs, handed out with no memory.
    pub fn into_vec(self) -> Vec<Run>
        ensures same { result.items ≡ self.list }
        ensures canonical { IsCanonical self.list }
    {
        let Runs { list } = self;
        list
    }

    /// The canonical runs, in order.
    pub fn list(&self) -> &[Run]
        ensures same { result.now ≡ self.now.list }
        ensures canonical { IsCanonical self.now.list }
    {
        &self.list
    }
}
