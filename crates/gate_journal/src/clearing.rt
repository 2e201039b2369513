// Takes the frames of a journal away.
ghost use Rattle.std.specs.Prelude.{◌≡◌, ◌⊎◌, ◌↔◌, ◌≤◌, [], List, ℕ, true, IsOk, OnOk, OnErr};
ghost use Rattle.edge_io.specs.Armed.{RunsOn, StarvesUnarmed};
ghost use Rattle.edge_io.specs.Causes.{HasCause};
ghost use Rattle.edge_io.specs.Counting.{DoesCalls};
ghost use Rattle.edge_io.specs.Moments.{LeavesOnly};
ghost use Rattle.gate_journal.specs.Clearing.{IsAsBefore, IsBare, IsLone, IsPartlyCleared, IsTouched, MayClear};
ghost use Rattle.gate_journal.specs.Frames.{IsRest, IsShut, StandsFor};
ghost use Rattle.gate_journal.specs.Journals.{HasRoom, IsShaped};

use crate::device::write_and_sync;
use crate::writer::{Mending, Writer};
use edge_io::{Disk, Failed};

impl<D: Disk> Writer<D> {
    // Whether there are no frames, and bytes may stand behind the first gate, which is closed.
    fn is_bare(&self) -> bool
        ensures { (result ≡ true) ↔ IsBare self.now }
    {
        self.end == 1 && matches!(self.mending, Mending::Behind)
    }

    // Whether there are no frames, and no byte can stand behind the first gate.
    fn is_lone(&self) -> bool
        ensures { (result ≡ true) ↔ IsLone self.now }
    {
        self.end == 1 && matches!(self.mending, Mending::Nothing)
    }

    // Closes the first gate, unless it is closed and bytes may follow it.
    pub fn close_first(&mut self) -> Result<(), Failed>
        requires room { HasRoom D.seen self.old }
        ensures ok { OnOk result (MayClear D.seen self.old → IsShaped D.seen self.new [] (IsShut [])) }
        ensures bare { OnOk result (IsBare self.new ⊎ (IsLone self.old × IsAsBefore self.old self.new)) }
        ensures lone { IsLone self.old → IsLone self.new }
        ensures again { IsBare self.old → IsOk result × (self.new ≡ self.old) }
        ensures calls { OnOk result ((IsBare self.old → ⊥) → DoesCalls D.seen 2 self.old.disk self.new.disk) }
        ensures kept { OnErr result (IsAsBefore self.old self.new) }
        ensures images { (c : List ℕ) → (D.seen self.new.disk).image c → IsTouched self.old (D.seen self.old.disk).image c }
        ensures any_moment { LeavesOnly D.seen self.old.disk self.new.disk (IsTouched self.old (D.seen self.old.disk).image) }
        ensures room_kept { HasRoom D.seen self.new }
        ensures runs { RunsOn D.seen self.old.disk self.new.disk }
        ensures memory { OnErr result (StarvesUnarmed D.seen self.old.disk self.new.disk) }
        ensures cause { HasCause (D.seen self.old.disk).faults (D.seen self.new.disk).faults result }
    {
        if self.is_bare() {
            return Ok(());
        }
        write_and_sync(&mut self.disk, 0, &[0])?;
        if self.is_lone() {
            return Ok(()); // still no byte follows it
        }
        self.end = 1;
        self.count = 0;
        self.mending = Mending::Behind;
        Ok(())
    }

    // And cuts off what follows it.
    pub fn clear(&mut self) -> Result<(), Failed>
        requires room { HasRoom D.seen self.old }
        ensures ok { OnOk result (MayClear D.seen self.old → IsShaped D.seen self.new [] (IsRest [])) }
        ensures mended { OnOk result (self.new.mending ≡ Mending.Nothing) }
        ensures lone { IsLone self.old → IsLone self.new }
        ensures calls { OnOk result ((IsBare self.old → DoesCalls D.seen 2 self.old.disk self.new.disk)
            × ((IsBare self.old → ⊥) → DoesCalls D.seen 4 self.old.disk self.new.disk)) }
        ensures failed { OnErr result (MayClear D.seen self.old → IsPartlyCleared D.seen self.old self.new) }
        ensures any_moment { MayClear D.seen self.old →
            LeavesOnly D.seen self.old.disk self.new.disk (λ c. IsTouched self.old (D.seen self.old.disk).image c ⊎ StandsFor c []) }
        ensures room_kept { HasRoom D.seen self.new }
        ensures runs { RunsOn D.seen self.old.disk self.new.disk }
        ensures memory { OnErr result (StarvesUnarmed D.seen self.old.disk self.new.disk) }
        ensures cause { HasCause (D.seen self.old.disk).faults (D.seen self.new.disk).faults result }
    {
        self.close_first()?;
        self.cut_behind()
    }
}
