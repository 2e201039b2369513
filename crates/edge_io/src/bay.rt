ghost use Rattle.std.specs.Prelude.{◌≡◌, ◌≢◌, ◌⊎◌, ◌≤◌, ◌+◌, ◌-◌, ◌^◌, min};
ghost use Rattle.std.specs.Prelude.{List, ℕ, true, false, is_some, IfOk, IfSome, OnErr, IsErr};
ghost use Rattle.edge_io.specs.Causes.{HasCause};
ghost use Rattle.edge_io.specs.Bays.{SameSlot, IsAsTold, IsUntouched, Holds};
ghost use Rattle.edge_io.specs.Views.{BayView};

use crate::{Disk, DiskName, Failed};

/// Disks by their names. A disk is taken out, used, and put back.
///
/// What `take` gives is the disk that was put back last: its content, images, losses, arms, armed fault and count are
/// as they were then.
pub trait Bay {
    type D: Disk;

    /// All that is seen of the bay.
    ghost seen: { Self → BayView Self.D };

    /// Whether a call has failed for want of memory.
    fn starved(&self) -> bool
        ensures { result ≡ (seen self.now).starved };

    /// Whether there is a disk of that name. One that isn't there is empty, and `take` makes it. Where it can't be
    /// told, the answer is that there is one.
    fn has(&self, name: &DiskName) -> bool
        ensures { result ≡ false → IfSome ((seen self.now).disk name.now) (λ d. IsUntouched Self.D.seen d) };

    /// Takes a disk. At an `Err` it isn't out.
    fn take(&mut self, name: &DiskName) -> Result<Self::D, Failed>
        requires { (seen self.old).out name.now ≡ false }
        ensures given { IfOk result (λ d. IsAsTold ((seen self.old).disk name.now) d) }
        ensures is_out { IfOk result (λ d. ((seen self.new).out name.now ≡ true)
            × ((seen self.new).taken name.now ≡ (Self.D.seen d).faults)) }
        ensures err { OnErr result (((seen self.new).disk name.now ≡ (seen self.old).disk name.now)
            × ((seen self.new).out name.now ≡ false)) }
        ensures others { (m : List ℕ) → m ≢ name.now → SameSlot seen m self.old self.new }
        ensures starves { (seen self.new).starved ≡ true → ((seen self.old).starved ≡ true) ⊎ IsErr result }
        ensures stays { (seen self.old).starved ≡ true → (seen self.new).starved ≡ true }

        // A name that was told a disk is told one again, which is what it has once the disk is put back.
        ensures told { is_some ((seen self.new).disk name.now) ≡ is_some ((seen self.old).disk name.now) }
        ensures steady { (seen self.old).steady → (seen self.new).steady }
        ensures want { (seen self.old).steady → OnErr result ((seen self.new).starved ≡ true) }
        ensures cause { HasCause (seen self.old).faults (seen self.new).faults result };

    /// Puts a disk back. Its faults since it was taken are added to the bay's count, which stays at `u64::MAX` once
    /// it is there.
    fn put_back(&mut self, name: &DiskName, given: Self::D)
        requires { (seen self.old).out name.now ≡ true }
        ensures there { Holds ((seen self.old).disk name.now) ((seen self.new).disk name.now) given }
        ensures is_in { (seen self.new).out name.now ≡ false }
        ensures taken { (seen self.new).taken name.now ≡ (seen self.old).taken name.now }
        ensures others { (m : List ℕ) → m ≢ name.now → SameSlot seen m self.old self.new }
        ensures later { (seen self.old).faults ≤ (seen self.new).faults }
        ensures counts { (seen self.new).faults ≡
            min ((seen self.old).faults + ((Self.D.seen given).faults - (seen self.old).taken name.now)) (2 ^ 64 - 1) }
        ensures steady { (seen self.old).steady → (seen self.new).steady }
        ensures starved { (seen self.new).starved ≡ (seen self.old).starved };
}
