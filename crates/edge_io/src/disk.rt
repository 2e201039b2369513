ghost use Rattle.std.specs.Prelude.{◌≡◌, ◌+◌, ◌≤◌, ◌^◌, ℕ, List, false, length, take, drop, Some, is_some, OnOk, OnErr};
ghost use Rattle.edge_io.specs.declared.fault.Armed.TheVariants.{After};
ghost use Rattle.edge_io.specs.Armed.{RunsAsArmed, tears};
ghost use Rattle.edge_io.specs.Causes.{FailsBy, HasCause, raised};
ghost use Rattle.edge_io.specs.Disk.{written, IsTold, WhereTold, Changes, UnfinishedWrite, UnfinishedCut, StepsBy, Within};
ghost use Rattle.edge_io.specs.Disk.{SameImages, Synced, SameContent, IsUneventful, GrowsTo, ShrinksTo, LosesPower, KeepsPower};
ghost use Rattle.edge_io.specs.Moments.{Elapses};
ghost use Rattle.edge_io.specs.Views.{DiskView};

use crate::{Failed, FaultMode};

/// A device that holds one growing content, as a file does, and that may crash at any moment.
///
/// Its *images* are the contents that a crash now may leave. Between two successful syncs each written range may hold
/// any bytes after a crash, and a cut may be undone down to some length between; bytes outside stay. After a successful
/// sync a crash leaves what a read gives. A call that fails leaves what the same call unfinished may leave.
pub trait Disk {
    /// All that is seen of the disk. A file tells no content and has no images.
    ghost seen: { Self → DiskView };

    /// The length of the content in bytes.
    fn len(&self) -> u64
        ensures { result ≡ (seen self.now).size };

    /// Whether a call has failed for want of memory.
    fn starved(&self) -> bool
        ensures { result ≡ (seen self.now).starved };

    /// The count of faults.
    fn faults(&self) -> u64
        ensures { result ≡ (seen self.now).faults };

    /// Reads the bytes at `place`. After an `Err` the bytes of `into` are any.
    fn read_at(&mut self, place: u64, into: &mut [u8]) -> Result<(), Failed>
        requires { place + length into.old ≤ (seen self.old).size }
        ensures bytes { OnOk result (WhereTold (seen self.old).content (λ c. into.new ≡ take (length into.old) (drop place c))) }
        ensures stays { SameContent (seen self.old) (seen self.new) }
        ensures images { SameImages (seen self.old).image (seen self.new).image }
        ensures time { Elapses (seen self.old) (seen self.new) }
        ensures events { IsUneventful (seen self.old) (seen self.new) }
        ensures fails { IsTold (seen self.old).content → RunsAsArmed false (seen self.old) (seen self.new) result }
        ensures cause { HasCause (seen self.old).faults (seen self.new).faults result };

    /// Writes bytes at `place`, over what stands there and past the end. It is safe from a crash after the next sync.
    /// After an `Err` the bytes of its range are any, and the content may have grown up to the end of the write.
    fn write_at(&mut self, place: u64, bytes: &[u8]) -> Result<(), Failed>
        requires begins { place ≤ (seen self.old).size }
        requires ends { place + length bytes.now ≤ 2 ^ 62 }
        ensures content { Changes (written place bytes.now) (UnfinishedWrite place (length bytes.now))
            (seen self.old).content (seen self.new).content result }
        ensures size { GrowsTo (place + length bytes.now) (seen self.old).size (seen self.new).size result }
        ensures images { StepsBy (UnfinishedWrite place (length bytes.now)) (seen self.old).image (seen self.new).image result }
        ensures time { Elapses (seen self.old) (seen self.new) }
        ensures events { IsUneventful (seen self.old) (seen self.new) }
        ensures fails { IsTold (seen self.old).content → RunsAsArmed (tears (seen self.old).armed) (seen self.old) (seen self.new) result }
        ensures cause { HasCause (seen self.old).faults (seen self.new).faults result };

    /// Cuts the content to a length. It is safe from a crash after the next sync. After an `Err` the content has some
    /// length from the one that was asked for to the old one.
    fn cut(&mut self, to: u64) -> Result<(), Failed>
        requires { to ≤ (seen self.old).size }
        ensures content { Changes (take to) (UnfinishedCut to) (seen self.old).content (seen self.new).content result }
        ensures size { ShrinksTo to (seen self.old).size (seen self.new).size result }
        ensures images { StepsBy (UnfinishedCut to) (seen self.old).image (seen self.new).image result }
        ensures time { Elapses (seen self.old) (seen self.new) }
        ensures events { IsUneventful (seen self.old) (seen self.new) }
        ensures fails { IsTold (seen self.old).content → RunsAsArmed false (seen self.old) (seen self.new) result }
        ensures cause { HasCause (seen self.old).faults (seen self.new).faults result };

    /// Makes what a read gives the only image. After an `Err` each image is one from before the call.
    fn sync(&mut self) -> Result<(), Failed>
        ensures synced { OnOk result (Synced (seen self.old).content (seen self.new).image) }
        ensures stays { SameContent (seen self.old) (seen self.new) }
        ensures images { Within (seen self.old).image (seen self.new).image }
        ensures time { Elapses (seen self.old) (seen self.new) }
        ensures events { IsUneventful (seen self.old) (seen self.new) }
        ensures fails { IsTold (seen self.old).content → RunsAsArmed false (seen self.old) (seen self.new) result }
        ensures cause { HasCause (seen self.old).faults (seen self.new).faults result };

    /// Loses power: the content becomes one of the images, by a choice, and no fault is armed any more. It fails only
    /// for want of memory, and then nothing but the count and `starved` has changed. A file ignores it.
    fn power_loss(&mut self, choice: u64) -> Result<(), Failed>
        ensures loses { OnOk result (LosesPower choice (seen self.old) (seen self.new)) }
        ensures keeps { OnErr result (KeepsPower (seen self.old) (seen self.new)) }
        ensures told { is_some (seen self.new).content ≡ is_some (seen self.old).content }
        ensures images { Within (seen self.old).image (seen self.new).image }
        ensures time { Elapses (seen self.old) (seen self.new) }
        ensures arms { (seen self.new).arms ≡ (seen self.old).arms }
        ensures fails { IsTold (seen self.old).content → FailsBy ⊥ (seen self.old).starved (seen self.new).starved result }
        ensures quiet { IsTold (seen self.old).content → OnOk result ((seen self.new).faults ≡ (seen self.old).faults) }
        ensures cause { HasCause (seen self.old).faults (seen self.new).faults result };

    /// Arms a fault: the next `after` calls pass, and the one after them is broken. It takes the place of an earlier
    /// one. A file ignores it.
    fn arm(&mut self, after: u64, mode: FaultMode)
        ensures armed { IsTold (seen self.old).content → (seen self.new).armed ≡ After after mode }
        ensures arms { IsTold (seen self.old).content → (seen self.new).arms ≡ raised (seen self.old).arms }
        ensures losses { (seen self.new).losses ≡ (seen self.old).losses }
        ensures stays { SameContent (seen self.old) (seen self.new) }
        ensures images { SameImages (seen self.old).image (seen self.new).image }
        ensures time { Elapses (seen self.old) (seen self.new) }
        ensures starved { (seen self.new).starved ≡ (seen self.old).starved }
        ensures faults { (seen self.new).faults ≡ (seen self.old).faults };

    /// What a read gives is one of the images, and of the size.
    ghost read_is_image: { (disk : Self) (c : List ℕ) → (seen disk).content ≡ Some c → (seen disk).image c × ((seen disk).size ≡ length c) };

    /// This moment is one of those since an earlier one.
    ghost counts_now: { (disk : Self) (t : ℕ) (c : List ℕ) → t ≤ (seen disk).moment → (seen disk).image c → (seen disk).since t c };

    /// Since this moment there is no other.
    ghost only_now: { (disk : Self) (c : List ℕ) → (seen disk).since (seen disk).moment c → (seen disk).image c };
}
