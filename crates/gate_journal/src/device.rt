// A change of a disk and the sync behind it.
ghost use Rattle.std.specs.Prelude.{◌≡◌, ◌+◌, ◌≤◌, ◌^◌, ℕ, List, length, take, OnOk, OnErr};
ghost use Rattle.edge_io.specs.Armed.{RunsOn, StarvesUnarmed};
ghost use Rattle.edge_io.specs.Causes.{HasCause};
ghost use Rattle.edge_io.specs.Counting.{DoesCalls, FailsInCalls};
ghost use Rattle.edge_io.specs.Disk.{written, UnfinishedWrite, UnfinishedCut, Follows, Stepped, Reaches};
ghost use Rattle.edge_io.specs.Moments.{LeavesOnly};

use edge_io::{Disk, Failed};

// Writes, and syncs.
pub fn write_and_sync<D: Disk>(disk: &mut D, place: u64, bytes: &[u8]) -> Result<(), Failed>
    requires begins { place ≤ (D.seen disk.old).size }
    requires ends { place + length bytes.now ≤ 2 ^ 62 }
    ensures ok { OnOk result (Reaches (written place bytes.now) (D.seen disk.old).content (D.seen disk.new).image) }
    ensures images { Follows (UnfinishedWrite place (length bytes.now)) (D.seen disk.old).image (D.seen disk.new).image }
    ensures any_moment { LeavesOnly D.seen disk.old disk.new (Stepped (D.seen disk.old).image (UnfinishedWrite place (length bytes.now))) }
    ensures size { (D.seen disk.old).size ≤ (D.seen disk.new).size }
    ensures reach { OnOk result (place + length bytes.now ≤ (D.seen disk.new).size) }
    ensures runs { RunsOn D.seen disk.old disk.new }
    ensures calls { OnOk result (DoesCalls D.seen 2 disk.old disk.new) }
    ensures fails { OnErr result (FailsInCalls D.seen 2 disk.old disk.new) }
    ensures memory { OnErr result (StarvesUnarmed D.seen disk.old disk.new) }
    ensures cause { HasCause (D.seen disk.old).faults (D.seen disk.new).faults result }
{
    disk.write_at(place, bytes)?;
    disk.sync() // now the write lasts
}

// Cuts, and syncs.
pub fn cut_and_sync<D: Disk>(disk: &mut D, to: u64) -> Result<(), Failed>
    requires { to ≤ (D.seen disk.old).size }
    ensures ok { OnOk result (Reaches (take to) (D.seen disk.old).content (D.seen disk.new).image) }
    ensures images { Follows (UnfinishedCut to) (D.seen disk.old).image (D.seen disk.new).image }
    ensures any_moment { LeavesOnly D.seen disk.old disk.new (Stepped (D.seen disk.old).image (UnfinishedCut to)) }
    ensures size { to ≤ (D.seen disk.new).size }
    ensures runs { RunsOn D.seen disk.old disk.new }
    ensures calls { OnOk result (DoesCalls D.seen 2 disk.old disk.new) }
    ensures fails { OnErr result (FailsInCalls D.seen 2 disk.old disk.new) }
    ensures memory { OnErr result (StarvesUnarmed D.seen disk.old disk.new) }
    ensures cause { HasCause (D.seen disk.old).faults (D.seen disk.new).faults result }
{
    disk.cut(to)?;
    disk.sync()
}
