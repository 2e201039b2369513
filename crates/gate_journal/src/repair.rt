// Repairs the end of journal text.
ghost use Rattle.std.specs.Prelude.{◌≡◌, ◌<◌, ◌≤◌, List, ℕ, IsOk, OnOk, OnErr};
ghost use Rattle.edge_io.specs.Armed.{RunsOn, StarvesUnarmed};
ghost use Rattle.edge_io.specs.Causes.{HasCause};
ghost use Rattle.edge_io.specs.Counting.{DoesUpTo, FailsInCalls};
ghost use Rattle.edge_io.specs.Disk.{Synced, WhereTold};
ghost use Rattle.edge_io.specs.Moments.{LeavesOnly};
ghost use Rattle.gate_journal.specs.Frames.{IsRead, IsRest, StandsAs, repaired};

use crate::device::{cut_and_sync, write_and_sync};
use edge_io::{Disk, Failed};

// Writes the first gate, or cuts off what stands behind the last.
pub fn repair<D: Disk>(disk: &mut D, end: u64) -> Result<(), Failed>
    requires some { 0 < end }
    requires fits { (D.seen disk.old).size ≤ 1 → end ≡ 1 }
    requires within { 1 < (D.seen disk.old).size → end ≤ (D.seen disk.old).size }
    ensures ok { OnOk result ((frames : List (List ℕ)) → WhereTold (D.seen disk.old).content (IsRead frames (D.seen disk.old).size end) →
        Synced (D.seen disk.old).content (D.seen disk.old).image → (c : List ℕ) → (D.seen disk.new).image c → IsRest frames c) }
    ensures text { OnOk result (Synced (D.seen disk.old).content (D.seen disk.old).image →
        WhereTold (D.seen disk.old).content (λ x. (c : List ℕ) → (D.seen disk.new).image c → c ≡ repaired end x)) }
    ensures any_moment { (frames : List (List ℕ)) → WhereTold (D.seen disk.old).content (IsRead frames (D.seen disk.old).size end) →
        Synced (D.seen disk.old).content (D.seen disk.old).image → LeavesOnly D.seen disk.old disk.new (StandsAs (D.seen disk.old).image) }
    ensures size { OnOk result (end ≤ (D.seen disk.new).size) }
    ensures whole { 1 < (D.seen disk.old).size → (D.seen disk.old).size ≤ end → IsOk result × (disk.new ≡ disk.old) }
    ensures runs { RunsOn D.seen disk.old disk.new }
    ensures calls { OnOk result (DoesUpTo D.seen 2 disk.old disk.new) }
    ensures fails { OnErr result (FailsInCalls D.seen 2 disk.old disk.new) }
    ensures memory { OnErr result (StarvesUnarmed D.seen disk.old disk.new) }
    ensures cause { HasCause (D.seen disk.old).faults (D.seen disk.new).faults result }
{
    let len = disk.len();
    if len <= 1 {
        write_and_sync(disk, 0, &[0])?;
        return Ok(());
    }
    if end < len {
        cut_and_sync(disk, end)?;
        return Ok(());
    }
    Ok(())
}
