ghost use Rattle.std.specs.Prelude.{List, ℕ};
ghost use Rattle.share_part.specs.Leaving.{IsLeftOf};
ghost use Rattle.share_part.specs.Shards.{Carries, PartParts, PartShardState};

use edge_io::Disk;
use lock_index::Window;

/// A crash leaves three contents that stand for the shard, with or without its pending writes. So a partition that is
/// opened of them is never damaged, and has that log and those tables.
pub fn a_crash_leaves_the_shard<D: Disk, W: Window>()
    ensures { (parts : PartParts D W) (shard : PartShardState) (log first second : List ℕ) → Carries D.seen W.held parts shard →
        (D.seen parts.log.journal.disk).image log → (D.seen parts.states.journal.first.disk).image first → (D.seen parts.states.journal.second.disk).image second →
        IsLeftOf parts.conf shard log first second }
{}
