// Whether tapes are of shards of their own.
ghost use Rattle.std.specs.Prelude.{◌≢◌, ◌↔◌, All, IsTrue};
ghost use Rattle.tape_merge.specs.Matching.{AreApart};

use crate::tapes::is_same;
use share_record::ShardTape;

// Whether none of the others is of the shard of this one.
fn is_apart(tape: &ShardTape, others: &[ShardTape]) -> bool
    ensures { IsTrue result ↔ All (λ other. tape.now.shard ≢ other.shard) others.now }
{
    others.iter().all(|other| !is_same(tape.shard, other.shard))
}

/// Whether no two tapes are of one shard.
pub fn are_apart(tapes: &[ShardTape]) -> bool
    ensures { IsTrue result ↔ AreApart tapes.now }
{
    let mut rest = tapes;
    while let Some((tape, others)) = rest.split_first() {
        if !is_apart(tape, others) {
            return false;
        }
        rest = others;
    }
    true
}
