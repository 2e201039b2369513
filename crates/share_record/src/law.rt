// What a recorder keeps over a whole history.
ghost use Rattle.std.specs.Prelude.{ℕ, List};
ghost use Rattle.shard_lock.specs.History.{Leads};
ghost use Rattle.shard_lock.specs.declared.shard.Entry.{Entry};
ghost use Rattle.share_record.specs.Tapes.{ActsRecorded, Recorded, RecordsHistory, begins};
ghost use Rattle.share_record.specs.declared.tag.Tagged.{Tagged};

use shard_lock::Shard;

/// Each history of a new recorder is, without its tags, one of the shard in it. A tape that is whole behind it is the
/// list of its tags, in order, offers left out.
pub fn a_whole_tape_has_each_tag<S: Shard>()
    ensures { (shard : S) (most : ℕ) (history : List (Entry (Tagged S.Event) S.Answer)) (new : Recorded S) → Leads (ActsRecorded S.acts) (begins shard most) history new → RecordsHistory S.acts shard history new }
{}
