// Laws on what is stored.
ghost use Rattle.std.specs.Prelude.{◌≡◌, ℤ, List};
ghost use Rattle.share_model.specs.Keys.{KeyParts};
ghost use Rattle.share_model.specs.declared.run.Run.{Run};
ghost use Rattle.state_records.specs.declared.record.StateRecord.{StateRecord};
ghost use Rattle.share_coord.specs.Recorded.{IsWriteRecord};
ghost use Rattle.share_coord.specs.Stored.{Entries};

/// A write stores one record and no other where no checkpoint was made before it, and one behind one, so whether it has
/// room is told by that record alone.
pub fn a_write_stores_one_record()
    ensures { (old : Entries) (key : KeyParts) (state_epoch leader_epoch start : ℤ) (runs : List Run)
        (a b : StateRecord) →
        (p : IsWriteRecord old key state_epoch leader_epoch start runs a)
        (q : IsWriteRecord old key state_epoch leader_epoch start runs b) → p.checkpointed ≡ q.checkpointed → a ≡ b }
{}
