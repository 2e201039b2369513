// The disk that isn't live.
ghost use Rattle.std.specs.Prelude.{◌≡◌, List, ℕ, Bool, None, OnOk, OnErr};
ghost use Rattle.std.specs.declared.option.Option.{Option};
ghost use Rattle.edge_io.specs.Armed.{RunsOn, StarvesUnarmed};
ghost use Rattle.edge_io.specs.Causes.{HasCause};
ghost use Rattle.edge_io.specs.Moments.{LeavesOnly};
ghost use Rattle.gate_journal.specs.Spares.{HasFrames};
ghost use Rattle.checkpoint_journal.specs.Spares.{IsBeside, IsIdle};

use edge_io::{Disk, Failed};
use gate_journal::Journal;

/// Closes the first gate of the disk that isn't live, so that no seal on it can land. Behind a checkpoint whose seal
/// failed nothing is to be written to the live journal before this has answered Ok.
pub fn close_idle<D: Disk>(idle: &mut Journal<D>) -> Result<(), Failed>
    ensures closed { OnOk result ((on_second : Bool) (live : ℕ) (sealing : Option (List (List ℕ))) →
        IsBeside D.seen idle.old on_second live sealing → IsBeside D.seen idle.new on_second live None) }
    ensures kept { OnErr result ((on_second : Bool) (live : ℕ) (sealing : Option (List (List ℕ))) →
        IsBeside D.seen idle.old on_second live sealing → IsBeside D.seen idle.new on_second live sealing) }
    ensures any_moment { (on_second : Bool) (live : ℕ) (sealing : Option (List (List ℕ))) → IsBeside D.seen idle.old on_second live sealing →
        LeavesOnly D.seen idle.old.disk idle.new.disk (HasFrames (IsIdle on_second live sealing)) }
    ensures runs { RunsOn D.seen idle.old.disk idle.new.disk }
    ensures memory { OnErr result (StarvesUnarmed D.seen idle.old.disk idle.new.disk) }
    ensures cause { HasCause (D.seen idle.old.disk).faults (D.seen idle.new.disk).faults result }
{
    idle.close_first()
}
