// What is pending as a list, and as one frame or none.
ghost use Rattle.std.specs.Prelude.{◌≡◌, ◌↔◌, ℕ, List, []};
ghost use Rattle.std.specs.declared.option.Option.{Option};
ghost use Rattle.gate_journal.specs.Groups.{StandsAll, pending_list};
ghost use Rattle.gate_journal.specs.Journals.{Stands};
ghost use Rattle.gate_journal.specs.declared.writer.Mending.TheVariants.{Behind, Nothing};
ghost use Rattle.gate_journal.specs.declared.writer.Writer.{Writer};

use edge_io::Disk;

/// A journal with one frame pending, or with none, is one with a list of these. None are pending where nothing is left
/// to mend, nor where only bytes behind the closed gate are.
pub fn a_pending_frame_is_a_group_of_one<D: Disk>()
    ensures one { (writer : Writer D) (frames : List (List ℕ)) (pending : Option (List ℕ)) →
        Stands D.seen writer frames pending ↔ StandsAll D.seen writer frames (pending_list pending) }
    ensures mended { (writer : Writer D) (frames pending : List (List ℕ)) → writer.mending ≡ Nothing → StandsAll D.seen writer frames pending →
        pending ≡ [] }
    ensures behind { (writer : Writer D) (frames pending : List (List ℕ)) → writer.mending ≡ Behind → StandsAll D.seen writer frames pending →
        StandsAll D.seen writer frames [] }
{}
