// Laws on the two disks of a store.
ghost use Rattle.std.specs.Prelude.{◌≡◌, ◌⊎◌, ◌+◌, ◌<◌, ◌^◌, ◌++◌, [], ◌∷◌, ℕ, Bool, false, List};
ghost use Rattle.gate_journal.specs.Frames.{StandsFor};
ghost use Rattle.checkpoint_journal.specs.Checkpoints.{AreSnapshots};
ghost use Rattle.checkpoint_journal.specs.Generations.{IsBeaten, IsListed, IsPlain, IsUnlisted, IsWhole, KeepBoth, checkpoint_of, head_frame, is_sealed, mark_of, marks_of};

use gate_journal::journal_text_is_read_one_way;

/// Two contents keep one list of frames, or are no store by one place of one disk, and not both.
pub fn stores_are_read_one_way()
    ensures either { (a b : List ℕ) → ((frames : List (List ℕ)) × IsListed a b frames) ⊎ ((second : Bool) × (place : ℕ) × IsUnlisted a b second place) }
    ensures frames { (a b : List ℕ) (fs gs : List (List ℕ)) → IsListed a b fs → IsListed a b gs → fs ≡ gs }
    ensures damaged { (a b : List ℕ) (fs : List (List ℕ)) (second : Bool) (place : ℕ) → IsListed a b fs → IsUnlisted a b second place → ⊥ }
    ensures place { (a b : List ℕ) (s t : Bool) (p q : ℕ) → IsUnlisted a b s p → IsUnlisted a b t q → (s ≡ t) × (p ≡ q) }
{
    journal_text_is_read_one_way();
}

/// A checkpoint is sealed by its last frame, and is of its generation from then on, whatever frames but a head follow.
pub fn a_seal_comes_last()
    ensures begun { (n : ℕ) (snapshots : List (List ℕ)) → n < 2 ^ 64 → AreSnapshots snapshots →
        is_sealed (marks_of (head_frame n ∷ snapshots)) ≡ false }
    ensures made { (n : ℕ) (snapshots : List (List ℕ)) → n < 2 ^ 64 → AreSnapshots snapshots → IsWhole n (checkpoint_of n snapshots) }
    ensures more { (n : ℕ) (frames : List (List ℕ)) (frame : List ℕ) → IsWhole n frames → IsPlain (mark_of frame) →
        IsWhole n (frames ++ frame ∷ []) }
{}

/// The frames of a live journal are kept as long as the other disk has frames that are not sealed, or lose; once that has
/// sealed frames of the next generation, it keeps those.
pub fn the_next_generation_is_live()
    ensures stays { (on_second : Bool) (n : ℕ) (a b : List ℕ) (live idle : List (List ℕ)) → StandsFor a live → StandsFor b idle →
        IsWhole n live → IsBeaten on_second n idle → KeepBoth on_second a b live }
    ensures passes { (on_second : Bool) (n : ℕ) (a b : List ℕ) (live idle : List (List ℕ)) → StandsFor a live → StandsFor b idle →
        IsWhole n live → IsWhole (n + 1) idle → KeepBoth on_second a b idle }
{}
