ghost use Rattle.std.specs.Prelude.{◌≡◌, ◌<◌, ℕ, List, [], ◌∷◌, length};
ghost use Rattle.share_model.specs.declared.fault.BatchFault.{BatchFault};
ghost use Rattle.rec_batch.specs.Batches.{IsBatch, IsFirstFault};
ghost use Rattle.rec_batch.specs.Grammar.{Record};
ghost use Rattle.rec_batch.specs.Places.{SplitsAt};
ghost use Rattle.rec_batch.specs.declared.form.Form.{Form};
ghost use Rattle.rec_batch.specs.declared.form.Form.TheVariants.{Stored};

/// Bytes have one first fault at most, and those of a batch have none.
pub fn bytes_have_one_first_fault()
    ensures one { (form : Form) (bytes : List ℕ) (fault other : BatchFault) →
        IsFirstFault form bytes fault → IsFirstFault form bytes other → fault ≡ other }
    ensures none { (form : Form) (bytes : List ℕ) (fault : BatchFault) (records : List Record) →
        IsFirstFault form bytes fault → IsBatch form bytes records → ⊥ }
{}

/// The first record of a stored batch begins at 61. A record begins before the end, and behind the last one is the end.
pub fn records_stand_one_behind_another()
    ensures first { (bytes : List ℕ) (records : List Record) → IsBatch Stored bytes records → SplitsAt bytes 61 [] records }
    ensures more { (bytes : List ℕ) (place : ℕ) (before behind : List Record) (r : Record) →
        SplitsAt bytes place before (r ∷ behind) → place < length bytes }
    ensures end { (bytes : List ℕ) (place : ℕ) (before : List Record) → SplitsAt bytes place before [] → place ≡ length bytes }
{}
