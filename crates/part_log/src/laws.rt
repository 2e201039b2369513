// What the definitions say of frames and of contents.
ghost use Rattle.std.specs.Prelude.{◌≡◌, ◌≤◌, ℕ, List, map};
ghost use Rattle.gate_journal.specs.Frames.{StandsFor};
ghost use Rattle.rec_batch.specs.declared.form.Form.TheVariants.{Stored};
ghost use Rattle.rec_batch.specs.Batches.{IsBatch};
ghost use Rattle.rec_batch.specs.Grammar.{Record};
ghost use Rattle.share_model.specs.Logs.{Batch, end_of};
ghost use Rattle.part_log.specs.Starts.{Log};
ghost use Rattle.part_log.specs.Batches.{IsStored, batch_in};
ghost use Rattle.part_log.specs.Logs.{IsLogText, IsNoLogText, IsStoredLog, batch_frames, last_mark};

/// A frame that is a batch in the stored form has one stored batch, with the offsets of its records.
pub fn a_frame_is_one_batch()
    ensures stored { (frame : List ℕ) (records : List Record) → IsBatch Stored frame records → IsStored (batch_in frame) }
    ensures only { (b : Batch) → IsStored b → b ≡ batch_in b.bytes }
{}

/// The batches of a log are its frames of more than eight bytes, each of which is as a log keeps it and begins behind
/// the one before; its start is its last mark, or 0, and lies at its end at most.
pub fn a_log_is_its_batches_and_its_last_mark()
    ensures batches { (c : List ℕ) (frames : List (List ℕ)) (log : Log) → StandsFor c frames → IsLogText c log →
        log.batches ≡ map batch_in (batch_frames frames) }
    ensures start { (c : List ℕ) (frames : List (List ℕ)) (log : Log) → StandsFor c frames → IsLogText c log →
        log.start ≡ last_mark 0 frames }
    ensures sound { (c : List ℕ) (log : Log) → IsLogText c log → IsStoredLog log.batches }
    ensures within { (c : List ℕ) (log : Log) → IsLogText c log → log.start ≤ end_of log.batches }
{}

/// A content stands for one log, or is damaged at one place, and not both. That there is no third case is said
/// without telling which of the two it is.
pub fn log_text_is_read_one_way()
    ensures either { (c : List ℕ) → ((log : Log) → IsLogText c log → ⊥) → ((place : ℕ) → IsNoLogText c place → ⊥) → ⊥ }
    ensures logs { (c : List ℕ) (log other : Log) → IsLogText c log → IsLogText c other → log ≡ other }
    ensures damaged { (c : List ℕ) (log : Log) (place : ℕ) → IsLogText c log → IsNoLogText c place → ⊥ }
    ensures place { (c : List ℕ) (p q : ℕ) → IsNoLogText c p → IsNoLogText c q → p ≡ q }
{}
