ghost use Rattle.std.specs.Prelude.{◌≡◌, ◌<◌, ℕ, List, Ok, Err};
ghost use Rattle.std.specs.List.{AllByRecursion};
ghost use Rattle.state_records.specs.Faults.{IsWrongAt};
ghost use Rattle.state_records.specs.Reading.{record_at};
ghost use Rattle.state_records.specs.Spelling.{IsRecord, record_bytes};
ghost use Rattle.state_records.specs.declared.record.StateRecord.{StateRecord};

/// One record has one spelling: its bytes are read as that record, and no other record has them.
pub fn records_have_one_spelling()
    ensures read { (r : StateRecord) → IsRecord r → record_at (record_bytes r) ≡ Ok r }
    ensures one { (r s : StateRecord) → IsRecord r → IsRecord s → record_bytes r ≡ record_bytes s → r ≡ s }
{}

/// The place of a fault is that of the first field which no record has there: the bytes before it begin some record,
/// and none has the field that stands at it.
pub fn faults_are_at_the_first_wrong_field()
    ensures { (bytes : List ℕ) (place : ℕ) → AllByRecursion (λ b. b < 256) bytes → record_at bytes ≡ Err place → IsWrongAt bytes place }
{}
