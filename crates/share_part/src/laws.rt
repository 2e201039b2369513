ghost use Rattle.std.specs.Prelude.{◌≡◌, ◌⊎◌, ◌≤◌, ◌<◌, ℕ, List, Some, Bool, true, length, map, option_to_list};
ghost use Rattle.std.specs.BTreeMap.{insert_entry};
ghost use Rattle.std.specs.List.{Contains};
ghost use Rattle.std.specs.Option.{option_or};
ghost use Rattle.share_model.specs.ForeignRules.{share_state_at, size_of};
ghost use Rattle.share_model.specs.Keys.{key_cmp};
ghost use Rattle.share_model.specs.Held.{Held, hold_at};
ghost use Rattle.share_model.specs.Logs.{Batch, IsLog, IsSlot};
ghost use Rattle.share_model.specs.Runs.{IsCanonical, row_at};
ghost use Rattle.share_model.specs.ShareStates.{ShareState};
ghost use Rattle.share_model.specs.declared.ack.AckKind.{AckKind};
ghost use Rattle.share_model.specs.declared.run.Run.{Run};
ghost use Rattle.share_model.specs.declared.hold.Hold.{Hold};
ghost use Rattle.share_model.specs.declared.row.Row.{Row};
ghost use Rattle.share_model.specs.declared.row.RowState.TheVariants.{Available, Archived};
ghost use Rattle.part_log.specs.Starts.{Log};
ghost use Rattle.share_coord.specs.Stored.{Entries};
ghost use Rattle.share_part.specs.Hosting.{AreHeldWell, IsHosted, PartConfParts, key_of};
ghost use Rattle.share_coord.specs.States.{states_of};
ghost use Rattle.share_part.specs.Offering.{least_available};
ghost use Rattle.share_part.specs.Settling.{Acts, AreRisingFrom, Books, Change, IsChange, IsSettled, acted, acts_on, held_after, releasing, said_by};
ghost use Rattle.share_part.specs.Slots.{slots_from};
ghost use Rattle.share_part.specs.Storing.{IsStored};
ghost use Rattle.share_part.specs.Tables.{Table, table_of};
ghost use Rattle.share_part.specs.Walks.{acquired};

/// A state that a hosted partition may have stays one once acts on its table are stored, where what is held lies
/// among the first 2000 slots and is delivered for the tenth time at most.
pub fn settled_tables_stay_hosted()
    ensures { (conf : PartConfParts) (log : Log) (group : List ℕ) (state next : ShareState) (held : Held) (acts : Acts) →
        IsLog log.batches → conf.limit ≤ 10 → IsHosted conf log (key_of conf group) state →
        AreHeldWell log.batches (size_of state.start) held →
        IsSettled conf.limit acts log.batches (table_of state held) next → IsHosted conf log (key_of conf group) next }
{}

/// Canonical runs whose rows stand at the first 2000 slots from a start are at most 2000.
pub fn rows_of_slots_have_few_runs()
    ensures { (log : List Batch) (start : ℕ) (runs : List Run) → IsLog log → IsCanonical runs →
        ((offset : ℕ) (row : Row) → row_at runs offset ≡ Some row → Contains (slots_from 2000 log start) offset) → length runs ≤ 2000 }
{}

/// Acts one after another, on rising offsets, store and end what they do all at once.
pub fn acts_in_order_are_acts_at_once()
    ensures stored { (limit low : ℕ) (list : List (ℕ × AckKind)) (books : Books) → AreRisingFrom low list → (offset : ℕ) →
        (acts_on limit list books).stored offset ≡ option_or (acted limit (said_by list) books.held offset) (books.stored offset) }
    ensures held { (limit : ℕ) (list : List (ℕ × AckKind)) (books : Books) → (acts_on limit list books).held ≡ held_after (said_by list) books.held }
{}

/// A write of what acts change leaves the state of their table after them.
pub fn stored_changes_settle_a_table()
    ensures { (conf : PartConfParts) (log : Log) (old new : Entries) (group : List ℕ) (state : ShareState) (held : Held)
        (acts : Acts) (change : Change) →
        IsHosted conf log (key_of conf group) state → share_state_at (states_of old) (key_of conf group) ≡ Some state →
        IsChange conf.limit acts log.batches (table_of state held) change →
        IsStored old (key_of conf group) change.start change.runs new →
        (next : ShareState) × IsSettled conf.limit acts log.batches (table_of state held) next
        × (states_of new ≡ insert_entry key_cmp (states_of old) (key_of conf group) next) }
{}

/// A record that a release gives back keeps the count with which it was held. Below the delivery limit it is
/// available with it; at the limit, and above, it is archived with it, or lies below the start.
pub fn releases_keep_counts()
    ensures below { (limit : ℕ) (chosen : Hold → Bool) (log : List Batch) (table : Table) (next : ShareState) →
        IsSettled limit (releasing chosen table.held) log table next → (offset : ℕ) (hold : Hold) → hold_at table.held offset ≡ Some hold →
        chosen hold ≡ true → hold.count < limit → IsSlot log offset → table.start ≤ offset →
        row_at next.runs offset ≡ Some (record { state = Available; count = hold.count }) }
    ensures at { (limit : ℕ) (chosen : Hold → Bool) (log : List Batch) (table : Table) (next : ShareState) →
        IsSettled limit (releasing chosen table.held) log table next → (offset : ℕ) (hold : Hold) → hold_at table.held offset ≡ Some hold →
        chosen hold ≡ true → limit ≤ hold.count →
        (offset < size_of next.start) ⊎ (row_at next.runs offset ≡ Some (record { state = Archived; count = hold.count })) }
{}

/// The slot that is offered of a table is the one that a fetch of one record would take right behind it, if no batch is
/// in its reply yet; it takes none where none is offered.
pub fn a_fetch_takes_what_is_offered()
    ensures { (log : List Batch) (table : Table) (bytes : ℕ) → IsLog log →
        map (λ taken. taken.0) (acquired log table (record { records = 1; bytes = bytes; first = true })).taken
        ≡ option_to_list (least_available log table) }
{}
