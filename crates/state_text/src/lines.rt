// The lines of tables, keys and runs.
ghost use Rattle.std.specs.Prelude.{◌≡◌, ◌++◌, ◌∷◌, [], codes, OnOk};
ghost use Rattle.std.specs.Fmt.{decimal, signed_decimal};
ghost use Rattle.hex.specs.Hex.{encode_lower};
ghost use Rattle.uuid.specs.Text.{hyphenated_text, lower};
ghost use Rattle.offset_runs.specs.Complete.{complete_rows};
ghost use Rattle.state_text.specs.Texts.{foreign_line, run_line, state_word, table_line};

use flex_fields::NoMemory;
use share_coord::StateView;
use share_model::{Key, Name, RowState, Run};
use text_pieces::Pieces;
use uuid::Uuid;

fn state_word(state: RowState) -> &'static str
    ensures { result.now ≡ state_word state }
{
    match state {
        RowState::Available => "available",
        RowState::Acknowledged => "acknowledged",
        RowState::Archived => "archived",
    }
}

// A word, a number, and what follows it.
fn put_number(text: &mut Pieces, word: &str, number: u64, rest: &str) -> Result<(), NoMemory>
    ensures { OnOk result (text.new ≡ text.old ++ (word.now ++ (decimal number ++ rest.now))) }
{
    text.put(word)?;
    text.put_number(number)?;
    text.put(rest)
}

fn put_offsets(text: &mut Pieces, run: &Run) -> Result<(), NoMemory>
    ensures { OnOk result (text.new ≡ text.old ++ (codes "run " ++ (decimal run.now.first ++ (codes " "
        ++ (decimal run.now.last ++ codes " "))))) }
{
    put_number(text, "run ", run.first, " ")?;
    put_number(text, "", run.last, " ")
}

pub(crate) fn put_run(text: &mut Pieces, run: &Run) -> Result<(), NoMemory>
    ensures { OnOk result (text.new ≡ text.old ++ run_line run.now) }
{
    put_offsets(text, run)?;
    text.put(state_word(run.state))?;
    put_number(text, " ", u64::from(run.count), "\n")
}

// A word and the group.
fn put_group(text: &mut Pieces, word: &str, group: &Name) -> Result<(), NoMemory>
    ensures { OnOk result (text.new ≡ text.old ++ (word.now ++ (encode_lower group.now ++ codes " "))) }
{
    text.put(word)?;
    text.put_hex(group.as_bytes())?;
    text.put(" ")
}

// A word, a number with a sign where it is below 0, and what follows it.
fn put_value(text: &mut Pieces, word: &str, value: i64, rest: &str) -> Result<(), NoMemory>
    ensures { OnOk result (text.new ≡ text.old ++ (word.now ++ (signed_decimal value ++ rest.now))) }
{
    text.put(word)?;
    text.put_signed(value)?;
    text.put(rest)
}

fn put_uuid(text: &mut Pieces, id: Uuid) -> Result<(), NoMemory>
    ensures { OnOk result (text.new ≡ text.old ++ hyphenated_text lower id) }
{
    let mut buffer = Uuid::encode_buffer();
    text.put(id.hyphenated().encode_lower(&mut buffer))
}

pub(crate) fn put_table(
    text: &mut Pieces,
    group: &Name,
    topic: &str,
    part: u32,
    view: &StateView,
) -> Result<(), NoMemory>
    ensures { OnOk result (text.new ≡ text.old ++ table_line group.now topic.now part view.now.state) }
{
    put_group(text, "table ", group)?;
    text.put(topic)?;
    put_number(text, "/", u64::from(part), "")?;
    put_value(text, " start ", view.start, "")?;
    put_number(text, " complete ", view.complete(), "\n")
}

// A word and a key.
fn put_key(text: &mut Pieces, key: &Key) -> Result<(), NoMemory>
    ensures { OnOk result (text.new ≡ text.old ++ (codes "foreign " ++ (encode_lower key.now.group ++ (codes " "
        ++ (hyphenated_text lower key.now.topic ++ (codes " " ++ decimal key.now.part)))))) }
{
    put_group(text, "foreign ", &key.group)?;
    put_uuid(text, key.topic)?;
    put_number(text, " ", u64::from(key.part), "")
}

// The epochs, the start offset, and how many rows are complete.
fn put_state(text: &mut Pieces, view: &StateView) -> Result<(), NoMemory>
    ensures { OnOk result (text.new ≡ text.old ++ (codes " state " ++ (signed_decimal view.now.state.state_epoch
        ++ (codes " leader " ++ (signed_decimal view.now.state.leader_epoch ++ (codes " start "
        ++ (signed_decimal view.now.state.start ++ (codes " complete " ++ (decimal (complete_rows view.now.state.runs) ++ 10 ∷ []))))))))) }
{
    put_value(text, " state ", i64::from(view.state_epoch), "")?;
    put_value(text, " leader ", i64::from(view.leader_epoch), "")?;
    put_value(text, " start ", view.start, "")?;
    put_number(text, " complete ", view.complete(), "\n")
}

pub(crate) fn put_foreign(text: &mut Pieces, key: &Key, view: &StateView) -> Result<(), NoMemory>
    ensures { OnOk result (text.new ≡ text.old ++ foreign_line key.now view.now.state) }
{
    put_key(text, key)?;
    put_state(text, view)
}
