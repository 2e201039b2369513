// The lines of text of a reply.
ghost use Rattle.std.specs.Prelude.{◌≡◌, ◌++◌, ◌∷◌, [], ◌+◌, length, codes, OnOk, IfOk};
ghost use Rattle.std.specs.Fmt.{decimal, signed_decimal};
ghost use Rattle.std.specs.Option.{option_copied};
ghost use Rattle.uuid.specs.Text.{hyphenated_text, lower};
ghost use Rattle.share_client.specs.Deliveries.{Delivery, line, value_text};
ghost use Rattle.share_client.specs.Readers.{Adds};

use flex_fields::Out;
use itoa::Buffer;
use share_model::NoMemory;
use std::alloc::Global;
use uuid::Uuid;

/// Lines of text, and how many they are.
#[derive(Drop)]
pub struct Page {
    pub text: Out,
    pub count: u32,
}

/// A topic's id, and the number of a partition.
#[derive(Clone, Copy)]
pub struct PartitionName {
    pub topic: Uuid,
    pub partition: i32,
}

fn put(text: &mut Out, word: &str) -> Result<(), NoMemory>
    ensures { OnOk result (text.new ≡ text.old ++ word.now) }
{
    text.put_slice(word.as_bytes())
}

fn put_signed(text: &mut Out, number: i64) -> Result<(), NoMemory>
    ensures { OnOk result (text.new ≡ text.old ++ signed_decimal number) }
{
    let mut digits = Buffer::new();
    put(text, digits.format(number))
}

fn put_number(text: &mut Out, number: u64) -> Result<(), NoMemory>
    ensures { OnOk result (text.new ≡ text.old ++ decimal number) }
{
    let mut digits = Buffer::new();
    put(text, digits.format(number))
}

fn put_uuid(text: &mut Out, id: Uuid) -> Result<(), NoMemory>
    ensures { OnOk result (text.new ≡ text.old ++ hyphenated_text lower id) }
{
    let mut buffer = Uuid::encode_buffer();
    put(text, id.hyphenated().encode_lower(&mut buffer))
}

fn put_value(alloc: Global, text: &mut Out, value: Option<&[u8]>) -> Result<(), NoMemory>
    ensures { OnOk result (text.new ≡ text.old ++ value_text (option_copied value.entry)) }
{
    match value {
        None => put(text, "-"),
        Some(bytes) => {
            let digits = hex::encode(alloc, bytes)?;
            put(text, digits.as_str())
        }
    }
}

// A partition and an offset of it.
fn put_place(text: &mut Out, name: &PartitionName, offset: u64) -> Result<(), NoMemory>
    ensures { OnOk result (text.new ≡ text.old ++ (codes "record " ++ (hyphenated_text lower name.now.topic ++ (codes "/"
        ++ (signed_decimal name.now.partition ++ (codes " " ++ decimal offset)))))) }
{
    put(text, "record ")?;
    put_uuid(text, name.topic)?;
    put(text, "/")?;
    put_signed(text, i64::from(name.partition))?;
    put(text, " ")?;
    put_number(text, offset)
}

// How often a record was delivered, and its value.
fn put_record(
    alloc: Global,
    text: &mut Out,
    count: i16,
    value: Option<&[u8]>,
) -> Result<(), NoMemory>
    ensures { OnOk result (text.new ≡ text.old ++ (codes " " ++ (signed_decimal count ++ (codes " "
        ++ (value_text (option_copied value.entry) ++ 10 ∷ []))))) }
{
    put(text, " ")?;
    put_signed(text, i64::from(count))?;
    put(text, " ")?;
    put_value(alloc, text, value)?;
    put(text, "\n")
}

impl Page {
    /// An empty page, which takes no memory.
    pub fn new(alloc: Global) -> Page
        ensures text { result.text ≡ [] }
        ensures count { result.count ≡ 0 }
    {
        Page {
            text: Out::new(alloc),
            count: 0,
        }
    }

    // Adds a line's text.
    fn put_text(
        &mut self,
        alloc: Global,
        name: &PartitionName,
        offset: u64,
        count: i16,
        value: Option<&[u8]>,
    ) -> Result<(), NoMemory>
        ensures text { OnOk result (self.new.text ≡ self.old.text ++ line (record { name = (name.now.topic, name.now.partition); offset = offset; count = count; value = option_copied value.entry })) }
        ensures count { self.new.count ≡ self.old.count }
    {
        put_place(&mut self.text, name, offset)?;
        put_record(alloc, &mut self.text, count, value)
    }

    /// Adds the line of a record.
    pub fn put_line(
        &mut self,
        alloc: Global,
        name: &PartitionName,
        offset: u64,
        count: i16,
        value: Option<&[u8]>,
    ) -> Result<(), NoMemory>
        ensures { OnOk result (Adds (record { name = (name.now.topic, name.now.partition); offset = offset; count = count; value = option_copied value.entry } ∷ []) self.old self.new) }
    {
        let Some(lines) = self.count.checked_add(1) else {
            return Err(NoMemory);
        };
        self.put_text(alloc, name, offset, count, value)?;
        self.count = lines;
        Ok(())
    }
}
