ghost use Rattle.std.specs.Prelude.{◌≡◌, None, OnOk, OnErr, Option};
ghost use Rattle.msgs_admin.specs.declared.held_records.HeldRecords.{HeldRecords};
ghost use Rattle.flex_fields.specs.Cursors.{Moves};
ghost use Rattle.flex_fields.specs.Formats.{Writes, StartsWith};
ghost use Rattle.msgs_admin.specs.HeldRecords.{HELD_TAG as TAG, held_records, held_tag};
ghost use Rattle.msgs_admin.specs.KnownTag.{known_from_at, known_tag_at, sized_at};

use flex_fields::{Cursor, NoMemory, Out, Put, Wire, WireFault, put_structure, take_structure};
use std::alloc::Global;
use std::marker::Model;

/// The tag behind which a reply tells what is held: far from those of Kafka's schemas, which begin with 0.
const HELD_TAG: u32 = 10000;

/// How many bytes stand behind that tag and their number: three numbers of 8, and no tags.
const HELD_SIZE: u32 = 25;

/// What a group holds of a partition.
#[derive(Clone, Copy, Debug)]
pub struct HeldRecords {
    /// How many records its members hold.
    pub held: i64,
    /// The moment at which the first of their locks ends, or -1 where nothing is held.
    pub first_lock_end_ms: i64,
    /// How many records from the start on are archived, which nobody gets any more.
    pub archived: i64,
}

impl Wire for HeldRecords {
    ghost format = { held_records };

    #[tactic(auto, unfolding(crate::specs::HeldRecords::held_records))]
    fn take(alloc: Global, cursor: &mut Cursor<'_>) -> Result<Self, WireFault> {
        take_structure!(
            alloc,
            cursor,
            HeldRecords {
                held,
                first_lock_end_ms,
                archived
            }
        )
    }

    fn put(&self, out: &mut Out) -> Result<(), NoMemory> {
        put_structure!(out, self, [held, first_lock_end_ms, archived])
    }
}

// Takes what is held, and refuses a size that isn't its own; the size stands at `place`.
fn take_sized(
    alloc: Global,
    place: u64,
    size: u32,
    cursor: &mut Cursor<'_>,
) -> Result<HeldRecords, WireFault>
    ensures { Moves cursor.new result (sized_at place size held_records.read cursor.old) }
{
    let start = cursor.place();
    let held = HeldRecords::take(alloc, cursor)?;
    let Some(taken) = cursor.place().checked_sub(start) else {
        return Err(WireFault::BadLength { place });
    };
    if taken != u64::from(size) {
        return Err(WireFault::BadLength { place });
    }
    Ok(held)
}

// Takes one tag with its bytes, which say what is held where it is the known one.
#[tactic(auto, unfolding(crate::specs::KnownTag::known_tag_at))]
fn take_tag(alloc: Global, cursor: &mut Cursor<'_>) -> Result<Option<HeldRecords>, WireFault>
    ensures { Moves cursor.new result (known_tag_at TAG held_records.read cursor.old) }
{
    let tag = cursor.take_uvarint()?;
    let place = cursor.place();
    let size = cursor.take_uvarint()?;
    if cursor.rest().len() < size as usize {
        return Err(WireFault::Short { place });
    }
    if tag == HELD_TAG {
        return Ok(Some(take_sized(alloc, place, size, cursor)?));
    }
    cursor.take_slice(size as usize)?;
    Ok(None)
}

// Takes so many tags. Of those that say what is held the last counts.
fn take_tags(
    alloc: Global,
    count: u32,
    cursor: &mut Cursor<'_>,
) -> Result<Option<HeldRecords>, WireFault>
    ensures { Moves cursor.new result (known_from_at TAG held_records.read None count cursor.old) }
{
    let mut held = None;
    for _ in 0..count {
        let one = take_tag(alloc, cursor)?;
        held = one.or(held);
    }
    Ok(held)
}

// Writes what is held behind its tag, which is the only one.
fn put_held(out: &mut Out, held: HeldRecords) -> Result<(), NoMemory>
    ensures ok { OnOk result (Writes held_tag out.old out.new (Some held)) }
    ensures err { OnErr result (StartsWith out.old out.new) }
{
    out.put_uvarint(1)?;
    out.put_uvarint(HELD_TAG)?;
    out.put_uvarint(HELD_SIZE)?;
    held.put(out)
}

// Writes that nothing is said of what is held: there are no tags.
fn put_none(out: &mut Out) -> Result<(), NoMemory>
    ensures ok { OnOk result (Writes held_tag out.old out.new None) }
    ensures err { OnErr result (StartsWith out.old out.new) }
{
    out.put_uvarint(0)
}

/// What is held or nothing, as the tags that end a structure which is lent to be written.
#[derive(Clone, Copy)]
pub struct LentHeld {
    pub held: Option<HeldRecords>,
}

impl Put for LentHeld {
    ghost Value = { Option HeldRecords };

    ghost format = { held_tag };

    ghost value = { λ h. h.held };

    fn put_behind(self, out: &mut Out) -> Result<(), NoMemory> {
        match self.held {
            None => put_none(out),
            Some(held) => put_held(out, held),
        }
    }
}

/// What is held or nothing, as the tags that end a structure.
#[derive(Drop)]
pub struct HeldTag {
    held: Option<HeldRecords>,
}

impl Model for HeldTag {
    ghost use Rattle.std.specs.Prelude.{Option};
    ghost use Rattle.msgs_admin.specs.declared.held_records.HeldRecords.{HeldRecords as Held};

    ghost Value = { Option Held };

    ghost view = { λ t. t.held };
}

impl HeldTag {
    /// Hands it out.
    pub fn into_held(self) -> Option<HeldRecords>
        ensures { result ≡ self }
    {
        let HeldTag { held } = self;
        held
    }
}

impl Wire for HeldTag {
    ghost format = { held_tag };

    #[tactic(auto, unfolding(crate::specs::KnownTag::known_tags_at))]
    fn take(alloc: Global, cursor: &mut Cursor<'_>) -> Result<Self, WireFault> {
        let count = cursor.take_uvarint()?;
        let held = take_tags(alloc, count, cursor)?;
        Ok(HeldTag { held })
    }

    fn put(&self, out: &mut Out) -> Result<(), NoMemory> {
        let held = LentHeld { held: self.held };
        held.put_behind(out)
    }
}
