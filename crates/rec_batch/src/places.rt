// Where the records of a batch stand.
ghost use Rattle.std.specs.Prelude.{◌≡◌, ◌≤◌, ◌<◌, ◌<ℤ◌, ◌++◌, ◌∷◌, [], pos, length, List, ℕ, MatchOption};
ghost use Rattle.std.specs.Option.{option_map};
ghost use Rattle.rec_batch.specs.Batches.{at_least_zero};
ghost use Rattle.rec_batch.specs.Grammar.{Record};
ghost use Rattle.rec_batch.specs.Pieces.{delta_in, parts_in, pieces_in};
ghost use Rattle.rec_batch.specs.Places.{ShowsValue, SplitsAt};

use crate::passing::{byte, nullable, split, varint, varlong};

/// A record of a batch, told by places of the batch.
#[derive(Clone, Copy)]
pub struct RecordAt {
    /// How far its offset is behind the batch's base offset.
    pub delta: u32,
    /// The place and the number of bytes of its value. `None` where that is null.
    pub value: Option<(u32, u32)>,
    /// The place behind it, where the next record begins, if there is one.
    pub next: u32,
}

/// The offset delta of a record, the length before its value, and how many bytes stand in the record behind that length,
/// and behind the record.
#[derive(Clone, Copy)]
pub struct Pieces {
    pub delta: i32,
    pub len: i32,
    pub left: usize,
    pub behind: usize,
}

// The body of a record, and what follows the record.
#[tactic(auto, unfolding(crate::specs::Pieces::parts_in))]
fn parts(bytes: &[u8]) -> Option<(&[u8], &[u8])>
    ensures { option_map (λ x. (x.0.now, x.1.now)) result ≡ parts_in bytes.now }
{
    let (length, after) = varint(bytes)?;
    split(after, length)
}

// The offset delta of a body, and what stands from the value on.
#[tactic(auto, unfolding(crate::specs::Pieces::delta_in))]
fn to_value(bytes: &[u8]) -> Option<(i32, &[u8])>
    ensures { option_map (λ x. (x.0, x.1.now)) result ≡ delta_in bytes.now }
{
    let rest = byte(bytes)?;
    let (_, rest) = varlong(rest)?;
    let (delta, rest) = varint(rest)?;
    let rest = nullable(rest)?;
    Some((delta, rest))
}

#[tactic(auto, unfolding(crate::specs::Pieces::pieces_in))]
fn read_pieces(bytes: &[u8]) -> Option<Pieces>
    ensures { result ≡ pieces_in bytes.now }
{
    let (body, behind) = parts(bytes)?;
    let (delta, value) = to_value(body)?;
    let (len, left) = varint(value)?;
    Some(Pieces {
        delta,
        len,
        left: left.len(),
        behind: behind.len(),
    })
}

fn from_zero(delta: i32) -> u32
    ensures { result ≡ at_least_zero delta }
{
    if delta < 0 { 0 } else { delta as u32 }
}

fn value_at(place: u32, len: i32) -> Option<(u32, u32)>
    ensures { MatchOption result (len <ℤ pos 0) (λ v. (v.0 ≡ place) × (pos v.1 ≡ len)) }
{
    if len < 0 {
        None
    } else {
        Some((place, len as u32))
    }
}

/// The record that begins at a place of a stored batch, which [`read_batch`](crate::read_batch) accepts. It takes no
/// memory.
///
/// The first record begins at 61, and each other one at `next` of the one before it; the last one's `next` is the
/// number of bytes of the batch.
pub fn record_at(bytes: &[u8], place: u32) -> RecordAt
    requires begins { (before : List Record) × (r : Record) × (behind : List Record) × SplitsAt bytes.now place before (r ∷ behind) }
    ensures delta { (before behind : List Record) (r : Record) → SplitsAt bytes.now place before (r ∷ behind) → pos result.delta ≡ r.offset_delta }
    ensures value { (before behind : List Record) (r : Record) → SplitsAt bytes.now place before (r ∷ behind) → ShowsValue bytes.now r result }
    ensures next { (before behind : List Record) (r : Record) → SplitsAt bytes.now place before (r ∷ behind) →
        SplitsAt bytes.now result.next (before ++ r ∷ []) behind }
{
    let (_, rest) = bytes.split_at(place as usize);
    let Some(found) = read_pieces(rest) else {
        unreachable!()
    };
    let next = (bytes.len() - found.behind) as u32;
    RecordAt {
        delta: from_zero(found.delta),
        value: value_at(next - found.left as u32, found.len),
        next,
    }
}
