// Going past the parts of a record, without memory: what follows a part, or nothing where it isn't there.
ghost use Rattle.std.specs.Prelude.{◌≡◌};
ghost use Rattle.std.specs.Option.{option_copied, option_map};
ghost use Rattle.flex_fields.specs.Reading.{unzigzag};
ghost use Rattle.rec_batch.specs.Passing.{all_headers_in, body_in, byte_in, content_in, counted_in, headers_in};
ghost use Rattle.rec_batch.specs.Passing.{nullable_in, record_in, some_headers_in, split_in, varint_in, varlong_in};

use flex_fields::Cursor;

// The signed number of one byte.
#[tactic(auto, unfolding(flex_fields::specs::Reading::unzigzag))]
fn signed(byte: u8) -> i32
    ensures { result ≡ unzigzag byte }
{
    if byte % 2 == 0 {
        i32::from(byte / 2)
    } else {
        -1 - i32::from(byte / 2)
    }
}

#[tactic(auto, unfolding(crate::specs::Passing::varint_in))]
fn any_varint(bytes: &[u8]) -> Option<(i32, &[u8])>
    ensures { option_map (λ x. (x.0, x.1.now)) result ≡ varint_in bytes.now }
{
    let mut cursor = Cursor::new(bytes);
    let number = cursor.take_varint().ok()?;
    Some((number, cursor.rest()))
}

#[tactic(auto, unfolding(crate::specs::Passing::varlong_in))]
fn any_varlong(bytes: &[u8]) -> Option<(i64, &[u8])>
    ensures { option_map (λ x. (x.0, x.1.now)) result ≡ varlong_in bytes.now }
{
    let mut cursor = Cursor::new(bytes);
    let number = cursor.take_varlong().ok()?;
    Some((number, cursor.rest()))
}

// A signed number of 32 bits. One of a single byte, as most are, takes a step.
#[tactic(auto, using(crate::proofs::ShortNumbers::varint_one))]
pub fn varint(bytes: &[u8]) -> Option<(i32, &[u8])>
    ensures { option_map (λ x. (x.0, x.1.now)) result ≡ varint_in bytes.now }
{
    match bytes.split_first() {
        Some((first, rest)) if *first < 128 => Some((signed(*first), rest)),
        _ => any_varint(bytes),
    }
}

#[tactic(auto, using(crate::proofs::ShortNumbers::varlong_one))]
pub fn varlong(bytes: &[u8]) -> Option<(i64, &[u8])>
    ensures { option_map (λ x. (x.0, x.1.now)) result ≡ varlong_in bytes.now }
{
    match bytes.split_first() {
        Some((first, rest)) if *first < 128 => Some((i64::from(signed(*first)), rest)),
        _ => any_varlong(bytes),
    }
}

#[tactic(auto, unfolding(crate::specs::Passing::byte_in))]
pub fn byte(bytes: &[u8]) -> Option<&[u8]>
    ensures { option_copied result ≡ byte_in bytes.now }
{
    match bytes {
        [] => None,
        [_, rest @ ..] => Some(rest),
    }
}

#[tactic(auto, unfolding(crate::specs::Passing::split_in))]
pub fn split(bytes: &[u8], count: i32) -> Option<(&[u8], &[u8])>
    ensures { option_map (λ x. (x.0.now, x.1.now)) result ≡ split_in count bytes.now }
{
    if count < 0 || bytes.len() < count as usize {
        return None;
    }
    Some(bytes.split_at(count as usize))
}

#[tactic(auto, unfolding(crate::specs::Passing::counted_in))]
fn counted(bytes: &[u8]) -> Option<&[u8]>
    ensures { option_copied result ≡ counted_in bytes.now }
{
    let (length, after) = varint(bytes)?;
    let (_, rest) = split(after, length)?;
    Some(rest)
}

#[tactic(auto, unfolding(crate::specs::Passing::content_in), using(crate::proofs::Contents::content_other))]
fn content(bytes: &[u8], length: i32) -> Option<&[u8]>
    ensures { option_copied result ≡ content_in length bytes.now }
{
    if length == -1 {
        return Some(bytes);
    }
    let (_, rest) = split(bytes, length)?;
    Some(rest)
}

#[tactic(auto, unfolding(crate::specs::Passing::nullable_in))]
pub fn nullable(bytes: &[u8]) -> Option<&[u8]>
    ensures { option_copied result ≡ nullable_in bytes.now }
{
    let (length, after) = varint(bytes)?;
    content(after, length)
}

// So many headers.
#[tactic(auto, using(crate::proofs::Contents::headers_next))]
fn headers(bytes: &[u8], count: u32) -> Option<&[u8]>
    ensures { option_copied result ≡ headers_in count bytes.now }
{
    let mut rest = bytes;
    for _ in 0..count {
        let value = counted(rest)?;
        rest = nullable(value)?;
    }
    Some(rest)
}

#[tactic(auto, unfolding(crate::specs::Passing::some_headers_in))]
fn some_headers(bytes: &[u8], count: i32) -> Option<&[u8]>
    ensures { option_copied result ≡ some_headers_in count bytes.now }
{
    if count < 0 {
        return None;
    }
    headers(bytes, count as u32)
}

#[tactic(auto, unfolding(crate::specs::Passing::all_headers_in))]
fn all_headers(bytes: &[u8]) -> Option<&[u8]>
    ensures { option_copied result ≡ all_headers_in bytes.now }
{
    let (count, after) = varint(bytes)?;
    some_headers(after, count)
}

// The offset delta of a record's body, which is all of the bytes.
#[tactic(auto, unfolding(crate::specs::Passing::body_in))]
fn body(bytes: &[u8]) -> Option<i32>
    ensures { result ≡ body_in bytes.now }
{
    let rest = byte(bytes)?;
    let (_, rest) = varlong(rest)?;
    let (delta, rest) = varint(rest)?;
    let rest = nullable(rest)?;
    let rest = nullable(rest)?;
    let rest = all_headers(rest)?;
    if rest.is_empty() { Some(delta) } else { None }
}

/// The offset delta of the record in front, and what follows it.
#[tactic(auto, unfolding(crate::specs::Passing::record_in))]
pub fn record(bytes: &[u8]) -> Option<(i32, &[u8])>
    ensures { option_map (λ x. (x.0, x.1.now)) result ≡ record_in bytes.now }
{
    let (length, after) = varint(bytes)?;
    let (content, rest) = split(after, length)?;
    let delta = body(content)?;
    Some((delta, rest))
}
