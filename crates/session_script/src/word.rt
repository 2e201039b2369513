// The words of a line: where they are cut, and what a word says.
ghost use Rattle.std.specs.Prelude.{◌≡◌, ◌<◌, ◌≤◌, ◌^◌, IfOk, MatchOption};
ghost use Rattle.std.specs.List.{list_any};
ghost use Rattle.std.specs.Char.{is_ascii_uppercase};
ghost use Rattle.session_script.specs.Lines.{IsCut, HasNoCut, IsNumber, IsNoNumber, IsNumbered, IsNotNumbered};
ghost use Rattle.session_script.specs.Lines.{IsTopicWord, IsNoTopicWord, IsMode, IsNoMode, IsHex, IsNoHex};

use edge_io::{FaultMode, is_topic_name};
use flex_fields::NoMemory;
use hex::FromHexError;
use itoa::Buffer;
use share_model::Name;
use std::alloc::Global;

/// What stands before and behind the first blank.
pub fn cut(text: &str) -> Option<(&str, &str)>
    ensures { MatchOption result (HasNoCut text.now) (λ x. IsCut text.now x.0.now x.1.now) }
{
    text.split_once(' ')
}

/// The number up to `limit` that is written as `word`: in decimal, with no sign and no leading zero. `None` where
/// there is none. Scripts and command lines have their numbers in this form.
pub fn number(limit: u64, word: &str) -> Option<u64>
    ensures { MatchOption result (IsNoNumber limit word.now) (IsNumber limit word.now) }
{
    let Ok(number) = word.parse::<u64>() else {
        return None;
    };
    if number > limit {
        return None;
    }
    let mut buffer = Buffer::new();
    if buffer.format(number) == word {
        Some(number)
    } else {
        None
    }
}

/// A connection's number, and what follows the blank behind it.
pub fn numbered(text: &str) -> Option<(u32, &str)>
    ensures { MatchOption result (IsNotNumbered text.now) (λ x. IsNumbered text.now x.0 x.1.now) }
{
    let Some((word, rest)) = cut(text) else {
        return None;
    };
    let Some(conn) = number(u32::MAX as u64, word) else {
        return None;
    };
    Some((conn as u32, rest))
}

/// The topic's name that is written as `word`.
pub fn topic_name(word: &str) -> Option<Name>
    ensures { MatchOption result (IsNoTopicWord word.now) (IsTopicWord word.now) }
{
    if !is_topic_name(word.as_bytes()) {
        return None;
    }
    Name::new(word)
}

/// How a fault that is armed so breaks a call.
pub fn fault_mode(word: &str) -> Option<FaultMode>
    ensures { MatchOption result (IsNoMode word.now) (IsMode word.now) }
{
    match word {
        "once" => Some(FaultMode::Once),
        "torn" => Some(FaultMode::Torn),
        "dead" => Some(FaultMode::Dead),
        _ => None,
    }
}

fn has_uppercase(digits: &str) -> bool
    ensures { result ≡ list_any is_ascii_uppercase digits.now }
{
    digits.bytes().any(|digit| digit.is_ascii_uppercase())
}

/// The bytes that are written as `digits`: two lower-case hexadecimal digits each.
pub fn hexadecimal(alloc: Global, digits: &str) -> Result<Option<Vec<u8>>, NoMemory>
    ensures { IfOk result (λ found. MatchOption found (IsNoHex digits.now) (λ bytes. IsHex digits.now bytes.items)) }
{
    if has_uppercase(digits) {
        return Ok(None);
    }
    match hex::decode(alloc, digits) {
        Ok(bytes) => Ok(Some(bytes)),
        Err(fault) => match fault {
            FromHexError::OutOfMemory => Err(NoMemory),
            _ => Ok(None),
        },
    }
}
