// The parts of a disk's name, and the rule of topic names.
ghost use Rattle.std.specs.Prelude.{◌≡◌, ◌↔◌, ◌<◌, ◌≤◌, ◌+◌, ◌++◌, IsTrue, MatchOption, length};
ghost use Rattle.arrayvec.specs.ArrayVec.{array_vec_len};
ghost use Rattle.edge_io.specs.Names.{is_topic_byte, IsTopicName, number_word, IsNoNumberWord, disk_word, IsNoDiskWord, IsTextPlace};

use crate::name::{DiskPlace, MAX_PARTITIONS};
use arrayvec::ArrayVec;

fn is_topic_byte(byte: u8) -> bool
    ensures { result ≡ is_topic_byte byte }
{
    byte.is_ascii_alphanumeric() || byte == b'.' || byte == b'_' || byte == b'-'
}

/// Whether a topic may have this name: 1 to 249 ASCII letters, digits, `.`, `_` and `-`, and neither `.` nor `..`.
/// This is Kafka's rule.
pub fn is_topic_name(name: &[u8]) -> bool
    ensures { IsTrue result ↔ IsTopicName name.now }
{
    !name.is_empty()
        && name.len() <= 249
        && name.iter().all(|&byte| is_topic_byte(byte))
        && name != b".".as_slice()
        && name != b"..".as_slice()
}

// Puts bytes behind a text that has room for them.
pub fn push<const N: usize>(text: &mut ArrayVec<u8, N>, bytes: &[u8])
    requires { array_vec_len text.old + length bytes.now ≤ N }
    ensures items { text.new.items ≡ text.old.items ++ bytes.now }
    ensures len { array_vec_len text.new ≡ array_vec_len text.old + length bytes.now }
{
    text.try_extend_from_slice(bytes).unwrap();
}

// Puts the digits of a number behind a text that has room for two.
pub fn push_number<const N: usize>(text: &mut ArrayVec<u8, N>, number: u32)
    requires few { number < 64 }
    requires room { array_vec_len text.old + 2 ≤ N }
    ensures items { text.new.items ≡ text.old.items ++ number_word number }
    ensures len { array_vec_len text.new ≤ array_vec_len text.old + 2 }
{
    if number < 10 {
        push(text, &[b'0' + number as u8]);
    } else {
        push(
            text,
            &[b'0' + (number / 10) as u8, b'0' + (number % 10) as u8],
        );
    }
}

fn is_number_word(word: &[u8], number: u32) -> bool
    requires { number < 64 }
    ensures { IsTrue result ↔ (word.now ≡ number_word number) }
{
    let mut text = ArrayVec::<u8, 2>::new();
    push_number(&mut text, number);
    word == text.as_slice()
}

// The number of a partition that is written so.
pub fn number_of(word: &[u8]) -> Option<u32>
    ensures { MatchOption result (IsNoNumberWord word.now) (λ n. (n < 64) × (word.now ≡ number_word n)) }
{
    for number in 0..MAX_PARTITIONS {
        if is_number_word(word, number) {
            return Some(number);
        }
    }
    None
}

// Which disk of a partition a text names by this word.
pub fn place_of(word: &str) -> Option<DiskPlace>
    ensures { MatchOption result (IsNoDiskWord word.now) (λ place. (word.now ≡ disk_word place) × IsTextPlace place) }
{
    match word {
        "log" => Some(DiskPlace::Log),
        "state-a" => Some(DiskPlace::StateA),
        "state-b" => Some(DiskPlace::StateB),
        _ => None,
    }
}

pub fn disk_word(place: DiskPlace) -> &'static [u8]
    ensures word { result.now ≡ disk_word place }
    ensures short { length result.now ≤ 7 }
{
    match place {
        DiskPlace::Log => b"log",
        DiskPlace::LogB => b"log-b",
        DiskPlace::StateA => b"state-a",
        DiskPlace::StateB => b"state-b",
    }
}
