// The words of a share consumer.
ghost use Rattle.std.specs.Prelude.{◌≤◌, ◌↔◌, ◌∷◌, List, ℕ, IsTrue, MatchOption, codes, length};
ghost use Rattle.share_top.specs.Words.{AreConsumeWords, GivesAddress, GivesCount, GivesName, GivesTopic, IsValue, texts};
ghost use Rattle.share_top.specs.WordReading.{AreNoConsumeWords};
ghost use Rattle.share_top.specs.declared.words.address.Address.{Address};

use super::address::{Address, read_address};
use super::number::number;
use edge_io::is_topic_name;
use share_client::ClientConf;
use share_model::Name;

// The value of the first option of this name.
fn value_of<'a>(option: &str, words: &'a [String]) -> Option<&'a str>
    ensures { MatchOption result ((value : List ℕ) → IsValue option.now (texts words.now) value → ⊥)
        (λ value. IsValue option.now (texts words.now) value.now) }
{
    let Some((word, behind)) = words.split_first() else {
        return None;
    };
    let Some((value, rest)) = behind.split_first() else {
        return None;
    };
    if word.as_str() == option {
        return Some(value.as_str());
    }
    value_of(option, rest)
}

fn address_in(words: &[String]) -> Option<Address>
    ensures { MatchOption result ((address : Address) → GivesAddress (texts words.now) address → ⊥)
        (GivesAddress (texts words.now)) }
{
    match value_of("--connect", words) {
        Some(value) => read_address(0, value),
        None => None,
    }
}

// 1 to 255 bytes
fn is_short(value: &str) -> bool
    ensures { IsTrue result ↔ ((1 ≤ length value.now) × (length value.now ≤ 255)) }
{
    !value.is_empty() && value.len() <= 255
}

// A group or a member.
fn name_in(option: &str, words: &[String]) -> Option<Name>
    ensures { MatchOption result ((name : List ℕ) → GivesName option.now (texts words.now) name → ⊥)
        (GivesName option.now (texts words.now)) }
{
    let Some(value) = value_of(option, words) else {
        return None;
    };
    if !is_short(value) {
        return None;
    }
    Name::new(value)
}

fn topic_in(words: &[String]) -> Option<Name>
    ensures { MatchOption result ((name : List ℕ) → GivesTopic (texts words.now) name → ⊥)
        (GivesTopic (texts words.now)) }
{
    let Some(value) = value_of("--topic", words) else {
        return None;
    };
    if !is_topic_name(value.as_bytes()) {
        return None;
    }
    Name::new(value)
}

fn count_in(words: &[String]) -> Option<u32>
    ensures { MatchOption result ((count : ℕ) → GivesCount (texts words.now) count → ⊥)
        (GivesCount (texts words.now)) }
{
    match value_of("--count", words) {
        Some(value) => number(1, u32::MAX, value),
        None => None,
    }
}

/// What the words behind `consume` give: the address of the broker, and what the consumer is started with.
pub fn read_consume(words: &[String]) -> Option<(Address, ClientConf)>
    ensures { MatchOption result (AreNoConsumeWords (codes "consume" ∷ texts words.now))
        (λ x. AreConsumeWords (codes "consume" ∷ texts words.now) x.0 x.1) }
{
    if words.len() != 10 {
        return None;
    }
    let Some(connect) = address_in(words) else {
        return None;
    };
    let Some(group) = name_in("--group", words) else {
        return None;
    };
    let Some(member) = name_in("--member", words) else {
        return None;
    };
    let Some(topic) = topic_in(words) else {
        return None;
    };
    match count_in(words) {
        Some(count) => Some((
            connect,
            ClientConf {
                group,
                member,
                topic,
                count,
            },
        )),
        None => None,
    }
}
