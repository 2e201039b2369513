ghost use Rattle.std.specs.Prelude.{◌≡◌, ◌↔◌, ◌<◌, ◌≤◌, ◌+◌, ◌++◌, IsTrue, IsSome, IfSome, IfNone, MatchOption, Some, length, codes};
ghost use Rattle.arrayvec.specs.ArrayVec.{array_vec_len};
ghost use Rattle.edge_io.specs.declared.name.DiskPlace.TheVariants.{Log, LogB, StateA, StateB};

use crate::topic::{disk_word, is_topic_name, number_of, place_of, push, push_number};
use arrayvec::ArrayVec;
use std::fmt;
use std::marker::Model;

/// Which disk of a partition: that of its log, a second one of its log, or one of the two of its state.
#[derive(Clone, Copy, Debug)]
pub enum DiskPlace {
    Log,
    LogB,
    StateA,
    StateB,
}

/// The greatest number of partitions that a broker hosts, and so of one topic.
pub const MAX_PARTITIONS: u32 = 64;

/// The longest name: 249 bytes of a topic, two digits, `state-a`, and two slashes.
const MAX_NAME: usize = 260;

/// The name of a disk: `TOPIC/N/log`, `TOPIC/N/log-b`, `TOPIC/N/state-a`, `TOPIC/N/state-b`, `foreign/state-a` or
/// `foreign/state-b`.
///
/// It is also the path of the disk's file under a folder. It is kept inside the value, and takes no memory.
#[derive(Drop)]
pub struct DiskName {
    text: ArrayVec<u8, MAX_NAME>,
}

impl Model for DiskName {
    ghost use Rattle.std.specs.Prelude.{List, ℕ};
    ghost use Rattle.edge_io.specs.Names.{IsDiskName};

    ghost Value = { List ℕ };

    ghost view = { λ n. n.text.items };

    ghost invariant = { λ n. IsDiskName n.text.items };
}

impl DiskName {
    ghost use Rattle.edge_io.specs.Names.{IsTopicName, IsDiskName, IsTextHosted, IsTextName, IsNotHosted, hosted_name};

    /// The name of a disk of a partition. `None` where a topic can't have this name, or the number is above 63.
    pub fn hosted(topic: &[u8], number: u32, place: DiskPlace) -> Option<DiskName>
        ensures some { IfSome result (λ n. n ≡ hosted_name topic.now number place) }
        ensures exact { IsSome result ↔ (IsTopicName topic.now × (number < 64)) }
    {
        if !is_topic_name(topic) || number >= MAX_PARTITIONS {
            return None;
        }
        let mut text = ArrayVec::new();
        push(&mut text, topic);
        push(&mut text, b"/");
        push_number(&mut text, number);
        push(&mut text, b"/");
        push(&mut text, disk_word(place));
        Some(DiskName { text })
    }

    /// `foreign/state-a`.
    pub fn foreign_state_a() -> DiskName
        ensures { result ≡ codes "foreign/state-a" }
    {
        let mut text = ArrayVec::new();
        push(&mut text, b"foreign/state-a");
        DiskName { text }
    }

    /// `foreign/state-b`.
    pub fn foreign_state_b() -> DiskName
        ensures { result ≡ codes "foreign/state-b" }
    {
        let mut text = ArrayVec::new();
        push(&mut text, b"foreign/state-b");
        DiskName { text }
    }

    /// The name with this text. `None` where no disk has that name, and where it is that of a log's second disk,
    /// which no text names.
    pub fn parse(text: &str) -> Option<DiskName>
        ensures some { IfSome result (λ n. n ≡ text.now) }
        ensures named { IfSome result (λ n. IsTextName n) }
        ensures none { IfNone result (IsTextName text.now → ⊥) }
    {
        match text {
            "foreign/state-a" => Some(DiskName::foreign_state_a()),
            "foreign/state-b" => Some(DiskName::foreign_state_b()),
            _ => DiskName::parse_hosted(text),
        }
    }

    // The name of a disk of a partition with this text.
    fn parse_hosted(text: &str) -> Option<DiskName>
        ensures same { MatchOption result (IsNotHosted text.now) (λ n. n ≡ text.now) }
        ensures named { IfSome result (λ n. IsTextHosted n) }
    {
        let Some((topic, rest)) = text.split_once('/') else {
            return None;
        };
        let Some((number, place)) = rest.split_once('/') else {
            return None;
        };
        let Some(number) = number_of(number.as_bytes()) else {
            return None;
        };
        let Some(place) = place_of(place) else {
            return None;
        };
        DiskName::hosted(topic.as_bytes(), number, place)
    }

    /// The same name once more.
    pub fn duplicate(&self) -> DiskName
        ensures { result ≡ self.now }
    {
        let mut text = ArrayVec::new();
        push(&mut text, self.text.as_slice());
        DiskName { text }
    }

    /// Its bytes.
    pub fn as_bytes(&self) -> &[u8]
        ensures same { result.now ≡ self.now }
        ensures name { IsDiskName self.now }
    {
        self.text.as_slice()
    }

    /// Its text.
    pub fn as_str(&self) -> &str
        ensures same { result.now ≡ self.now }
        ensures name { IsDiskName self.now }
    {
        match str::from_utf8(self.as_bytes()) {
            Ok(text) => text,
            Err(_) => unreachable!(),
        }
    }
}

impl fmt::Debug for DiskName {
    fn fmt<W: fmt::Write>(&self, f: &mut fmt::Formatter<W>) -> fmt::Result {
        f.write_str(self.as_str())
    }
}

impl fmt::Display for DiskName {
    ghost output = { λ name. Some name };

    fn fmt<W: fmt::Write>(&self, f: &mut fmt::Formatter<W>) -> fmt::Result {
        f.write_str(self.as_str())
    }
}
