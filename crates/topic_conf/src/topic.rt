// The list of hosted topics.
ghost use Rattle.std.specs.Prelude.{◌≡◌, ◌≢◌, ◌↔◌, ◌≤◌, IsTrue, IfSome, IfNone, All, AllPairs, length};
ghost use Rattle.uuid.specs.Parts.{zero_bytes};
ghost use Rattle.edge_io.specs.Names.{IsTopicName, most_partitions};
ghost use Rattle.topic_conf.specs.Topics.{IsTopic, AreApart, IsTopicList, partitions};
ghost use Rattle.topic_conf.specs.declared.topic.Topic.{Topic};

use edge_io::{MAX_PARTITIONS, is_topic_name};
use share_model::Name;
use std::marker::Model;
use uuid::Uuid;

/// A hosted topic: its name, how many partitions it has, and its id.
#[derive(Clone, Copy)]
pub struct Topic {
    pub name: Name,
    pub parts: u32,
    pub id: Uuid,
}

/// The topics that a broker hosts, at least one.
///
/// Each has a name of 1 to 249 ASCII letters, digits, `.`, `_` and `-` other than `.` and `..`, at least
/// one partition, and an id other than the nil UUID. No two have one name or one id, and together they
/// have at most 64 partitions. A contract sees the list of topics.
#[derive(Drop)]
pub struct TopicList {
    topics: Vec<Topic>,
}

impl Model for TopicList {
    ghost use Rattle.std.specs.Prelude.{List};
    ghost use Rattle.topic_conf.specs.Topics.{IsTopicList};
    ghost use Rattle.topic_conf.specs.declared.topic.Topic.{Topic};

    ghost Value = { List Topic };

    ghost view = { λ l. l.topics.items };

    ghost invariant = { λ l. IsTopicList l.topics.items };
}

// Whether each topic has a partition, and all have at most 64. It looks at no more than 65 topics.
fn are_few(topics: &[Topic]) -> bool
    ensures { IsTrue result ↔ (All (λ topic. 1 ≤ topic.parts) topics.now × (partitions topics.now ≤ most_partitions)) }
{
    let mut room = MAX_PARTITIONS;
    let mut rest = topics;
    while let Some((topic, others)) = rest.split_first() {
        if topic.parts == 0 || topic.parts > room {
            return false;
        }
        room -= topic.parts;
        rest = others;
    }
    true
}

// Whether each topic may have its name and its id.
fn are_named(topics: &[Topic]) -> bool
    ensures { IsTrue result ↔ All (λ topic. IsTopicName topic.name × (topic.id ≢ zero_bytes)) topics.now }
{
    topics.iter().all(|topic| is_topic_name(topic.name.as_bytes()) && !topic.id.is_nil())
}

// Whether none of the others has the topic's name or its id.
fn is_apart(topic: &Topic, others: &[Topic]) -> bool
    ensures { IsTrue result ↔ All (AreApart topic.now) others.now }
{
    others
        .iter()
        .all(|other| topic.name != other.name && topic.id != other.id)
}

// Whether no topic has the name or the id of another.
fn are_apart(topics: &[Topic]) -> bool
    ensures { IsTrue result ↔ AllPairs AreApart topics.now }
{
    let mut rest = topics;
    while let Some((topic, others)) = rest.split_first() {
        if !is_apart(topic, others) {
            return false;
        }
        rest = others;
    }
    true
}

impl TopicList {
    /// The list of these topics, which takes no memory. `None` where they are none that one broker may
    /// host together.
    pub fn new(topics: Vec<Topic>) -> Option<TopicList>
        ensures some { IfSome result (λ list. list ≡ topics.items) }
        ensures fit { IfSome result (λ _. IsTopicList topics.items) }
        ensures none { IfNone result (IsTopicList topics.items → ⊥) }
    {
        if topics.is_empty() || !are_few(&topics) || !are_named(&topics) || !are_apart(&topics) {
            return None;
        }
        Some(TopicList { topics })
    }

    /// The topics, in their order.
    pub fn as_slice(&self) -> &[Topic]
        ensures same { result.now ≡ self.now }
        ensures list { IsTopicList self.now }
        ensures few { length self.now ≤ most_partitions }
    {
        &self.topics
    }
}
