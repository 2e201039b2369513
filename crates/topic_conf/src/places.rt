// Where a topic stands, and the numbers of shards.
ghost use Rattle.std.specs.Prelude.{◌≡◌, ◌<◌, ◌≤◌, IfSome, IfNone, MatchOption, None, Some, pos, length};
ghost use Rattle.topic_conf.specs.Topics.{IsTopicList, partitions, partition_at, place_by_name, place_by_id};
ghost use Rattle.topic_conf.specs.Topics.{shard_at, shard_named, partition_at_shard};

use crate::topic::Topic;
use uuid::Uuid;

// The place of the topic of this name.
pub fn place_by_name(name: &str, topics: &[Topic]) -> Option<usize>
    ensures place { result ≡ place_by_name name.now topics.now }
    ensures within { IfSome result (λ place. place < length topics.now) }
{
    topics.iter().position(|topic| topic.name.as_str() == name)
}

// The place of the topic of this id.
pub fn place_by_id(id: Uuid, topics: &[Topic]) -> Option<usize>
    ensures place { result ≡ place_by_id id topics.now }
    ensures within { IfSome result (λ place. place < length topics.now) }
{
    topics.iter().position(|topic| topic.id == id)
}

// The partition, where the topic has it.
fn partition_within(partition: u32, parts: u32) -> Option<u32>
    ensures { result ≡ partition_at (pos partition) parts }
{
    (partition < parts).then_some(partition)
}

// The partition, where the topic has it.
fn partition_at(partition: i32, parts: u32) -> Option<u32>
    ensures { result ≡ partition_at partition parts }
{
    let partition = u32::try_from(partition).ok()?;
    partition_within(partition, parts)
}

// The number of the partition's shard.
pub fn shard_at(id: Uuid, partition: i32, topics: &[Topic]) -> Option<u32>
    requires { IsTopicList topics.now }
    ensures { result ≡ shard_at id partition topics.now }
{
    let mut before = 0;
    let mut rest = topics;
    while let Some((topic, others)) = rest.split_first() {
        if topic.id == id {
            return Some(before + partition_at(partition, topic.parts)?);
        }
        before += topic.parts;
        rest = others;
    }
    None
}

// The number of the shard of the partition of the topic of this name.
pub fn shard_named(name: &str, part: u32, topics: &[Topic]) -> Option<u32>
    requires { IsTopicList topics.now }
    ensures { result ≡ shard_named name.now part topics.now }
{
    let mut first = 0;
    for topic in topics {
        if topic.name.as_str() == name {
            return Some(first + partition_within(part, topic.parts)?);
        }
        first += topic.parts;
    }
    None
}

// The partition of this shard.
pub fn partition_at_shard(topics: &[Topic], shard: u32) -> Option<(&Topic, u32)>
    ensures found { MatchOption result (partition_at_shard topics.now shard ≡ None) (λ x. partition_at_shard topics.now shard ≡ Some (x.0.now, x.1)) }
    ensures none { IfNone result (partitions topics.now ≤ shard) }
{
    let mut number = shard;
    for topic in topics {
        if number < topic.parts {
            return Some((topic, number));
        }
        number -= topic.parts;
    }
    None
}
