ghost use Rattle.std.specs.Prelude.{◌≡◌};
ghost use Rattle.topic_conf.specs.Topics.{IsTopicList};
ghost use Rattle.share_calls.specs.Partitions.{partition_of};

use topic_conf::Topic;
use uuid::Uuid;

/// A partition, as messages name it.
#[derive(Clone, Copy)]
pub struct PartitionId {
    pub topic_id: Uuid,
    pub index: i32,
}

/// The partition of a shard. `None` where there is no such shard.
pub fn partition_of(topics: &[Topic], shard: u32) -> Option<PartitionId>
    requires { IsTopicList topics.now }
    ensures { result ≡ partition_of topics.now shard }
{
    let mut left = shard;
    for topic in topics {
        if left < topic.parts {
            return Some(PartitionId {
                topic_id: topic.id,
                index: left as i32,
            });
        }
        left -= topic.parts;
    }
    None
}
