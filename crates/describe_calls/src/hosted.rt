// Partitions by the name of their topic.
ghost use Rattle.std.specs.Prelude.{◌≡◌};
ghost use Rattle.log_calls.specs.Produce.{id_named, shard_in};

use topic_conf::Config;
use uuid::Uuid;

/// The id of the hosted topic of this name.
pub fn id_named(conf: &Config, name: &str) -> Option<Uuid>
    ensures { result ≡ id_named conf.now.topics name.now }
{
    let Some(place) = conf.by_name(name) else {
        return None;
    };
    match conf.topics().get(place as usize) {
        Some(topic) => Some(topic.id),
        None => None,
    }
}

/// The number of the partition's shard, where it is hosted.
pub fn shard_in(conf: &Config, id: &Option<Uuid>, index: i32) -> Option<u32>
    ensures { result ≡ shard_in conf.now.topics id.now index }
{
    match id {
        Some(id) => conf.find(*id, index),
        None => None,
    }
}
