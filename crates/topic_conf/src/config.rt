ghost use Rattle.std.specs.Prelude.{◌≡◌, ◌≤◌, IfNone, MatchOption, None, Some};
ghost use Rattle.topic_conf.specs.Topics.{IsTopicList, partitions, place_by_name, place_by_id, shard_at, shard_named, partition_at_shard};
ghost use Rattle.topic_conf.specs.Configs.{IsLockTime, IsLimit};

use crate::places::{partition_at_shard, place_by_id, place_by_name, shard_at, shard_named};
use crate::topic::{Topic, TopicList};
use crate::versions::Versions;
use share_model::{Name, Reset};
use std::marker::Model;
use uuid::Uuid;

/// What a broker is configured with.
///
/// - `topics` are the topics that it hosts.
/// - `reset` says where a group begins on a partition that it has not read before.
/// - `lock_ms` is how long an acquisition lock lasts, 1 to 3600000 milliseconds.
/// - `limit` is the delivery count at which a released record is archived, 2 to 10.
/// - `host` and `port` are what clients are told to connect to.
/// - `versions` says which versions of the calls are served.
///
/// A contract sees the record of these parts.
#[derive(Drop)]
pub struct Config {
    topics: TopicList,
    reset: Reset,
    lock_ms: u32,
    limit: u16,
    host: Name,
    port: u16,
    versions: Versions,
}

impl Model for Config {
    ghost use Rattle.std.specs.Prelude.{◌<◌};
    ghost use Rattle.topic_conf.specs.Configs.{ConfigParts, IsLockTime, IsLimit};

    ghost Value = { ConfigParts };

    ghost view = { λ c. record { topics = c.topics; reset = c.reset; lock_ms = c.lock_ms; limit = c.limit; host = c.host; port = c.port; versions = c.versions } };

    ghost invariant = { λ c. IsLockTime c.lock_ms × IsLimit c.limit × (c.port < 65536) };
}

impl Config {
    /// The configuration of these parts.
    pub fn new(
        topics: TopicList,
        reset: Reset,
        lock_ms: u32,
        limit: u16,
        host: Name,
        port: u16,
        versions: Versions,
    ) -> Config
        requires lock_time { IsLockTime lock_ms }
        requires limit { IsLimit limit }
        ensures { result ≡ record { topics = topics; reset = reset; lock_ms = lock_ms; limit = limit; host = host; port = port; versions = versions } }
    {
        Config {
            topics,
            reset,
            lock_ms,
            limit,
            host,
            port,
            versions,
        }
    }

    /// The hosted topics, in the order of their shards.
    pub fn topics(&self) -> &[Topic]
        ensures same { result.now ≡ self.now.topics }
        ensures list { IsTopicList self.now.topics }
    {
        self.topics.as_slice()
    }

    /// Where a group begins on a partition that it has not read before.
    pub fn reset(&self) -> Reset
        ensures { result ≡ self.now.reset }
    {
        self.reset
    }

    /// How long an acquisition lock lasts, in milliseconds: 1 to 3600000.
    pub fn lock_ms(&self) -> u32
        ensures same { result ≡ self.now.lock_ms }
        ensures range { IsLockTime result }
    {
        self.lock_ms
    }

    /// The delivery count at which a released record is archived: 2 to 10.
    pub fn limit(&self) -> u16
        ensures same { result ≡ self.now.limit }
        ensures range { IsLimit result }
    {
        self.limit
    }

    /// The host that clients are told to connect to, 1 to 255 bytes of UTF-8.
    pub fn host(&self) -> &Name
        ensures { result.now ≡ self.now.host }
    {
        &self.host
    }

    /// The port that clients are told to connect to.
    pub fn port(&self) -> u16
        ensures { result ≡ self.now.port }
    {
        self.port
    }

    /// Which versions of the calls are served.
    pub fn versions(&self) -> Versions
        ensures { result ≡ self.now.versions }
    {
        self.versions
    }

    /// Where the topic of this name stands among the topics, counted from 0. `None` where it isn't hosted.
    pub fn by_name(&self, name: &str) -> Option<u32>
        ensures { result ≡ place_by_name name.now self.now.topics }
    {
        let place = place_by_name(name, self.topics.as_slice())?;
        Some(place as u32)
    }

    /// Where the topic of this id stands among the topics, counted from 0. `None` where it isn't hosted.
    pub fn by_id(&self, topic: Uuid) -> Option<u32>
        ensures { result ≡ place_by_id topic self.now.topics }
    {
        let place = place_by_id(topic, self.topics.as_slice())?;
        Some(place as u32)
    }

    /// The number of the shard of a topic's partition. Shards are numbered from 0, topic by topic and
    /// partition by partition. `None` where the topic or the partition isn't hosted.
    pub fn find(&self, topic: Uuid, part: i32) -> Option<u32>
        ensures { result ≡ shard_at topic part self.now.topics }
    {
        shard_at(topic, part, self.topics.as_slice())
    }

    /// The number of the shard of a partition of the topic of this name. `None` where the topic or the partition isn't
    /// hosted.
    pub fn shard_of(&self, name: &str, part: u32) -> Option<u32>
        ensures { result ≡ shard_named name.now part self.now.topics }
    {
        shard_named(name, part, self.topics.as_slice())
    }

    /// The partition of a shard: its topic, and its number in that. `None` where no shard has this number.
    pub fn partition_of(&self, shard: u32) -> Option<(&Topic, u32)>
        ensures found { MatchOption result (partition_at_shard self.now.topics shard ≡ None)
            (λ x. partition_at_shard self.now.topics shard ≡ Some (x.0.now, x.1)) }
        ensures none { IfNone result (partitions self.now.topics ≤ shard) }
    {
        partition_at_shard(self.topics.as_slice(), shard)
    }
}
