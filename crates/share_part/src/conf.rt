ghost use Rattle.std.specs.Prelude.{◌≡◌, ◌↔◌, ◌<◌, true};
ghost use Rattle.topic_conf.specs.Configs.{IsLockTime, IsLimit};

use share_model::{Key, Name, Reset};
use std::marker::Model;
use uuid::Uuid;

/// What the shard of a partition is configured with.
///
/// - `topic` and `part` are the partition's; `part` is at most 63.
/// - `reset` says where a group begins that has not read the partition before.
/// - `lock_ms` is how long an acquisition lock lasts, 1 to 3600000 milliseconds.
/// - `limit` is the delivery count at which a released record is archived, 2 to 10.
///
/// A contract sees the record of these parts.
#[derive(Clone, Copy)]
pub struct PartConf {
    topic: Uuid,
    part: u32,
    reset: Reset,
    lock_ms: u32,
    limit: u16,
}

impl Model for PartConf {
    ghost use Rattle.std.specs.Prelude.{◌<◌};
    ghost use Rattle.topic_conf.specs.Configs.{IsLockTime, IsLimit};
    ghost use Rattle.share_part.specs.Hosting.{PartConfParts};

    ghost Value = { PartConfParts };

    ghost view = { λ c. record { topic = c.topic; part = c.part; reset = c.reset; lock_ms = c.lock_ms; limit = c.limit } };

    ghost invariant = { λ c. (c.part < 64) × IsLockTime c.lock_ms × IsLimit c.limit };

    ghost inverse = { λ v. record { topic = v.topic; part = v.part; reset = v.reset; lock_ms = v.lock_ms; limit = v.limit } };
}

impl PartConf {
    ghost use Rattle.share_part.specs.Hosting.{key_of};

    /// The configuration of these parts.
    pub fn new(topic: Uuid, part: u32, reset: Reset, lock_ms: u32, limit: u16) -> PartConf
        requires part { part < 64 }
        requires lock_time { IsLockTime lock_ms }
        requires limit { IsLimit limit }
        ensures { result ≡ record { topic = topic; part = part; reset = reset; lock_ms = lock_ms; limit = limit } }
    {
        PartConf {
            topic,
            part,
            reset,
            lock_ms,
            limit,
        }
    }

    /// The partition's number: at most 63.
    pub fn part(&self) -> u32
        ensures same { result ≡ self.now.part }
        ensures range { self.now.part < 64 }
    {
        self.part
    }

    /// Where a group begins that has not read the partition before.
    pub fn reset(&self) -> Reset
        ensures { result ≡ self.now.reset }
    {
        self.reset
    }

    /// How long an acquisition lock lasts, in milliseconds: 1 to 3600000.
    pub fn lock_ms(&self) -> u32
        ensures same { result ≡ self.now.lock_ms }
        ensures range { IsLockTime self.now.lock_ms }
    {
        self.lock_ms
    }

    /// The delivery count at which a released record is archived: 2 to 10.
    pub fn limit(&self) -> u16
        ensures same { result ≡ self.now.limit }
        ensures range { IsLimit self.now.limit }
    {
        self.limit
    }

    /// The key of a group on the partition.
    pub fn key(&self, group: &Name) -> Key
        ensures { result ≡ key_of self.now group.now }
    {
        Key {
            group: *group,
            topic: self.topic,
            part: self.part,
        }
    }

    /// Whether a key is one of the partition.
    pub fn has_key(&self, key: &Key) -> bool
        ensures { (result ≡ true) ↔ (key.now ≡ key_of self.now key.now.group) }
    {
        key.topic == self.topic && key.part == self.part
    }
}
