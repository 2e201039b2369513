ghost use Rattle.std.specs.Prelude.{◌≡◌, pos};
ghost use Rattle.state_calls.specs.Places.{key_at};

use share_model::{Key, Name};
use std::marker::Model;
use uuid::Uuid;

/// A partition of a topic, below 2^31.
#[derive(Clone, Copy)]
pub struct Place {
    pub topic: Uuid,
    pub part: u32,
}

impl Model for Place {
    ghost use Rattle.std.specs.Prelude.{◌<◌, ◌^◌};
    ghost use Rattle.state_calls.specs.Places.{PlaceParts};

    ghost Value = { PlaceParts };

    ghost view = { λ p. record { topic = p.topic; part = p.part } };

    ghost invariant = { λ p. p.part < 2 ^ 31 };

    ghost inverse = { λ v. record { topic = v.topic; part = v.part } };
}

impl Place {
    /// Its state is that of this key.
    pub fn key(&self, group: &Name) -> Key
        ensures { result ≡ key_at group.now self.now }
    {
        Key {
            group: *group,
            topic: self.topic,
            part: self.part,
        }
    }

    /// The partition, as messages number it.
    pub fn partition(&self) -> i32
        ensures { result ≡ pos self.now.part }
    {
        self.part as i32
    }
}

/// A topic of a request, and how many partitions it has there, fewer than 2^32 - 1.
#[derive(Clone, Copy)]
pub struct Shape {
    pub topic: Uuid,
    pub count: u32,
}

impl Model for Shape {
    ghost use Rattle.std.specs.Prelude.{◌+◌, ◌<◌, ◌^◌};
    ghost use Rattle.state_calls.specs.Places.{ShapeParts};

    ghost Value = { ShapeParts };

    ghost view = { λ s. record { topic = s.topic; count = s.count } };

    ghost invariant = { λ s. s.count + 1 < 2 ^ 32 };

    ghost inverse = { λ v. record { topic = v.topic; count = v.count } };
}
