ghost use Rattle.std.specs.Prelude.{◌≡◌, ◌<◌, ◌^◌};
ghost use Rattle.std.proofs.Common.{rules};
ghost use Rattle.std.specs.Cmp.{partial_order_from_own_ties};
ghost use Rattle.std.specs.Cmp.Rules.{comparing};
ghost use Rattle.std.specs.Ordering.{nat_cmp, on, then_cmp, as_partial_cmp};

use crate::name::Name;
use std::cmp::Ordering;
use std::marker::Model;
use uuid::Uuid;

/// The key of a share-partition state: a group on a partition of a topic.
///
/// `part` is below 2^31. Keys stand in byte order of group, topic and partition. A contract sees a
/// key as the record of its fields.
#[derive(Clone, Copy, Debug, PartialEq, Eq)]
pub struct Key {
    pub group: Name,
    pub topic: Uuid,
    pub part: u32,
}

impl Model for Key {
    ghost use Rattle.std.specs.Prelude.{◌<◌, ◌^◌};
    ghost use Rattle.share_model.specs.Keys.{KeyParts};

    ghost Value = { KeyParts };

    ghost view = { λ k. record { group = k.group; topic = k.topic; part = k.part } };

    ghost invariant = { λ k. k.part < 2 ^ 31 };

    ghost inverse = { λ v. record { group = v.group; topic = v.topic; part = v.part } };
}

impl Ord for Key {
    ghost use Rattle.share_model.specs.Keys.{key_cmp};

    ghost cmp = { key_cmp };

    ghost total = { Prim.search (comparing, rules) depth 9 };

    ghost matches_partial_cmp = { Prim.search (comparing, rules) depth 9 };

    ghost matches_eq = { Prim.search (comparing, rules) depth 9 };

    fn cmp(&self, other: &Key) -> Ordering {
        self.group
            .cmp(&other.group)
            .then(self.topic.cmp(&other.topic))
            .then(self.part.cmp(&other.part))
    }
}

impl PartialOrd for Key {
    ghost use Rattle.share_model.specs.Keys.{key_cmp};

    ghost partial_cmp = { as_partial_cmp key_cmp };

    ghost laws = { partial_order_from_own_ties (Prim.search (comparing, rules) depth 9) (Prim.search (comparing, rules) depth 9) };

    fn partial_cmp(&self, other: &Key) -> Option<Ordering> {
        Some(self.cmp(other))
    }
}
