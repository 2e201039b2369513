// What assignments promise, what holds of all memberships, and epochs around the greatest one, by their definitions
// alone.
ghost use Rattle.std.specs.Prelude.{◌≡◌, ◌≤◌, ℕ, pos, true, List, []};
ghost use Rattle.std.specs.List.Sorted.{IsStrictlySortedBy};
ghost use Rattle.std.specs.Map.{keys_of};
ghost use Rattle.share_members.specs.declared.member.Member.{Member as Kept};
ghost use Rattle.share_members.specs.Groups.{Members, Memberships, id_cmp, next_epoch};
ghost use Rattle.share_members.specs.Heartbeats.{is_fenced, heartbeat_step};
ghost use Rattle.share_members.specs.Expiry.{expire_step};
ghost use Rattle.share_members.specs.Whole.{AreWhole};
ghost use Rattle.topic_conf.specs.declared.topic.Topic.{Topic};
ghost use Rattle.msgs_group.specs.declared.heartbeat_request.HeartbeatRequest.{HeartbeatRequest};
ghost use Rattle.share_members.specs.Shares.{IsSharedEvenly};

/// Each partition of a subscribed topic has an owner, and each subscriber has a partition. Within one topic the
/// shares of any two subscribers differ by one partition at most, and each has exactly one where the subscribers
/// outnumber the partitions.
pub fn partitions_are_shared_evenly()
    ensures { (place parts : ℕ) (members : Members) → 1 ≤ parts → IsStrictlySortedBy id_cmp (keys_of members) →
        IsSharedEvenly place parts members }
{}

/// Groups and members stand in byte order of their ids, each group has 1 to 200 members, and each subscription is
/// places of hosted topics, rising: so it is at first, and heartbeats and ticks keep it so.
pub fn memberships_stay_whole()
    ensures first { (topics : List Topic) (clock : ℕ) → AreWhole (record { topics = topics; clock = clock; groups = [] }) }
    ensures heartbeat { (now : ℕ) (request : HeartbeatRequest) (old : Memberships) → AreWhole old →
        AreWhole (heartbeat_step now request old).after }
    ensures expire { (now : ℕ) (old : Memberships) → AreWhole old → AreWhole (expire_step now old) }
{}

/// Behind epoch 2147483646 comes 2147483647, the greatest, and behind that 1. A member in epoch 1 is fenced by a
/// heartbeat of the greatest epoch, also where that was its previous one.
pub fn behind_the_greatest_epoch_comes_1()
    ensures greatest { next_epoch (pos 2147483646) ≡ pos 2147483647 }
    ensures first { next_epoch (pos 2147483647) ≡ pos 1 }
    ensures fenced { (member : Kept) → member.epoch ≡ pos 1 → is_fenced (pos 2147483647) member ≡ true }
{}
