ghost use Rattle.std.specs.Prelude.{◌≡◌, ◌<◌, ◌≤◌, ◌↔◌, ℕ, ℤ, pos, List, Some, None, All, Contains};
ghost use Rattle.edge_io.specs.Names.{IsDiskName, hosted_name};
ghost use Rattle.edge_io.specs.declared.name.DiskPlace.{DiskPlace};
ghost use Rattle.topic_conf.specs.Topics.{IsTopicList, IsShard, partitions, shard_at, shard_named, partition_at_shard};
ghost use Rattle.topic_conf.specs.declared.topic.Topic.{Topic};

/// The numbers of shards are those below the number of partitions, and each is that of one partition.
pub fn each_shard_is_of_one_partition()
    ensures below { (topics : List Topic) (id : List ℕ) (partition : ℤ) (shard : ℕ) →
        shard_at id partition topics ≡ Some shard → shard < partitions topics }
    ensures one { (topics : List Topic) (id other : List ℕ) (partition next : ℤ) (shard : ℕ) →
        shard_at id partition topics ≡ Some shard → shard_at other next topics ≡ Some shard → (id ≡ other) × (partition ≡ next) }
    ensures each { (topics : List Topic) (shard : ℕ) → IsTopicList topics → shard < partitions topics → IsShard topics shard }
{}

/// A shard is that of a partition, by its topic's id and by its topic's name, exactly where it has that partition. So
/// a partition has one shard by either, and a shard has a partition where its number is below the number of
/// partitions.
pub fn each_shard_has_its_partition()
    ensures by_id { (topics : List Topic) (id : List ℕ) (part shard : ℕ) → IsTopicList topics →
        (shard_at id (pos part) topics ≡ Some shard) ↔
        ((topic : Topic) × (partition_at_shard topics shard ≡ Some (topic, part)) × (topic.id ≡ id)) }
    ensures by_name { (topics : List Topic) (name : List ℕ) (part shard : ℕ) → IsTopicList topics →
        (shard_named name part topics ≡ Some shard) ↔
        ((topic : Topic) × (partition_at_shard topics shard ≡ Some (topic, part)) × (topic.name ≡ name)) }
    ensures same { (topics : List Topic) → IsTopicList topics →
        All (λ topic. (part : ℕ) → shard_named topic.name part topics ≡ shard_at topic.id (pos part) topics) topics }
    ensures none { (topics : List Topic) (shard : ℕ) → (partition_at_shard topics shard ≡ None) ↔ (partitions topics ≤ shard) }
    ensures hosted { (topics : List Topic) (topic : Topic) (part shard : ℕ) →
        partition_at_shard topics shard ≡ Some (topic, part) → Contains topics topic × (part < topic.parts) }
{}

/// Each partition that a broker hosts may have its disks: its topic's name and its number are those of disks' names.
pub fn each_partition_has_disks()
    ensures { (topics : List Topic) → IsTopicList topics → All (λ topic. (number : ℕ) → number < topic.parts →
        (disk : DiskPlace) → IsDiskName (hosted_name topic.name number disk)) topics }
{}
