// The partition among the words of `load`.
ghost use Rattle.std.specs.Prelude.{◌≡◌, ◌<◌, ◌≤◌, ℕ, List, IfSome, MatchOption, AllPairs};
ghost use Rattle.edge_io.specs.Names.{most_partitions};
ghost use Rattle.topic_conf.specs.Topics.{AreApart, partitions};
ghost use Rattle.share_top.specs.Words.{texts};
ghost use Rattle.share_top.specs.WordReading.{IsBehindFolder, HasNoFolder, IsBehindTarget, HasNoTarget, IsShardNamed, HasNoShardNamed};

use super::number::number;
use edge_io::MAX_PARTITIONS;
use topic_conf::Topic;

/// The words behind `--dir` and a folder.
pub fn behind_folder<'a>(words: &'a [String]) -> Option<&'a [String]>
    ensures { MatchOption result (HasNoFolder (texts words.now)) (λ rest. (folder : List ℕ) × IsBehindFolder (texts words.now) folder (texts rest.now)) }
{
    let Some((option, behind)) = words.split_first() else {
        return None;
    };
    if option.as_str() != "--dir" {
        return None;
    }
    let Some((folder, rest)) = behind.split_first() else {
        return None;
    };
    if folder.is_empty() {
        return None;
    }
    Some(rest)
}

/// The name of a topic, the number of a partition, and the words behind them.
pub fn target<'a>(words: &'a [String]) -> Option<(&'a str, u32, &'a [String])>
    ensures { MatchOption result (HasNoTarget (texts words.now)) (λ x. IsBehindTarget (texts words.now) x.0.now x.1 (texts x.2.now)) }
{
    let Some((name, behind)) = words.split_first() else {
        return None;
    };
    let Some((word, rest)) = behind.split_first() else {
        return None;
    };
    match number(0, MAX_PARTITIONS - 1, word) {
        Some(number) => Some((name.as_str(), number, rest)),
        None => None,
    }
}

/// The shard of the partition of this number of the topic of this name. `None` where there is no such topic, or it
/// has no such partition.
pub fn shard_named(topics: &[Topic], name: &str, number: u32) -> Option<u32>
    requires few { partitions topics.now ≤ most_partitions }
    requires apart { AllPairs AreApart topics.now }
    ensures found { MatchOption result (HasNoShardNamed topics.now name.now number) (IsShardNamed topics.now name.now number) }
    ensures within { IfSome result (λ shard. shard < partitions topics.now) }
{
    let Some((topic, others)) = topics.split_first() else {
        return None;
    };
    if topic.name.as_str() == name {
        return if number < topic.parts {
            Some(number)
        } else {
            None
        };
    }
    match shard_named(others, name, number) {
        Some(shard) => Some(topic.parts + shard),
        None => None,
    }
}
