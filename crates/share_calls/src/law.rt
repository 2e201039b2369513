// The laws of share requests, over their definitions.
ghost use Rattle.std.specs.Prelude.{◌≡◌, ℕ, pos, List, Some};
ghost use Rattle.topic_conf.specs.Topics.{shard_at};
ghost use Rattle.topic_conf.specs.declared.topic.Topic.{Topic};
ghost use Rattle.share_calls.specs.Partitions.{partition_of};
ghost use Rattle.share_calls.specs.FetchTalks.{TellsByItsVisit};
ghost use Rattle.share_calls.specs.AckTalks.{TellsByItsAck};
ghost use Rattle.share_calls.specs.TopicRows.{HasOneOfEachTopic};
ghost use Rattle.share_calls.specs.Wishes.{AcquiresInWhatIsTold};
ghost use Rattle.share_calls.specs.Heartbeats.{TellsItsHeartbeat};
ghost use Rattle.msgs_share.specs.declared.share_fetch_reply.FetchedPartition.{FetchedPartition};

/// A reply tells the partition of a shard by the id and the number by which the configuration finds the shard.
pub fn each_shard_is_told_by_its_partition()
    ensures { (topics : List Topic) (id : List ℕ) (index shard : ℕ) → shard_at id (pos index) topics ≡ Some shard →
        partition_of topics shard ≡ Some (record { topic_id = id; index = pos index }) }
{}

/// A ShareFetch visits the partitions of its plan, in order, each with the limits less all that was given before. Its
/// reply tells each told partition by the answer to its own visit, in the order of the visits, and behind them those
/// that aren't hosted.
pub fn each_fetched_partition_is_told_by_its_own_visit()
    ensures { TellsByItsVisit }
{}

/// A ShareAcknowledge visits the partitions of its plan, in order. Its reply has the topics and partitions of the
/// request, each partition told by the answer to its own visit, or by its code where it isn't hosted.
pub fn each_acknowledged_partition_is_told_by_its_own_visit()
    ensures { TellsByItsAck }
{}

/// A ShareGroupHeartbeat asks its own heartbeat and nothing more, and its reply is what was answered.
pub fn a_heartbeat_is_told_by_its_own_answer()
    ensures { TellsItsHeartbeat }
{}

/// The reply to a ShareFetch has one element for each topic that has rows, with all of them in their order, and the
/// elements stand in the order of their first rows.
pub fn each_topic_has_one_element()
    ensures { HasOneOfEachTopic FetchedPartition }
{}

/// A fetch acquires by visits alone that its reply tells, and by none where it closes its session.
pub fn a_fetch_acquires_in_what_is_told()
    ensures { AcquiresInWhatIsTold }
{}
