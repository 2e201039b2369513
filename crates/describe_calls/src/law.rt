// The laws of the calls, over their definitions.
ghost use Rattle.describe_calls.specs.GroupOffsetsTold.{TellsItsTable};
ghost use Rattle.describe_calls.specs.OffsetsTold.{TellsItsEnds};

/// A ListOffsets asks the shard of each hosted partition whose timestamp stands for an end of a log, in order, and its
/// reply has the topics and partitions of the request, each partition with what its own log tells, or with the code
/// that is known at once. Two partitions that ask alike may be told unlike.
pub fn each_partition_is_told_by_its_own_log()
    ensures { TellsItsEnds }
{}

/// The reply to a DescribeShareGroupOffsets has the groups of the request, in order, each told by the answers to its own
/// questions, and each of its partitions by the answer of that partition's shard.
pub fn each_table_is_told_by_its_own_shard()
    ensures { TellsItsTable }
{}
