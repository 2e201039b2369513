// The laws of Produce and of DeleteRecords, over their definitions.
ghost use Rattle.log_calls.specs.DeleteTalks.{TellsItsStart};
ghost use Rattle.log_calls.specs.ProduceTalks.{TellsByItsLog};

/// A Produce asks a part for each partition whose records go to a log, in order, and its reply has the topics and
/// partitions of the request, each partition with what its own log says, or with the code that is known at once. Two
/// partitions that ask alike may be told unlike. Where no acknowledgement is wanted it has no reply.
pub fn each_batch_is_told_by_its_own_log()
    ensures { TellsByItsLog }
{}

/// A DeleteRecords asks a part for each partition that is hosted, in order, and its reply has the topics and partitions of
/// the request, each partition with what its own log says, or with the code that it isn't hosted.
pub fn each_delete_is_told_by_its_own_log()
    ensures { TellsItsStart }
{}
