// The law of state calls, over their definitions.
ghost use Rattle.state_calls.specs.StateTalks.{TellsByItsPart};

use crate::state::StateCall;

/// A state call asks a part for each partition of its request that needs one, in order, and its reply has the topics
/// and partitions of the request, each partition with what its own part told, or with the code that is known at once.
/// Two partitions that ask alike may be told unlike.
pub fn each_partition_is_told_by_its_own_part<S: StateCall>()
    ensures { TellsByItsPart S S.means S.Row.format }
{}
