// Laws on histories of shards behind locks.
ghost use Rattle.broker_shards.specs.Histories.{EndsInAnAct, TellsWhatIsAsked};
ghost use Rattle.broker_shards.specs.Hosts.{holding};

use edge_io::Disk;
use shard_lock::Shard;

/// The last entry of a legal history is an act of the shard.
pub fn each_history_ends_in_an_act<S: Shard>()
    ensures { EndsInAnAct S.acts }
{}

/// What a partition tells in an act is of the kind that was asked, in numbers that a reply can say.
pub fn a_partition_tells_what_is_asked<D: Disk>()
    ensures { TellsWhatIsAsked D.seen holding }
{}
