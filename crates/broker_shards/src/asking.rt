// What a part of a request asks, and of which shard.
ghost use Rattle.std.specs.Prelude.{◌≡◌, Some};
ghost use Rattle.broker_shards.specs.Answering.{part_of};

use crate::part::PartAsk;
use call_fold::Part;
use msgs_group::HeartbeatRequest;
use share_model::ForeignOp;

/// What is asked of a shard in a request.
#[derive(Drop)]
pub enum ShardAsk {
    /// Of the hosted partition with this number. It is no offer and no expiry.
    Part(u32, PartAsk),
    /// Of the members of all groups.
    Heartbeat(HeartbeatRequest),
    /// Of foreign state.
    Foreign(ForeignOp),
}

/// What a part asks.
pub fn ask_of(part: Part) -> ShardAsk
    ensures { part_of result ≡ Some part }
{
    match part {
        Part::Foreign(op) => ShardAsk::Foreign(op),
        Part::Produce { shard, batch } => ShardAsk::Part(shard, PartAsk::Produce(batch)),
        Part::Delete { shard, to } => ShardAsk::Part(shard, PartAsk::Delete(to)),
        Part::Visit { shard, visit } => ShardAsk::Part(shard, PartAsk::Visit(visit)),
        Part::Look { shard, group } => ShardAsk::Part(shard, PartAsk::Look(group)),
        Part::Heartbeat(request) => ShardAsk::Heartbeat(request),
    }
}
