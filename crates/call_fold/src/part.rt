use msgs_group::{HeartbeatReply, HeartbeatRequest};
use share_model::{
    BatchFault, Blob, DeleteAnswer, ForeignAnswer, ForeignOp, Name, Placed, RunList, StoreFault,
    Visit, VisitAnswer,
};

/// One event on one shard.
#[derive(Drop)]
pub enum Part {
    /// A call on the state of a partition that isn't hosted.
    Foreign(ForeignOp),
    /// A record batch for the log of a hosted partition, by the number of its shard. The batch isn't judged yet.
    Produce { shard: u32, batch: Blob },
    /// The records of a hosted partition below an offset are to be deleted, -1 standing for the log's end.
    Delete { shard: u32, to: i64 },
    /// Acknowledgements of a member on a hosted partition, and what follows them.
    Visit { shard: u32, visit: Visit },
    /// The stored state of a group on a hosted partition.
    Look { shard: u32, group: Name },
    /// A heartbeat of a member of a share group.
    Heartbeat(HeartbeatRequest),
}

/// What a log says to a batch.
#[derive(Clone, Copy)]
pub enum Produced {
    /// It is stored there.
    Base(Placed),
    /// It is no batch that a producer may send.
    Batch(BatchFault),
    /// It couldn't be stored.
    Store(StoreFault),
}

/// What is stored of a group on a hosted partition.
#[derive(Drop)]
pub enum Looked {
    /// The group has no table.
    Absent,
    /// Its epochs, its start offset, and its rows.
    There {
        state_epoch: i32,
        leader_epoch: i32,
        start: i64,
        runs: RunList,
    },
}

/// What a shard answers to a part.
#[derive(Drop)]
pub enum PartAnswer {
    Foreign(ForeignAnswer),
    Produce(Produced),
    Delete(DeleteAnswer),
    Visit(VisitAnswer),
    Look(Looked),
    Heartbeat(HeartbeatReply),
}
