use crate::list::Growing;
use crate::tag::Tag;
use share_model::{Blob, CloseCause, Moment, ShardId};

/// Whether a tape has the tag of each event.
#[derive(Clone, Copy)]
pub enum TapeState {
    /// It has.
    Whole,
    /// A tag came when it had as many as it may have.
    Full,
    /// A tag found no memory.
    NoMemory,
}

/// The tags of the events of a shard, in order.
pub type TagList = Growing<Tag>;

/// The tape of a shard.
#[derive(Drop)]
pub struct ShardTape {
    pub shard: ShardId,
    pub tags: TagList,
}

/// One step of a connection: its moment, and the shard that it asked, if it asked one.
#[derive(Drop)]
pub struct LinkStep {
    pub now: Moment,
    pub shard: Option<ShardId>,
}

/// The steps of a connection, in order.
pub type StepList = Growing<LinkStep>;

/// The replies of a connection, in order.
pub type FrameList = Growing<Blob>;

/// What a worker keeps of a link.
#[derive(Drop)]
pub struct LinkTape {
    /// All that was read.
    pub bytes: Blob,
    pub steps: StepList,
    /// The number of steps before the peer's or the worker's end, where there was one.
    pub closed_at: Option<u64>,
    /// The replies that its connection gave.
    pub replies: FrameList,
    /// The cause with which its connection closed, where it closed by itself.
    pub cause: Option<CloseCause>,
}

/// The tape of a link, while it is written.
#[derive(Drop)]
pub enum Taping {
    /// Nothing is kept.
    Off,
    On(LinkTape),
    /// A byte or a step found no memory.
    NoMemory,
}
