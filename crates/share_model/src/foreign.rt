use crate::fault::Code;
use crate::key::Key;
use crate::lists::{RunList, StateBatchList};

/// A batch of a state call as it came: offsets, a state's number and a delivery count, not yet judged.
#[derive(Clone, Copy)]
pub struct StateBatch {
    pub first: i64,
    pub last: i64,
    pub state: i8,
    pub count: i16,
}

/// A call on the state of a partition that this broker doesn't host. Its numbers are not yet judged.
///
/// `start` is an offset, or -1: no start is given in an `Init`, and the start stays in a `Write`.
#[derive(Drop)]
pub enum ForeignOp {
    /// InitializeShareGroupState.
    Init {
        key: Key,
        state_epoch: i32,
        start: i64,
    },
    /// ReadShareGroupState.
    Read {
        key: Key,
        leader_epoch: i32,
    },
    /// WriteShareGroupState.
    Write {
        key: Key,
        state_epoch: i32,
        leader_epoch: i32,
        start: i64,
        batches: StateBatchList,
    },
    /// DeleteShareGroupState.
    Delete {
        key: Key,
    },
}

/// The answer to a call on foreign state.
///
/// The last three fields are those of the key after a `Read` that is granted, and 0, -1 and no runs
/// in each other answer.
#[derive(Drop)]
pub struct ForeignAnswer {
    pub code: Code,
    pub state_epoch: i32,
    pub start: i64,
    pub runs: RunList,
}
