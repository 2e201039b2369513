use crate::ack::{AckFault, AckList};
use crate::blob::Blob;
use crate::fault::StoreFault;
use crate::lists::Grants;
use crate::name::Name;

/// What one lock guards: the state of a hosted partition, of all group memberships, or of the partitions that aren't
/// hosted.
#[derive(Clone, Copy)]
pub enum ShardId {
    /// The hosted partition with this number.
    Part(u32),
    /// The members of all groups.
    Members,
    /// The share-partition states that are kept for other brokers.
    Foreign,
}

/// What a share request asks of one hosted partition for a member of a group: its acknowledgements, and what follows
/// them.
#[derive(Drop)]
pub struct Visit {
    pub group: Name,
    pub member: Name,
    pub acks: AckList,
    pub then: Then,
}

/// What follows the acknowledgements, whether they are taken or refused.
#[derive(Clone, Copy)]
pub enum Then {
    /// Nothing.
    Nothing,
    /// All that the member holds is released.
    Release,
    /// Records are acquired: at most `records` of them, in batches of at most `bytes` bytes together. Where `first`, no
    /// batch is in the reply yet, and the first one goes out whatever its size.
    Fetch {
        records: u32,
        bytes: u32,
        first: bool,
    },
}

/// What became of a visit: of the acknowledgements, and of what followed them; the runs of offsets that were
/// acquired; and the batches that cover these, each once, whole and in order.
#[derive(Drop)]
pub struct VisitAnswer {
    pub ack: AckOutcome,
    pub then: ThenOutcome,
    pub grants: Grants,
    pub batches: Blob,
}

/// What became of the acknowledgements of one partition. They are all taken, or none is.
#[derive(Clone, Copy)]
pub enum AckOutcome {
    /// They are stored, or none is of an offset from the log's start on.
    Done,
    /// They aren't well formed.
    Malformed(AckFault),
    /// The member doesn't hold this offset, the least such one from the log's start on.
    NotHeld { offset: u64 },
    /// They couldn't be stored.
    Store(StoreFault),
}

/// What became of that which follows the acknowledgements.
#[derive(Clone, Copy)]
pub enum ThenOutcome {
    /// It is done.
    Done,
    /// It couldn't be stored, or a batch couldn't be read. Nothing was released or acquired.
    Store(StoreFault),
}

/// What became of an expiry. `freed` counts the records that were given back, over all groups.
#[derive(Clone, Copy)]
pub enum ExpireAnswer {
    /// Each record whose lock had ended is given back.
    Done {
        freed: u64,
    },
    /// The releases of `group` couldn't be stored. Those of the groups before it are; nothing was given back of it
    /// and of the groups behind it.
    Store {
        freed: u64,
        group: Name,
        fault: StoreFault,
    },
}
