use edge_io::{DiskName, FaultMode};
use share_model::{Blob, CloseCause, Name, ShardId};

/// One line of a recorded session: what happens to the broker.
#[derive(Drop)]
pub enum Event {
    /// A client has connected. Connections are numbered by the script.
    Open {
        conn: u32,
    },
    /// These bytes have come from the client.
    Bytes {
        conn: u32,
        bytes: Blob,
    },
    /// The client has closed the connection.
    Close {
        conn: u32,
    },
    /// The broker does one step of the connection, at this moment in milliseconds.
    Step {
        conn: u32,
        now: u64,
    },
    /// The broker frees what is locked no longer on this partition of the topic of this name, at this moment in
    /// milliseconds.
    Expire {
        topic: Name,
        part: u32,
        now: u64,
    },
    /// The broker drops the members that are heard of no longer, at this moment in milliseconds.
    Tick {
        now: u64,
    },
    /// The next `after` calls of this disk pass, and the one after them is broken.
    Arm {
        disk: DiskName,
        after: u64,
        mode: FaultMode,
    },
    /// Each disk loses power, with this choice of what it leaves, and all is opened again.
    Power {
        choice: u64,
    },
}

/// What an event makes the broker do, as a client sees it.
#[derive(Drop)]
pub enum Outcome {
    /// An expiry on this shard, or a release in a visit to it, couldn't be stored.
    Fault { shard: ShardId },
    /// A reply is sent: the whole frame, its size included.
    Reply { conn: u32, frame: Blob },
    /// The connection is closed.
    Closed { conn: u32, cause: CloseCause },
    /// Power was lost, and all is opened again.
    Restarted,
}
