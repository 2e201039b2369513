use share_model::Blob;

/// One of the two links of a consumer.
#[derive(Clone, Copy, Debug)]
pub enum LinkKind {
    /// It carries the heartbeats.
    Group,
    /// It carries fetches and acknowledgements.
    Data,
}

/// What a consumer is to do next.
#[derive(Drop)]
pub enum ClientStep {
    /// To send this frame on the group link.
    Heartbeat(Blob),
    /// To send this frame on the data link.
    Fetch(Blob),
    /// To write these lines.
    Write(Blob),
    /// To wait for a reply, or until this moment.
    Wait { until: u64 },
    /// Nothing more.
    Done,
}

/// Whether a frame is the reply that was awaited.
#[derive(Clone, Copy, Debug)]
pub enum Took {
    /// It is.
    Taken,
    /// No request with its correlation id awaits a reply on that link. Nothing changes.
    Stray,
}
