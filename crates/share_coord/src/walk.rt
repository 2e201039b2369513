// Where the walk over the frames of a journal stands.
#[derive(Clone, Copy)]
pub(crate) enum Walk {
    /// At the first frame.
    First,
    /// Behind a head and snapshots.
    Snapshots,
    /// Behind other frames.
    Records,
}
