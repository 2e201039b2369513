use thiserror::Error;

/// Why a log was not opened.
#[derive(Clone, Copy, Debug, Error)]
pub enum OpenFault {
    /// The content is no log text: at this place stands an open gate that no frame and gate follow, or whose frame is
    /// neither a stored batch that begins at the end of the log before it or behind, nor a mark that is above the start
    /// of that log and at its end at most.
    #[error("the log is damaged at byte {place}")]
    Damaged { place: u64 },
    /// The disk failed.
    #[error("the disk of the log failed")]
    Device,
    /// There was no memory for a frame, or for the index of the batches.
    #[error("out of memory")]
    NoMemory,
}
