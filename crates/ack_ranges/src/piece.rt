use share_model::AckKind;

/// Consecutive offsets, `first` and `last` with them, of which acknowledgement batches say one thing.
#[derive(Clone, Copy)]
pub struct Piece {
    pub first: u64,
    pub last: u64,
    pub kind: AckKind,
}
