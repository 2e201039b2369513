/// A batch of a log, without its bytes.
#[derive(Drop)]
pub struct Entry {
    /// Its first offset.
    pub base: u64,
    /// Its last offset.
    pub last: u64,
    /// The number of its bytes.
    pub size: u32,
    /// The place of its frame's gate in the journal.
    pub place: u64,
}
