/// Where a batch stands in a log.
#[derive(Clone, Copy)]
pub struct BatchPlace {
    /// The number of batches before it.
    pub number: u64,
    /// Its first offset.
    pub base: u64,
    /// Its last offset.
    pub last: u64,
    /// The number of its bytes.
    pub size: u32,
}
