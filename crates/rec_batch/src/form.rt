/// Which of a batch's rules apply.
#[derive(Clone, Copy)]
pub enum Form {
    /// As a producer sends it: its offsets count up from 0, and its base offset says nothing yet.
    Produced,
    /// As a log keeps it: it has its base offset, and records may have been taken out of it.
    Stored,
}

/// The numbers of a batch's header.
#[derive(Clone, Copy)]
pub struct BatchView {
    /// The offset of the first slot; 0 where a produced batch has a number below 0 there.
    pub base: u64,
    /// How far the last slot is behind the first.
    pub last_delta: u32,
    /// The number of records.
    pub count: u32,
    /// The number of bytes, the header's included.
    pub size: u32,
}
