use crate::fault::StoreFault;

/// The answer to a request that the records of a log below an offset be deleted, where -1 stands for its end.
#[derive(Clone, Copy)]
pub enum DeleteAnswer {
    /// They are deleted, now or before: this is where the log starts.
    Done { start: u64 },
    /// There is no such offset: it is below -1, or behind the log's end, which is this.
    OutOfRange { end: u64 },
    /// The new start couldn't be stored: the log starts where it did. After `Device` the write may be pending, and a
    /// crash may leave it done.
    Store(StoreFault),
}

/// Where a batch was placed in a log, and where the log started then.
#[derive(Clone, Copy)]
pub struct Placed {
    pub base: u64,
    pub start: u64,
}
