/// Where a group begins on a partition that it has not read before.
#[derive(Clone, Copy)]
pub enum Reset {
    /// At the end of the log.
    Latest,
    /// Where the log starts.
    Earliest,
}
