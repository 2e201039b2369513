/// Why tapes give no session.
#[derive(Clone, Copy)]
pub enum MergeFault {
    /// No step and no tag name each other here: this is the least such step.
    Unmatched { link: u32, step: u64 },
    /// The order of the links and that of the tapes have a cycle together: this is the least step of one.
    Tangled { link: u32, step: u64 },
    /// There was no memory.
    NoMemory,
}
