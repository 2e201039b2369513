/// How an armed fault breaks a call.
#[derive(Clone, Copy)]
pub enum FaultMode {
    /// The call does nothing, and the disk is disarmed.
    Once,
    /// A write writes the first half of its bytes, rounded down; any other call does nothing. The disk is disarmed.
    Torn,
    /// As `Torn`, and every later call fails too and does nothing, until a power loss.
    Dead,
}

/// The fault that a disk is armed with. It counts reads, writes, cuts and syncs.
#[derive(Clone, Copy)]
pub enum Armed {
    /// No call is broken.
    Nothing,
    /// This many calls pass, and the next one is broken.
    After { passes: u64, mode: FaultMode },
    /// Every call is broken.
    Broken,
}
