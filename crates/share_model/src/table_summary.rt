/// How far a group has come with the records of a partition, as a describe tells it (KIP-932, the start and the lag of
/// a share-partition).
#[derive(Clone, Copy)]
pub struct TableSummary {
    /// Where the group's table starts: each record below is complete or deleted.
    pub start: u64,
    /// The end of the partition's log.
    pub end: u64,
    /// How many offsets from the start to the end aren't complete, which is neither acknowledged nor archived.
    pub lag: u64,
    /// How many records members hold.
    pub held: u64,
    /// The moment in milliseconds at which the first of their acquisition locks ends. `None` where no record is held.
    pub first_lock_end: Option<u64>,
    /// How many records from the start on are acknowledged.
    pub acknowledged: u64,
    /// How many offsets from the start on are archived: rejected, gaps, or given up at the delivery limit.
    pub archived: u64,
}
