/// What a fetch of a group would find on a partition now: whether a record may be acquired.
#[derive(Clone, Copy)]
pub enum Offer {
    /// The group has no table on the partition: none of its members has fetched from it yet.
    NoTable,
    /// The least slot that may be acquired, among the first 2000 from the start of the group's table.
    Slot { offset: u64 },
    /// None of these slots may be acquired.
    Nothing,
}
