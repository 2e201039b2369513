use share_model::{Grant, Room};

/// What a fetch will take: the runs of the offsets, the numbers of the batches, and how many offsets and bytes these
/// are.
#[derive(Drop)]
pub struct Plan {
    pub grants: Vec<Grant>,
    pub numbers: Vec<u64>,
    pub count: u32,
    pub size: u32,
}

/// What a fetch will take of a table, planned before the write that comes before it: of the table as it is, and as that
/// write will leave it, where there is one. The room is large enough for either.
#[derive(Drop)]
pub struct Ready {
    pub stays: Plan,
    pub moves: Option<Plan>,
    pub out: Room,
}
