// What happens to a content.

/// A change of a content, or a power loss.
#[derive(Drop)]
pub enum Change {
    Write { place: usize, bytes: Vec<u8> },
    Cut { to: usize },
    Loss { choice: u64 },
}

/// A change, and whether a sync followed it.
#[derive(Drop)]
pub struct Step {
    pub change: Change,
    pub synced: bool,
}
