//! The list types of the plain data, which contracts see as lists of fewer than 2^32 - 1 items.
use crate::foreign::StateBatch;
use crate::hold::Grant;
use crate::run::Run;
use flex_fields::Items;

/// Runs of stored rows.
pub type RunList = Items<Run>;

/// Runs of acquired offsets.
pub type Grants = Items<Grant>;

/// State batches, not yet judged.
pub type StateBatchList = Items<StateBatch>;
