/// What a job has for itself, on whatever thread it runs.
pub trait JobOwned: Drop + Send + 'static {}

impl<T: Drop + Send + 'static> JobOwned for T {}

/// What jobs have together.
pub trait JobShared: JobOwned + Sync {}

impl<T: JobOwned + Sync> JobShared for T {}
