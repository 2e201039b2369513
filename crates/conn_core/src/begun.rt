use crate::hand::Hand;
use crate::kept::Kept;
use call_fold::Stage;
use share_session::SessionChange;

/// With what a request begins.
#[derive(Drop)]
pub struct Begun {
    /// Its first part, or its reply.
    pub stage: Stage<Hand>,
    /// What it does to the share sessions of its connection, if it does something.
    pub change: Option<Kept<SessionChange>>,
}
