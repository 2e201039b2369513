//! The share sessions of one connection (KIP-932): which session a ShareFetch or ShareAcknowledge belongs to, whether
//! its epoch is the next one, and the list of visits to partitions that it asks for.
#![tactic(auto)]

mod change;
mod fault;
mod law;
mod plan;
mod planned;
mod refusal;
mod repeats;
mod session;
mod sessions;
mod step;
mod visits;
mod wanted;

pub use change::SessionChange;
pub use fault::SessionFault;
pub use law::{a_member_has_one_session, a_partition_joins_once, each_partition_is_visited_once};
pub use plan::next_epoch;
pub use planned::Planned;
pub use repeats::has_batches;
pub use session::Session;
pub use sessions::Sessions;
pub use step::{PlanStep, Purpose, VisitPlan};
