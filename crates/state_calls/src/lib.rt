//! The calls on the states of share partitions (KIP-932): Initialize-, Read-, Write- and DeleteShareGroupState, each
//! as a fold over the partitions of its request.
#![tactic(auto)]

mod delete;
mod hosting;
mod initialize;
mod law;
mod place;
mod plan;
mod read;
mod reply;
mod state;
mod told;
mod write;

pub use delete::{Delete, Deleting};
pub use hosting::Hosting;
pub use initialize::{Beginning, Initialize};
pub use law::each_partition_is_told_by_its_own_part;
pub use place::{Place, Shape};
pub use plan::{Question, Wished};
pub use read::{Read, Reading};
pub use state::{StateCall, StateHand, state_call};
pub use write::{Write, Writing};
