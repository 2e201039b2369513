//! The calls on the logs of hosted partitions: Produce and DeleteRecords, each as a fold over the
//! partitions of its request.
#![tactic(auto)]

mod codes;
mod delete;
mod law;
mod plan;
mod produce;
mod reply;
mod shape;

pub use codes::batch_code;
pub use delete::{DeleteHand, Target, delete_call};
pub use law::{each_batch_is_told_by_its_own_log, each_delete_is_told_by_its_own_log};
pub use plan::Offer;
pub use produce::{ProduceHand, produce_call};
pub use shape::NamedShape;
