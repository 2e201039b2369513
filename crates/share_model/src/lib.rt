//! The plain data of share groups that every other crate speaks of, and the definitions that are said of it.
#![tactic(auto)]

mod ack;
mod batch_place;
mod blob;
mod close_cause;
mod delete;
mod fault;
mod foreign;
mod hold;
mod key;
mod lists;
mod moment;
mod name;
mod offer;
mod reset;
mod room;
mod row;
mod run;
mod table_summary;
mod visit;

pub use ack::{AckBatch, AckFault, AckKind, AckList};
pub use batch_place::BatchPlace;
pub use blob::Blob;
pub use close_cause::CloseCause;
pub use delete::{DeleteAnswer, Placed};
pub use fault::{BatchFault, BatchRead, Code, LogFault, StoreFault, codes_have_their_numbers};
pub use flex_fields::NoMemory;
pub use foreign::{ForeignAnswer, ForeignOp, StateBatch};
pub use hold::{Grant, Hold};
pub use key::Key;
pub use lists::{Grants, RunList, StateBatchList};
pub use moment::Moment;
pub use name::Name;
pub use offer::Offer;
pub use reset::Reset;
pub use room::Room;
pub use row::{Row, RowState};
pub use run::{Run, canonical_runs_are_unique};
pub use table_summary::TableSummary;
pub use visit::{AckOutcome, ExpireAnswer, ShardId, Then, ThenOutcome, Visit, VisitAnswer};
