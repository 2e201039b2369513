//! Record batches of version 2, as producers send them and as a log keeps them.
#![tactic(auto)]

mod form;
mod header;
mod laws;
mod passing;
mod place;
mod places;
mod read;
mod rec;
mod walk;
mod write;

pub use form::{BatchView, Form};
pub use laws::{bytes_have_one_first_fault, records_stand_one_behind_another};
pub use place::place_batch;
pub use places::{RecordAt, record_at};
pub use read::read_batch;
pub use rec::Rec;
pub use write::{fits_batch, write_batch};
