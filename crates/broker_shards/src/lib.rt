//! The shards of a broker as several threads share them. Each does one event at a time, and the relation that its
//! lock's history keeps is the machine's own step.
#![tactic(auto)]

mod asking;
mod foreign;
mod law;
mod members;
mod part;
mod told;

pub use asking::{ShardAsk, ask_of};
pub use foreign::{ForeignEvent, ForeignHost, act_on_foreign};
pub use law::{a_partition_tells_what_is_asked, each_history_ends_in_an_act};
pub use members::{MembersAsk, MembersEvent, MembersHost, MembersTold, act_on_members};
pub use part::{PartAsk, PartEvent, PartHost, PartTold, PartWindow, act_on_part};
pub use share_model::Moment;
pub use told::answer_of;
