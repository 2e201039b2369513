//! What a server's run is recorded by: a tape of each shard and a tape of each link, and the events that these give.
#![tactic(auto)]

mod law;
mod list;
mod recorder;
mod tag;
mod tape;

pub use law::a_whole_tape_has_each_tag;
pub use list::Growing;
pub use recorder::Recorder;
pub use tag::{Tag, Tagged};
pub use tape::{FrameList, LinkStep, LinkTape, ShardTape, StepList, TagList, TapeState, Taping};
