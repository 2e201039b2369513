//! What is acquired in a share partition, as a window: its trait, and the two lists on which a window by runs stands.
#![tactic(auto)]

mod hold_list;
mod index;
mod pairs;
mod run;
mod steps;
mod window;

pub use hold_list::HoldList;
pub use index::LockIndex;
pub use run::{HoldRun, run_lists_are_unique};
pub use steps::Steps;
pub use window::Window;
