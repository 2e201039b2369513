//! A share consumer as a program runs it: its two links and its timer in jobs of their own, and beside them the core of
//! `share_client`, which is told what they bring and whose lines are written.
#![tactic(auto)]

mod end;
mod jobs;
mod last_line;
mod mailbox;
mod post;
mod program;
mod reply;
mod timer;
mod turn;

pub use end::ConsumeEnd;
pub use program::consume;
