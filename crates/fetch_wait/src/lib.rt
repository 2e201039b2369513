//! A fetch that waits: a future that is polled by hand, and the loop that polls it.
//!
//! What it waits for is behind the trait [`Watch`]: places that may have something, a timer and a clock. It registers with
//! all of them before it looks, so that what comes behind a look wakes it. That a wake comes isn't claimed.
#![tactic(auto)]

mod law;
mod queue;
mod run;
#[cfg(test)]
mod tests;
mod wait;
mod watch;

pub use law::the_last_call_ends_a_poll;
pub use queue::make_queue;
pub use run::block_on;
pub use wait::{FetchWait, WaitEnd};
pub use watch::{Watch, WatchCall};
