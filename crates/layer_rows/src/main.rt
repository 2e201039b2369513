//! Worked examples of the lower layers: formats, stores on disks in memory, what adapters ask of the system, links
//! and clocks in memory, windows, runs, waits, merges of tapes, texts, and a share consumer.
//!
//! A line `layer NAME` before the cases of a file says which they are about: `formats`, `stores`, `adapters`,
//! `links`, `windows`, `runs`, `parts`, `waits`, `merges`, `texts`, `queues` or `consumers`. The head of the file with that name
//! in `src/` says which lines there are.
#![tactic(auto)]

mod acks;
mod adapters;
mod batches;
mod bay;
mod calls;
mod case;
mod consumers;
mod described;
mod disks;
mod fakes;
mod formats;
mod heard;
mod kinds;
mod links;
mod logs;
mod merges;
mod messages;
mod parts;
mod plain;
mod queues;
mod records;
mod runs;
mod sessions;
mod standing;
mod stores;
mod streams;
mod texts;
mod values;
mod waits;
mod windows;

use case::Case;
use row_text::run_files;
use std::io;

fn main(rt: HostRuntime) -> io::Result<()> {
    run_files(&rt, Case::new(rt.alloc())?)
}
