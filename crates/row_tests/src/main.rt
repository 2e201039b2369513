//! Worked examples of the whole broker: command lines, and recorded sessions that are run in memory.
//!
//! A case is these lines.
//!
//! | Line | Means |
//! |---|---|
//! | `words W ..` | the words of the command line, of this case and of those behind it |
//! | `then W ..` | the words of a command that is run over the same disks behind the session |
//! | `gen N` | the script that `gen N` writes |
//! | `> LINE` | a line of the script |
//! | `send C HEX ..` | the line `bytes C HEX`; blanks in the hex are for reading |
//! | `bytewise C HEX ..` | such a line for each byte |
//! | `batches C N FIRST STEP HEX ..` | lines `bytes C` of N state batches of one offset, FIRST and then each STEP further: the offset twice, in eight bytes each, and the hex; 2500 of them stand on a line |
//! | `cut TEXT` | text without a line feed |
//! | `segment HEX ..` | bytes of the input, behind the script; blanks in the hex are for reading |
//! | `read-fault N`, `write-fault N` | the call of the input or output that fails, counted from 0 |
//! | `bay-fault N` | the call for a disk that fails, counted from 0; of a replay the disks of the partitions come first, in their order, of each its `log`, `state-a` and `state-b`, and then `foreign/state-a` and `foreign/state-b`; of a load there is the log alone |
//! | `disk NAME HEX ..` | the content of a disk before the run; one that has no such line is empty |
//! | `flip XX FIRST LAST` | the session is run once for each byte, from place FIRST to LAST, of the disk of the line before it; in that run this byte is changed, by an exclusive or with XX; further such lines add to the bytes |
//! | `with MARK WORD ..` | the session is run once for each WORD, which stands in place of MARK in the script; of two such lines once for each pair, and so on |
//! | `fronts MARK HEX ..` | the same with each proper front of these bytes, from the first byte alone to all but the last |
//! | `armed NAME N MODE` | a fault of a disk that is armed before the run |
//! | `left NAME HEX ..` | the content that a disk is wanted to have behind the run |
//! | `< LINE` | a line that is wanted |
//! | `reply C HEX ..` | the line `reply C HEX` is wanted |
//! | `status N` | the session is run, and has to write those lines and to end with N |
//! | `status N M` | the same, where a command is run behind it, which has to end with M |
//! | `lines N` | the session is run, and has to write so many lines, with status 0 |
//! | `again` | the events of the script are read, and written; that has to give the script without its `end` |
//! | `settings TEXT` | the words are read, and have to give these settings: those of a load behind `shard N`, of a replay that tells numbers behind `summary`, of `gen` as `rounds N`, and those of a server behind `listen H:P workers N accept N` |
//! | `bay TEXT` | the words have to want this bay: `memory`, or `folder N`, where the word N, counted from 0, names the folder |
#![tactic(auto)]

mod case;
mod disks;
mod judge;
mod runs;

use case::Case;
use row_text::run_files;
use std::io;

fn main(rt: HostRuntime) -> io::Result<()> {
    run_files(&rt, Case::new(rt.alloc()))
}
