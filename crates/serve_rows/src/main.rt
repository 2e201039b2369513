//! Worked examples of a server as several threads run it: links whose peers wait for each other, jobs that are
//! refused, a listener that fails, locks that expire, and partitions that are written beside each other. Of a share
//! consumer, whose links have peers that play the broker. And of the locks under which threads act.
//!
//! A case is these lines, and the last one of it says what has to come of them. Those on a peer are about the link
//! that was begun last: it takes its lines in order as its link is read, and closes behind the last one.
//!
//! | Line | Means |
//! |---|---|
//! | `words W ..` | the words of the server, of this case and of those behind it |
//! | `step MS` | by how much each clock goes on at each answer, 0 by default; a pause lasts a millisecond |
//! | `link` | one link more |
//! | `send HEX ..` | the peer sends these bytes |
//! | `last HEX ..` | it sends these, and no more is read behind them |
//! | `gets HEX ..` | it has been sent these and no others since |
//! | `again HEX ..` | it sends these bytes, |
//! | `until HEX ..` | .. and again until it is sent these, at most 20000 times |
//! | `set N`, `clear N` | it sets or clears the signal N, 0 to 7 |
//! | `await N` | it waits until the signal N is set |
//! | `hold-write` | the first write of 85 bytes and more on `orders/0/log` sets signal 1, and waits until signal 2 is set |
//! | `refuse N` | the job numbered N, from 0, is refused |
//! | `listener-fails N` | the call for a link that is numbered N, from 0, fails |
//! | `status N` | the links are served, and the server ends with the status N |
//! | `gated served` | the links are served to their end by a server in which each part of link 0 waits until link 1 has a reply |
//! | `woken served` | the same, where clocks stand still until they were asked 10 million times: link 1 waits until link 0 has |
//! | | a reply and they were asked a million times more, and the next reply of link 0 comes before they go on |
//! | `numbered served N` | the links are served, and a gate hears the numbers of links that have one reply each: they go up from 0 to below N |
//! | `expiries N ..` | no threads: each link is served to its end, and behind each is a turn of expiries with so many faults |
//! | `socket N` | the peer of the one link is a client of a TCP socket, which sends and gets; the server ends with the status N |
//! | `consumer W ..` | the words of a consumer beside a server |
//! | `consumed N LINES` | the words are those of a consumer: it ends with the status N, and has written these lines, each with a `;` |
//! | | behind it. The peers play the broker; one with no lines isn't needed |
//! | `beside N LINES` | the server runs over a TCP socket; the one peer is a client of it, and behind that a consumer over sockets |
//! | | ends with the status N and these lines, and the server with 0 |
//! | `shard-lock N ..`, `turn-lock N ..` | no server: two threads act 1,000 times each under such a lock, and it gives back so many acts |
//! | `slow-shard-lock N ..`, `slow-turn-lock N ..` | the same with 20 acts each, which last longer than a thread spins for its turn |
//! | `closed-shard-lock N ..`, `closed-turn-lock N ..` | such a lock of one pass, which is closed with no act, gives back what it was made with |
//!
//! While signal 0 is set each write to a disk fails. A wait ends after 20000 looks at its signal with a pause of a
//! millisecond between, and then the case fails; one for asks of clocks ends after 100000.
#![tactic(auto)]

mod board;
mod case;
mod consuming;
mod disks;
mod edges;
mod locks;
mod peer;
mod serving;
mod socket;
mod turns;

use case::{Tally, run_file};
use std::{env, io};

fn main(rt: HostRuntime) -> io::Result<()> {
    let mut tally = Tally {
        passed: 0,
        failed: 0,
    };
    for file in env::args(&rt)?.skip(1) {
        run_file(&rt, rt, &mut tally, file.as_str())?;
    }
    println!(rt; "{} passed, {} failed", tally.passed, tally.failed)
}
