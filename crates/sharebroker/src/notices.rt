// What a server says on standard error as it goes: that it listens, and the faults of its sockets and files.
use edge_io::CloseReason;
use edge_real::{SocketNotices, SystemFault};
use std::alloc::Global;
use std::net::SocketAddr;
use std::sync::Arc;
use std::sync::atomic::{AtomicU64, Ordering};
use std::time::SystemTime;

// How many faults have a line of their own in one second.
const MOST: u64 = 10;

/// The faults that were told in this second, and those that were left out since the last line.
#[derive(Drop)]
pub struct Pace {
    second: AtomicU64,
    told: AtomicU64,
    left_out: AtomicU64,
    // The tries to accept a client that failed since one was accepted.
    refused: AtomicU64,
    // The clients that were accepted, and those that a worker has begun with.
    accepted: AtomicU64,
    begun: AtomicU64,
    // The clients that were accepted up to the last look, and how many were told to wait.
    looked: AtomicU64,
    told_waiting: AtomicU64,
}

impl Pace {
    pub fn new() -> Pace {
        Pace {
            second: AtomicU64::new(0),
            told: AtomicU64::new(0),
            left_out: AtomicU64::new(0),
            refused: AtomicU64::new(0),
            accepted: AtomicU64::new(0),
            begun: AtomicU64::new(0),
            looked: AtomicU64::new(0),
            told_waiting: AtomicU64::new(0),
        }
    }

    // How many clients wait, where one has waited since the last look, a second ago, and not as many were told.
    fn waiting(&self) -> u64 {
        let begun = self.begun.load(Ordering::SeqCst);
        let accepted = self.accepted.load(Ordering::SeqCst);
        let before = self.looked.swap(accepted, Ordering::SeqCst);
        let waiting = if before > begun {
            accepted.saturating_sub(begun)
        } else {
            0
        };
        if self.told_waiting.swap(waiting, Ordering::SeqCst) == waiting {
            return 0;
        }
        waiting
    }

    // Whether one more fault may have a line in this second.
    fn admits(&self, second: u64) -> bool {
        if self.second.swap(second, Ordering::SeqCst) != second {
            self.told.store(0, Ordering::SeqCst);
        }
        if self.told.fetch_add(1, Ordering::SeqCst) < MOST {
            return true;
        }
        self.left_out.fetch_add(1, Ordering::SeqCst);
        false
    }
}

/// Tells on standard error. It may go to another thread.
#[derive(Drop)]
pub struct Teller {
    rt: HostRuntime,
    pace: Option<Arc<Pace, Global>>,
    partitions: u32,
    workers: u32,
}

// The ending of a word for so many.
fn plural(count: u32) -> &'static str {
    if count == 1 { "" } else { "s" }
}

// The seconds since 1970.
fn seconds(rt: &HostRuntime) -> u64 {
    let Ok(now) = SystemTime::now(rt) else {
        return 0;
    };
    match now.duration_since(SystemTime::UNIX_EPOCH) {
        Ok(since) => since.as_secs(),
        Err(_) => 0,
    }
}

impl Teller {
    /// A teller of a server with so many partitions and workers. Without a pace it tells no faults.
    pub fn new(
        rt: HostRuntime,
        pace: Option<Arc<Pace, Global>>,
        partitions: u32,
        workers: u32,
    ) -> Teller {
        Teller {
            rt,
            pace,
            partitions,
            workers,
        }
    }

    /// Another one with the same pace.
    pub fn again(&self) -> Teller {
        let pace = match &self.pace {
            Some(pace) => Arc::try_clone(pace).ok(),
            None => None,
        };
        Teller::new(self.rt, pace, self.partitions, self.workers)
    }

    /// Tells of how many faults had no line since the last one that had.
    pub fn tell_left_out(&self) {
        let Some(pace) = &self.pace else {
            return;
        };
        let left_out = pace.left_out.swap(0, Ordering::SeqCst);
        if left_out > 0 {
            let rt = &self.rt;
            let _ = eprintln!(rt; "sharebroker: {left_out} more faults");
        }
    }

    // Whether this second has room for one more line. How many had none before is told.
    fn admits(&self) -> bool {
        let Some(pace) = &self.pace else {
            return false;
        };
        if !pace.admits(seconds(&self.rt)) {
            return false;
        }
        self.tell_left_out();
        true
    }

    /// Tells a fault of a socket or a file, if this second has room for its line.
    pub fn tell_fault(&self, of: &str, fault: SystemFault) {
        if !self.admits() {
            return;
        }
        let rt = &self.rt;
        let _ = eprintln!(rt; "sharebroker: {of}: {fault}");
    }
}

impl SocketNotices for Teller {
    fn listening(&self, at: SocketAddr) {
        let (rt, partitions, workers) = (&self.rt, self.partitions, self.workers);
        let (many, more) = (plural(partitions), plural(workers));
        let _ = eprintln!(rt;
            "sharebroker: listening on {at}, {partitions} partition{many}, {workers} worker{more}"
        );
    }

    fn waiting(&self, fault: SystemFault) {
        let Some(pace) = &self.pace else {
            return;
        };
        if pace.refused.fetch_add(1, Ordering::SeqCst) == 0 {
            self.tell_fault(
                "a client couldn't be accepted, and it is tried again",
                fault,
            );
        }
    }

    fn failed(&self, peer: SocketAddr, fault: SystemFault) {
        let Ok(peer) = format!(in self.rt.alloc(); "{peer}") else {
            return;
        };
        self.tell_fault(peer.as_str(), fault);
    }

    fn idle(&self, peer: SocketAddr) {
        if !self.admits() {
            return;
        }
        let rt = &self.rt;
        let _ = eprintln!(rt; "sharebroker: {peer}: closed, as nothing came from it for so long");
    }

    fn closed(&self, peer: SocketAddr, reason: Option<CloseReason>) {
        if !self.admits() {
            return;
        }
        let rt = &self.rt;
        let _ = match reason {
            Some(reason) => eprintln!(rt; "sharebroker: {peer}: closed, as {reason}"),
            None => eprintln!(rt; "sharebroker: {peer}: closed before it was served"),
        };
    }

    fn for_link(&self) -> Teller {
        if let Some(pace) = &self.pace {
            pace.accepted.fetch_add(1, Ordering::SeqCst);
            let refused = pace.refused.swap(0, Ordering::SeqCst);
            if refused > 1 {
                let rt = &self.rt;
                let _ = eprintln!(rt;
                    "sharebroker: clients are accepted again, behind {refused} tries"
                );
            }
        }
        self.again()
    }

    fn begun(&self) {
        if let Some(pace) = &self.pace {
            pace.begun.fetch_add(1, Ordering::SeqCst);
        }
    }

    fn for_clock(&self) -> Teller {
        self.again()
    }

    fn pausing(&self) {
        if let Some(pace) = &self.pace {
            let waiting = pace.waiting();
            if waiting > 0 {
                let (rt, workers) = (&self.rt, self.workers);
                let many = if waiting == 1 { " waits" } else { "s wait" };
                let more = plural(workers);
                let _ = eprintln!(rt;
                    "sharebroker: {waiting} connection{many} for one of {workers} worker{more}"
                );
            }
        }
    }
}
