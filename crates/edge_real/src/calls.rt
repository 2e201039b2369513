ghost use Rattle.std.specs.Prelude.{◌≡◌, false};
ghost use Rattle.edge_io.specs.Causes.{CountsFault, HasCause};
ghost use Rattle.edge_io.specs.Serving.{Gives};

use crate::fault::{SystemCall, SystemFault};
use crate::link::TcpLink;
use crate::notices::SocketNotices;
use edge_io::{Failed, Listener};
use std::io::ErrorKind;
use std::marker::Model;
use std::net::{Net, OpenStream, TcpStream};
use std::time::{Clock, Duration};
use std::{io, thread};

/// Links to a TCP address, one more at each call. More may always come.
///
/// A connection that is refused is tried again for 30 seconds, with pauses between, as where a server is started anew;
/// then it is a fault. Any other fault of connecting is told at once. A link ends once it has waited for a byte as long
/// as it may.
#[derive(Drop)]
pub struct TcpCalls<R: Net, N> {
    rt: R,
    host: String,
    port: u16,
    idle: Option<Duration>,
    notices: N,
    given: u64,
    faults: u64,
    last: Option<SystemFault>,
}

impl<R: Net, N> Model for TcpCalls<R, N> {
    ghost use Rattle.edge_real.specs.Sockets.{Accepting};

    ghost Value = { Accepting };

    ghost view = { λ l. record { given = l.given; faults = l.faults } };
}

// The pause behind a connection that was refused, and how often there is one: 30 seconds in all.
const PAUSE_MS: u64 = 100;

const PAUSES: u32 = 300;

impl<R: Net, N> TcpCalls<R, N> {
    /// Links to this host and port. Nothing is asked of the system yet. A link waits so long for a byte at most, and for
    /// ever where no time is given.
    pub fn new(rt: R, host: String, port: u16, idle: Option<Duration>, notices: N) -> TcpCalls<R, N>
        ensures { result ≡ record { given = 0; faults = 0 } }
    {
        TcpCalls {
            rt,
            host,
            port,
            idle,
            notices,
            given: 0,
            faults: 0,
            last: None,
        }
    }

    /// What the system said at the last fault.
    pub fn last_fault(&self) -> Option<SystemFault> {
        self.last
    }
}

// Connects to an address. Where that is refused, it is tried again.
fn connect<R: Net + Clock>(rt: &R, host: &str, port: u16) -> io::Result<R::Stream> {
    for _ in 0..PAUSES {
        match TcpStream::connect(rt, (host, port)) {
            Err(error) if error.kind() == ErrorKind::ConnectionRefused => {
                thread::sleep(rt, Duration::from_millis(PAUSE_MS));
            }
            connected => return connected,
        }
    }
    TcpStream::connect(rt, (host, port))
}

impl<R: Net + Clock, N: SocketNotices> TcpCalls<R, N> {
    // The next link. It sends each request at once, without Nagle's delay, and waits for a byte as long as it may; where
    // either can't be had, it goes without.
    fn call(&self) -> io::Result<TcpLink<R::Stream, N>> {
        let stream = connect(&self.rt, self.host.as_str(), self.port)?;
        let peer = stream.peer_addr()?;
        let _ = stream.set_nodelay(true);
        let _ = stream.set_read_timeout(self.idle);
        Ok(TcpLink::new(stream, peer, self.notices.for_link()))
    }
}

impl<R: Net + Clock, N: SocketNotices> Listener for TcpCalls<R, N> {
    type L = TcpLink<R::Stream, N>;

    ghost given = { λ l. l.given };

    ghost done = { λ _. false };

    ghost faults = { λ l. l.faults };

    fn next(&mut self) -> Result<Option<TcpLink<R::Stream, N>>, Failed>
        ensures gives { Gives self.old.given self.new.given false false result }
        ensures cause { HasCause self.old.faults self.new.faults result }
        ensures faults { CountsFault self.old.faults self.new.faults result }
    {
        match self.call() {
            Ok(link) => {
                self.given = self.given.saturating_add(1);
                Ok(Some(link))
            }
            Err(error) => {
                self.last = Some(SystemFault {
                    call: SystemCall::Connect,
                    error,
                });
                self.faults = self.faults.saturating_add(1);
                Err(Failed)
            }
        }
    }
}
