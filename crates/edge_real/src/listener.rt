ghost use Rattle.std.specs.Prelude.{◌≡◌, false};
ghost use Rattle.edge_io.specs.Causes.{CountsFault, HasCause};
ghost use Rattle.edge_io.specs.Serving.{Gives};

use crate::fault::{SystemCall, SystemFault};
use crate::link::TcpLink;
use crate::notices::SocketNotices;
use edge_io::{Failed, Listener};
use std::io::ErrorKind;
use std::marker::Model;
use std::net::{Net, OpenListener, OpenStream, SocketAddr, TcpListener};
use std::time::{Clock, Duration};
use std::{io, thread};

/// The links that come to a TCP socket. More may always come.
///
/// The first `next` binds the socket; where that fails, the next one tries again. A fault of accepting that passes,
/// as a peer that is gone again and no descriptor that is free, is told, and after a pause it is tried again. A link ends
/// once it has waited for a byte as long as it may.
#[derive(Drop)]
pub struct TcpLinks<R: Net, N> {
    rt: R,
    host: String,
    port: u16,
    idle: Option<Duration>,
    listener: Option<R::Listener>,
    notices: N,
    given: u64,
    faults: u64,
    last: Option<SystemFault>,
}

impl<R: Net, N> Model for TcpLinks<R, N> {
    ghost use Rattle.edge_real.specs.Sockets.{Accepting};

    ghost Value = { Accepting };

    ghost view = { λ l. record { given = l.given; faults = l.faults } };
}

// The pause before a peer is accepted again.
const PAUSE_MS: u64 = 10;

// The numbers of Linux for the faults of `accept` that say nothing of the socket itself. Its manual page names those
// of the network, which are to be tried again; of the others the process or the machine has no descriptor or no room
// left for now.
const PASSING: [i32; 18] = [
    1, 4, 11, 12, 23, 24, 64, 71, 92, 95, 100, 101, 103, 104, 105, 110, 112, 113,
];

/// Whether a fault of accepting passes by itself.
fn passes(error: &io::Error) -> bool {
    match error.raw_os_error() {
        Some(code) => PASSING.contains(&code),
        None => false,
    }
}

// The next peer, and its address.
fn accept<R: Clock, L: OpenListener, N: SocketNotices>(
    rt: &R,
    listener: &L,
    notices: &N,
) -> io::Result<(L::Stream, SocketAddr)> {
    for _ in 0..u64::MAX {
        match listener.accept() {
            Ok(accepted) => return Ok(accepted),
            Err(error) if passes(&error) => {
                notices.waiting(SystemFault {
                    call: SystemCall::Accept,
                    error,
                });
                thread::sleep(rt, Duration::from_millis(PAUSE_MS));
            }
            Err(error) => return Err(error),
        }
    }
    Err(io::Error::from(ErrorKind::Interrupted))
}

impl<R: Net, N: SocketNotices> TcpLinks<R, N> {
    /// The links that come to this host's address and port. Nothing is asked of the system yet. The port 0 stands for
    /// one that the system chooses. A link waits so long for a byte at most, and for ever where no time is given.
    pub fn new(rt: R, host: String, port: u16, idle: Option<Duration>, notices: N) -> TcpLinks<R, N>
        ensures { result ≡ record { given = 0; faults = 0 } }
    {
        TcpLinks {
            rt,
            host,
            port,
            idle,
            listener: None,
            notices,
            given: 0,
            faults: 0,
            last: None,
        }
    }

    /// What the system said at the last fault.
    pub fn last_fault(&self) -> Option<SystemFault> {
        self.last
    }

    // Binds the socket, and tells its address.
    fn bind(&self) -> io::Result<R::Listener> {
        let listener = TcpListener::bind(&self.rt, (self.host.as_str(), self.port))?;
        self.notices.listening(listener.local_addr()?);
        Ok(listener)
    }
}

impl<R: Net + Clock, N: SocketNotices> TcpLinks<R, N> {
    // The next link. It sends each reply at once, without Nagle's delay, and waits for a byte as long as it may; where
    // either can't be had, it goes without.
    fn accept(&mut self) -> Result<TcpLink<R::Stream, N>, SystemFault>
        ensures { self.new ≡ self.old }
    {
        if self.listener.is_none() {
            match self.bind() {
                Ok(listener) => self.listener = Some(listener),
                Err(error) => return Err(SystemFault {
                    call: SystemCall::Bind,
                    error,
                }),
            }
        }
        let Some(listener) = &self.listener else {
            unreachable!()
        };
        match accept(&self.rt, listener, &self.notices) {
            Ok((stream, peer)) => {
                let _ = stream.set_nodelay(true);
                let _ = stream.set_read_timeout(self.idle);
                Ok(TcpLink::new(stream, peer, self.notices.for_link()))
            }
            Err(error) => Err(SystemFault {
                call: SystemCall::Accept,
                error,
            }),
        }
    }
}

impl<R: Net + Clock, N: SocketNotices> Listener for TcpLinks<R, N> {
    type L = TcpLink<R::Stream, N>;

    ghost given = { λ l. l.given };

    ghost done = { λ _. false };

    ghost faults = { λ l. l.faults };

    fn next(&mut self) -> Result<Option<TcpLink<R::Stream, N>>, Failed>
        ensures gives { Gives self.old.given self.new.given false false result }
        ensures cause { HasCause self.old.faults self.new.faults result }
        ensures faults { CountsFault self.old.faults self.new.faults result }
    {
        match self.accept() {
            Ok(link) => {
                self.given = self.given.saturating_add(1);
                Ok(Some(link))
            }
            Err(fault) => {
                self.last = Some(fault);
                self.faults = self.faults.saturating_add(1);
                Err(Failed)
            }
        }
    }
}
