ghost use Rattle.std.specs.Prelude.{◌≡◌, None, false};
ghost use Rattle.std.specs.Io.{ReadsAtMost, WritesAtMost};
ghost use Rattle.edge_io.specs.Causes.{CountsFault, HasCause};
ghost use Rattle.edge_io.specs.Streams.{EndsBy, TakesSome};

use crate::fault::{SystemCall, SystemFault};
use crate::notices::SocketNotices;
use crate::streams::{is_end, read_retrying, write_some};
use edge_io::{CloseReason, Failed, Link};
use std::io;
use std::io::{ErrorKind, Read, Write};
use std::marker::Model;
use std::net::{OpenStream, SocketAddr};

/// A link over a stream, as a TCP socket. It tells no bytes.
///
/// A call that a signal interrupts is tried again; a write that takes nothing of a piece is a fault. Where no byte comes
/// within the stream's timeout for reads, the link has ended, as if its peer had. Each fault is told with the peer's
/// address, and so are such an end, why the broker closes the connection, and the drop of a link of which nothing was
/// told and which hasn't ended.
pub struct TcpLink<S, N: SocketNotices> {
    stream: S,
    peer: SocketAddr,
    notices: N,
    ended: bool,
    faults: u64,
    is_told: bool,
    is_begun: bool,
}

impl<S, N: SocketNotices> Model for TcpLink<S, N> {
    ghost use Rattle.edge_real.specs.Streams.{Reading};

    ghost Value = { Reading };

    ghost view = { λ l. record { ended = l.ended; faults = l.faults } };
}

impl<S, N: SocketNotices> TcpLink<S, N> {
    /// A link that has not ended, with no faults.
    pub fn new(stream: S, peer: SocketAddr, notices: N) -> TcpLink<S, N>
        ensures { result ≡ record { ended = false; faults = 0 } }
    {
        TcpLink {
            stream,
            peer,
            notices,
            ended: false,
            faults: 0,
            is_told: false,
            is_begun: false,
        }
    }

    // Tells what the system said of a call that was not done.
    fn tell(&self, call: SystemCall, error: io::Error) {
        self.notices.failed(self.peer, SystemFault { call, error });
    }
}

impl<S: Drop, N: SocketNotices + Drop> Drop for TcpLink<S, N> {
    fn drop(self) {
        if !self.is_begun {
            self.notices.begun();
        }
        if !self.ended && self.faults == 0 && !self.is_told {
            self.notices.closed(self.peer, None);
        }
        let TcpLink {
            stream: _stream,
            peer: _,
            notices: _notices,
            ended: _,
            faults: _,
            is_told: _,
            is_begun: _,
        } = self;
    }
}

// Whether this fault of a look says that the connection is no more.
fn is_gone(error: &io::Error) -> bool {
    matches!(
        error.kind(),
        ErrorKind::ConnectionReset
            | ErrorKind::ConnectionAborted
            | ErrorKind::NotConnected
            | ErrorKind::BrokenPipe
            | ErrorKind::TimedOut
    )
}

// Whether the peer of a stream has ended, with nothing left to be read. It doesn't wait.
fn has_ended<S: OpenStream>(stream: &S) -> bool {
    if stream.set_nonblocking(true).is_err() {
        return false;
    }
    let found = stream.peek(&mut [0]);
    let _ = stream.set_nonblocking(false);
    match found {
        Ok(count) => count == 0,
        Err(error) => is_gone(&error),
    }
}

impl<S: Read + Write + OpenStream, N: SocketNotices> Link for TcpLink<S, N> {
    ghost left = { λ _. None };

    ghost ended = { λ l. l.ended };

    ghost held = { λ _. None };

    ghost faults = { λ l. l.faults };

    fn read(&mut self, into: &mut [u8]) -> Result<usize, Failed>
        ensures bound { ReadsAtMost result into.new }
        ensures end { EndsBy self.old.ended self.new.ended result into.new }
        ensures cause { HasCause self.old.faults self.new.faults result }
        ensures faults { CountsFault self.old.faults self.new.faults result }
    {
        if !self.is_begun {
            self.is_begun = true;
            self.notices.begun();
        }
        match read_retrying(&mut self.stream, into) {
            Ok(count) => {
                self.ended = self.ended | is_end(count, into);
                Ok(count)
            }
            Err(error) if error.kind() == ErrorKind::WouldBlock => {
                self.notices.idle(self.peer);
                self.ended = self.ended | is_end(0, into);
                Ok(0)
            }
            Err(error) => {
                self.tell(SystemCall::Read, error);
                self.faults = self.faults.saturating_add(1);
                Err(Failed)
            }
        }
    }

    fn write(&mut self, bytes: &[u8]) -> Result<usize, Failed>
        ensures bound { WritesAtMost result bytes.now }
        ensures some { TakesSome result bytes.now }
        ensures same { self.new.ended ≡ self.old.ended }
        ensures cause { HasCause self.old.faults self.new.faults result }
        ensures faults { CountsFault self.old.faults self.new.faults result }
    {
        match write_some(&mut self.stream, bytes) {
            Ok(count) => Ok(count),
            Err(error) => {
                self.tell(SystemCall::Write, error);
                self.faults = self.faults.saturating_add(1);
                Err(Failed)
            }
        }
    }

    fn is_at_end(&self) -> bool {
        has_ended(&self.stream)
    }

    fn closed(&mut self, reason: CloseReason)
        ensures { self.new ≡ self.old }
    {
        self.notices.closed(self.peer, Some(reason));
        self.is_told = true;
    }
}
