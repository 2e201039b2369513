ghost use Rattle.std.specs.Prelude.{◌≡◌, ◌&&◌, nat_eq, nat_lt, None, length, false};
ghost use Rattle.std.specs.Io.{ReadsAtMost, WritesAtMost};
ghost use Rattle.edge_io.specs.Causes.{CountsFault, HasCause};
ghost use Rattle.edge_io.specs.Streams.{EndsBy, TakesSome};

use crate::fault::{SystemCall, SystemFault};
use edge_io::{Failed, Sink, Source};
use std::io;
use std::io::{ErrorKind, Read, Write};
use std::marker::Model;

/// A source over a reader, as standard input. It tells no bytes. A read that a signal interrupts is tried again.
#[derive(Drop)]
pub struct ReaderSource<R> {
    reader: R,
    ended: bool,
    faults: u64,
    last: Option<SystemFault>,
}

impl<R> Model for ReaderSource<R> {
    ghost use Rattle.edge_real.specs.Streams.{Reading};

    ghost Value = { Reading };

    ghost view = { λ s. record { ended = s.ended; faults = s.faults } };
}

impl<R: Read> ReaderSource<R> {
    /// A source that has not ended, with no faults.
    pub fn new(reader: R) -> Self
        ensures { result ≡ record { ended = false; faults = 0 } }
    {
        ReaderSource {
            reader,
            ended: false,
            faults: 0,
            last: None,
        }
    }

    /// What the system said at the last read that it did not do.
    pub fn last_fault(&self) -> Option<SystemFault> {
        self.last
    }
}

/// One read, which is tried again where a signal interrupts it.
pub fn read_retrying<R: Read>(reader: &mut R, into: &mut [u8]) -> io::Result<usize>
    ensures bound { ReadsAtMost result into.new }
{
    for _ in 0..u64::MAX {
        match reader.read(into) {
            Ok(count) => return Ok(count),
            Err(error) if error.kind() == ErrorKind::Interrupted => {}
            Err(error) => return Err(error),
        }
    }
    Err(io::Error::from(ErrorKind::Interrupted))
}

/// Whether that many bytes, read into this, are the end.
pub fn is_end(count: usize, into: &[u8]) -> bool
    ensures { result ≡ (nat_eq count 0 && nat_lt 0 (length into.now)) }
{
    count == 0 && !into.is_empty()
}

impl<R: Read> Source for ReaderSource<R> {
    ghost left = { λ _. None };

    ghost ended = { λ s. s.ended };

    ghost faults = { λ s. s.faults };

    fn read(&mut self, into: &mut [u8]) -> Result<usize, Failed>
        ensures bound { ReadsAtMost result into.new }
        ensures end { EndsBy self.old.ended self.new.ended result into.new }
        ensures cause { HasCause self.old.faults self.new.faults result }
        ensures faults { CountsFault self.old.faults self.new.faults result }
    {
        match read_retrying(&mut self.reader, into) {
            Ok(count) => {
                self.ended = self.ended | is_end(count, into);
                Ok(count)
            }
            Err(error) => {
                self.last = Some(SystemFault {
                    call: SystemCall::Read,
                    error,
                });
                self.faults = self.faults.saturating_add(1);
                Err(Failed)
            }
        }
    }
}

/// A sink over a writer, as standard output. It tells no bytes. Each write is flushed, so that what was taken is out.
///
/// A write that takes nothing of a piece, and a flush that fails, are faults. A write that a signal interrupts is
/// tried again.
#[derive(Drop)]
pub struct WriterSink<W> {
    writer: W,
    faults: u64,
    last: Option<SystemFault>,
}

impl<W> Model for WriterSink<W> {
    ghost use Rattle.std.specs.Prelude.{ℕ};

    ghost Value = { ℕ };

    ghost view = { λ s. s.faults };
}

impl<W: Write> WriterSink<W> {
    /// A sink with no faults.
    pub fn new(writer: W) -> Self
        ensures { result ≡ 0 }
    {
        WriterSink {
            writer,
            faults: 0,
            last: None,
        }
    }

    /// What the system said at the last write or flush that it did not do.
    pub fn last_fault(&self) -> Option<SystemFault> {
        self.last
    }
}

// One write, which is tried again where a signal interrupts it.
fn write_retrying<W: Write>(writer: &mut W, bytes: &[u8]) -> io::Result<usize>
    ensures bound { WritesAtMost result bytes.now }
{
    for _ in 0..u64::MAX {
        match writer.write(bytes) {
            Ok(count) => return Ok(count),
            Err(error) if error.kind() == ErrorKind::Interrupted => {}
            Err(error) => return Err(error),
        }
    }
    Err(io::Error::from(ErrorKind::Interrupted))
}

/// One write. One that takes nothing of a piece that isn't empty is none.
pub fn write_some<W: Write>(writer: &mut W, bytes: &[u8]) -> io::Result<usize>
    ensures bound { WritesAtMost result bytes.now }
    ensures some { TakesSome result bytes.now }
{
    match write_retrying(writer, bytes) {
        Ok(0) if !bytes.is_empty() => Err(io::Error::from(ErrorKind::WriteZero)),
        Ok(count) => Ok(count),
        Err(error) => Err(error),
    }
}

// One write and a flush.
fn write_out<W: Write>(writer: &mut W, bytes: &[u8]) -> Result<usize, SystemFault>
    ensures bound { WritesAtMost result bytes.now }
    ensures some { TakesSome result bytes.now }
{
    let count = match write_some(writer, bytes) {
        Ok(count) => count,
        Err(error) => return Err(SystemFault {
            call: SystemCall::Write,
            error,
        }),
    };
    match writer.flush() {
        Ok(()) => Ok(count),
        Err(error) => Err(SystemFault {
            call: SystemCall::Flush,
            error,
        }),
    }
}

impl<W: Write> Sink for WriterSink<W> {
    ghost held = { λ _. None };

    ghost faults = { λ s. s };

    fn write(&mut self, bytes: &[u8]) -> Result<usize, Failed>
        ensures bound { WritesAtMost result bytes.now }
        ensures some { TakesSome result bytes.now }
        ensures cause { HasCause self.old self.new result }
        ensures faults { CountsFault self.old self.new result }
    {
        match write_out(&mut self.writer, bytes) {
            Ok(count) => Ok(count),
            Err(fault) => {
                self.last = Some(fault);
                self.faults = self.faults.saturating_add(1);
                Err(Failed)
            }
        }
    }
}
