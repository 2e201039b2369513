ghost use Rattle.std.specs.Prelude.{◌≡◌, List, Bool, ℕ, OnOk};
ghost use Rattle.std.specs.declared.option.Option.{Option};
ghost use Rattle.std.specs.Io.{ReadsAtMost, WritesAtMost};
ghost use Rattle.std.specs.Io.KnownBytes.{ReadConsumes, WriteAppends};
ghost use Rattle.edge_io.specs.Causes.{HasCause};
ghost use Rattle.edge_io.specs.Streams.{EndsBy, TakesSome};

use std::error::Error;
use std::fmt;

/// A call that the outside did not do. The count of faults of what was called has risen.
#[derive(Clone, Copy, Debug, PartialEq, Eq)]
pub struct Failed;

impl fmt::Display for Failed {
    fn fmt<W: fmt::Write>(&self, f: &mut fmt::Formatter<W>) -> fmt::Result {
        write!(f, "the device failed")
    }
}

impl Error for Failed {}

/// Where bytes come from: standard input, a connection, memory.
pub trait Source {
    /// The bytes that are left, where the source tells them. A file or a socket tells nothing.
    ghost left: { Self → Option (List ℕ) };

    /// Whether a read has answered that no more bytes come.
    ghost ended: { Self → Bool };

    /// How many faults there were. The count stays at `u64::MAX` once it is there.
    ghost faults: { Self → ℕ };

    /// Reads some bytes to the front of `into` and answers how many. 0 is the end, if `into` has room.
    ///
    /// After an `Err` nothing is known of the bytes that are left, unless the source says so itself.
    fn read(&mut self, into: &mut [u8]) -> Result<usize, Failed>
        ensures bound { ReadsAtMost result into.new }
        ensures bytes { ReadConsumes (left self.old) (left self.new) result into.new }
        ensures end { EndsBy (ended self.old) (ended self.new) result into.new }
        ensures cause { HasCause (faults self.old) (faults self.new) result };
}

/// Where bytes go: standard output, a connection, memory.
pub trait Sink {
    /// The bytes that were taken, where the sink tells them.
    ghost held: { Self → Option (List ℕ) };

    /// How many faults there were. The count stays at `u64::MAX` once it is there.
    ghost faults: { Self → ℕ };

    /// Takes a front of `bytes`, at least one byte unless `bytes` is empty, and answers how many it took. Only a
    /// write that fails raises the count of faults.
    fn write(&mut self, bytes: &[u8]) -> Result<usize, Failed>
        ensures bound { WritesAtMost result bytes.now }
        ensures some { TakesSome result bytes.now }
        ensures bytes { WriteAppends (held self.old) (held self.new) result bytes.now }
        ensures cause { HasCause (faults self.old) (faults self.new) result }
        ensures counted { OnOk result (faults self.new ≡ faults self.old) };
}
