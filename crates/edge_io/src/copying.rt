ghost use Rattle.std.specs.Prelude.{◌≡◌, ◌≢◌, ◌≤◌, ◌++◌, List, ℕ, OnOk, IfSome, IsErrOf, Err, true};
ghost use Rattle.std.specs.Io.KnownBytes.{Appends};
ghost use Rattle.edge_io.specs.Causes.{Rose, HasCause};
ghost use Rattle.edge_io.specs.Streams.{AppendsFront, Gains, Spills};
ghost use Rattle.edge_io.specs.declared.copying.ReadError.TheVariants.{NoMemory};

use crate::{Failed, Sink, Source};
use std::alloc::AllocError;
use std::error::Error;
use std::fmt;

/// Writes all of `bytes`. At an `Err` the sink has taken a front of them.
pub fn write_all<K: Sink>(sink: &mut K, bytes: &[u8]) -> Result<(), Failed>
    ensures ok { OnOk result (Appends (K.held sink.old) (K.held sink.new) bytes.now) }
    ensures front { (rest : List ℕ) × AppendsFront (K.held sink.old) (K.held sink.new) bytes.now rest }
    ensures cause { HasCause (K.faults sink.old) (K.faults sink.new) result }
    ensures counted { OnOk result (K.faults sink.new ≡ K.faults sink.old) }
{
    let mut rest = bytes;
    while !rest.is_empty() {
        let count = sink.write(rest)?;
        let (_, after) = rest.split_at(count);
        rest = after;
    }
    Ok(())
}

/// Why a source was not read to its end.
#[derive(Clone, Copy, Debug)]
pub enum ReadError {
    /// The source failed.
    Failed,
    /// There was no memory for what it gave.
    NoMemory,
}

impl fmt::Display for ReadError {
    fn fmt<W: fmt::Write>(&self, f: &mut fmt::Formatter<W>) -> fmt::Result {
        match self {
            ReadError::Failed => write!(f, "the source failed"),
            ReadError::NoMemory => write!(f, "out of memory"),
        }
    }
}

impl Error for ReadError {}

impl From<AllocError> for ReadError {
    ghost from_gives = { λ _ e. e ≡ NoMemory };

    fn from(_e: AllocError) -> ReadError {
        ReadError::NoMemory
    }
}

/// Reads a source to its end, and puts the bytes behind those of `out`.
///
/// At `Failed` `out` has gained what was read before the fault. At `NoMemory` it has gained all that was read but the
/// last piece, of at most 4096 bytes, which is lost.
pub fn read_to_end<S: Source>(source: &mut S, out: &mut Vec<u8>) -> Result<(), ReadError>
    ensures ok { OnOk result (IfSome (S.left source.old) (λ bytes. out.new.items ≡ out.old.items ++ bytes)) }
    ensures end { OnOk result (S.ended source.new ≡ true) }
    ensures gains { result ≢ Err ReadError.NoMemory → Gains (S.left source.old) (S.left source.new) out.old.items out.new.items }
    ensures spills { IsErrOf result ReadError.NoMemory → Spills (S.left source.old) (S.left source.new) out.old.items out.new.items }
    ensures later { S.faults source.old ≤ S.faults source.new }
    ensures failed { IsErrOf result ReadError.Failed → Rose (S.faults source.old) (S.faults source.new) }
{
    for _ in 0..u64::MAX {
        let mut piece = [0; 4096];
        let Ok(count) = source.read(&mut piece) else {
            return Err(ReadError::Failed);
        };
        if count == 0 {
            return Ok(());
        }
        out.extend_from_slice(&piece[..count])?;
    }
    unreachable!()
}
