ghost use Rattle.std.specs.Prelude.{◌≡◌, ◌↔◌, [], List, Bool, ℕ, OnOk, IfSome, IsTrue};
ghost use Rattle.std.specs.declared.option.Option.{Option};
ghost use Rattle.std.specs.Io.{ReadsAtMost, WritesAtMost};
ghost use Rattle.std.specs.Io.KnownBytes.{Appends, ReadConsumes, WriteAppends};
ghost use Rattle.edge_io.specs.Causes.{HasCause};
ghost use Rattle.edge_io.specs.Streams.{AppendsFront, EndsBy, TakesSome};

use crate::closing::CloseReason;
use crate::streams::Failed;

/// One connection: the bytes that its peer sends, and those that it is sent.
///
/// It is a trait of its own and no source beside a sink: a read changes nothing of what was sent, a write nothing of
/// what is left to be read, and one count has the faults of both.
pub trait Link {
    /// The bytes that are left to be read, where the link tells them. A socket tells nothing.
    ghost left: { Self → Option (List ℕ) };

    /// Whether a read has answered that no more bytes come.
    ghost ended: { Self → Bool };

    /// The bytes that were taken, where the link tells them.
    ghost held: { Self → Option (List ℕ) };

    /// How many faults there were, of reads and of writes. A count that stands at `u64::MAX` or above needn't rise.
    ghost faults: { Self → ℕ };

    /// Reads some bytes to the front of `into` and answers how many. 0 is the end, if `into` has room.
    fn read(&mut self, into: &mut [u8]) -> Result<usize, Failed>
        ensures bound { ReadsAtMost result into.new }
        ensures bytes { ReadConsumes (left self.old) (left self.new) result into.new }
        ensures end { EndsBy (ended self.old) (ended self.new) result into.new }
        ensures same { held self.new ≡ held self.old }
        ensures cause { HasCause (faults self.old) (faults self.new) result };

    /// Takes a front of `bytes`, at least one byte unless `bytes` is empty, and answers how many it took.
    fn write(&mut self, bytes: &[u8]) -> Result<usize, Failed>
        ensures bound { WritesAtMost result bytes.now }
        ensures some { TakesSome result bytes.now }
        ensures bytes { WriteAppends (held self.old) (held self.new) result bytes.now }
        ensures same { (left self.new ≡ left self.old) × (ended self.new ≡ ended self.old) }
        ensures cause { HasCause (faults self.old) (faults self.new) result };

    /// Looks whether the peer has ended, with nothing left to be read. It takes no byte and waits for none; a link that
    /// can't tell answers that the peer hasn't.
    fn is_at_end(&self) -> bool
        ensures { IfSome (left self.now) (λ bytes. IsTrue result ↔ (bytes ≡ [])) };

    /// Tells why the broker closes the connection, for a person to read.
    fn closed(&mut self, reason: CloseReason)
        ensures left { left self.new ≡ left self.old }
        ensures ended { ended self.new ≡ ended self.old }
        ensures held { held self.new ≡ held self.old }
        ensures faults { faults self.new ≡ faults self.old };
}

/// Writes all of `bytes` to a link. At an `Err` the link has taken a front of them. Nothing is read.
pub fn send_all<K: Link>(link: &mut K, bytes: &[u8]) -> Result<(), Failed>
    ensures ok { OnOk result (Appends (K.held link.old) (K.held link.new) bytes.now) }
    ensures front { (rest : List ℕ) × AppendsFront (K.held link.old) (K.held link.new) bytes.now rest }
    ensures same { (K.left link.new ≡ K.left link.old) × (K.ended link.new ≡ K.ended link.old) }
    ensures cause { HasCause (K.faults link.old) (K.faults link.new) result }
{
    let mut rest = bytes;
    while !rest.is_empty() {
        let count = link.write(rest)?;
        let (_, after) = rest.split_at(count);
        rest = after;
    }
    Ok(())
}
