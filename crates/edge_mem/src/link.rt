ghost use Rattle.std.specs.Prelude.{◌≡◌, ◌↔◌, ◌+◌, [], Some, IfSome, IsTrue};
ghost use Rattle.std.specs.Io.{ReadsAtMost, WritesAtMost};
ghost use Rattle.std.specs.Io.KnownBytes.{ReadConsumes, WriteAppends};
ghost use Rattle.edge_io.specs.Causes.{HasCause};
ghost use Rattle.edge_io.specs.Streams.{EndsBy, TakesSome};
ghost use Rattle.edge_mem.specs.Streams.{GivesBytes, TakesBytes};

use crate::sink::MemSink;
use crate::source::MemSource;
use edge_io::{CloseReason, Failed, Link, Sink, Source};
use std::marker::Model;

/// A link in memory: a source has what the peer sends, and a sink keeps what it is sent. Each of their calls fails
/// where they do.
#[derive(Drop)]
pub struct MemLink {
    source: MemSource,
    sink: MemSink,
}

impl Model for MemLink {
    ghost use Rattle.edge_mem.specs.Streams.{Joined};

    ghost Value = { Joined };

    ghost view = { λ l. record { source = l.source; sink = l.sink } };
}

impl MemLink {
    pub fn new(source: MemSource, sink: MemSink) -> MemLink
        ensures { result ≡ record { source = source; sink = sink } }
    {
        MemLink { source, sink }
    }

    /// What was written, in order.
    pub fn bytes(&self) -> &[u8]
        ensures { result.now ≡ self.now.sink.held }
    {
        self.sink.bytes()
    }
}

impl Link for MemLink {
    ghost left = { λ l. Some l.source.left };

    ghost ended = { λ l. l.source.ended };

    ghost held = { λ l. Some l.sink.held };

    ghost faults = { λ l. l.source.faults + l.sink.faults };

    fn read(&mut self, into: &mut [u8]) -> Result<usize, Failed>
        ensures bound { ReadsAtMost result into.new }
        ensures bytes { ReadConsumes (Some self.old.source.left) (Some self.new.source.left) result into.new }
        ensures end { EndsBy self.old.source.ended self.new.source.ended result into.new }
        ensures cause { HasCause (self.old.source.faults + self.old.sink.faults) (self.new.source.faults + self.new.sink.faults) result }
        ensures gives { GivesBytes self.old.source self.new.source into.old into.new result }
        ensures same { self.new.sink ≡ self.old.sink }
    {
        self.source.read(into)
    }

    fn write(&mut self, bytes: &[u8]) -> Result<usize, Failed>
        ensures bound { WritesAtMost result bytes.now }
        ensures some { TakesSome result bytes.now }
        ensures bytes { WriteAppends (Some self.old.sink.held) (Some self.new.sink.held) result bytes.now }
        ensures cause { HasCause (self.old.source.faults + self.old.sink.faults) (self.new.source.faults + self.new.sink.faults) result }
        ensures takes { TakesBytes self.old.sink self.new.sink bytes.now result }
        ensures same { self.new.source ≡ self.old.source }
    {
        self.sink.write(bytes)
    }

    fn is_at_end(&self) -> bool
        ensures { IfSome (Some self.now.source.left) (λ bytes. IsTrue result ↔ (bytes ≡ [])) }
    {
        self.source.is_at_end()
    }

    fn closed(&mut self, _reason: CloseReason)
        ensures { self.new ≡ self.old }
    {}
}
