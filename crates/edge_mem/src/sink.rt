ghost use Rattle.std.specs.Prelude.{◌≡◌, Some, [], false};
ghost use Rattle.std.specs.Io.{WritesAtMost};
ghost use Rattle.std.specs.Io.KnownBytes.{WriteAppends};
ghost use Rattle.edge_io.specs.Causes.{HasCause};
ghost use Rattle.edge_io.specs.Streams.{TakesSome};
ghost use Rattle.edge_mem.specs.Streams.{TakesBytes};

use crate::numbered::Calls;
use edge_io::{Failed, Sink};
use std::alloc::Global;
use std::marker::Model;

/// A sink that keeps what it takes in memory. A write takes the whole piece.
#[derive(Drop)]
pub struct MemSink {
    bytes: Vec<u8>,
    calls: Calls,
    starved: bool,
}

impl Model for MemSink {
    ghost use Rattle.edge_mem.specs.Streams.{Collected};

    ghost Value = { Collected };

    ghost view = { λ s. record { held = s.bytes.items; failing = s.calls.failing; calls = s.calls.made; starved = s.starved; faults = s.calls.faults } };
}

impl MemSink {
    /// A sink that holds nothing yet. The calls whose numbers, from 0 on, are in `failing` fail, as do those
    /// that find no memory.
    pub fn new(alloc: Global, failing: Vec<u64>) -> Self
        ensures { result ≡ record { held = []; failing = failing.items; calls = 0; starved = false; faults = 0 } }
    {
        MemSink {
            bytes: Vec::new(alloc),
            calls: Calls::new(failing),
            starved: false,
        }
    }

    /// What was written, in order.
    pub fn bytes(&self) -> &[u8]
        ensures { result.now ≡ self.now.held }
    {
        &self.bytes
    }

    /// Whether a call has failed for want of memory.
    pub fn starved(&self) -> bool
        ensures { result ≡ self.now.starved }
    {
        self.starved
    }
}

impl Sink for MemSink {
    ghost held = { λ s. Some s.held };

    ghost faults = { λ s. s.faults };

    fn write(&mut self, bytes: &[u8]) -> Result<usize, Failed>
        ensures bound { WritesAtMost result bytes.now }
        ensures some { TakesSome result bytes.now }
        ensures bytes { WriteAppends (Some self.old.held) (Some self.new.held) result bytes.now }
        ensures cause { HasCause self.old.faults self.new.faults result }
        ensures takes { TakesBytes self.old self.new bytes.now result }
    {
        self.calls.begin()?;
        if self.bytes.extend_from_slice(bytes).is_err() {
            self.starved = true;
            return Err(self.calls.fail());
        }
        Ok(bytes.len())
    }
}
