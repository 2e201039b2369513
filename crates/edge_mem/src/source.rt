ghost use Rattle.std.specs.Prelude.{◌≡◌, ◌↔◌, ◌<◌, ◌≤◌, ◌&&◌, ◌++◌, IsTrue};
ghost use Rattle.std.specs.Prelude.{nat_eq, nat_lt, min, Some, take, drop, length, [], false};
ghost use Rattle.std.specs.Io.{ReadsAtMost};
ghost use Rattle.std.specs.Io.KnownBytes.{ReadConsumes};
ghost use Rattle.edge_io.specs.Causes.{HasCause};
ghost use Rattle.edge_io.specs.Streams.{EndsBy};
ghost use Rattle.edge_mem.specs.Streams.{GivesBytes};

use crate::numbered::Calls;
use edge_io::{Failed, Source};
use std::marker::Model;

/// A source over bytes in memory. A read gives as many bytes as it has room for, up to the end.
#[derive(Drop)]
pub struct MemSource {
    bytes: Vec<u8>,
    place: usize,
    calls: Calls,
    ended: bool,
}

impl Model for MemSource {
    ghost use Rattle.std.specs.Prelude.{◌≤◌, drop, length};
    ghost use Rattle.edge_mem.specs.Streams.{Supply};

    ghost Value = { Supply };

    ghost view = { λ s. record { left = drop s.place s.bytes.items; failing = s.calls.failing; calls = s.calls.made; ended = s.ended; faults = s.calls.faults } };

    ghost invariant = { λ s. s.place ≤ length s.bytes.items };
}

impl MemSource {
    /// A source of `bytes`. The calls whose numbers, from 0 on, are in `failing` fail.
    pub fn new(bytes: Vec<u8>, failing: Vec<u64>) -> Self
        ensures { result ≡ record { left = bytes.items; failing = failing.items; calls = 0; ended = false; faults = 0 } }
    {
        MemSource {
            bytes,
            place: 0,
            calls: Calls::new(failing),
            ended: false,
        }
    }

    /// Whether no byte is left.
    pub fn is_at_end(&self) -> bool
        ensures { IsTrue result ↔ (self.now.left ≡ []) }
    {
        self.bytes[self.place..].is_empty()
    }
}

// Copies as many bytes as both have, and answers how many.
fn copy_front(from: &[u8], into: &mut [u8]) -> usize
    ensures count { result ≡ min (length from.now) (length into.new) }
    ensures parts { from.now ≡ take result into.new ++ drop result from.now }
{
    let count = from.len().min(into.len());
    into[..count].copy_from_slice(&from[..count]);
    count
}

fn is_end(count: usize, into: &[u8]) -> bool
    ensures { result ≡ (nat_eq count 0 && nat_lt 0 (length into.now)) }
{
    count == 0 && !into.is_empty()
}

impl Source for MemSource {
    ghost left = { λ s. Some s.left };

    ghost ended = { λ s. s.ended };

    ghost faults = { λ s. s.faults };

    fn read(&mut self, into: &mut [u8]) -> Result<usize, Failed>
        ensures bound { ReadsAtMost result into.new }
        ensures bytes { ReadConsumes (Some self.old.left) (Some self.new.left) result into.new }
        ensures end { EndsBy self.old.ended self.new.ended result into.new }
        ensures cause { HasCause self.old.faults self.new.faults result }
        ensures gives { GivesBytes self.old self.new into.old into.new result }
    {
        self.calls.begin()?;
        let count = copy_front(&self.bytes[self.place..], into);
        self.place += count;
        self.ended = self.ended | is_end(count, into);
        Ok(count)
    }
}
