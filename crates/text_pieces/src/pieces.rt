ghost use Rattle.std.specs.Prelude.{◌≡◌, ◌≢◌, ◌<◌, ◌++◌, [], length, take, Err, OnOk, OnErr};
ghost use Rattle.std.specs.Fmt.{decimal, signed_decimal};
ghost use Rattle.hex.specs.Hex.{encode_lower};
ghost use Rattle.text_pieces.specs.Pieces.{HandsFull, WritesPieces, piece_size};

use crate::fault::GenFault;
use edge_io::{Sink, write_all};
use flex_fields::NoMemory;
use itoa::Buffer;
use std::alloc::Global;
use std::marker::Model;

/// From this many bytes on a piece is handed to its sink.
const PIECE_SIZE: usize = 65536;

/// The piece of a text that waits to be written. A contract sees its bytes.
///
/// After a refusal for want of memory it has the bytes that it had before.
#[derive(Drop)]
pub struct Pieces {
    waiting: Vec<u8>,
}

impl Model for Pieces {
    ghost use Rattle.std.specs.Prelude.{List, ℕ};

    ghost Value = { List ℕ };

    ghost view = { λ p. p.waiting.items };
}

impl Pieces {
    /// Nothing waits. It takes no memory.
    pub fn new(alloc: Global) -> Pieces
        ensures { result ≡ [] }
    {
        Pieces {
            waiting: Vec::new(alloc),
        }
    }

    /// Adds a text.
    pub fn put(&mut self, text: &str) -> Result<(), NoMemory>
        ensures ok { OnOk result (self.new ≡ self.old ++ text.now) }
        ensures err { OnErr result (self.new ≡ self.old) }
    {
        self.waiting.extend_from_slice(text.as_bytes())?;
        Ok(())
    }

    /// Adds a number in decimal digits.
    pub fn put_number(&mut self, number: u64) -> Result<(), NoMemory>
        ensures ok { OnOk result (self.new ≡ self.old ++ decimal number) }
        ensures err { OnErr result (self.new ≡ self.old) }
    {
        let mut digits = Buffer::new();
        self.put(digits.format(number))
    }

    /// Adds a number in decimal digits, with a `-` before them where it is below 0.
    pub fn put_signed(&mut self, number: i64) -> Result<(), NoMemory>
        ensures ok { OnOk result (self.new ≡ self.old ++ signed_decimal number) }
        ensures err { OnErr result (self.new ≡ self.old) }
    {
        let mut digits = Buffer::new();
        self.put(digits.format(number))
    }

    /// Adds two hexadecimal digits for each byte, in lower case.
    pub fn put_hex(&mut self, bytes: &[u8]) -> Result<(), NoMemory>
        ensures ok { OnOk result (self.new ≡ self.old ++ encode_lower bytes.now) }
        ensures err { OnErr result (self.new ≡ self.old) }
    {
        let start = self.waiting.len();
        let Some(end) = bytes
            .len()
            .checked_mul(2)
            .and_then(|size| start.checked_add(size))
        else {
            return Err(NoMemory);
        };
        self.waiting.resize(end, 0)?;
        let (_, digits) = self.waiting.split_at_mut(start);
        match hex::encode_to_slice(bytes, digits) {
            Ok(()) => Ok(()),
            Err(_) => unreachable!(),
        }
    }

    /// How many bytes wait.
    pub fn waits(&self) -> usize
        ensures { result ≡ length self.now }
    {
        self.waiting.len()
    }

    /// Forgets what waits behind so many bytes.
    pub fn truncate(&mut self, len: usize)
        ensures { self.new ≡ take len self.old }
    {
        self.waiting.truncate(len);
    }

    /// Hands what waits to a sink. Then nothing waits, and the memory is kept for what comes next. At an `Err` the
    /// sink has taken a front of it, and it waits still.
    pub fn hand_on<O: Sink>(&mut self, output: &mut O) -> Result<(), GenFault>
        ensures written { WritesPieces (O.held output.old) (O.held output.new)
            (O.faults output.old) (O.faults output.new) self.old result }
        ensures ok { OnOk result (self.new ≡ []) }
        ensures err { OnErr result (self.new ≡ self.old) }
        ensures sink { result ≢ Err GenFault.NoMemory }
    {
        if write_all(output, &self.waiting).is_err() {
            return Err(GenFault::Write);
        }
        self.waiting.clear();
        Ok(())
    }

    /// Hands what waits to a sink, where that is a piece: 65536 bytes or more.
    pub fn hand_full<O: Sink>(&mut self, output: &mut O) -> Result<(), GenFault>
        ensures handed { HandsFull (O.held output.old) (O.held output.new) (O.faults output.old) (O.faults output.new)
            self.old self.new result }
        ensures small { OnOk result (length self.new < piece_size) }
        ensures sink { result ≢ Err GenFault.NoMemory }
    {
        if self.waiting.len() < PIECE_SIZE {
            return Ok(());
        }
        self.hand_on(output)
    }
}
