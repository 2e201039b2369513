// The peer of a link. It is a stream, and takes its lines as the server reads from it.
use crate::board::{Board, LOOKS};
use edge_io::Source;
use edge_mem::MemSource;
use row_text::{bytes_of, compared, without_blanks};
use std::alloc::Global;
use std::collections::VecDeque;
use std::io;
use std::io::{ErrorKind, Read, Write};
use std::net::OpenStream;
use std::sync::Arc;

#[derive(Drop)]
pub struct Peer {
    board: Arc<Board, Global>,
    lines: VecDeque<String>,
    sending: MemSource,
    got: Vec<u8>,
    /// What is sent again and again, and how often it still may be.
    asked: String,
    left: u32,
}

/// A word, and the text behind it.
pub fn parted(line: &str) -> (&str, &str) {
    line.split_once(' ').unwrap_or((line, ""))
}

/// Compares what a peer is sent with what is wanted.
pub fn judge(board: &Board, got: &[u8], wanted: &str) -> io::Result<()> {
    let got = hex::encode(board.alloc(), got)?;
    let wanted = without_blanks(board.alloc(), wanted)?;
    if let Some(why) = compared(board.alloc(), got.as_str(), wanted.as_str())? {
        board.fail(why.as_str());
    }
    Ok(())
}

impl Peer {
    /// A peer that takes no lines.
    pub fn new(board: &Arc<Board, Global>) -> io::Result<Peer> {
        let alloc = board.alloc();
        Ok(Peer {
            board: Arc::try_clone(board)?,
            lines: VecDeque::new(alloc),
            sending: MemSource::new(Vec::new(alloc), Vec::new(alloc)),
            got: Vec::new(alloc),
            asked: String::new(alloc),
            left: LOOKS,
        })
    }

    /// Adds a line.
    pub fn add(&mut self, line: String) -> io::Result<()> {
        Ok(self.lines.push_back(line)?)
    }

    /// Whether it has lines to take.
    pub fn has_lines(&self) -> bool {
        !self.lines.is_empty()
    }

    /// The lines, in order.
    pub fn into_lines(self) -> VecDeque<String> {
        self.lines
    }

    fn send(&mut self, text: &str) -> io::Result<()> {
        let alloc = self.board.alloc();
        match bytes_of(alloc, text)? {
            Some(bytes) => self.sending = MemSource::new(bytes, Vec::new(alloc)),
            None => self.board.fail("what is to be sent has no bytes"),
        }
        Ok(())
    }

    /// Wants what it was sent since to be this.
    fn gets(&mut self, wanted: &str) -> io::Result<()> {
        judge(&self.board, &self.got, wanted)?;
        self.got = Vec::new(self.board.alloc());
        Ok(())
    }

    /// Sends what it asked again, unless it was sent this.
    fn seek(&mut self, wanted: &str) -> io::Result<()> {
        let alloc = self.board.alloc();
        let is_there = match bytes_of(alloc, wanted)? {
            Some(bytes) => bytes == self.got,
            None => false,
        };
        if is_there || self.left == 0 {
            return self.gets(wanted);
        }
        self.left = self.left.saturating_sub(1);
        self.board.pause();
        self.got = Vec::new(alloc);
        self.lines.push_front(format!(in alloc; "until {wanted}")?)?;
        let asked = self.asked.clone()?;
        self.send(asked.as_str())
    }

    fn take(&mut self, line: &str) -> io::Result<()> {
        let (kind, text) = parted(line);
        match kind {
            "send" => return self.send(text),
            "last" => {
                self.board.finish();
                return self.send(text);
            }
            "gets" => return self.gets(text),
            "again" => self.asked = String::from_str(self.board.alloc(), text)?,
            "until" => return self.seek(text),
            "set" => self.board.put(text.parse().unwrap_or(0), 1),
            "clear" => self.board.put(text.parse().unwrap_or(0), 0),
            "await" => {
                self.board.wait(text.parse().unwrap_or(0));
            }
            _ => self.board.fail(line),
        }
        Ok(())
    }
}

impl Read for Peer {
    fn read(&mut self, into: &mut [u8]) -> io::Result<usize> {
        for _ in 0..u64::MAX {
            match self.sending.read(into) {
                Ok(0) => {}
                Ok(count) => return Ok(count),
                Err(_) => return Err(io::Error::from(ErrorKind::BrokenPipe)),
            }
            let Some(line) = self.lines.pop_front() else {
                self.board.finish();
                return Ok(0);
            };
            self.take(line.as_str())?;
        }
        Ok(0)
    }
}

/// It waits for nobody who looks.
impl OpenStream for Peer {}

impl Write for Peer {
    fn write(&mut self, bytes: &[u8]) -> io::Result<usize> {
        self.got.extend_from_slice(bytes)?;
        Ok(bytes.len())
    }

    fn flush(&mut self) -> io::Result<()> {
        Ok(())
    }
}
