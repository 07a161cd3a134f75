//! What the reader of a sensor's text hands over, line by line.

ghost use Rattle.std.specs.Prelude.{◌≡◌, []};
ghost use Rattle.pt_feeds.specs.Arrivals.{Arrives, end_of};

use arrayvec::ArrayVec;
use std::mem;

/// The most bytes of a line, without its line feed.
pub const LINE_BYTES: usize = 64;

/// What came of a sensor's text.
#[derive(Drop)]
pub enum Arrival {
    /// A line, without its line feed.
    Line(ArrayVec<u8, LINE_BYTES>),
    /// A line of more than 64 bytes.
    TooLong,
    /// The text ended in a line that has no line feed.
    NoLineFeed,
    /// The text ended after a line feed, or is empty.
    End,
    /// The text can't be read.
    Failed,
}

/// Cuts a text into lines, byte by byte.
#[derive(Drop)]
pub struct Lines {
    /// The bytes since the last line feed.
    line: ArrayVec<u8, LINE_BYTES>,
}

impl Lines {
    /// The beginning of a text.
    pub fn new() -> Lines
        ensures { result.line.items ≡ [] }
    {
        Lines {
            line: ArrayVec::new(),
        }
    }

    /// Takes one more byte of the text, and gives what has come by it. After a line that is too long the
    /// rest of the text is of no use.
    pub fn take(&mut self, byte: u8) -> Option<Arrival>
        ensures { Arrives self.old.line.items byte result self.new.line.items }
    {
        if byte == b'\n' {
            let line = mem::replace(&mut self.line, ArrayVec::new());
            return Some(Arrival::Line(line));
        }
        match self.line.try_push(byte) {
            Ok(()) => None,
            Err(_) => Some(Arrival::TooLong),
        }
    }

    /// What comes at the end of the text.
    pub fn end(&self) -> Arrival
        ensures { result ≡ end_of self.now.line.items }
    {
        if self.line.is_empty() {
            Arrival::End
        } else {
            Arrival::NoLineFeed
        }
    }
}
