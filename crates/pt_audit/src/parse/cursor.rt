//! The log part of a file, block by block.

ghost use Rattle.std.specs.Prelude.{◌≡◌, ℕ, ◌<◌, ◌+◌, ◌^◌, ◌∷◌, [], None, length, take, drop, MatchOption};
ghost use Rattle.pt_audit.specs.Parsing.Lines.{Block, at_log, blocks_from, text_lines};
ghost use Rattle.pt_audit.specs.Parsing.Places.{IsFirstBlock, IsLogAt};

use crate::parse::fields::line_len;
use std::marker::Model;

/// Where the log part of a file begins.
#[derive(Clone, Copy, Debug, PartialEq, Eq)]
pub struct LogAt {
    /// The place of the first byte of the line `log`.
    pub place: usize,
    /// The number of that line, from 1.
    pub line: u64,
}

/// Where the first line `log` of a file is, if a line is `log`.
pub fn log_at(bytes: &[u8]) -> Option<LogAt>
    requires { length bytes.now + 1 < 2 ^ 64 }
    ensures { MatchOption result (at_log (text_lines bytes.now) ≡ None)
        (λ at. IsLogAt bytes.now at.place at.line) }
{
    let mut place = 0;
    let mut line = 1;
    while place < bytes.len() {
        let rest = &bytes[place..];
        if rest.starts_with(b"log\n") {
            return Some(LogAt { place, line });
        }
        place += line_len(rest);
        line += 1;
    }
    None
}

/// The lines of a turn, as they stand in a file.
#[derive(Clone, Copy)]
pub struct TurnText<'a> {
    /// The number of the first line in the file, from 1.
    pub line: u64,
    pub text: &'a [u8],
}

/// The blocks of a text that are left. Contracts see it as the list of these blocks.
#[derive(Drop)]
pub struct Cursor<'a> {
    rest: &'a [u8],
    line: u64,
}

impl<'a> Model for Cursor<'a> {
    ghost use Rattle.std.specs.Prelude.{List, ◌+◌, ◌<◌, ◌^◌, length};
    ghost use Rattle.pt_audit.specs.Parsing.Lines.{Block, blocks_from, text_lines};

    ghost Value = { List Block };

    ghost view = { λ c. blocks_from c.line (text_lines c.rest.now) };

    ghost invariant = { λ c. c.line + length c.rest.now < 2 ^ 64 };
}

impl<'a> Cursor<'a> {
    /// The blocks of a text whose first line has this number.
    pub fn new(rest: &'a [u8], line: u64) -> Cursor<'a>
        requires { line + length rest.now < 2 ^ 64 }
        ensures { result ≡ blocks_from line (text_lines rest.now) }
    {
        Cursor { rest, line }
    }

    /// The next block.
    pub fn next(&mut self) -> Option<TurnText<'a>>
        ensures { MatchOption result ((self.old ≡ []) × (self.new ≡ []))
            (λ block. self.old ≡ record { line = block.line; text = block.text.now } ∷ self.new) }
    {
        if self.rest.is_empty() {
            return None;
        }
        let Extent { len, lines } = block_extent(self.rest);
        let (text, rest) = self.rest.split_at(len);
        let line = self.line;
        self.rest = rest;
        self.line = line + lines;
        Some(TurnText { line, text })
    }
}

/// How long a block is.
#[derive(Clone, Copy)]
struct Extent {
    len: usize,
    lines: u64,
}

/// How long the first block of a text is.
fn block_extent(bytes: &[u8]) -> Extent
    requires { 0 < length bytes.now }
    ensures { IsFirstBlock bytes.now result.len result.lines }
{
    let mut len = line_len(bytes);
    let mut lines = 1;
    while len < bytes.len() && !bytes[len..].starts_with(b"turn,") {
        len += line_len(&bytes[len..]);
        lines += 1;
    }
    Extent { len, lines }
}
