//! A line that is written from its end.

ghost use Rattle.std.specs.Prelude.{◌≡◌, ◌+◌, ◌<◌, ◌≤◌, ◌++◌, ◌∷◌, [], length};
ghost use Rattle.std.specs.Fmt.{decimal, signed_decimal};

use itoa::write_digits;
use std::marker::Model;

/// The longest line, in bytes. It has room for three numbers and a name of some 60 bytes.
const ROOM: usize = 128;

/// How many bytes a short line may have: its copy takes few instructions.
const SHORT: usize = 64;

/// A line, or the end of one. It is written from its last byte to its first, as the digits of a number are, and put or appended
/// to a text as one piece: that is faster than one piece for each field. Contracts see its bytes.
#[derive(Drop)]
pub(crate) struct LineBuffer {
    bytes: [u8; ROOM],
    /// Where the line begins. It ends where `bytes` end.
    start: usize,
}

impl Model for LineBuffer {
    ghost use Rattle.std.specs.Prelude.{◌≤◌, List, ℕ, drop};
    ghost use Rattle.std.specs.Str.{IsUtf8};

    ghost Value = { List ℕ };

    ghost view = { λ l. drop l.start l.bytes };

    ghost invariant = { λ l. (l.start ≤ 128) × IsUtf8 (drop l.start l.bytes) };
}

impl LineBuffer {
    /// No bytes.
    #[inline(always)]
    pub(crate) fn empty() -> LineBuffer
        ensures { result ≡ [] }
    {
        LineBuffer {
            bytes: [0; ROOM],
            start: ROOM,
        }
    }

    /// The end of a line.
    #[inline(always)]
    pub(crate) fn new() -> LineBuffer
        ensures { result ≡ 10 ∷ [] }
    {
        let mut line = LineBuffer::empty();
        line.put(b'\n');
        line
    }

    /// Takes all bytes away.
    #[inline(always)]
    pub(crate) fn clear(&mut self)
        ensures { self.new ≡ [] }
    {
        self.start = ROOM;
    }

    /// Becomes the end of a line. What was written before is gone: a line that is used again need not be made anew.
    #[inline(always)]
    pub(crate) fn end(&mut self)
        ensures { self.new ≡ 10 ∷ [] }
    {
        self.clear();
        self.put(b'\n');
    }

    /// Becomes a copy of a short line.
    #[inline(always)]
    pub(crate) fn copy_short(&mut self, short: &LineBuffer)
        requires { length short.now ≤ 64 }
        ensures { self.new ≡ short.now }
    {
        self.bytes[SHORT..].copy_from_slice(&short.bytes[SHORT..]);
        self.start = short.start;
    }

    /// Puts a byte before the line.
    #[inline(always)]
    pub(crate) fn put(&mut self, byte: u8)
        requires room { length self.old < 128 }
        requires ascii { byte < 128 }
        ensures { self.new ≡ byte ∷ self.old }
    {
        self.start -= 1;
        self.bytes[self.start] = byte;
    }

    /// Puts the digits of a number before the line. Many numbers, mostly steps and counts, have one digit.
    #[inline(always)]
    pub(crate) fn number(&mut self, number: u64)
        requires { length self.old + 20 ≤ 128 }
        ensures value { self.new ≡ decimal number ++ self.old }
        ensures length { length self.new ≤ length self.old + 20 }
    {
        if number < 10 {
            self.put(b'0' + number as u8);
            return;
        }
        self.start = write_digits(number, &mut self.bytes, self.start);
    }

    /// Puts a comma and a number before the line.
    #[inline(always)]
    pub(crate) fn field(&mut self, number: u64)
        requires { length self.old + 21 ≤ 128 }
        ensures value { self.new ≡ 44 ∷ decimal number ++ self.old }
        ensures length { length self.new ≤ length self.old + 21 }
    {
        self.number(number);
        self.put(b',');
    }

    /// Puts a comma and a number that may have a sign before the line.
    #[inline(always)]
    pub(crate) fn value(&mut self, value: i64)
        requires { length self.old + 22 ≤ 128 }
        ensures value { self.new ≡ 44 ∷ signed_decimal value ++ self.old }
        ensures length { length self.new ≤ length self.old + 22 }
    {
        if value >= 0 {
            self.field(value as u64);
            return;
        }
        self.number(value.unsigned_abs());
        self.put(b'-');
        self.put(b',');
    }

    /// Puts a text before the line.
    #[inline(always)]
    pub(crate) fn text(&mut self, text: &str)
        requires { length text.now + length self.old ≤ 128 }
        ensures { self.new ≡ text.now ++ self.old }
    {
        let start = self.start - text.len();
        self.bytes[start..self.start].copy_from_slice(text.as_bytes());
        self.start = start;
    }

    /// Puts a short line before this one. The line's bytes are copied with the unused ones before them, which are overwritten
    /// later: a copy whose size is known takes few instructions.
    #[inline(always)]
    pub(crate) fn put_short(&mut self, short: &LineBuffer)
        requires short { length short.now ≤ 64 }
        requires room { length self.old ≤ 64 }
        ensures { self.new ≡ short.now ++ self.old }
    {
        let from = self.start - SHORT;
        self.bytes[from..self.start].copy_from_slice(&short.bytes[SHORT..]);
        self.start = from + (short.start - SHORT);
    }

    /// The line as a text.
    #[inline(always)]
    pub(crate) fn as_str(&self) -> &str
        ensures { result.now ≡ self.now }
    {
        // Only texts, digits and other bytes of ASCII were put into it.
        unsafe { std::str::from_utf8_unchecked(&self.bytes[self.start..]) }
    }

    /// The bytes of the line.
    #[inline(always)]
    pub(crate) fn as_bytes(&self) -> &[u8]
        ensures { result.now ≡ self.now }
    {
        &self.bytes[self.start..]
    }

    /// Puts a word, a comma and a name before the line.
    #[inline(always)]
    pub(crate) fn begin(&mut self, word: &str, name: &str)
        requires { (length word.now + length name.now + 1) + length self.old ≤ 128 }
        ensures { self.new ≡ word.now ++ 44 ∷ name.now ++ self.old }
    {
        self.text(name);
        self.put(b',');
        self.text(word);
    }
}
