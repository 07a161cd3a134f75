//! Texts cut at a byte.

ghost use Rattle.std.specs.Prelude.{◌≡◌, ◌<◌, length};
ghost use Rattle.pt_audit.specs.Parsing.Fields.{IsFirstLine, after, before};

use memchr::memchr;

/// What comes before the first of these bytes, and what comes after it; the whole text and nothing if there is none.
pub(crate) fn cut(bytes: &[u8], byte: u8) -> (&[u8], &[u8])
    ensures before { result.0.now ≡ before byte bytes.now }
    ensures after { result.1.now ≡ after byte bytes.now }
{
    match memchr(byte, bytes) {
        Some(at) => (&bytes[..at], &bytes[at + 1..]),
        None => (bytes, &[]),
    }
}

/// How many bytes the first line of a text has, with its line feed.
pub(crate) fn line_len(bytes: &[u8]) -> usize
    requires { 0 < length bytes.now }
    ensures { IsFirstLine bytes.now result }
{
    match memchr(b'\n', bytes) {
        Some(at) => at + 1,
        None => bytes.len(),
    }
}
