//! A text that is short enough to lie in its value.

ghost use Rattle.std.specs.Prelude.{◌≡◌, IfSome};

use std::marker::Model;
use std::str;

/// The most bytes of a short text. With it, a `Word` has 16 bytes.
const ROOM: usize = 14;

/// A text of at most 14 bytes. Contracts see it as the list of its bytes.
#[derive(Drop)]
pub struct ShortText {
    /// The number of bytes of the text.
    len: u8,
    /// The text, and then zeros.
    bytes: [u8; ROOM],
}

impl Model for ShortText {
    ghost use Rattle.std.specs.Prelude.{◌≤◌, ℕ, IsUtf8, List, take};

    ghost Value = { List ℕ };

    ghost view = { λ t. take t.len t.bytes };

    ghost invariant = { λ t. (t.len ≤ 14) × ∥ IsUtf8 (take t.len t.bytes) ∥₁ };
}

impl ShortText {
    /// This text, if it is short enough.
    pub fn new(text: &str) -> Option<ShortText>
        ensures { IfSome result (λ short. short ≡ text.now) }
    {
        let len = text.len();
        if len > ROOM {
            return None;
        }
        let mut bytes = [0; ROOM];
        bytes[..len].copy_from_slice(text.as_bytes());
        Some(ShortText {
            len: len as u8,
            bytes,
        })
    }

    /// The text.
    pub fn as_str(&self) -> &str
        ensures { result.now ≡ self.now }
    {
        match str::from_utf8(&self.bytes[..self.len as usize]) {
            Ok(text) => text,
            Err(_) => unreachable!(),
        }
    }
}
