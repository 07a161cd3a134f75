//! Numbers in fields.

ghost use Rattle.std.specs.Prelude.{◌≡◌, ◌<◌, ◌^◌, ℕ, ℤ, FitsSigned, Some};
ghost use Rattle.std.specs.Fmt.{decimal, signed_decimal};
ghost use Rattle.std.specs.Int.{w64};

use std::str::from_utf8;

/// The number that a field has in decimal digits, if it fits in 64 bits.
pub(crate) fn number(field: &[u8]) -> Option<u64>
    ensures { (n : ℕ) → n < 2 ^ 64 → field.now ≡ decimal n → result ≡ Some n }
{
    match from_utf8(field) {
        Ok(text) => text.parse().ok(),
        Err(_) => None,
    }
}

/// The same for a number with a sign.
pub(crate) fn signed(field: &[u8]) -> Option<i64>
    ensures { (z : ℤ) → FitsSigned w64 z → field.now ≡ signed_decimal z → result ≡ Some z }
{
    match from_utf8(field) {
        Ok(text) => text.parse().ok(),
        Err(_) => None,
    }
}
