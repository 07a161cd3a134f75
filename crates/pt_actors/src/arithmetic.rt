//! Arithmetic that saturates at the ends of 64 bits.

ghost use Rattle.std.specs.Prelude.{◌≡◌, ◌+ℤ◌, ◌-ℤ◌, ◌*ℤ◌, ◌≤ℤ◌, pos, int_div};
ghost use Rattle.pt_semantics.specs.Firing.{or_zero};
ghost use Rattle.pt_semantics.specs.Laws.{nearest};

/// The value, or 0 if it is absent.
pub(crate) fn or_zero(value: Option<i64>) -> i64
    ensures { result ≡ or_zero value }
{
    value.unwrap_or(0)
}

/// The nearest number that fits in an `i64`.
pub(crate) fn nearest(x: i128) -> i64
    ensures { result ≡ nearest x }
{
    if x < i128::from(i64::MIN) {
        i64::MIN
    } else if i128::from(i64::MAX) < x {
        i64::MAX
    } else {
        x as i64
    }
}

/// The sum of two values.
pub(crate) fn sum(a: i64, b: i64) -> i64
    ensures { result ≡ nearest (a +ℤ b) }
{
    a.saturating_add(b)
}

/// The difference of two values.
pub(crate) fn difference(a: i64, b: i64) -> i64
    ensures { result ≡ nearest (a -ℤ b) }
{
    a.saturating_sub(b)
}

/// A value times `num`, divided by `den` and cut toward zero.
pub(crate) fn scaled(a: i64, num: i64, den: i64) -> i64
    requires { pos 1 ≤ℤ den }
    ensures { result ≡ nearest (int_div (a *ℤ num) den) }
{
    match a.checked_mul(num) {
        Some(product) => product / den,
        None => nearest(quotient(product(a, num), i128::from(den))),
    }
}

/// The product of two values; it fits in 128 bits.
pub(crate) fn product(a: i64, b: i64) -> i128
    ensures { result ≡ a *ℤ b }
{
    i128::from(a) * i128::from(b)
}

/// A quotient, cut toward zero.
pub(crate) fn quotient(a: i128, d: i128) -> i128
    requires { pos 1 ≤ℤ d }
    ensures { result ≡ int_div a d }
{
    a / d
}
