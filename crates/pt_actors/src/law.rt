//! The values of laws.

ghost use Rattle.std.specs.Prelude.{◌≡◌, IsTrue, ◌+ℤ◌, ◌-ℤ◌, ◌*ℤ◌, ◌≤ℤ◌, pos, int_div, int_le, nat_abs, if◌then◌else◌};
ghost use Rattle.pt_types.specs.Kinds.{law_in_range};
ghost use Rattle.pt_semantics.specs.Laws.{law_value, nearest};
ghost use Rattle.pt_actors.specs.Means.{HasMean};

use crate::arithmetic::{difference, product, quotient};
use pt_formula::value;
use pt_types::Law;

/// The value of a law for a and b. It is the value of a block with this law, and a guard holds if it is greater than 0.
pub fn law_value(law: &Law, a: i64, b: i64) -> i64
    requires { IsTrue (law_in_range law.now) }
    ensures { result ≡ law_value law.now a b }
{
    match law {
        Law::Least => a.min(b),
        Law::Greatest => a.max(b),
        Law::Middle { low, high } => middle(*low, *high, a),
        Law::Deadband { width } => deadband(*width, a, b),
        Law::Weighted { num, den } => weighted(*num, *den, a, b),
        Law::Formula(steps) => value(steps.as_slice(), a, b),
    }
}

/// A value, raised to `low` or lowered to `high` if it is outside.
fn middle(low: i64, high: i64, a: i64) -> i64
    ensures { result ≡ law_value (Law.Middle low high) a a }
{
    if a < low {
        low
    } else if high < a {
        high
    } else {
        a
    }
}

/// 0 if both values are at most `width` apart, else their difference.
fn deadband(width: i64, a: i64, b: i64) -> i64
    requires { pos 0 ≤ℤ width }
    ensures { result ≡ (if int_le (pos (nat_abs (a -ℤ b))) width then pos 0 else nearest (a -ℤ b)) }
{
    if a.abs_diff(b) <= width as u64 {
        0
    } else {
        difference(a, b)
    }
}

/// The weighted mean of two values, cut toward zero; the first has weight `num` of `den`, the second the rest.
fn weighted(num: i64, den: i64, a: i64, b: i64) -> i64
    requires num { pos 0 ≤ℤ num }
    requires rest { num ≤ℤ den }
    requires den { pos 1 ≤ℤ den }
    ensures { result ≡ int_div ((a *ℤ num) +ℤ (b *ℤ (den -ℤ num))) den }
{
    mean(product(a, num), product(b, rest(den, num)), den)
}

/// The rest of `den` without `num`.
fn rest(den: i64, num: i64) -> i64
    requires num { pos 0 ≤ℤ num }
    requires rest { num ≤ℤ den }
    ensures { result ≡ den -ℤ num }
{
    den - num
}

/// A sum divided by a number; the result fits in 64 bits.
fn mean(x: i128, y: i128, den: i64) -> i64
    requires { HasMean x y den }
    ensures { result ≡ int_div (x +ℤ y) den }
{
    quotient(x + y, i128::from(den)) as i64
}
