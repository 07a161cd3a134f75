//! A stored function that takes about a millisecond.

ghost use Rattle.std.specs.Prelude.{◌≡◌, ◌%◌, ◌<◌};
ghost use Rattle.pt_semantics.specs.Laws.{law_value};
ghost use Rattle.pt_types.specs.declared.kind.Law.TheVariants.{Least};

use pt_blocks::least;

/// How often `slow` counts.
const STEPS: u64 = 150_000;

/// Goes on by a multiple of three.
fn next(x: u64) -> u64
    requires { (x < 3000000) × (x % 3 ≡ 1) }
    ensures { (result < 3000000) × (result % 3 ≡ 1) }
{
    (x + 3 * (x % 7)) % 3_000_000
}

/// Counts from 1 by multiples of three. The compiler can't see that the end is never one, so it has to count.
fn count(steps: u64) -> u64
    ensures { result % 3 ≡ 1 }
{
    let mut x = 1;
    for _step in 0..steps {
        x = next(x);
    }
    x
}

/// The lesser of a and b, after long counting.
pub fn slow(a: i64, b: i64) -> i64
    ensures { result ≡ law_value Least a b }
{
    if count(STEPS) % 3 == 0 {
        0
    } else {
        least(a, b)
    }
}
