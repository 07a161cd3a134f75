//! Calls of stored functions.

ghost use Rattle.std.specs.Prelude.{◌≡◌, IsTrue};
ghost use Rattle.pt_types.specs.Kinds.{law_in_range};
ghost use Rattle.pt_semantics.specs.Laws.{law_value};

use crate::law::law_value;
use pt_blocks::{Blocks, Function};
use pt_types::Law;

/// The value of the block with this number and law for a and b, from its stored function if there is one.
pub(crate) fn block_value(blocks: Option<&Blocks>, number: u32, law: &Law, a: i64, b: i64) -> i64
    requires { IsTrue (law_in_range law.now) }
    ensures { result ≡ law_value law.now a b }
{
    match blocks {
        Some(blocks) => match blocks.get(number) {
            Some(function) => value_by(function, law, a, b),
            None => law_value(law, a, b),
        },
        None => law_value(law, a, b),
    }
}

/// The value from a function if it has this law, and else from the law itself.
fn value_by(function: &Function, law: &Law, a: i64, b: i64) -> i64
    requires { IsTrue (law_in_range law.now) }
    ensures { result ≡ law_value law.now a b }
{
    if is_same(function.law(), law) {
        function.call(a, b)
    } else {
        law_value(law, a, b)
    }
}

/// Whether two laws are the same, with the same parameters. Formulas are not compared.
fn is_same(a: &Law, b: &Law) -> bool
    ensures { IsTrue result → a.now ≡ b.now }
{
    match a {
        Law::Least => matches!(b, Law::Least),
        Law::Greatest => matches!(b, Law::Greatest),
        Law::Middle { low, high } => match b {
            Law::Middle { low: l, high: h } => *low == *l && *high == *h,
            _ => false,
        },
        Law::Deadband { width } => match b {
            Law::Deadband { width: w } => *width == *w,
            _ => false,
        },
        Law::Weighted { num, den } => match b {
            Law::Weighted { num: n, den: d } => *num == *n && *den == *d,
            _ => false,
        },
        Law::Formula(_) => false,
    }
}
