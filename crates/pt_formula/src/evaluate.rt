//! The value of a formula.

ghost use Rattle.std.specs.Prelude.{◌≡◌, ◌≤◌, ◌<◌, ◌+◌, ◌∷◌, [], ◌++◌, length, pos};
ghost use Rattle.arrayvec.specs.ArrayVec.{array_vec_len};
ghost use Rattle.pt_formula.specs.Meaning.{after, below, top, value};

use crate::arithmetic::{one_value, three_value, two_value};
use crate::step::Step;
use arrayvec::ArrayVec;

/// The most steps of a formula.
pub const MOST_STEPS: usize = 64;

/// The value of a formula for a and b. It takes one turn for each step, and no memory.
///
/// The steps of `a * 2 + b` are `A`, `Number(2)`, `Binary(Product)`, `B` and `Binary(Total)`: for a = 3 and b = 4 the stack is
/// 3, then 3 2, then 6, then 6 4, and the value is 10.
pub fn value(steps: &[Step], a: i64, b: i64) -> i64
    requires { length steps.now ≤ 64 }
    ensures { result ≡ value steps.now a b }
{
    let mut stack = ArrayVec::new();
    for step in steps {
        take_step(*step, a, b, &mut stack);
    }
    taken(&mut stack)
}

/// Takes a step.
fn take_step(step: Step, a: i64, b: i64, stack: &mut ArrayVec<i64, 64>)
    requires { array_vec_len stack.old < 64 }
    ensures items { stack.new.items ≡ after a b step stack.old.items }
    ensures len { array_vec_len stack.new ≤ array_vec_len stack.old + 1 }
{
    let value = match step {
        Step::A => a,
        Step::B => b,
        Step::Number(number) => number,
        Step::Unary(function) => one_value(function, taken(stack)),
        Step::Binary(function) => {
            let y = taken(stack);
            let x = taken(stack);
            two_value(function, x, y)
        }
        Step::Ternary(function) => {
            let z = taken(stack);
            let y = taken(stack);
            let x = taken(stack);
            three_value(function, x, y, z)
        }
    };
    stack.push(value);
}

/// Takes the top of the stack; 0 if it is empty.
fn taken(stack: &mut ArrayVec<i64, 64>) -> i64
    ensures top { result ≡ top stack.old.items }
    ensures rest { stack.new.items ≡ below stack.old.items }
    ensures len { array_vec_len stack.new ≤ array_vec_len stack.old }
{
    stack.pop().unwrap_or(0)
}
