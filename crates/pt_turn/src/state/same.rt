//! Tests of equality.

ghost use Rattle.std.specs.Prelude.{◌≡◌, ◌↔◌, true};
ghost use Rattle.pt_semantics.specs.Units.{same_part};

use pt_types::{Task, Unit};

/// Whether two tasks are equal.
#[inline(always)]
pub fn same_task(a: &Task, b: &Task) -> bool
    ensures { (result ≡ true) ↔ (a.now ≡ b.now) }
{
    *a == *b
}

/// Whether two units are equal.
pub fn same_unit(a: Unit, b: Unit) -> bool
    ensures { result ≡ same_part a b }
{
    a.actor == b.actor && a.group == b.group
}
