//! The step of a machine.

ghost use Rattle.std.specs.Ordering.{int_eq};
ghost use Rattle.std.specs.Prelude.{◌≡◌, ◌&&◌, IsTrue, Some, int_le, option_map};
ghost use Rattle.std.specs.List.{All};
ghost use Rattle.pt_types.specs.Kinds.{guard_is_lawful};
ghost use Rattle.pt_types.specs.Ports.{eight, when};
ghost use Rattle.pt_types.specs.declared.kind.MachineRow.{MachineRow};
ghost use Rattle.pt_semantics.specs.Lists.{first_of};
ghost use Rattle.pt_semantics.specs.Firing.{emitted_by, guard_holds, machine_step, row_fits};

use crate::stored::block_value;
use pt_blocks::Blocks;
use pt_types::{Law, MachineRow, Ports};

/// A machine's step for a state and a value, by the first row that fits: writes its outputs, and returns the next state. If no
/// row fits there is no change and no output.
#[inline(never)]
pub(crate) fn machine(
    blocks: Option<&Blocks>,
    rows: &[MachineRow],
    state: i64,
    a: i64,
    outputs: &mut Ports,
) -> i64
    requires { All (λ (row : MachineRow). IsTrue (guard_is_lawful row.guard)) rows.now }
    ensures state { result ≡ (machine_step state (first_of (row_fits state a) rows.now)).state }
    ensures outputs { outputs.new ≡ (machine_step state
        (first_of (row_fits state a) rows.now)).outputs }
{
    match fitting_row(blocks, rows, state, a) {
        Some(row) => {
            *outputs = emitted(row.emit);
            row.next
        }
        None => {
            *outputs = Ports::new();
            state
        }
    }
}

/// The first row that fits.
fn fitting_row<'r>(
    blocks: Option<&Blocks>,
    rows: &'r [MachineRow],
    state: i64,
    a: i64,
) -> Option<&'r MachineRow>
    requires { All (λ (row : MachineRow). IsTrue (guard_is_lawful row.guard)) rows.now }
    ensures { option_map (λ row. row.now) result ≡ first_of (row_fits state a) rows.now }
{
    for row in rows {
        if row_fits(blocks, row, state, a) {
            return Some(row);
        }
    }
    None
}

/// Whether a row fits: it is for this state, its range has the value, and its guard holds.
fn row_fits(blocks: Option<&Blocks>, row: &MachineRow, state: i64, a: i64) -> bool
    requires { IsTrue (guard_is_lawful row.now.guard) }
    ensures { when result (Some row.now) ≡ row_fits state a row.now }
{
    is_for(row, state, a) && guard_holds(blocks, &row.guard, a, state)
}

/// Whether a row is for this state and its range has the value.
fn is_for(row: &MachineRow, state: i64, a: i64) -> bool
    ensures { result ≡ (int_eq row.now.state state && int_le row.now.low a && int_le a
        row.now.high) }
{
    row.state == state && row.low <= a && a <= row.high
}

/// Whether a guard holds: its law gives more than 0 for the value and the state. A row without a guard can always be taken.
fn guard_holds(blocks: Option<&Blocks>, guard: &Option<(u32, Law)>, a: i64, state: i64) -> bool
    requires { IsTrue (guard_is_lawful guard.now) }
    ensures { result ≡ guard_holds guard.now a state }
{
    match guard {
        Some((number, law)) => 0 < block_value(blocks, *number, law, a, state),
        None => true,
    }
}

/// The outputs of a row.
fn emitted(emit: Option<(u32, i64)>) -> Ports
    ensures { result ≡ eight (emitted_by emit) }
{
    match emit {
        Some((port, value)) => Ports::only(port, value),
        None => Ports::new(),
    }
}
