//! The outputs of lanes, and lists of optional values.

ghost use Rattle.std.specs.Prelude.{◌≡◌, ◌≤◌, Some, length, slice_index};
ghost use Rattle.pt_types.specs.Ports.{eight, when};
ghost use Rattle.pt_semantics.specs.Laws.{nearest};
ghost use Rattle.pt_semantics.specs.Lists.{first_of};
ghost use Rattle.pt_semantics.specs.Firing.{any_present, identity, lane_outputs, present_sum};

use crate::arithmetic::{nearest, or_zero};
use pt_types::Ports;

/// The first value that is present.
pub(crate) fn lowest(values: &[Option<i64>]) -> Option<i64>
    ensures { result ≡ first_of identity values.now }
{
    for value in values {
        if let Some(value) = *value {
            return Some(value);
        }
    }
    None
}

/// The sum of the values of a cell that are present; `None` if none is.
fn cell_value(values: &[Option<i64>]) -> Option<i64>
    requires { length values.now ≤ 8 }
    ensures { result ≡ when (any_present values.now) (Some (nearest (present_sum values.now))) }
{
    if has_value(values) {
        Some(nearest(total(values)))
    } else {
        None
    }
}

/// Whether a value is present.
fn has_value(values: &[Option<i64>]) -> bool
    ensures { result ≡ any_present values.now }
{
    for value in values {
        if value.is_some() {
            return true;
        }
    }
    false
}

/// The sum of the values that are present.
fn total(values: &[Option<i64>]) -> i128
    requires { length values.now ≤ 8 }
    ensures { result ≡ present_sum values.now }
{
    let mut total = 0;
    for value in values {
        total += i128::from(or_zero(*value));
    }
    total
}

/// Writes the outputs of the cells: each gives the sum of its inputs that are present.
#[inline(never)]
pub(crate) fn write_lanes(cells: &[u32], inputs: &Ports, outputs: &mut Ports)
    ensures { outputs.new ≡ eight (lane_outputs cells.now inputs.now) }
{
    *outputs = lanes(cells, inputs);
}

/// The outputs of the cells.
fn lanes(cells: &[u32], inputs: &Ports) -> Ports
    ensures { result ≡ eight (lane_outputs cells.now inputs.now) }
{
    let inputs = inputs.values();
    let mut rest = inputs.as_slice();
    let mut outputs = [None; 8];
    for cell in 0..8 {
        let (values, more) = rest.split_at(size_of(cells, cell).min(rest.len()));
        outputs[cell] = cell_value(values);
        rest = more;
    }
    Ports::from_values(outputs)
}

/// The number of inputs of a cell; 0 if there is no such cell.
fn size_of(cells: &[u32], cell: usize) -> usize
    ensures { result ≡ slice_index cells.now cell }
{
    match cells.get(cell) {
        Some(n) => *n as usize,
        None => 0,
    }
}
