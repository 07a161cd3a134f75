//! The cells of a firing: eight inputs, eight outputs, and the states before and after it, in this order.

ghost use Rattle.std.specs.Prelude.{◌≡◌, ◌≤◌, ◌+◌, ◌-◌, ◌++◌, ◌∷◌, [], OnOk, length, take, drop, Some, slice_set};
ghost use Rattle.pt_meaning.specs.Flat.{cells_of_firing, with_cells, firing_from, empty_cells, state_cell, cell_numbers_from, cell_values};

use pt_tags::{Memory, Tag};
use pt_types::{ActorFiring, Ports};

/// Appends the cells of a firing that have a value: the cell number and the value of each.
pub(crate) fn push_firing(
    places: &mut Vec<u8>,
    values: &mut Vec<i64>,
    firing: &ActorFiring,
) -> Result<(), Memory>
    ensures places { OnOk result (places.new.items
        ≡ places.old.items ++ cell_numbers_from 0 (cells_of_firing firing.now)) }
    ensures values { OnOk result (values.new.items
        ≡ values.old.items ++ cell_values (cells_of_firing firing.now)) }
    ensures ports { (length firing.now.inputs ≡ 8) × (length firing.now.outputs ≡ 8) }
{
    let inputs = firing.inputs.values();
    let outputs = firing.outputs.values();
    let states = [nonzero(firing.before), nonzero(firing.after)];
    push_cells(places, values, 0, &inputs)?;
    push_cells(places, values, 8, &outputs)?;
    push_cells(places, values, 16, &states)
}

/// A state, or `None` for 0.
fn nonzero(state: i64) -> Option<i64>
    ensures { result ≡ state_cell state }
{
    if state == 0 { None } else { Some(state) }
}

/// Appends the cells that have a value; the first of `cells` is cell number `from`.
fn push_cells(
    places: &mut Vec<u8>,
    values: &mut Vec<i64>,
    from: u8,
    cells: &[Option<i64>],
) -> Result<(), Memory>
    requires { from + length cells.now ≤ 24 }
    ensures places { OnOk result (places.new.items
        ≡ places.old.items ++ cell_numbers_from from cells.now) }
    ensures values { OnOk result (values.new.items ≡ values.old.items ++ cell_values cells.now) }
{
    for (number, cell) in cells.iter().enumerate() {
        push_cell(places, values, from + number as u8, *cell)?;
    }
    Ok(())
}

/// Appends a cell, if it has a value.
fn push_cell(
    places: &mut Vec<u8>,
    values: &mut Vec<i64>,
    place: u8,
    cell: Option<i64>,
) -> Result<(), Memory>
    ensures places { OnOk result (places.new.items
        ≡ places.old.items ++ cell_numbers_from place (cell ∷ [])) }
    ensures values { OnOk result (values.new.items ≡ values.old.items ++ cell_values (cell ∷ [])) }
{
    let Some(value) = cell else {
        return Ok(());
    };
    if places.push(place).is_err() || values.push(value).is_err() {
        return Err(Memory);
    }
    Ok(())
}

/// The 18 cells whose numbers and values are at indices from `start` up to, not including, `end`.
pub(crate) fn cells_between(
    places: &[u8],
    values: &[i64],
    start: u32,
    end: u32,
) -> [Option<i64>; 18]
    requires places { end ≤ length places.now }
    requires values { end ≤ length values.now }
    ensures { result ≡ with_cells empty_cells (take (end - start) (drop start places.now))
        (take (end - start) (drop start values.now)) }
{
    let mut cells = [None; 18];
    for number in start..end {
        put(&mut cells, places[number as usize], values[number as usize]);
    }
    cells
}

/// Writes a value into a cell; does nothing if there is no such cell.
fn put(cells: &mut [Option<i64>; 18], place: u8, value: i64)
    ensures { cells.new ≡ slice_set cells.old place (Some value) }
{
    if place < 18 {
        cells[place as usize] = Some(value);
    }
}

/// The firing with these cells.
pub(crate) fn firing_from(actor: u32, tag: Tag, cells: &[Option<i64>; 18]) -> ActorFiring
    ensures { result ≡ firing_from actor tag cells.now }
{
    let [
        i0,
        i1,
        i2,
        i3,
        i4,
        i5,
        i6,
        i7,
        o0,
        o1,
        o2,
        o3,
        o4,
        o5,
        o6,
        o7,
        before,
        after,
    ] = *cells;
    ActorFiring {
        actor,
        tag,
        inputs: Ports::from_values([i0, i1, i2, i3, i4, i5, i6, i7]),
        before: before.unwrap_or(0),
        after: after.unwrap_or(0),
        outputs: Ports::from_values([o0, o1, o2, o3, o4, o5, o6, o7]),
    }
}
