//! One more row of a sensor.

ghost use Rattle.std.specs.Prelude.{◌≡◌, ◌<◌, OnErr, OnOk, length, position, set, slice_get, Some};
ghost use Rattle.pt_turn.specs.Arrives.Arrived.{is_of, with_row};
ghost use Rattle.pt_turn.specs.declared.state.fields.Sensor.{Sensor as One};

use crate::state::Sensor;
use pt_tags::{List, Memory};
use pt_types::Row;
use std::alloc::Global;
use std::mem;

/// The place of a sensor among those of a platform, by its number among the actors; `None` if it isn't there.
pub fn place_of(sensors: &[Sensor], actor: u32) -> Option<usize>
    ensures { result ≡ position (is_of actor) sensors.now }
{
    sensors.iter().position(|sensor| sensor.actor == actor)
}

/// Appends a row to those of a sensor. If memory runs out, nothing changes.
pub fn append(alloc: Global, sensor: &mut Sensor, row: Row) -> Result<(), Memory>
    ensures appended { OnOk result (sensor.new ≡ with_row row sensor.old) }
    ensures refused { OnErr result (sensor.new ≡ sensor.old) }
{
    let mut rows = mem::replace(&mut sensor.rows, List::new(Vec::new(alloc))).into_vec();
    let pushed = rows.push(row).is_ok();
    sensor.rows = List::new(rows);
    if !pushed {
        return Err(Memory);
    }
    Ok(())
}
