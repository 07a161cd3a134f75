//! The rows of a made input.

ghost use Rattle.std.specs.Prelude.{◌≡◌, ◌≤◌, ◌<◌, IfOk};
ghost use Rattle.pt_types.specs.declared.rows.Row.{Row};
ghost use Rattle.pt_sensors.specs.Places.{StandInPlace, of_run};
ghost use Rattle.pt_sensors.specs.Listed.{rows_for};
ghost use Rattle.pt_semantics.specs.Rows.{FitRows};
ghost use Rattle.pt_make.specs.Input as made;

use crate::graphs::row_count;
use pt_sensors::SensorRows;
use pt_tags::List;
use pt_types::Row;
use std::alloc::{AllocError, Global};

/// The number of actors of the graph.
const ACTORS: u32 = 18;

/// Row `k`, from 1, of sensor `sensor`, from 0.
fn row(number: u32, sensor: u32, k: u64) -> Row
    requires number { number ≤ 100 }
    requires sensor { sensor ≤ 3 }
    requires k { k ≤ 10000 }
    ensures { result ≡ made.made_row number sensor k }
{
    let time = 100 * k;
    let value = (number as u64 * k + sensor as u64) % 100;
    Row {
        time,
        seen: time + k % 11,
        value: value as i64,
    }
}

/// The rows of a sensor.
fn sensor_rows(alloc: Global, number: u32, sensor: u32) -> Result<List<Row>, AllocError>
    requires number { number ≤ 100 }
    requires sensor { sensor ≤ 3 }
    ensures { IfOk result (λ rows. rows ≡ made.sensor_rows number sensor) }
{
    let mut rows = Vec::new(alloc);
    for k in 1..row_count(number) + 1 {
        rows.push(row(number, sensor, k))?;
    }
    Ok(List::new(rows))
}

/// The rows of an actor: none if it is not a sensor.
fn rows_of(alloc: Global, number: u32, actor: u32) -> Result<List<Row>, AllocError>
    requires { number ≤ 100 }
    ensures { IfOk result (λ rows. rows ≡ made.made_rows number actor) }
{
    match actor {
        0 => sensor_rows(alloc, number, 0),
        4 => sensor_rows(alloc, number, 1),
        9 => sensor_rows(alloc, number, 2),
        14 => sensor_rows(alloc, number, 3),
        _ => Ok(List::new(Vec::new(alloc))),
    }
}

/// The rows made from a number, one entry for each actor. None is late.
pub fn made_rows(alloc: Global, number: u32) -> Result<Vec<SensorRows>, AllocError>
    requires { number ≤ 100 }
    ensures places { IfOk result (λ all. StandInPlace (made.made_graph number) all.items) }
    ensures rows { IfOk result (λ all. rows_for all.items ≡ made.made_rows number) }
    ensures fit { IfOk result (λ all.
        FitRows (made.made_graph number) (of_run (made.made_graph number) (rows_for all.items))) }
{
    let mut all = Vec::new(alloc);
    for actor in 0..ACTORS {
        let rows = rows_of(alloc, number, actor)?;
        all.push(SensorRows { actor, rows })?;
    }
    Ok(all)
}
