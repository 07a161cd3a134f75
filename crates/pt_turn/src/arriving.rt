//! One more row of a sensor.

ghost use Rattle.std.specs.Prelude.{◌≡◌, ◌≤◌, IfErr, IfOk, OnErr, OnOk};
ghost use Rattle.pt_turn.specs.Arrived.{HasArrived, MayArrive, MayArriveAt, ShowsRefused};

use crate::arrive::{Unfit, append, place_of, test};
use crate::platform::Platform;
use pt_types::Row;
use std::alloc::Global;

impl Platform {
    /// Appends a row to those of a sensor, if it may come next. It enters in the turn that sees it. Memory reserved for a turn is
    /// reserved no more. If the row is refused, nothing changes.
    pub fn arrive(&mut self, alloc: Global, sensor: u32, row: Row) -> Result<(), Unfit>
        ensures arrived { OnOk result (HasArrived self.old self.new sensor row) }
        ensures may { OnOk result (MayArrive self.old sensor row) }
        ensures refused { OnErr result (self.new ≡ self.old) }
        ensures why { IfErr result (ShowsRefused self.old sensor row) }
    {
        let place = self.place_for(sensor, row)?;
        let Ok(()) = append(alloc, &mut self.progress.fields.sensors[place], row) else {
            return Err(Unfit::Memory);
        };
        self.next = None;
        self.progress.next_row = lesser(self.progress.next_row, row.seen);
        self.room.clear();
        Ok(())
    }

    /// The place of a sensor at which this row may come next.
    fn place_for(&self, sensor: u32, row: Row) -> Result<usize, Unfit>
        ensures may { IfOk result (MayArriveAt self.now sensor row) }
        ensures why { IfErr result (ShowsRefused self.now sensor row) }
    {
        let graph = self.plan.graph();
        if graph.platform_of(sensor) != self.number {
            return Err(Unfit::NoSensor);
        }
        let Some(place) = place_of(self.progress.fields.sensors.as_slice(), sensor) else {
            return Err(Unfit::NoSensor);
        };
        let sensor = &self.progress.fields.sensors[place];
        match test(graph, sensor, self.progress.fields.reading, row) {
            Ok(()) => Ok(place),
            Err(why) => Err(why),
        }
    }
}

/// The lesser of two numbers.
fn lesser(a: u64, b: u64) -> u64
    ensures { (result ≤ a) × (result ≤ b) }
{
    if a < b { a } else { b }
}
