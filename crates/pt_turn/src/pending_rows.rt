//! The sensors of a platform before any row has entered.

ghost use Rattle.std.specs.Prelude.{◌≡◌, IfOk, map};
ghost use Rattle.pt_turn.specs.Handed.{unentered};

use crate::state::Sensor;
use pt_sensors::SensorRows;
use std::alloc::{AllocError, Global};

/// A sensor none of whose rows has entered.
fn unentered(sensor: SensorRows) -> Sensor
    ensures { result ≡ unentered sensor }
{
    let SensorRows { actor, rows } = sensor;
    Sensor {
        actor,
        rows,
        entered: 0,
    }
}

/// Sensors none of whose rows has entered.
pub fn all_unentered(alloc: Global, rows: Vec<SensorRows>) -> Result<Vec<Sensor>, AllocError>
    ensures { IfOk result (λ sensors. sensors.items ≡ map unentered rows.items) }
{
    rows.into_iter().map(unentered).collect(alloc)
}
