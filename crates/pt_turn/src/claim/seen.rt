//! The readings at which rows are seen.

ghost use Rattle.std.specs.Prelude.{length, slice_index_or};
ghost use Rattle.pt_turn.specs.Claims.Least.{AtOrIn, Below, IsLeastAmong};
ghost use Rattle.pt_turn.specs.Claims.Next.{no_sensor, IsSeenNext};

use crate::state::Sensor;

/// The lesser of `so_far` and the reading at which a sensor's next row is seen.
fn sooner_seen(sensor: &Sensor, so_far: u64) -> u64
    ensures { IsLeastAmong (AtOrIn so_far (IsSeenNext sensor.now)) result }
{
    match sensor.rows.as_slice().get(sensor.entered) {
        None => so_far,
        Some(row) => so_far.min(row.seen),
    }
}

/// The least of `so_far` and the readings at which the next row of each sensor is seen.
pub fn seen_next(sensors: &[Sensor], so_far: u64) -> u64
    ensures { IsLeastAmong (AtOrIn so_far
        (Below (length sensors.now) (λ i. IsSeenNext (slice_index_or sensors.now i no_sensor))))
        result }
{
    let mut least = so_far;
    for sensor in sensors {
        least = sooner_seen(sensor, least);
    }
    least
}
