//! How many rows enter in a turn, and when the next one may.

ghost use Rattle.std.specs.Prelude.{◌≡◌, ℕ, ◌+◌, ◌<◌, ◌≤◌, [], IfSome, drop, length};
ghost use Rattle.pt_semantics.specs.Entering.{all_due, due};
ghost use Rattle.pt_turn.specs.Fields.State.{left_in};
ghost use Rattle.pt_turn.specs.Fields.Sensors.{AreSensors};
ghost use Rattle.pt_turn.specs.Steps.{NoneSeenBefore};

use crate::enter::is_seen;
use crate::state::Sensor;
use pt_tags::Reading;
use pt_types::{Graph, Row};

/// A count, and how many more of the rows after the first `entered` are seen by a reading, in microseconds; `None` if 64 bits
/// do not hold the sum. Mostly there are none.
#[inline(always)]
fn add_seen(count: usize, rows: &[Row], entered: usize, reading: Reading) -> Option<usize>
    requires { entered ≤ length rows.now }
    ensures { IfSome result (λ sum. sum ≡ count + length (due reading (drop entered rows.now))) }
{
    if !is_seen(rows, entered, reading) {
        return Some(count);
    }
    count.checked_add(count_seen(rows, entered, reading))
}

/// How many of the rows after the first `entered` are seen by a reading, in microseconds. Not inlined, since most turns have
/// no such row.
#[inline(never)]
fn count_seen(rows: &[Row], entered: usize, reading: Reading) -> usize
    requires { entered ≤ length rows.now }
    ensures { result ≡ length (due reading (drop entered rows.now)) }
{
    for index in entered..rows.len() {
        if reading < rows[index].seen {
            return index - entered;
        }
    }
    rows.len() - entered
}

/// How many rows of all sensors are seen by a reading, in microseconds; `None` if 64 bits do not hold the count.
pub fn count_due(graph: &Graph, sensors: &[Sensor], reading: Reading) -> Option<usize>
    requires { AreSensors graph.now sensors.now }
    ensures { IfSome result (λ count.
        count ≡ length (all_due graph.now reading (left_in sensors.now))) }
{
    let mut count: usize = 0;
    for sensor in sensors {
        count = add_seen(count, sensor.rows.as_slice(), sensor.entered, reading)?;
    }
    Some(count)
}

/// The reading, in microseconds, at which the next row of a sensor is seen; the greatest number if all have entered.
fn next_of(sensor: &Sensor) -> u64
    ensures { (r : ℕ) → r < result → due r (drop sensor.now.entered sensor.now.rows) ≡ [] }
{
    let rows = sensor.rows.as_slice();
    if rows.len() <= sensor.entered {
        return u64::MAX;
    }
    rows[sensor.entered].seen
}

/// The least reading, in microseconds, at which a row is seen that has not entered; the greatest number if all have entered.
pub fn next_seen(sensors: &[Sensor]) -> u64
    ensures { NoneSeenBefore result (left_in sensors.now) }
{
    let mut least = u64::MAX;
    for sensor in sensors {
        let next = next_of(sensor);
        if next < least {
            least = next;
        }
    }
    least
}
