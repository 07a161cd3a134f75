//! The next true time at which something can happen.

ghost use Rattle.std.specs.Prelude.{◌≡◌, IfOk, option_map};
ghost use Rattle.pt_replay.specs.Visits.Moments.{IsArrival, IsLeastNumber, IsMoment, IsReading, OfOne};
ghost use Rattle.pt_semantics.specs.TrueTime.{true_time};

use crate::airway::Airway;
use crate::visit::visiting::lag_of;
use pt_tags::{Memory, Reading};
use pt_turn::Platform;
use pt_types::Air;
use pt_visits::lesser;

/// The least true time, in microseconds, at which something can happen on a platform that is not closed, or a message
/// arrives; `None` if there is none.
///
/// A true time that does not fit in 64 bits counts as out of memory.
pub fn next_time(
    platforms: &[Platform],
    airways: &[Airway],
    air: &Air,
) -> Result<Option<u64>, Memory>
    ensures { IfOk result (IsLeastNumber (IsMoment air.now platforms.now airways.now)) }
{
    let reading = next_reading(platforms, air)?;
    Ok(lesser(reading, next_arrival(airways)))
}

/// The least true time at which something can happen on a platform.
fn next_reading(platforms: &[Platform], air: &Air) -> Result<Option<u64>, Memory>
    ensures { IfOk result (IsLeastNumber (OfOne (IsReading air.now) platforms.now)) }
{
    let mut least = None;
    for i in 0..platforms.len() {
        if let Some(time) = reading_of(&platforms[i], air)? {
            least = lesser(least, Some(time));
        }
    }
    Ok(least)
}

/// The least true time at which something can happen on this platform.
fn reading_of(platform: &Platform, air: &Air) -> Result<Option<u64>, Memory>
    ensures { IfOk result (IsLeastNumber (IsReading air.now platform.now)) }
{
    match platform.next_reading() {
        None => Ok(None),
        Some(reading) => Ok(Some(true_time(air, platform.number(), reading)?)),
    }
}

/// The true time from which on the clock of a platform has this reading.
fn true_time(air: &Air, number: u32, reading: Reading) -> Result<u64, Memory>
    ensures { IfOk result (λ time. time ≡ true_time air.now number reading) }
{
    if reading == 0 {
        return Ok(0);
    }
    reading.checked_add(lag_of(air, number)).ok_or(Memory)
}

/// The least arrival of all messages on their way.
fn next_arrival(airways: &[Airway]) -> Option<u64>
    ensures { IsLeastNumber (OfOne IsArrival airways.now) result }
{
    let mut least = None;
    for l in 0..airways.len() {
        if let Some(time) = airways[l].next_arrival() {
            least = lesser(least, Some(time));
        }
    }
    least
}
