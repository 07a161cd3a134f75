//! Until when no unit is safe, if none is at a reading.
//!
//! While nothing changes, a unit that is due and isn't safe stays so: it waits for an event or an open claim. Only a unit that isn't due
//! can become safe, and not before it is due.

ghost use Rattle.std.specs.Prelude.{◌+◌, ◌≤◌};
ghost use Rattle.pt_queue.specs.Events.{waiting_in, IsLeastTag};
ghost use Rattle.pt_turn.specs.Fields.State.{IsSound, NoneSafeBefore};
ghost use Rattle.pt_turn.specs.Claiming.{IsIdle};
ghost use Rattle.pt_turn.specs.Claims.Early.{IsDueAfter, NoneDueBefore};

use crate::claim::paced::paced_reading;
use crate::state::Fields;
use pt_offsets::Plan;
use pt_queue::{Waiting, place_of};
use pt_tags::Reading;

/// The lesser of `so_far` and the reading at which a unit is due, if it isn't due at `reading`. All are microseconds.
fn sooner_due(plan: &Plan, reading: Reading, waiting: Waiting, so_far: u64) -> u64
    ensures no_later { result ≤ so_far }
    ensures due { IsDueAfter plan.now.graph reading result waiting.unit waiting.tag }
{
    let due = paced_reading(plan.offsets().of_unit(waiting.unit), waiting.tag);
    if due <= reading {
        return so_far;
    }
    so_far.min(due)
}

/// The least reading after `reading` at which a unit that has events becomes due; the greatest number if none does. Both are
/// microseconds.
#[inline(never)]
fn next_due(fields: &Fields, plan: &Plan, reading: Reading) -> u64
    requires sound { IsSound plan.now.graph fields.now }
    ensures { NoneDueBefore plan.now.graph (waiting_in fields.now.queue.events) reading result }
{
    let mut least = u64::MAX;
    let mut from = 0usize;
    while let Some(waiting) = fields.queue.first_waiting(from) {
        least = sooner_due(plan, reading, waiting, least);
        from = place_of(waiting.unit) + 1;
    }
    least
}

/// The reading after this one, if there is one, in microseconds.
#[inline(always)]
fn past(reading: Reading) -> u64
    ensures { result ≤ reading + 1 }
{
    reading.saturating_add(1)
}

/// A reading before which no unit is safe, in microseconds, if none is safe at `reading`.
///
/// Mostly something changes before the next turn, and to look at all units takes long. So that is done only if the search claimed
/// nothing, and a claim is open or nothing has changed since the search before.
#[inline(always)]
pub fn none_safe_before(fields: &Fields, plan: &Plan, reading: Reading, claimed: bool) -> u64
    requires sound { IsSound plan.now.graph fields.now }
    requires idle { IsIdle plan.now.graph fields.now reading }
    ensures { NoneSafeBefore plan.now.graph fields.now result }
{
    if claimed || fields.none_safe_before == 0 && fields.open_claims.is_empty() {
        return past(reading);
    }
    next_due(fields, plan, reading)
}
