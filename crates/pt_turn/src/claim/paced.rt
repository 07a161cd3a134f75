//! The paced readings of units.

ghost use Rattle.std.specs.Prelude.{◌≡◌, ◌+ℤ◌, ◌-◌, ◌^◌, None, Some, min, pos};
ghost use Rattle.pt_semantics.specs.Paced.{at_least_zero, paced_by};
ghost use Rattle.pt_queue.specs.Events.{waiting_in, IsLeastTag};
ghost use Rattle.pt_turn.specs.Fields.State.{busy_in, IsSound};
ghost use Rattle.pt_turn.specs.Claims.Least.{AtOrIn, IsLeastAmong};
ghost use Rattle.pt_turn.specs.Claims.Next.{IsPacedNext, IsPacedOfSome};

use crate::claim::early::{is_passed_over, next_word};
use crate::state::Fields;
use pt_offsets::Plan;
use pt_queue::{Waiting, place_of};
use pt_tags::{Tag, Time};

/// The reading just past a time and an offset: time + offset + 1, but at least 0 and at most `u64::MAX`. All are microseconds.
fn just_past(time: Time, offset: i64) -> u64
    ensures { result ≡ min (2 ^ 64 - 1) (at_least_zero ((pos time +ℤ offset) +ℤ pos 1)) }
{
    if offset < 0 {
        return time.saturating_sub(offset.unsigned_abs() - 1);
    }
    time.saturating_add(offset as u64 + 1)
}

/// The paced reading of a tag at a unit with this offset: time + offset + 1, but at least 0 and at most `u64::MAX`, and 0 without an
/// offset. All are microseconds.
pub fn paced_reading(offset: Option<i64>, tag: Tag) -> u64
    ensures { result ≡ min (2 ^ 64 - 1) (paced_by offset tag) }
{
    match offset {
        None => 0,
        Some(offset) => just_past(tag.time, offset),
    }
}

/// The lesser of `so_far` and the paced reading of a tag at a unit with this offset: time + offset + 1, but at least 0, and 0
/// without an offset. All are microseconds.
fn sooner_paced(offset: Option<i64>, tag: Tag, so_far: u64) -> u64
    ensures { result ≡ min so_far (paced_by offset tag) }
{
    match offset {
        None => 0,
        Some(offset) => so_far.min(just_past(tag.time, offset)),
    }
}

/// The lesser of `so_far` and the paced reading of a unit at its least tag, if the unit has no open claim.
fn sooner_of_unit(fields: &Fields, plan: &Plan, waiting: Waiting, so_far: u64) -> u64
    requires sound { IsSound plan.now.graph fields.now }
    requires tag { IsLeastTag plan.now.graph (waiting_in fields.now.queue.events) waiting.unit
        (Some waiting.tag) }
    ensures { IsLeastAmong (AtOrIn so_far
        (IsPacedNext plan.now.graph (waiting_in fields.now.queue.events)
        (busy_in fields.now.open_claims.items) waiting.unit)) result }
{
    if fields.open_claims.has(waiting.unit) {
        return so_far;
    }
    sooner_of_free_unit(fields, plan, waiting, so_far)
}

/// The lesser of `so_far` and the paced reading of a unit without an open claim at its least tag.
#[inline(always)]
fn sooner_of_free_unit(fields: &Fields, plan: &Plan, waiting: Waiting, so_far: u64) -> u64
    requires sound { IsSound plan.now.graph fields.now }
    requires tag { IsLeastTag plan.now.graph (waiting_in fields.now.queue.events) waiting.unit
        (Some waiting.tag) }
    requires free { busy_in fields.now.open_claims.items waiting.unit ≡ None }
    ensures { IsLeastAmong (AtOrIn so_far
        (IsPacedNext plan.now.graph (waiting_in fields.now.queue.events)
        (busy_in fields.now.open_claims.items) waiting.unit)) result }
{
    sooner_paced(plan.offsets().of_unit(waiting.unit), waiting.tag, so_far)
}

/// The least of `so_far` and the paced readings of all units that have events and no open claim. Mostly few units have events
/// and no claim is open.
#[inline(always)]
pub fn paced_next(fields: &Fields, plan: &Plan, so_far: u64) -> u64
    requires sound { IsSound plan.now.graph fields.now }
    ensures { IsLeastAmong (AtOrIn so_far
        (IsPacedOfSome plan.now.graph (waiting_in fields.now.queue.events)
        (busy_in fields.now.open_claims.items))) result }
{
    if fields.queue.are_many() {
        return paced_next_of_many(fields, plan, so_far);
    }
    if !fields.open_claims.is_empty() {
        return paced_next_of_many(fields, plan, so_far);
    }
    let mut least = so_far;
    let mut from = 0usize;
    while let Some(waiting) = fields.queue.first_waiting(from) {
        least = sooner_of_free_unit(fields, plan, waiting, least);
        from = place_of(waiting.unit) + 1;
    }
    least
}

/// As `paced_next`, where many units have events or claims are open: passes over words of units none of which has a lesser
/// paced reading.
#[inline(never)]
fn paced_next_of_many(fields: &Fields, plan: &Plan, so_far: u64) -> u64
    requires sound { IsSound plan.now.graph fields.now }
    ensures { IsLeastAmong (AtOrIn so_far
        (IsPacedOfSome plan.now.graph (waiting_in fields.now.queue.events)
        (busy_in fields.now.open_claims.items))) result }
{
    let mut least = so_far;
    let mut from = 0usize;
    while let Some(waiting) = fields.queue.first_waiting(from) {
        let place = place_of(waiting.unit);
        let before = least.saturating_sub(1);
        if is_passed_over(fields, plan, before, from, place) {
            from = next_word(place);
            continue;
        }
        least = sooner_of_unit(fields, plan, waiting, least);
        from = place + 1;
    }
    least
}
