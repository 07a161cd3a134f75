//! Whether a unit is safe.

ghost use Rattle.std.specs.Prelude.{◌≡◌, ◌+◌, ◌<◌, ◌≤◌, ◌↔◌, ℕ, List as Sequence, Some, true};
ghost use Rattle.std.specs.List.{list_any};
ghost use Rattle.pt_semantics.specs.Bounds.{Feeds};
ghost use Rattle.pt_semantics.specs.Edges.{Edge};
ghost use Rattle.pt_semantics.specs.Paced.{paced_by};
ghost use Rattle.pt_semantics.specs.Ranks.{sum_along};
ghost use Rattle.pt_semantics.specs.Safe.{IsSafe};
ghost use Rattle.pt_causality.specs.Delays.{IsUnit, least_of};
ghost use Rattle.pt_queue.specs.Events.{waiting_in, IsLeastTag};
ghost use Rattle.pt_turn.specs.Fields.State.{busy_in, IsSound};
ghost use Rattle.pt_turn.specs.Claims.Safe.{may_lead_to};

use crate::claim::ahead::{holder_of, is_behind};
use crate::state::{Fields, OpenClaim, OpenClaims};
use pt_causality::Least;
use pt_offsets::Plan;
use pt_queue::reaches;
use pt_tags::{Reading, Tag};
use pt_types::Unit;

/// Whether the reading has reached the paced reading of a tag at a unit with this offset. All are microseconds.
/// With offset 10, a tag of time 50 has paced reading 61.
pub fn has_reached(offset: Option<i64>, tag: Tag, reading: Reading) -> bool
    ensures { (result ≡ true) ↔ (paced_by offset tag ≤ reading) }
{
    match offset {
        None => true,
        Some(offset) => tag.time as i128 + offset as i128 + 1 <= reading as i128,
    }
}

/// Whether a unit is due at a reading (in microseconds): no row and no message can still lead to an event there at the tag or
/// before.
#[inline(always)]
pub fn is_due(plan: &Plan, reading: Reading, unit: Unit, tag: Tag) -> bool
    ensures { (result ≡ true) ↔ ((x b : ℕ) (path : Sequence Edge) →
        Feeds plan.now.graph x b path unit → tag.time + b < reading + (sum_along path).time) }
{
    has_reached(plan.offsets().of_unit(unit), tag, reading)
}

/// Whether an open claim can lead to a unit at the tag or before.
fn leads_to(least: &Least, unit: Unit, tag: Tag, claim: &OpenClaim) -> bool
    ensures { result ≡ may_lead_to (least_of least.now) unit tag claim.now }
{
    reaches(least.get(claim.unit, unit), claim.task.tag, tag)
}

/// Whether one of the open claims can lead to a unit at the tag or before.
fn is_held_up(claims: &OpenClaims, least: &Least, unit: Unit, tag: Tag) -> bool
    ensures { result ≡ list_any (may_lead_to (least_of least.now) unit tag) claims.now.items }
{
    let (front, back) = claims.as_slices();
    front
        .iter()
        .chain(back)
        .any(|claim| leads_to(least, unit, tag, claim))
}

/// As `is_free`, where claims may be open. Not inlined, since mostly none is open where units are asked.
///
/// What costs least is asked first: the unit that last held up this one, then the open claims, which are few. While a claim stays
/// open, units that wait for it are asked again at each turn, and only then follows a search of all events.
#[inline(never)]
fn is_free_of_claims(fields: &Fields, plan: &Plan, reading: Reading, unit: Unit, tag: Tag) -> bool
    requires sound { IsSound plan.now.graph fields.now }
    requires unit { IsUnit plan.now.graph unit }
    requires tag { IsLeastTag plan.now.graph (waiting_in fields.now.queue.events) unit (Some tag) }
    requires due { (x b : ℕ) (path : Sequence Edge) → Feeds plan.now.graph x b path unit →
        tag.time + b < reading + (sum_along path).time }
    ensures { (result ≡ true) ↔ IsSafe plan.now.graph (waiting_in fields.now.queue.events)
        (busy_in fields.now.open_claims.items) reading unit tag }
{
    if fields.open_claims.has(unit) {
        return false;
    }
    if is_behind(fields, plan, unit, tag, holder_of(fields, plan, unit)) {
        return false;
    }
    let least = plan.least();
    if is_held_up(&fields.open_claims, least, unit, tag) {
        return false;
    }
    !fields.queue.blocked(unit, tag, least)
}

/// Whether a unit that is due is safe: it has no open claim, and no event and no open claim leads to it in time.
///
/// Inlined up to the test whether it is the only unit that has events: nothing else can lead to it then.
#[inline(always)]
pub fn is_free(fields: &Fields, plan: &Plan, reading: Reading, unit: Unit, tag: Tag) -> bool
    requires sound { IsSound plan.now.graph fields.now }
    requires unit { IsUnit plan.now.graph unit }
    requires tag { IsLeastTag plan.now.graph (waiting_in fields.now.queue.events) unit (Some tag) }
    requires due { (x b : ℕ) (path : Sequence Edge) → Feeds plan.now.graph x b path unit →
        tag.time + b < reading + (sum_along path).time }
    ensures { (result ≡ true) ↔ IsSafe plan.now.graph (waiting_in fields.now.queue.events)
        (busy_in fields.now.open_claims.items) reading unit tag }
{
    if !fields.open_claims.is_empty() {
        return is_free_of_claims(fields, plan, reading, unit, tag);
    }
    if fields.queue.is_only(unit) {
        return true;
    }
    !fields.queue.blocked(unit, tag, plan.least())
}

/// Whether a unit is safe to process at a reading (in microseconds), where `tag` is the least tag of its events.
///
/// Inlined up to the tests whether the unit is due, which often it isn't, and whether it is the only one that has events.
///
/// (That a unit waits for its offset is from RTAS 2009, and that it waits for what leads to it from RTAS 2007; that it waits
/// for an equal tag too is this project's own choice.)
#[inline(always)]
pub fn is_safe(fields: &Fields, plan: &Plan, reading: Reading, unit: Unit, tag: Tag) -> bool
    requires sound { IsSound plan.now.graph fields.now }
    requires unit { IsUnit plan.now.graph unit }
    requires tag { IsLeastTag plan.now.graph (waiting_in fields.now.queue.events) unit (Some tag) }
    ensures { (result ≡ true) ↔ IsSafe plan.now.graph (waiting_in fields.now.queue.events)
        (busy_in fields.now.open_claims.items) reading unit tag }
{
    if !is_due(plan, reading, unit, tag) {
        return false;
    }
    is_free(fields, plan, reading, unit, tag)
}
