//! The safe units to claim next.

ghost use Rattle.std.specs.Prelude.{◌≡◌, ◌<◌, ◌+◌, ◌⊎◌, ◌↔◌, ℕ, List as Sequence, [], None, Some, IfErr, IfOk, IfSome, true, false, drop, length};
ghost use Rattle.pt_semantics.specs.Bounds.{Feeds};
ghost use Rattle.pt_semantics.specs.Edges.{Edge};
ghost use Rattle.pt_semantics.specs.Ranks.{sum_along};
ghost use Rattle.pt_semantics.specs.Safe.{IsSafe};
ghost use Rattle.pt_causality.specs.Delays.{IsUnit};
ghost use Rattle.pt_queue.specs.Events.{waiting_in, IsLeastTag};
ghost use Rattle.pt_turn.specs.Fields.State.{busy_in, IsSound};
ghost use Rattle.pt_turn.specs.Claims.Ahead.{HasEventAhead};
ghost use Rattle.pt_turn.specs.Claims.Early.{IsDueAt};
ghost use Rattle.pt_turn.specs.Claims.Fronts.{AreBothSafe, AreFirst, AreFront, IsNextSafe, IsTaken, one_of};

use crate::claim::ahead::{Ahead, holder_of};
use crate::claim::asked::next_asked;
use crate::claim::cut::cut_behind;
use crate::claim::order::{is_cut_off, is_past_all, put};
use crate::claim::safe::{is_free, is_safe};
use crate::state::Fields;
use arrayvec::ArrayVec;
use pt_offsets::Plan;
use pt_queue::{Waiting, place_of};
use pt_tags::{Reading, Tag};
use pt_types::Unit;

/// A search for this many units asks all that are due at once.
const ALL: usize = 64;

/// The safe units to claim next, in order, at most 64, and how many of them are taken.
#[derive(Drop)]
pub struct Front {
    pub units: ArrayVec<Waiting, 64>,
    pub taken: usize,
    /// Whether there may be more safe units after these.
    pub more: bool,
}

/// The first two safe units that a search met.
#[derive(Clone, Copy)]
pub struct Several {
    first: Unit,
    second: Unit,
}

/// Whether a unit is one of the two.
fn is_one_of(several: Several, unit: Unit) -> bool
    ensures { result ≡ true → (several.first ≡ unit) ⊎ (several.second ≡ unit) }
{
    several.first == unit || several.second == unit
}

/// Whether a unit that is due is safe. Of two units that are `known` to be safe this isn't searched again.
fn is_free_or_known(
    fields: &Fields,
    plan: &Plan,
    reading: Reading,
    unit: Unit,
    tag: Tag,
    known: Option<Several>,
) -> bool
    requires sound { IsSound plan.now.graph fields.now }
    requires unit { IsUnit plan.now.graph unit }
    requires tag { IsLeastTag plan.now.graph (waiting_in fields.now.queue.events) unit (Some tag) }
    requires due { (x b : ℕ) (path : Sequence Edge) → Feeds plan.now.graph x b path unit →
        tag.time + b < reading + (sum_along path).time }
    requires known { IfSome known (AreBothSafe plan.now.graph (waiting_in fields.now.queue.events)
        (busy_in fields.now.open_claims.items) reading) }
    ensures { (result ≡ true) ↔ IsSafe plan.now.graph (waiting_in fields.now.queue.events)
        (busy_in fields.now.open_claims.items) reading unit tag }
{
    if let Some(several) = known {
        if is_one_of(several, unit) {
            return true;
        }
    }
    is_free(fields, plan, reading, unit, tag)
}

/// Adds a unit that is due, if it is safe, to those to claim next. A unit that 64 of these come before isn't asked, nor one that comes
/// behind the `cut`.
///
/// `ahead` is a unit with events that may hold up others, and so is the result, for the search for the next one: the one that was
/// last found to hold up any. A safe unit mostly holds up none of the next ones. Units that are `known` to be safe aren't searched again.
fn add_unit(
    fields: &Fields,
    plan: &Plan,
    reading: Reading,
    waiting: Waiting,
    ahead: Option<Ahead>,
    known: Option<Several>,
    cut: Option<Waiting>,
    units: &mut ArrayVec<Waiting, 64>,
) -> Option<Ahead>
    requires sound { IsSound plan.now.graph fields.now }
    requires unit { IsUnit plan.now.graph waiting.unit }
    requires tag { IsLeastTag plan.now.graph (waiting_in fields.now.queue.events) waiting.unit
        (Some waiting.tag) }
    requires due { IsDueAt plan.now.graph reading waiting.unit waiting.tag }
    requires ahead { IfSome ahead (HasEventAhead plan.now.graph
        (waiting_in fields.now.queue.events) plan.now.least) }
    requires known { IfSome known (AreBothSafe plan.now.graph (waiting_in fields.now.queue.events)
        (busy_in fields.now.open_claims.items) reading) }
    requires first { AreFirst cut plan.now.graph (waiting_in fields.now.queue.events)
        (busy_in fields.now.open_claims.items) reading waiting.unit.actor waiting.unit.group
        units.old.items }
    ensures first { AreFirst cut plan.now.graph (waiting_in fields.now.queue.events)
        (busy_in fields.now.open_claims.items) reading waiting.unit.actor
        (waiting.unit.group + 1) units.new.items }
    ensures ahead { IfSome result (HasEventAhead plan.now.graph
        (waiting_in fields.now.queue.events) plan.now.least) }
{
    if is_past_all(units, waiting) {
        return ahead;
    }
    if is_cut_off(cut, waiting) {
        return ahead;
    }
    let Waiting { unit, tag } = waiting;
    if !is_free_or_known(fields, plan, reading, unit, tag, known) {
        return holder_of(fields, plan, unit);
    }
    put(units, waiting);
    ahead
}

/// Replaces the list by the first safe units in order, at most 64, of those that don't come behind the `cut`. Searches the units that
/// have events.
fn fill(
    fields: &Fields,
    plan: &Plan,
    reading: Reading,
    known: Option<Several>,
    cut: Option<Waiting>,
    units: &mut ArrayVec<Waiting, 64>,
)
    requires sound { IsSound plan.now.graph fields.now }
    requires known { IfSome known (AreBothSafe plan.now.graph (waiting_in fields.now.queue.events)
        (busy_in fields.now.open_claims.items) reading) }
    ensures { AreFirst cut plan.now.graph (waiting_in fields.now.queue.events)
        (busy_in fields.now.open_claims.items) reading
        (length plan.now.graph.actors) 0 units.new.items }
{
    units.clear();
    let mut ahead = None;
    let mut from = 0usize;
    while let Some(waiting) = next_asked(fields, plan, reading, ahead, from) {
        ahead = add_unit(fields, plan, reading, waiting, ahead, known, cut, units);
        from = place_of(waiting.unit) + 1;
    }
}

/// Replaces the list by the first safe units in order, of those that don't come behind the cut, and returns whether there are any.
/// Without a cut it does nothing.
fn fill_before(
    fields: &Fields,
    plan: &Plan,
    reading: Reading,
    known: Option<Several>,
    cut: Option<Waiting>,
    units: &mut ArrayVec<Waiting, 64>,
) -> bool
    requires sound { IsSound plan.now.graph fields.now }
    requires known { IfSome known (AreBothSafe plan.now.graph (waiting_in fields.now.queue.events)
        (busy_in fields.now.open_claims.items) reading) }
    ensures front { result ≡ true → AreFront plan.now.graph
        (waiting_in fields.now.queue.events) (busy_in fields.now.open_claims.items) reading true
        units.new.items }
    ensures some { result ≡ true → 0 < length units.new.items }
{
    if cut.is_none() {
        return false;
    }
    fill(fields, plan, reading, known, cut, units);
    !units.is_empty()
}

/// Replaces the list by the first safe units in order, at most 64, and returns whether there may be more.
///
/// Of many units the first `few` that are due are asked first, and the others only if none of these is safe.
fn search(
    fields: &Fields,
    plan: &Plan,
    reading: Reading,
    known: Option<Several>,
    few: usize,
    units: &mut ArrayVec<Waiting, 64>,
) -> bool
    requires sound { IsSound plan.now.graph fields.now }
    requires known { IfSome known (AreBothSafe plan.now.graph (waiting_in fields.now.queue.events)
        (busy_in fields.now.open_claims.items) reading) }
    ensures front { AreFront plan.now.graph (waiting_in fields.now.queue.events)
        (busy_in fields.now.open_claims.items) reading result units.new.items }
    ensures some { (0 < length units.new.items) ⊎ (result ≡ false) }
{
    let cut = cut_behind(fields, plan, reading, few);
    if fill_before(fields, plan, reading, known, cut, units) {
        return true;
    }
    fill(fields, plan, reading, known, None, units);
    units.is_full()
}

/// The safe unit so far, after one more unit that has events.
fn alone_with(
    fields: &Fields,
    plan: &Plan,
    reading: Reading,
    waiting: Waiting,
    alone: Option<Waiting>,
) -> Result<Option<Waiting>, Several>
    requires sound { IsSound plan.now.graph fields.now }
    requires unit { IsUnit plan.now.graph waiting.unit }
    requires tag { IsLeastTag plan.now.graph (waiting_in fields.now.queue.events) waiting.unit
        (Some waiting.tag) }
    requires first { AreFirst None plan.now.graph (waiting_in fields.now.queue.events)
        (busy_in fields.now.open_claims.items) reading waiting.unit.actor waiting.unit.group
        (one_of alone) }
    ensures alone { IfOk result (λ alone.
        AreFirst None plan.now.graph (waiting_in fields.now.queue.events)
        (busy_in fields.now.open_claims.items) reading waiting.unit.actor (waiting.unit.group + 1)
        (one_of alone)) }
    ensures several { IfErr result (AreBothSafe plan.now.graph (waiting_in fields.now.queue.events)
        (busy_in fields.now.open_claims.items) reading) }
{
    let Waiting { unit, tag } = waiting;
    if !is_safe(fields, plan, reading, unit, tag) {
        return Ok(alone);
    }
    match alone {
        None => Ok(Some(Waiting { unit, tag })),
        Some(first) => Err(Several {
            first: first.unit,
            second: unit,
        }),
    }
}

/// The only safe unit, or `None` if no unit is safe. Stops at the second safe one.
///
/// Where few units have events mostly at most one is safe, and then no front is needed.
pub fn alone(fields: &Fields, plan: &Plan, reading: Reading) -> Result<Option<Waiting>, Several>
    requires sound { IsSound plan.now.graph fields.now }
    ensures alone { IfOk result (λ alone.
        AreFront plan.now.graph (waiting_in fields.now.queue.events)
        (busy_in fields.now.open_claims.items) reading false (one_of alone)) }
    ensures several { IfErr result (AreBothSafe plan.now.graph (waiting_in fields.now.queue.events)
        (busy_in fields.now.open_claims.items) reading) }
{
    let mut alone = None;
    let mut from = 0usize;
    while let Some(waiting) = fields.queue.first_waiting(from) {
        alone = alone_with(fields, plan, reading, waiting, alone)?;
        from = place_of(waiting.unit) + 1;
    }
    Ok(alone)
}

impl Front {
    /// An empty front, before the first search.
    pub fn new() -> Front
        ensures units { result.units.items ≡ [] }
        ensures more { result.more ≡ true }
    {
        Front {
            units: ArrayVec::new(),
            taken: 0,
            more: true,
        }
    }

    /// Searches again, and asks no more than `few` units if these are safe. Not inlined, so that a unit that was found already is taken
    /// without a call.
    #[inline(never)]
    pub fn refill(
        &mut self,
        fields: &Fields,
        plan: &Plan,
        reading: Reading,
        known: Option<Several>,
        few: usize,
    )
        requires sound { IsSound plan.now.graph fields.now }
        requires known { IfSome known (AreBothSafe plan.now.graph
            (waiting_in fields.now.queue.events) (busy_in fields.now.open_claims.items) reading) }
        ensures front { AreFront plan.now.graph (waiting_in fields.now.queue.events)
            (busy_in fields.now.open_claims.items) reading self.new.more
            (drop self.new.taken self.new.units.items) }
        ensures some { (self.new.taken < length self.new.units.items) ⊎ (self.new.more ≡ false) }
    {
        self.more = search(fields, plan, reading, known, few, &mut self.units);
        self.taken = 0;
    }

    /// Takes the first safe unit; `None` if no unit is safe.
    #[inline(always)]
    pub fn take(&mut self, fields: &Fields, plan: &Plan, reading: Reading) -> Option<Waiting>
        requires sound { IsSound plan.now.graph fields.now }
        requires front { AreFront plan.now.graph (waiting_in fields.now.queue.events)
            (busy_in fields.now.open_claims.items) reading self.old.more
            (drop self.old.taken self.old.units.items) }
        ensures { IsTaken plan.now.graph (waiting_in fields.now.queue.events)
            (busy_in fields.now.open_claims.items) reading self.new.more
            (drop self.new.taken self.new.units.items) result }
    {
        if self.taken >= self.units.len() && self.more {
            self.refill(fields, plan, reading, None, ALL);
        }
        if self.taken >= self.units.len() {
            return None;
        }
        let next = self.units[self.taken];
        self.taken += 1;
        Some(next)
    }
}

/// The unit that is safe at this reading with the least tag, actor and group; `None` if none is safe.
///
/// The reading is in microseconds. Searches the units that have events.
pub fn next_safe(fields: &Fields, plan: &Plan, reading: Reading) -> Option<Waiting>
    requires sound { IsSound plan.now.graph fields.now }
    ensures { IsNextSafe plan.now.graph (waiting_in fields.now.queue.events)
        (busy_in fields.now.open_claims.items) reading result }
{
    let mut front = Front::new();
    front.take(fields, plan, reading)
}
