//! The next unit of which a search asks whether it is safe.

ghost use Rattle.std.specs.Prelude.{◌≡◌, ◌/◌, ◌%◌, ℕ, IfSome, List as Sequence, Option, Some, false, true};
ghost use Rattle.pt_tags.specs.declared.tag.Tag.{Tag as Time};
ghost use Rattle.pt_types.specs.declared.firing.Task.{Task};
ghost use Rattle.pt_types.specs.declared.graph.Unit.{Unit};
ghost use Rattle.pt_semantics.specs.Safe.{IsSafe};
ghost use Rattle.pt_causality.specs.Delays.{IsUnit};
ghost use Rattle.pt_queue.specs.declared.waiting.Waiting.{Waiting as Pending};
ghost use Rattle.pt_queue.specs.Events.{waiting_in, IsLeastTag};
ghost use Rattle.pt_turn.specs.Fields.State.{IsSound};
ghost use Rattle.pt_turn.specs.Claims.Ahead.{HasEventAhead};
ghost use Rattle.pt_turn.specs.Claims.Early.{IsDueAt};
ghost use Rattle.pt_turn.specs.Claims.Fronts.{AreFirst, AreFirstUpTo, IsAsked};

use crate::claim::ahead::{Ahead, is_behind};
use crate::claim::early::{is_passed_over, next_word};
use crate::claim::safe::is_due;
use crate::state::Fields;
use pt_offsets::Plan;
use pt_queue::{Waiting, place_of};
use pt_tags::Reading;

/// Whether a unit that has events is due, and not found to wait for the unit `ahead`. If not, it isn't safe.
#[inline(always)]
fn is_asked(
    fields: &Fields,
    plan: &Plan,
    reading: Reading,
    ahead: Option<Ahead>,
    waiting: Waiting,
) -> bool
    requires sound { IsSound plan.now.graph fields.now }
    requires unit { IsUnit plan.now.graph waiting.unit }
    requires tag { IsLeastTag plan.now.graph (waiting_in fields.now.queue.events) waiting.unit
        (Some waiting.tag) }
    requires ahead { IfSome ahead (HasEventAhead plan.now.graph
        (waiting_in fields.now.queue.events) plan.now.least) }
    ensures due { result ≡ true → IsDueAt plan.now.graph reading waiting.unit waiting.tag }
    ensures waits { result ≡ false → (busy : Unit → Option Task) → (t : Time) →
        IsSafe plan.now.graph (waiting_in fields.now.queue.events) busy reading waiting.unit t → ⊥ }
{
    let Waiting { unit, tag } = waiting;
    is_due(plan, reading, unit, tag) && !is_behind(fields, plan, unit, tag, ahead)
}

/// The first unit that has events, of those from place `from` on, that may be safe: it is due, and not found to wait for the unit
/// `ahead`. `None` if there is none. The reading is in microseconds.
///
/// The loop stays apart, since a search passes over many units for each one that it asks: those of words in which none is due, and
/// those that wait behind one unit.
#[inline(never)]
pub fn next_asked(
    fields: &Fields,
    plan: &Plan,
    reading: Reading,
    ahead: Option<Ahead>,
    from: usize,
) -> Option<Waiting>
    requires sound { IsSound plan.now.graph fields.now }
    requires ahead { IfSome ahead (HasEventAhead plan.now.graph
        (waiting_in fields.now.queue.events) plan.now.least) }
    ensures first { (cut : Option Pending) → (busy : Unit → Option Task) → (cs : Sequence Pending) →
        AreFirst cut plan.now.graph (waiting_in fields.now.queue.events) busy reading (from / 8)
        (from % 8) cs → AreFirstUpTo cut plan.now.graph
        (waiting_in fields.now.queue.events) busy reading result cs }
    ensures asked { IfSome result (IsAsked plan.now.graph
        (waiting_in fields.now.queue.events) reading from) }
{
    let mut from = from;
    while let Some(waiting) = fields.queue.first_waiting(from) {
        let place = place_of(waiting.unit);
        if is_passed_over(fields, plan, reading, from, place) {
            from = next_word(place);
            continue;
        }
        if is_asked(fields, plan, reading, ahead, waiting) {
            return Some(waiting);
        }
        from = place + 1;
    }
    None
}
