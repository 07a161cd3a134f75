//! The unit that was found to hold up another one: it mostly holds up the next ones too.

ghost use Rattle.std.specs.Prelude.{◌≡◌, ℕ, IfSome, Option, true};
ghost use Rattle.pt_types.specs.declared.firing.Task.{Task};
ghost use Rattle.pt_types.specs.declared.graph.Unit.{Unit};
ghost use Rattle.pt_semantics.specs.Safe.{IsSafe};
ghost use Rattle.pt_causality.specs.Delays.{IsUnit};
ghost use Rattle.pt_queue.specs.Events.{waiting_in};
ghost use Rattle.pt_turn.specs.Fields.State.{IsSound};
ghost use Rattle.pt_turn.specs.Claims.Ahead.{HasEventAhead};

use crate::state::Fields;
use pt_offsets::Plan;
use pt_queue::{Waiting, reaches};
use pt_tags::Tag;
use pt_types::Unit;

/// A unit with events that may hold up others.
#[derive(Clone, Copy)]
pub struct Ahead {
    pub waiting: Waiting,
    /// Its number in the table of least delays.
    pub number: usize,
}

/// The unit that was last found to hold up another one, if it has events, with its least tag.
pub fn holder_of(fields: &Fields, plan: &Plan, unit: Unit) -> Option<Ahead>
    requires sound { IsSound plan.now.graph fields.now }
    ensures { IfSome result (HasEventAhead plan.now.graph
        (waiting_in fields.now.queue.events) plan.now.least) }
{
    let holder = fields.queue.last_holder(unit)?;
    let tag = fields.queue.least(holder)?;
    Some(Ahead {
        waiting: Waiting { unit: holder, tag },
        number: plan.least().number(holder),
    })
}

/// Whether an event of the unit `ahead`, at its tag, leads to another unit at the tag or before.
///
/// Of many units that wait behind one, only the first is asked what held it up last.
#[inline(always)]
pub fn is_behind(fields: &Fields, plan: &Plan, unit: Unit, tag: Tag, ahead: Option<Ahead>) -> bool
    requires sound { IsSound plan.now.graph fields.now }
    requires unit { IsUnit plan.now.graph unit }
    requires ahead { IfSome ahead (HasEventAhead plan.now.graph
        (waiting_in fields.now.queue.events) plan.now.least) }
    ensures { (busy : Unit → Option Task) → (r : ℕ) → result ≡ true →
        IsSafe plan.now.graph (waiting_in fields.now.queue.events) busy r unit tag → ⊥ }
{
    let Some(other) = ahead else {
        return false;
    };
    if other.waiting.unit == unit {
        return false;
    }
    reaches(
        plan.least().get_from(other.number, unit),
        other.waiting.tag,
        tag,
    )
}
