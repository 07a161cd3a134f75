//! The next reading of a platform.

ghost use Rattle.std.specs.Prelude.{List as Sequence};
ghost use Rattle.pt_types.specs.declared.firing.OnLink.{OnLink};
ghost use Rattle.pt_semantics.specs.Paced.{IsClosing, IsNextReading};
ghost use Rattle.pt_turn.specs.Fields.State.{state_of, IsSound};
ghost use Rattle.pt_turn.specs.Fields.Sensors.{AreSensors};

use crate::claim::paced::paced_next;
use crate::claim::seen::seen_next;
use crate::state::Fields;
use pt_offsets::Plan;

/// The least reading at which something can happen on a platform: a row is seen, a unit without an open claim reaches its
/// paced reading, or the platform can close, at its closing reading. All are microseconds.
#[inline(always)]
pub fn next_reading(fields: &Fields, plan: &Plan, platform: u32, closing: u64) -> u64
    requires sound { IsSound plan.now.graph fields.now }
    requires sensors { AreSensors plan.now.graph fields.now.sensors.items }
    requires closing { IsClosing plan.now.graph platform closing }
    ensures { (taken : Sequence OnLink) →
        IsNextReading plan.now.graph platform (state_of fields.now taken) result }
{
    let seen = seen_next(fields.sensors.as_slice(), closing);
    paced_next(fields, plan, seen)
}
