//! The rows that enter in a turn.

ghost use Rattle.std.specs.Prelude.{◌≡◌, ℕ, ◌+◌, ◌≤◌, ◌++◌, List as Sequence, length, vec_len, vec_capacity};
ghost use Rattle.pt_types.specs.declared.firing.OnLink.{OnLink};
ghost use Rattle.pt_semantics.specs.Entering.{after_rows, all_due};
ghost use Rattle.pt_offsets.specs.Plans.{AreOffsets};
ghost use Rattle.pt_turn.specs.Fields.State.{state_of, left_in, rows_at_sensors, IsSound};
ghost use Rattle.pt_turn.specs.Fields.Sensors.{AreSensors, NeverEnters};
ghost use Rattle.pt_turn.specs.Steps.{NoneSeenBefore};

use crate::enter::due_from::none_safe_with;
use crate::enter::{enter, next_seen};
use crate::state::Fields;
use pt_offsets::Offsets;
use pt_tags::Reading;
use pt_types::{Graph, RowAt};

/// All rows seen by a reading enter, as `enter` lets them. They make no unit safe before they are due. No row is seen by a reading below `next_row`, which is
/// then found anew if the reading has reached it; at most turns it hasn't. Both are microseconds. Allocates nothing.
#[inline(always)]
pub fn enter_from(
    fields: &mut Fields,
    graph: &Graph,
    offsets: &Offsets,
    reading: Reading,
    next_row: &mut u64,
    kept: &mut Vec<RowAt>,
)
    requires sound { IsSound graph.now fields.old }
    requires sensors { AreSensors graph.now fields.old.sensors.items }
    requires offsets { AreOffsets graph.now offsets.now }
    requires never { (taken : Sequence OnLink) → NeverEnters (state_of fields.old taken) reading }
    requires events { length (all_due graph.now reading (left_in fields.old.sensors.items))
        ≤ fields.old.queue.spare }
    requires kept { vec_len kept.old + length
        (all_due graph.now reading (left_in fields.old.sensors.items)) ≤ vec_capacity kept.old }
    requires next_row { NoneSeenBefore next_row.old (left_in fields.old.sensors.items) }
    ensures sound { IsSound graph.now fields.new }
    ensures sensors { AreSensors graph.now fields.new.sensors.items }
    ensures entered { (taken : Sequence OnLink) →
        state_of fields.new taken ≡ after_rows (state_of fields.old taken) reading }
    ensures rows { kept.new.items ≡ kept.old.items
        ++ all_due graph.now reading (left_in fields.old.sensors.items) }
    ensures all_rows { (a : ℕ) → rows_at_sensors fields.new.sensors.items a
        ≡ rows_at_sensors fields.old.sensors.items a }
    ensures events { fields.old.queue.spare
        ≡ fields.new.queue.spare + length
        (all_due graph.now reading (left_in fields.old.sensors.items)) }
    ensures kept { vec_capacity kept.old ≤ vec_capacity kept.new }
    ensures groups { fields.new.queue.groups ≡ fields.old.queue.groups }
    ensures frame { (fields.new.open_claims ≡ fields.old.open_claims)
        × (fields.new.states ≡ fields.old.states) × (fields.new.outbox ≡ fields.old.outbox)
        × (fields.new.reading ≡ fields.old.reading) × (fields.new.closed ≡ fields.old.closed)
        × (fields.new.claims ≡ fields.old.claims) }
    ensures next_row { NoneSeenBefore next_row.new (left_in fields.new.sensors.items) }
{
    if reading < *next_row {
        return;
    }
    let before = fields.none_safe_before;
    enter(fields, graph, reading, kept);
    fields.none_safe_before = none_safe_with(offsets, kept.as_slice(), before, reading);
    *next_row = next_seen(fields.sensors.as_slice());
}
