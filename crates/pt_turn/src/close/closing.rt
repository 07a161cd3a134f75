//! Closing a platform.

ghost use Rattle.std.specs.Prelude.{◌≡◌, ◌↔◌, ℕ, ◌+◌, ◌<◌, ◌≤◌, ◌^◌, true, List as Sequence, length};
ghost use Rattle.pt_types.specs.declared.firing.OnLink.{OnLink};
ghost use Rattle.pt_types.specs.declared.graph.Graph.{Graph};
ghost use Rattle.pt_semantics.specs.Closing.{CanClose, Closes};
ghost use Rattle.pt_semantics.specs.Paced.{IsClosing};
ghost use Rattle.pt_turn.specs.Fields.State.{state_of, IsSound};

use crate::close::ends::shut_links;
use crate::state::Fields;
use pt_tags::Reading;
use pt_types::Graph;

/// Whether a platform can close at a reading, given its closing reading, both in microseconds.
fn can_close(fields: &Fields, closing: u64, reading: Reading) -> bool
    ensures { (g : Graph) (platform : ℕ) (taken : Sequence OnLink) → IsClosing g platform closing →
        (result ≡ true) ↔ CanClose g platform (state_of fields.now taken) reading }
{
    if fields.closed {
        return false;
    }
    if reading < closing {
        return false;
    }
    if !fields.queue.is_empty() {
        return false;
    }
    if !fields.open_claims.is_empty() {
        return false;
    }
    fields.outbox.is_empty()
}

/// Closes a platform if it can close, unless a message was late: puts `End` into the outbox for each outgoing link.
///
/// `closing` is the platform's closing reading, and `reading` that of the turn, both in microseconds. The outbox needs room
/// for a message on each link of the graph. Allocates nothing.
pub fn close(
    fields: &mut Fields,
    graph: &Graph,
    number: u32,
    closing: u64,
    reading: Reading,
    late: bool,
)
    requires sound { IsSound graph.now fields.old }
    requires closing { IsClosing graph.now number closing }
    requires links { length graph.now.links < 2 ^ 32 }
    requires messages { length graph.now.links ≤ fields.old.outbox.spare }
    ensures sound { IsSound graph.now fields.new }
    ensures closes { (taken : Sequence OnLink) →
        Closes graph.now number (state_of fields.old taken) reading late
        (state_of fields.new taken) }
    ensures messages { (fields.old.outbox.spare ≤ fields.new.outbox.spare + length graph.now.links)
        × (length fields.new.outbox.items
        ≤ length fields.old.outbox.items + length graph.now.links) }
    ensures frame { (fields.new.queue ≡ fields.old.queue)
        × (fields.new.open_claims ≡ fields.old.open_claims)
        × (fields.new.states ≡ fields.old.states) × (fields.new.sensors ≡ fields.old.sensors)
        × (fields.new.reading ≡ fields.old.reading) × (fields.new.claims ≡ fields.old.claims) }
{
    if late {
        return;
    }
    if !can_close(fields, closing, reading) {
        return;
    }
    fields.closed = true;
    shut_links(&mut fields.outbox, graph, number);
}
