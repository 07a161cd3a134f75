//! Several results.

ghost use Rattle.std.specs.Prelude.{◌≡◌, ◌+◌, ◌*◌, ◌<◌, ◌≤◌, ◌^◌, List as Sequence, length, vec_len, vec_capacity};
ghost use Rattle.pt_types.specs.declared.firing.OnLink.{OnLink};
ghost use Rattle.pt_semantics.specs.Wired.{IsWired};
ghost use Rattle.pt_turn.specs.Fields.State.{state_of, busy_in, IsSound};
ghost use Rattle.pt_causality.specs.Branches.{AreBranches};
ghost use Rattle.pt_turn.specs.Posts.Posted.{AreDone, ArePlaces, ClaimsFit, NeverPosts, Posted, picked};
ghost use Rattle.pt_turn.specs.Posts.Room.{leaving_open};

use crate::post::result::post;
use crate::state::Fields;
use pt_actors::Done;
use pt_causality::Branches;
use pt_types::Graph;

/// Posts, in order, those of these results whose tasks are open claims, and appends their places among the results
/// to `kept`: a result is large, and is copied only once, when it is recorded.
///
/// Every result must be what its actor's kind gives for its task. Together they need room for one event on each wire
/// that leaves a unit with an open claim, since a claim is closed only once. Each may need room for a message on each link.
pub fn posts(
    fields: &mut Fields,
    graph: &Graph,
    branches: &Branches,
    dones: &[Done],
    kept: &mut Vec<usize>,
)
    requires sound { IsSound graph.now fields.old }
    requires wired { IsWired graph.now }
    requires branches { AreBranches graph.now branches.now }
    requires links { length graph.now.links < 2 ^ 32 }
    requires dones { AreDone graph.now dones.now }
    requires fit { ClaimsFit graph.now fields.old.open_claims.items }
    requires never { (taken : Sequence OnLink) → NeverPosts graph.now (state_of fields.old taken) }
    requires events { leaving_open graph.now (busy_in fields.old.open_claims.items) graph.now.wires
        ≤ fields.old.queue.spare }
    requires messages { length dones.now * length graph.now.links ≤ fields.old.outbox.spare }
    requires kept { vec_len kept.old + length dones.now ≤ vec_capacity kept.old }
    ensures sound { IsSound graph.now fields.new }
    ensures posted { Posted graph.now fields.old fields.new dones.now
        (picked dones.now kept.old.items) (picked dones.now kept.new.items) }
    ensures places { ArePlaces dones.now kept.old.items → ArePlaces dones.now kept.new.items }
    ensures events { fields.old.queue.spare + leaving_open graph.now
        (busy_in fields.new.open_claims.items) graph.now.wires
        ≤ fields.new.queue.spare + leaving_open graph.now
        (busy_in fields.old.open_claims.items) graph.now.wires }
    ensures messages { (fields.old.outbox.spare
        ≤ fields.new.outbox.spare + length dones.now * length graph.now.links)
        × (length fields.new.outbox.items
        ≤ length fields.old.outbox.items + length dones.now * length graph.now.links) }
    ensures kept { (vec_capacity kept.old ≤ vec_capacity kept.new)
        × (vec_len kept.new ≤ vec_len kept.old + length dones.now) }
    ensures open_claims { fields.new.open_claims.spare ≡ fields.old.open_claims.spare }
    ensures frame { (fields.new.sensors ≡ fields.old.sensors)
        × (fields.new.reading ≡ fields.old.reading) × (fields.new.closed ≡ fields.old.closed)
        × (fields.new.claims ≡ fields.old.claims) }
    ensures groups { fields.new.queue.groups ≡ fields.old.queue.groups }
{
    for (place, done) in dones.iter().enumerate() {
        if post(fields, graph, branches, done.as_record()) {
            kept.push_reserved(place);
        }
    }
}
