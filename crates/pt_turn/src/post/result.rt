//! One result.

ghost use Rattle.std.specs.Prelude.{◌≡◌, ◌↔◌, ◌+◌, ◌<◌, ◌≤◌, ◌^◌, true, false, List as Sequence, length};
ghost use Rattle.pt_types.specs.declared.firing.OnLink.{OnLink};
ghost use Rattle.pt_semantics.specs.Posting.{after_post};
ghost use Rattle.pt_semantics.specs.Wired.{IsWired};
ghost use Rattle.pt_turn.specs.Fields.State.{state_of, busy_in, IsSound};
ghost use Rattle.pt_causality.specs.Branches.{AreBranches};
ghost use Rattle.pt_turn.specs.Posts.Room.{leaving_open};
ghost use Rattle.pt_turn.specs.Posts.Sent.{FindsNothing, IsOpenClaim, SumsFit};

use crate::post::emit::emit;
use crate::post::links::send;
use crate::state::{Fields, set_state};
use pt_causality::Branches;
use pt_types::{Done, Graph};

/// Posts a result if its task is an open claim, and returns whether it was. Posting closes the claim, sets the actor's state,
/// and sends the outputs along wires into the queue and along links into the outbox. Any other result changes nothing.
///
/// 64 bits must hold the sums of the task's tag and the actor's delays, and no event may wait where an output goes. Both
/// hold in every state that a history without late messages leads to.
pub fn post(fields: &mut Fields, graph: &Graph, branches: &Branches, done: &Done) -> bool
    requires sound { IsSound graph.now fields.old }
    requires wired { IsWired graph.now }
    requires branches { AreBranches graph.now branches.now }
    requires links { length graph.now.links < 2 ^ 32 }
    requires fits { IsOpenClaim graph.now fields.old done.now.task →
        SumsFit graph.now done.now.task.actor done.now.task.tag }
    requires events { leaving_open graph.now (busy_in fields.old.open_claims.items) graph.now.wires
        ≤ fields.old.queue.spare }
    requires messages { length graph.now.links ≤ fields.old.outbox.spare }
    requires absent { IsOpenClaim graph.now fields.old done.now.task →
        FindsNothing graph.now fields.old done.now }
    ensures sound { IsSound graph.now fields.new }
    ensures claimed { (result ≡ true) ↔ IsOpenClaim graph.now fields.old done.now.task }
    ensures posted { result ≡ true → (taken : Sequence OnLink) →
        state_of fields.new taken ≡ after_post graph.now (state_of fields.old taken) done.now }
    ensures passed { result ≡ false → fields.new ≡ fields.old }
    ensures events { fields.old.queue.spare + leaving_open graph.now
        (busy_in fields.new.open_claims.items) graph.now.wires
        ≤ fields.new.queue.spare + leaving_open graph.now
        (busy_in fields.old.open_claims.items) graph.now.wires }
    ensures messages { (fields.old.outbox.spare ≤ fields.new.outbox.spare + length graph.now.links)
        × (length fields.new.outbox.items
        ≤ length fields.old.outbox.items + length graph.now.links) }
    ensures open_claims { fields.new.open_claims.spare ≡ fields.old.open_claims.spare }
    ensures frame { (fields.new.sensors ≡ fields.old.sensors)
        × (fields.new.reading ≡ fields.old.reading) × (fields.new.closed ≡ fields.old.closed)
        × (fields.new.claims ≡ fields.old.claims) }
    ensures groups { fields.new.queue.groups ≡ fields.old.queue.groups }
{
    match fields.open_claims.take(&done.task) {
        None => false,
        Some(unit) => {
            emit(
                &mut fields.queue,
                graph,
                branches,
                unit,
                done.task.tag,
                &done.fired.outputs,
            );
            set_state(&mut fields.states, done.task.actor, done.fired.state);
            send(
                &mut fields.outbox,
                graph,
                done.task.actor,
                done.task.tag,
                &done.fired.outputs,
            );
            fields.none_safe_before = 0;
            true
        }
    }
}
