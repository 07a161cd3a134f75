//! The states of the actors at the start.

ghost use Rattle.std.specs.Prelude.{◌≡◌, IfOk, map};
ghost use Rattle.pt_semantics.specs.Edges.{first_state};
ghost use Rattle.pt_turn.specs.Starting.{first_of_actor};

use pt_types::{Actor, Graph, Kind};
use std::alloc::{AllocError, Global};

/// The state of an actor at the start.
fn first_state(actor: &Actor) -> i64
    ensures { result ≡ first_state actor.now.kind }
{
    match &actor.kind {
        Kind::Machine { start, .. } => *start,
        _ => 0,
    }
}

/// The state of each actor of a graph at the start.
pub fn first_states(alloc: Global, graph: &Graph) -> Result<Vec<i64>, AllocError>
    ensures { IfOk result (λ states. states.items ≡ map first_of_actor graph.now.actors) }
{
    let mut states = Vec::new(alloc);
    for actor in graph.actors.as_slice() {
        states.push(first_state(actor))?;
    }
    Ok(states)
}
