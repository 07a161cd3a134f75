//! Whole firings, from sorted tasks.

ghost use Rattle.std.specs.Prelude.{◌≡◌, ◌∷◌, [], IfOk, List, map};
ghost use Rattle.pt_types.specs.Lawful.{IsLawful};
ghost use Rattle.pt_types.specs.declared.firing.Task.{Task};
ghost use Rattle.pt_types.specs.Lookups.{kind_of};
ghost use Rattle.pt_semantics.specs.Firing.{fired};
ghost use Rattle.pt_semantics.specs.Lists.{or_else};
ghost use Rattle.pt_confluence.specs.Joined.{both, is_same_firing, neighbours_joined, whole_firing};
ghost use Rattle.pt_confluence.specs.Making.{made};

use pt_actors::fire_kind;
use pt_meaning::Firings;
use pt_tags::Memory;
use pt_types::{ActorFiring, Fired, Graph, Kind, Ports, Task};
use std::alloc::Global;

/// The firings so far, and the last task, which further tasks of its actor and tag join.
#[derive(Drop)]
pub struct Joining {
    pub firings: Firings,
    pub last: Option<Task>,
}

/// The whole firings of sorted tasks: neighbours of one actor and tag are joined.
pub fn join(alloc: Global, graph: &Graph, tasks: &[&Task]) -> Result<Firings, Memory>
    requires lawful { IsLawful graph.now }
    ensures { IfOk result (λ firings.
        firings ≡ map (whole_firing graph.now)
        (neighbours_joined (map (λ task. task.now) tasks.now))) }
{
    let mut joining = Joining {
        firings: Firings::new(alloc),
        last: None,
    };
    for task in tasks {
        joining = with(joining, graph, task)?;
    }
    finish(joining, graph)
}

/// The firings with one more task.
fn with(joining: Joining, graph: &Graph, task: &Task) -> Result<Joining, Memory>
    requires lawful { IsLawful graph.now }
    ensures { IfOk result (λ more. (rest : List Task) →
        made graph.now more rest ≡ made graph.now joining (task.now ∷ rest)) }
{
    let Joining { firings, last } = joining;
    let Some(last) = last else {
        return Ok(Joining {
            firings,
            last: Some(*task),
        });
    };
    if is_same_firing(&last, task) {
        return Ok(Joining {
            firings,
            last: Some(both(&last, task)),
        });
    }
    let firings = firings.with(&whole(graph, &last))?;
    Ok(Joining {
        firings,
        last: Some(*task),
    })
}

/// All firings, once no task follows.
fn finish(joining: Joining, graph: &Graph) -> Result<Firings, Memory>
    requires lawful { IsLawful graph.now }
    ensures { IfOk result (λ firings. firings ≡ made graph.now joining []) }
{
    let Joining { firings, last } = joining;
    match last {
        Some(task) => firings.with(&whole(graph, &task)),
        None => Ok(firings),
    }
}

/// Whether two tasks are of one actor and tag.
fn is_same_firing(first: &Task, second: &Task) -> bool
    ensures { result ≡ is_same_firing first.now second.now }
{
    first.actor == second.actor
        && first.tag.time == second.tag.time
        && first.tag.step == second.tag.step
}

/// The first task, with the inputs of the second added.
fn both(first: &Task, second: &Task) -> Task
    ensures { result ≡ both first.now second.now }
{
    let some = first.inputs.values();
    let more = second.inputs.values();
    let inputs = Ports::from_values([
        or_else(some[0], more[0]),
        or_else(some[1], more[1]),
        or_else(some[2], more[2]),
        or_else(some[3], more[3]),
        or_else(some[4], more[4]),
        or_else(some[5], more[5]),
        or_else(some[6], more[6]),
        or_else(some[7], more[7]),
    ]);
    Task { inputs, ..*first }
}

/// `first` if it is a value, else `second`.
fn or_else(first: Option<i64>, second: Option<i64>) -> Option<i64>
    ensures { result ≡ or_else first second }
{
    match first {
        Some(value) => Some(value),
        None => second,
    }
}

/// The whole firing of a joined task.
fn whole(graph: &Graph, task: &Task) -> ActorFiring
    requires lawful { IsLawful graph.now }
    ensures { result ≡ whole_firing graph.now task.now }
{
    let fired = fire(graph, task);
    ActorFiring {
        actor: task.actor,
        tag: task.tag,
        inputs: task.inputs,
        before: task.state,
        after: fired.state,
        outputs: fired.outputs,
    }
}

/// The new state and the outputs of a task's actor.
fn fire(graph: &Graph, task: &Task) -> Fired
    requires lawful { IsLawful graph.now }
    ensures { result ≡ fired (kind_of graph.now task.now.actor) task.now.state task.now.inputs }
{
    let inputs = &task.inputs;
    match graph.actors.as_slice().get(task.actor as usize) {
        Some(actor) => fire_kind(&actor.kind, task.state, inputs),
        None => fire_kind(&Kind::Receive, task.state, inputs),
    }
}
