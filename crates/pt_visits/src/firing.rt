//! Firing the claimed tasks.

ghost use Rattle.std.specs.Prelude.{◌≡◌, [], OnOk, map};
ghost use Rattle.pt_types.specs.declared.firing.Done.{Done as Finished};
ghost use Rattle.pt_types.specs.Lawful.{IsLawful};
ghost use Rattle.pt_types.specs.Lookups.{kind_of};
ghost use Rattle.pt_actors.specs.Fired.{IsFiredOnto};
ghost use Rattle.pt_turn.specs.Posts.Posted.{AreDone, IsDone};

use pt_actors::{Done, Task, fire, fire_onto};
use pt_blocks::Blocks;
use pt_tags::Memory;
use pt_types::{Graph, Kind};

/// Fires a task. If the graph has no such actor, it fires as a receiver, as in the definitions.
pub fn fire_one(blocks: &Blocks, graph: &Graph, task: &Task) -> Done
    requires lawful { IsLawful graph.now }
    ensures task { result.task ≡ task.now }
    ensures done { IsDone graph.now result }
{
    match graph.actors.as_slice().get(task.actor as usize) {
        Some(actor) => fire(blocks, &actor.kind, task),
        None => fire(blocks, &Kind::Receive, task),
    }
}

/// Fires a task, as `fire_one`, and appends its result.
fn fire_next(
    blocks: &Blocks,
    graph: &Graph,
    task: &Task,
    results: &mut Vec<Done>,
) -> Result<(), Memory>
    requires lawful { IsLawful graph.now }
    ensures { OnOk result (IsFiredOnto
        (kind_of graph.now task.now.actor) task.now results.old.items results.new.items) }
{
    match graph.actors.as_slice().get(task.actor as usize) {
        Some(actor) => fire_onto(blocks, &actor.kind, task, results),
        None => fire_onto(blocks, &Kind::Receive, task, results),
    }
}

/// Fires these tasks in order, and replaces `results` by their results.
#[inline(always)]
pub fn fire_all(
    blocks: &Blocks,
    graph: &Graph,
    tasks: &[Task],
    results: &mut Vec<Done>,
) -> Result<(), Memory>
    requires lawful { IsLawful graph.now }
    ensures tasks { OnOk result (map (λ (d : Finished). d.task) results.new.items ≡ tasks.now) }
    ensures done { OnOk result (AreDone graph.now results.new.items) }
{
    results.clear();
    if tasks.is_empty() {
        return Ok(());
    }
    fire_each(blocks, graph, tasks, results)
}

/// Fires these tasks in order, and appends their results to the empty list `results`. Inlined, since mostly there is one task.
#[inline(always)]
fn fire_each(
    blocks: &Blocks,
    graph: &Graph,
    tasks: &[Task],
    results: &mut Vec<Done>,
) -> Result<(), Memory>
    requires lawful { IsLawful graph.now }
    requires none { results.old.items ≡ [] }
    ensures tasks { OnOk result (map (λ (d : Finished). d.task) results.new.items ≡ tasks.now) }
    ensures done { OnOk result (AreDone graph.now results.new.items) }
{
    for task in tasks {
        fire_next(blocks, graph, task, results)?;
    }
    Ok(())
}
