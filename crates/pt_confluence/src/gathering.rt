//! The meaning, from the recorded turns.

ghost use Rattle.std.specs.Prelude.{◌≡◌, ◌++◌, ℕ, IfOk, List, OnOk, flat_map, map};
ghost use Rattle.std.specs.List.Sorted.{IsPermutation, IsSortedByKey};
ghost use Rattle.pt_types.specs.declared.firing.Task.{Task};
ghost use Rattle.pt_types.specs.declared.rows.Row.{Row};
ghost use Rattle.pt_semantics.specs.Meaning.{IsMeaning};
ghost use Rattle.pt_causality.specs.Ranked.{rank_of};
ghost use Rattle.pt_confluence.specs.Gathered.{AgreeOnClaims, AreLegal, HaveFinished, claimed_tasks};
ghost use Rattle.pt_confluence.specs.Joined.{neighbours_joined};
ghost use Rattle.pt_confluence.specs.Moments.{moment_cmp, moment_of};

use crate::joining::join;
use crate::moment::Moment;
use pt_causality::Ranks;
use pt_history::History;
use pt_meaning::Firings;
use pt_offsets::Plan;
use pt_tags::Memory;
use pt_turn::Platform;
use pt_types::Task;
use std::alloc::Global;

/// The meaning of a plan's graph and the rows of the run, from the claims of its finished platforms.
///
/// References to the tasks are sorted in the order of the meaning, and tasks of one actor and tag, which are those of the
/// units of lanes, are joined into one firing. If platform 0 has claimed actor 0 at 50.0 and actor 1 at 80.0, and platform 1
/// actor 2 at 70.0, the firings are those of actors 0, 2 and 1.
pub fn gather(alloc: Global, plan: &Plan, platforms: &[Platform]) -> Result<Firings, Memory>
    ensures meaning { IfOk result (λ firings. (rows : ℕ → List Row) →
        HaveFinished plan.now rows platforms.now →
        IsMeaning plan.now.graph (rank_of plan.now.ranks) rows firings) }
    ensures claimed { IfOk result (λ firings. (rows : ℕ → List Row) →
        HaveFinished plan.now rows platforms.now → AgreeOnClaims plan.now platforms.now firings) }
{
    let tasks = all_tasks(alloc, platforms)?;
    let mut sorted = references(alloc, tasks.as_slice())?;
    sort(plan.ranks(), &mut sorted);
    join(alloc, plan.graph(), sorted.as_slice())
}

/// All tasks claimed by platforms, platform by platform.
fn all_tasks(alloc: Global, platforms: &[Platform]) -> Result<Vec<Task>, Memory>
    ensures tasks { IfOk result (λ tasks. tasks.items ≡ flat_map claimed_tasks platforms.now) }
    ensures legal { IfOk result (λ tasks. AreLegal platforms.now) }
{
    let mut tasks = Vec::new(alloc);
    for platform in platforms {
        push_history(&mut tasks, platform.history())?;
    }
    Ok(tasks)
}

/// Appends the tasks claimed in recorded turns.
fn push_history(tasks: &mut Vec<Task>, history: &History) -> Result<(), Memory>
    ensures { OnOk result (tasks.new.items
        ≡ tasks.old.items ++ flat_map (λ turn. turn.claimed) history.now.turns) }
{
    for number in 0..history.claims() as usize {
        tasks.push(history.task(number))?;
    }
    Ok(())
}

/// References to tasks, which are cheaper to sort.
fn references(alloc: Global, tasks: &[Task]) -> Result<Vec<&Task>, Memory>
    ensures { IfOk result (λ references. map (λ task. task.now) references.items ≡ tasks.now) }
{
    let mut references = Vec::new(alloc);
    for task in tasks {
        if references.push(task).is_err() {
            return Err(Memory);
        }
    }
    Ok(references)
}

/// Sorts tasks by tag, rank and actor. Allocates nothing.
fn sort(ranks: &Ranks, tasks: &mut Vec<&Task>)
    ensures sorted { IsSortedByKey (λ task.
        moment_of (rank_of ranks.now) task.now) moment_cmp tasks.new.items }
    ensures permutation { IsPermutation tasks.old.items tasks.new.items }
{
    tasks.sort_unstable_by_key(|task| moment_of(ranks, task));
}

/// The place of a task in the order of the meaning.
fn moment_of(ranks: &Ranks, task: &Task) -> Moment
    ensures { result ≡ moment_of (rank_of ranks.now) task.now }
{
    Moment {
        time: task.tag.time,
        step: task.tag.step,
        rank: ranks.get(task.actor),
        actor: task.actor,
    }
}
