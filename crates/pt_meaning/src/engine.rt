//! The global list: the actor of the first event fires, until nothing waits.

ghost use Rattle.std.specs.Prelude.{◌≡◌, ◌<◌, ◌≤◌, ◌+◌, ◌^◌, ℕ, true, IfOk, OnOk, length, filter, map};
ghost use Rattle.pt_semantics.specs.Edges.{edges};
ghost use Rattle.pt_types.specs.Lookups.{kind_of};
ghost use Rattle.pt_types.specs.Ports.{eight, nothing};
ghost use Rattle.pt_semantics.specs.Lists.{Each};
ghost use Rattle.pt_semantics.specs.Meaning.{Fires, IsFirst, after_firing, at_start, leaves_actor, put_state, waiting};
ghost use Rattle.pt_semantics.specs.Firing.{any_present, fired};
ghost use Rattle.pt_meaning.specs.Waiting.{rank_in};
ghost use Rattle.pt_meaning.specs.Both.{all_waits, AreSound};
ghost use Rattle.pt_sensors.specs.Listed.{IsOfActors};
ghost use Rattle.pt_meaning.specs.Opening.{rows_of_run};
ghost use Rattle.pt_meaning.specs.Running.{world_in, states_from, state_at_start, actor_firing, IsRunnable};

use crate::emission::emit;
use crate::late::Late;
use crate::opening::opening;
use crate::world::WaitingEvents;
use pt_actors::fire_into;
use pt_sensors::SensorRows;
use pt_tags::{Memory, Tag};
use pt_types::{Actor, ActorFiring, Edge, Graph, Kind, Ports};
use std::alloc::{AllocError, Global};

/// The events that wait, and the states of the actors.
#[derive(Drop)]
pub struct GlobalList {
    pub waiting: WaitingEvents,
    pub states: Vec<i64>,
}

/// The state of an actor at the start.
#[tactic(auto, unfolding(crate::specs::Running::state_at_start))]
fn state_at_start(actor: &Actor) -> i64
    ensures { result ≡ state_at_start actor.now }
{
    match &actor.kind {
        Kind::Machine { start, .. } => *start,
        _ => 0,
    }
}

/// The states of a graph's actors at the start.
fn states(alloc: Global, graph: &Graph) -> Result<Vec<i64>, AllocError>
    ensures { IfOk result (λ v. v.items ≡ map state_at_start graph.now.actors) }
{
    let mut states = Vec::new(alloc);
    for actor in graph.actors.as_slice() {
        states.push(state_at_start(actor))?;
    }
    Ok(states)
}

/// The events and the states before anything fires.
pub fn begin(
    alloc: Global,
    graph: &Graph,
    ranks: &[u32],
    sensors: &[SensorRows],
) -> Result<GlobalList, Memory>
    requires actors { length graph.now.actors < 2 ^ 32 }
    requires sensors { Each (IsOfActors (length graph.now.actors)) sensors.now }
    ensures world { IfOk result (λ list.
        world_in ranks.now list.waiting list.states.items
        ≡ at_start graph.now (rows_of_run graph.now sensors.now)) }
    ensures states { IfOk result (λ list. length list.states.items ≡ length graph.now.actors) }
    ensures sound { IfOk result (λ list.
        AreSound (rank_in ranks.now) (length graph.now.actors) 0 list.waiting) }
{
    let early = opening(alloc, graph, ranks, sensors)?;
    let late = Late::new(alloc, ranks)?;
    let waiting = WaitingEvents { early, late };
    let states = states(alloc, graph)?;
    Ok(GlobalList { waiting, states })
}

/// No values, of actor 0 at the start.
pub fn no_firing() -> ActorFiring
    ensures inputs { result.inputs ≡ eight nothing }
    ensures outputs { result.outputs ≡ eight nothing }
{
    ActorFiring {
        actor: 0,
        tag: Tag { time: 0, step: 0 },
        inputs: Ports::new(),
        before: 0,
        after: 0,
        outputs: Ports::new(),
    }
}

/// Fires an actor at a tag with the inputs of a firing, which gets the results.
fn fire(graph: &Graph, states: &[i64], firing: &mut ActorFiring)
    requires runnable { IsRunnable graph.now }
    requires actor { firing.old.actor < length graph.now.actors }
    requires states { length states.now ≡ length graph.now.actors }
    ensures { firing.new ≡ actor_firing graph.now
        (states_from states.now) firing.old.actor firing.old.tag firing.old.inputs }
{
    let before = states[firing.actor as usize];
    let kind = &graph.actors.as_slice()[firing.actor as usize].kind;
    firing.before = before;
    firing.after = fire_into(kind, before, &firing.inputs, &mut firing.outputs);
}

/// Sets the state of an actor.
fn set_state(states: &mut Vec<i64>, actor: u32, value: i64)
    requires { actor < length states.old.items }
    ensures after { states_from states.new.items
        ≡ put_state (states_from states.old.items) actor value }
    ensures len { length states.new.items ≡ length states.old.items }
{
    states[actor as usize] = value;
}

/// Fires an actor, which must be the first, at its tag: takes its events, sets its state, and sends its outputs. The firing is
/// written over `firing`.
pub fn fire_next(
    list: &mut GlobalList,
    graph: &Graph,
    ranks: &[u32],
    leaving: &[Edge],
    tag: Tag,
    actor: u32,
    firing: &mut ActorFiring,
) -> Result<(), Memory>
    requires runnable { IsRunnable graph.now }
    requires leaving { leaving.now ≡ filter (leaves_actor actor) (edges graph.now) }
    requires actor { actor < length graph.now.actors }
    requires states { length list.old.states.items ≡ length graph.now.actors }
    requires step { tag.step + 1 < 2 ^ 64 }
    requires sound { (steps : ℕ) × AreSound (rank_in ranks.now)
        (length graph.now.actors) steps list.old.waiting }
    requires first { IsFirst (rank_in ranks.now)
        (all_waits (rank_in ranks.now) list.old.waiting) actor tag }
    requires present { any_present (waiting
        (all_waits (rank_in ranks.now) list.old.waiting) actor tag) ≡ true }
    ensures fires { OnOk result (Fires graph.now (rank_in ranks.now)
        (world_in ranks.now list.old.waiting list.old.states.items) firing.new) }
    ensures after { OnOk result (world_in ranks.now list.new.waiting list.new.states.items
        ≡ after_firing graph.now (world_in ranks.now list.old.waiting list.old.states.items)
        firing.new) }
    ensures states { OnOk result (length list.new.states.items ≡ length graph.now.actors) }
    ensures sound { OnOk result ((steps : ℕ) → tag.step + 1 ≤ steps →
        AreSound (rank_in ranks.now) (length graph.now.actors) steps list.old.waiting →
        AreSound (rank_in ranks.now) (length graph.now.actors) steps list.new.waiting) }
{
    firing.actor = actor;
    firing.tag = tag;
    list.waiting.take(tag, actor, &mut firing.inputs);
    fire(graph, list.states.as_slice(), firing);
    set_state(&mut list.states, actor, firing.after);
    emit(
        &mut list.waiting.late,
        ranks,
        graph.until,
        leaving,
        tag,
        &firing.outputs,
    )?;
    Ok(())
}
