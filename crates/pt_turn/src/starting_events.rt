//! The starting events of a platform.

ghost use Rattle.std.specs.Prelude.{◌≡◌, ◌+◌, ◌<◌, ◌≤◌, None, IfOk, length};
ghost use Rattle.pt_tags.specs.declared.tag.Tag.{Tag};
ghost use Rattle.pt_types.specs.Lawful.{IsLawful};
ghost use Rattle.pt_semantics.specs.Meaning.{added};
ghost use Rattle.pt_queue.specs.Groups.{AreGroups};
ghost use Rattle.pt_queue.specs.Events.{waiting_in};
ghost use Rattle.pt_turn.specs.Starting.{start_of, starting_event, starting};

use pt_queue::Queue;
use pt_tags::{Memory, Tag, Time};
use pt_types::{Event, Graph, Kind};
use std::alloc::Global;

/// The time at which an actor of this kind begins by itself; `None` if it doesn't, or only past the horizon.
fn start_of(kind: &Kind, until: Time) -> Option<u64>
    ensures { result ≡ start_of kind.now until }
{
    match kind {
        Kind::Every { start, .. } => { if *start <= until { Some(*start) } else { None } }
        _ => None,
    }
}

/// Adds the starting event of an actor, if it has one.
fn begin(queue: &mut Queue, graph: &Graph, actor: u32, kind: &Kind)
    requires spare { 0 < queue.old.spare }
    requires actor { actor < length queue.old.groups }
    requires absent { (t : Tag) → waiting_in queue.old.events actor 0 t ≡ None }
    ensures waits { waiting_in queue.new.events
        ≡ added (waiting_in queue.old.events) (starting_event graph.now actor kind.now) }
    ensures spare { queue.old.spare ≤ queue.new.spare + 1 }
    ensures groups { queue.new.groups ≡ queue.old.groups }
{
    match start_of(kind, graph.until) {
        None => (),
        Some(time) => queue.insert(Event {
            tag: Tag { time, step: 0 },
            actor,
            port: 0,
            value: 0,
        }),
    }
}

/// A queue with the starting events of a platform.
pub fn starting(alloc: Global, graph: &Graph, platform: u32) -> Result<Queue, Memory>
    requires lawful { IsLawful graph.now }
    ensures groups { IfOk result (λ queue. AreGroups graph.now queue.groups) }
    ensures waits { IfOk result (λ queue. waiting_in queue.events ≡ starting graph.now platform) }
{
    let mut queue = Queue::new(alloc, graph)?;
    let Ok(()) = queue.reserve(graph.actors.as_slice().len()) else {
        drop(queue);
        return Err(Memory);
    };
    for (number, actor) in graph.actors.as_slice().iter().enumerate() {
        if actor.platform == platform {
            begin(&mut queue, graph, number as u32, &actor.kind);
        }
    }
    Ok(queue)
}
