//! The events that a firing sends along wires.

ghost use Rattle.std.specs.Prelude.{◌≡◌, ◌+◌, ◌<◌, ◌≤◌, ◌^◌, true, false, length};
ghost use Rattle.pt_tags.specs.Tags.{Fits, plus};
ghost use Rattle.pt_semantics.specs.Edges.{of_wire, wires};
ghost use Rattle.pt_semantics.specs.Floor.{NothingThere};
ghost use Rattle.pt_semantics.specs.Meaning.{added, going};
ghost use Rattle.pt_semantics.specs.Units.{leaves_unit};
ghost use Rattle.pt_types.specs.Groups.{output_group};
ghost use Rattle.pt_semantics.specs.Wired.{IsWired};
ghost use Rattle.pt_queue.specs.Events.{waiting_in};
ghost use Rattle.pt_queue.specs.Groups.{AreGroups};
ghost use Rattle.pt_causality.specs.Branches.{AreBranches};
ghost use Rattle.pt_turn.specs.Posts.Room.{leaving};
ghost use Rattle.pt_turn.specs.Posts.Sent.{along, sent, SumsFit};

use pt_causality::{Branches, weight};
use pt_queue::Queue;
use pt_tags::{Delay, Tag, Time};
use pt_types::{Event, Graph, Kind, Ports, Unit, Wire};

/// Puts an output's value, if there is one, into the queue at the wire's end, unless its tag is past the horizon.
fn send_one(queue: &mut Queue, wire: Wire, delay: Delay, until: Time, tag: Tag, output: Option<i64>)
    requires fits { Fits (plus tag delay) }
    requires spare { 0 < queue.old.spare }
    requires actor { wire.to < length queue.old.groups }
    requires port { wire.input < 8 }
    requires absent { NothingThere (waiting_in queue.old.events)
        (sent wire delay until tag output) }
    ensures waits { waiting_in queue.new.events
        ≡ added (waiting_in queue.old.events) (sent wire delay until tag output) }
    ensures groups { queue.new.groups ≡ queue.old.groups }
    ensures spare { queue.old.spare ≤ queue.new.spare + 1 }
{
    let later = Tag {
        time: tag.time + delay.time,
        step: tag.step + delay.step,
    };
    if until < later.time {
        return;
    }
    match output {
        None => (),
        Some(value) => {
            queue.insert(Event {
                tag: later,
                actor: wire.to,
                port: wire.input,
                value,
            });
        }
    }
}

/// Sends a unit's output along one wire, if the wire leaves the unit.
fn emit_along(queue: &mut Queue, graph: &Graph, unit: Unit, tag: Tag, outputs: &Ports, wire: Wire)
    requires fits { wire.from ≡ unit.actor → Fits (plus tag (of_wire graph.now wire).weight) }
    requires spare { leaves_unit graph.now unit (of_wire graph.now wire) ≡ true →
        0 < queue.old.spare }
    requires from { wire.from < length graph.now.actors }
    requires actor { wire.to < length queue.old.groups }
    requires port { wire.input < 8 }
    requires absent { NothingThere (waiting_in queue.old.events)
        (along graph.now unit tag outputs.now wire) }
    ensures waits { waiting_in queue.new.events
        ≡ added (waiting_in queue.old.events) (along graph.now unit tag outputs.now wire) }
    ensures groups { queue.new.groups ≡ queue.old.groups }
    ensures spare { queue.old.spare ≤ queue.new.spare + 1 }
    ensures idle { leaves_unit graph.now unit (of_wire graph.now wire) ≡ false →
        queue.old.spare ≤ queue.new.spare }
{
    if wire.from != unit.actor {
        return;
    }
    let kind = &graph.actors.as_slice()[wire.from as usize].kind;
    if kind.output_group(wire.output) != unit.group {
        return;
    }
    let delay = weight(kind, wire.output);
    send_one(
        queue,
        wire,
        delay,
        graph.until,
        tag,
        outputs.get(wire.output),
    );
}

/// Sends the outputs of a unit's firing at a tag along its wires, into the queue. Visits the wires of its actor only.
pub fn emit(
    queue: &mut Queue,
    graph: &Graph,
    branches: &Branches,
    unit: Unit,
    tag: Tag,
    outputs: &Ports,
)
    requires branches { AreBranches graph.now branches.now }
    requires actor { unit.actor < length graph.now.actors }
    requires groups { AreGroups graph.now queue.old.groups }
    requires wired { IsWired graph.now }
    requires fits { SumsFit graph.now unit.actor tag }
    requires room { leaving graph.now unit graph.now.wires ≤ queue.old.spare }
    requires absent { NothingThere (waiting_in queue.old.events)
        (going graph.now (wires graph.now) (leaves_unit graph.now unit) tag outputs.now) }
    ensures waits { waiting_in queue.new.events
        ≡ added (waiting_in queue.old.events)
        (going graph.now (wires graph.now) (leaves_unit graph.now unit) tag outputs.now) }
    ensures groups { queue.new.groups ≡ queue.old.groups }
    ensures spare { queue.old.spare ≤ queue.new.spare + leaving graph.now unit graph.now.wires }
{
    let wires = graph.wires.as_slice();
    let mut place = branches.first[unit.actor as usize];
    'branches: while place < wires.len() {
        emit_along(queue, graph, unit, tag, outputs, wires[place]);
        place = branches.next[place];
    }
}
