//! Sending the outputs of a firing along the edges that leave its actor.

ghost use Rattle.std.specs.Prelude.{◌≡◌, ◌<◌, ◌≤◌, ◌+◌, ◌^◌, ℕ, MatchBool, OnOk, [], ◌∷◌};
ghost use Rattle.pt_types.specs.declared.graph.Graph.{Graph};
ghost use Rattle.pt_semantics.specs.Lists.{Each};
ghost use Rattle.pt_semantics.specs.Meaning.{added, going, leaves_actor};
ghost use Rattle.pt_meaning.specs.Waiting.{waits_in, rank_in, EventsArePlaced};
ghost use Rattle.pt_meaning.specs.Held.{late_value};
ghost use Rattle.pt_meaning.specs.Emission.{IsUsable, AddsOneStep, LeavesActor};

use crate::late::Late;
use crate::place::EventPlace;
use pt_tags::{Delay, Memory, Tag, Time};
use pt_types::{Edge, Ports};

/// The rank of an actor; 0 past the table's end.
pub fn rank_at(ranks: &[u32], actor: u32) -> u32
    ensures { result ≡ rank_in ranks.now actor }
{
    ranks.get(actor as usize).copied().unwrap_or(0)
}

/// Whether the time of a tag plus a weight is past the horizon.
#[inline(always)]
fn is_past(tag: Tag, weight: Delay, until: Time) -> bool
    ensures { MatchBool result (until < tag.time + weight.time) (tag.time + weight.time ≤ until) }
{
    match tag.time.checked_add(weight.time) {
        Some(time) => time > until,
        None => true,
    }
}

/// Sends the output along one edge of the actor that fired, if the output has a value and the tag isn't past the horizon.
fn emit_along(
    late: &mut Late,
    ranks: &[u32],
    until: Time,
    edge: Edge,
    tag: Tag,
    outputs: &Ports,
) -> Result<(), Memory>
    requires step { tag.step + edge.weight.step < 2 ^ 64 }
    ensures waits { OnOk result ((g : Graph) → g.until ≡ until →
        waits_in (rank_in ranks.now) (late_value late.new)
        ≡ added (waits_in (rank_in ranks.now) (late_value late.old))
        (going g (edge ∷ []) (leaves_actor edge.from) tag outputs.now)) }
    ensures sound { OnOk result ((actors steps : ℕ) → IsUsable actors edge → tag.step + 1 ≤ steps
        → EventsArePlaced (rank_in ranks.now) actors steps (late_value late.old) →
        EventsArePlaced (rank_in ranks.now) actors steps (late_value late.new)) }
{
    let Some(value) = outputs.get(edge.output) else {
        return Ok(());
    };
    if is_past(tag, edge.weight, until) {
        return Ok(());
    }
    let later = Tag {
        time: tag.time + edge.weight.time,
        step: tag.step + edge.weight.step,
    };
    let place = EventPlace {
        tag: later,
        rank: rank_at(ranks, edge.to),
        actor: edge.to,
        port: edge.input,
    };
    late.add(place, value)
}

/// Sends the outputs of an actor that fired at a tag along these edges, all of which leave it.
pub fn emit(
    late: &mut Late,
    ranks: &[u32],
    until: Time,
    edges: &[Edge],
    tag: Tag,
    outputs: &Ports,
) -> Result<(), Memory>
    requires step { tag.step + 1 < 2 ^ 64 }
    requires edges { Each AddsOneStep edges.now }
    ensures waits { OnOk result ((g : Graph) (actor : ℕ) → g.until ≡ until →
        Each (LeavesActor actor) edges.now → waits_in (rank_in ranks.now) (late_value late.new)
        ≡ added (waits_in (rank_in ranks.now) (late_value late.old))
        (going g edges.now (leaves_actor actor) tag outputs.now)) }
    ensures sound { OnOk result ((actors steps : ℕ) → Each (IsUsable actors) edges.now →
        tag.step + 1 ≤ steps
        → EventsArePlaced (rank_in ranks.now) actors steps (late_value late.old) →
        EventsArePlaced (rank_in ranks.now) actors steps (late_value late.new)) }
{
    for edge in edges {
        emit_along(late, ranks, until, *edge, tag, outputs)?;
    }
    Ok(())
}
