//! The search back along the edges that take no time.

ghost use Rattle.std.specs.Prelude.{◌≡◌, ◌<◌, ◌≤◌, ◌+◌, ◌^◌, [], ℕ, IfOk, IfErr, OnOk, MatchOption, length, reverse};
ghost use Rattle.pt_causality.specs.Places.{place_at};
ghost use Rattle.pt_causality.specs.Ranking.{ActorsAreDone, AreEdgeLists, IsWalk, MeetsRing, Rests, WentBack, marks_left, steps_left};

use crate::cycle::CycleFault;
use crate::places::{SearchMark, SearchState, fresh, look, next_edge, set_mark};
use crate::ring::ring_at;
use pt_tags::List;
use pt_types::Edge;
use std::alloc::Global;

/// Returns along the trail: removes its last edge, and gives the actor that it leads to; `None` if the trail is empty.
fn go_back(trail: &mut Vec<Edge>) -> Option<u32>
    ensures { MatchOption result (reverse trail.old.items ≡ [])
        (λ top. WentBack (reverse trail.old.items) top (reverse trail.new.items)) }
{
    let edge = trail.pop()?;
    Some(edge.to)
}

/// One step of a walk with this actor at its top: looks at an edge, goes back along an edge, or finishes the actor.
///
/// Gives the next top, or `None` if the walk has ended.
fn step(
    alloc: Global,
    incoming: &[List<Edge>],
    places: &mut Vec<SearchState>,
    trail: &mut Vec<Edge>,
    top: u32,
) -> Result<Option<u32>, CycleFault>
    requires few { length incoming.now + 1 < 2 ^ 32 }
    requires joined { AreEdgeLists incoming.now }
    requires walk { IsWalk incoming.now places.old.items top (reverse trail.old.items) }
    ensures walk { IfOk result (λ next.
        MatchOption next (Rests incoming.now places.new.items)
        (λ top. IsWalk incoming.now places.new.items top (reverse trail.new.items))) }
    ensures shrinks { OnOk result (steps_left places.new.items < steps_left places.old.items) }
    ensures keeps { OnOk result ((a : ℕ) →
        marks_left (place_at places.new.items a).mark
        ≤ marks_left (place_at places.old.items a).mark) }
    ensures ring { IfErr result (MeetsRing incoming.now) }
{
    let Some(edge) = next_edge(incoming, places.as_slice(), top) else {
        set_mark(places, top, SearchMark::Done);
        return Ok(go_back(trail));
    };
    match places[edge.from as usize].mark {
        SearchMark::New => {
            set_mark(places, edge.from, SearchMark::Open);
            let Ok(()) = trail.push(edge) else {
                return Err(CycleFault::Memory);
            };
            Ok(Some(edge.from))
        }
        SearchMark::Open => Err(ring_at(alloc, trail.as_slice(), edge)),
        SearchMark::Done => {
            look(places, top, edge);
            Ok(Some(top))
        }
    }
}

/// Walks back from a new actor, until it and all actors before it are done.
fn finish(
    alloc: Global,
    incoming: &[List<Edge>],
    places: &mut Vec<SearchState>,
    root: u32,
) -> Result<(), CycleFault>
    requires few { length incoming.now + 1 < 2 ^ 32 }
    requires joined { AreEdgeLists incoming.now }
    requires rests { Rests incoming.now places.old.items }
    requires root { root < length places.old.items }
    requires new { (place_at places.old.items root).mark ≡ SearchMark.New }
    ensures rests { OnOk result (Rests incoming.now places.new.items) }
    ensures done { OnOk result ((place_at places.new.items root).mark ≡ SearchMark.Done) }
    ensures keeps { OnOk result ((a : ℕ) →
        marks_left (place_at places.new.items a).mark
        ≤ marks_left (place_at places.old.items a).mark) }
    ensures ring { IfErr result (MeetsRing incoming.now) }
{
    let mut trail = Vec::new(alloc);
    let mut top = root;
    set_mark(places, root, SearchMark::Open);
    while let Some(next) = step(alloc, incoming, places, &mut trail, top)? {
        top = next;
    }
    Ok(())
}

/// Makes an actor done, if it isn't yet.
fn visit(
    alloc: Global,
    incoming: &[List<Edge>],
    places: &mut Vec<SearchState>,
    actor: u32,
) -> Result<(), CycleFault>
    requires few { length incoming.now + 1 < 2 ^ 32 }
    requires joined { AreEdgeLists incoming.now }
    requires rests { Rests incoming.now places.old.items }
    requires actor { actor < length places.old.items }
    ensures rests { OnOk result (Rests incoming.now places.new.items) }
    ensures done { OnOk result ((place_at places.new.items actor).mark ≡ SearchMark.Done) }
    ensures keeps { OnOk result ((a : ℕ) →
        marks_left (place_at places.new.items a).mark
        ≤ marks_left (place_at places.old.items a).mark) }
    ensures ring { IfErr result (MeetsRing incoming.now) }
{
    match places[actor as usize].mark {
        SearchMark::New => finish(alloc, incoming, places, actor),
        SearchMark::Open | SearchMark::Done => Ok(()),
    }
}

/// The final state of all actors, each of which is done; or a cycle.
pub fn visit_all(alloc: Global, incoming: &[List<Edge>]) -> Result<Vec<SearchState>, CycleFault>
    requires few { length incoming.now + 1 < 2 ^ 32 }
    requires joined { AreEdgeLists incoming.now }
    ensures done { IfOk result (λ places. ActorsAreDone incoming.now places.items) }
    ensures ring { IfErr result (MeetsRing incoming.now) }
{
    let mut places = fresh(alloc, incoming)?;
    for actor in 0..incoming.len() {
        visit(alloc, incoming, &mut places, actor as u32)?;
    }
    Ok(places)
}
