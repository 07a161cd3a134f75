//! The state of the search for each actor.

ghost use Rattle.std.specs.Prelude.{◌≡◌, ◌<◌, ◌≤◌, ◌+◌, ◌-◌, ◌^◌, ◌++◌, ◌∷◌, [], IfOk, length, map, slice_set, MatchOption};
ghost use Rattle.pt_causality.specs.Incoming.{into};
ghost use Rattle.pt_causality.specs.Places.{place_at, fresh_place, marked, looked, IsNextEdge};

use pt_tags::List;
use pt_types::Edge;
use std::alloc::{AllocError, Global};

/// The progress of the search at an actor.
#[derive(Clone, Copy, Debug, PartialEq, Eq)]
pub enum SearchMark {
    /// The search has not met it.
    New,
    /// The walk leads through it.
    Open,
    /// It is finished, with all actors before it.
    Done,
}

/// The state of the search at an actor.
#[derive(Clone, Copy, Debug, PartialEq, Eq)]
pub struct SearchState {
    /// The number of edges to it that are still to be looked at.
    pub left: usize,
    pub mark: SearchMark,
    /// One more than the greatest level at the source of an edge that was looked at, or 0.
    pub level: u32,
    /// The same for ranks, over the edges that add no delay.
    pub rank: u32,
}

/// The state of each actor before the search, from the edges to it.
pub fn fresh(alloc: Global, incoming: &[List<Edge>]) -> Result<Vec<SearchState>, AllocError>
    ensures { IfOk result (λ places. places.items ≡ map fresh_place incoming.now) }
{
    incoming
        .iter()
        .map(|edges| SearchState {
            left: edges.as_slice().len(),
            mark: SearchMark::New,
            level: 0,
            rank: 0,
        })
        .collect(alloc)
}

/// The next edge to an actor to look at; `None` if all were.
pub fn next_edge(incoming: &[List<Edge>], places: &[SearchState], actor: u32) -> Option<Edge>
    requires actor { actor < length places.now }
    requires lists { length incoming.now ≡ length places.now }
    requires left { (place_at places.now actor).left ≤ length (into incoming.now actor) }
    ensures { MatchOption result ((place_at places.now actor).left ≡ 0)
        (IsNextEdge (place_at places.now actor) (into incoming.now actor)) }
{
    let left = places[actor as usize].left;
    if left == 0 {
        return None;
    }
    Some(incoming[actor as usize].as_slice()[left - 1])
}

/// Sets the mark of an actor.
pub fn set_mark(places: &mut Vec<SearchState>, actor: u32, mark: SearchMark)
    requires { actor < length places.old.items }
    ensures { places.new.items ≡ slice_set places.old.items actor
        (marked mark (place_at places.old.items actor)) }
{
    places[actor as usize].mark = mark;
}

/// The state of an actor after an edge to it was looked at; `before` is the state at the edge's source.
fn looked(before: SearchState, edge: Edge, place: SearchState) -> SearchState
    requires left { 0 < place.left }
    requires level { before.level + 1 < 2 ^ 32 }
    requires rank { before.rank + 1 < 2 ^ 32 }
    ensures { result ≡ looked before edge place }
{
    let rank = if edge.weight.step == 0 {
        place.rank.max(before.rank + 1)
    } else {
        place.rank
    };
    SearchState {
        left: place.left - 1,
        mark: place.mark,
        level: place.level.max(before.level + 1),
        rank,
    }
}

/// Looks at an edge to an actor.
pub fn look(places: &mut Vec<SearchState>, actor: u32, edge: Edge)
    requires actor { actor < length places.old.items }
    requires from { edge.from < length places.old.items }
    requires left { 0 < (place_at places.old.items actor).left }
    requires level { (place_at places.old.items edge.from).level + 1 < 2 ^ 32 }
    requires rank { (place_at places.old.items edge.from).rank + 1 < 2 ^ 32 }
    ensures { places.new.items ≡ slice_set places.old.items actor
        (looked (place_at places.old.items edge.from) edge (place_at places.old.items actor)) }
{
    let place = looked(places[edge.from as usize], edge, places[actor as usize]);
    places[actor as usize] = place;
}
