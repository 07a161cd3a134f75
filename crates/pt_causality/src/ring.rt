//! The cycle that a walk has met.

ghost use Rattle.std.specs.Prelude.{◌≡◌, ◌<◌, ◌∷◌, ◌++◌, [], List, IfOk, length, map, nat_lt, reverse};
ghost use Rattle.std.specs.List.{IsFirstBest};
ghost use Rattle.pt_types.specs.declared.graph.Edge.{Edge};
ghost use Rattle.pt_causality.specs.Ranking.{MeetsRing};
ghost use Rattle.pt_causality.specs.Rings.{IsClosedBy, IsRotated, front_of};

use crate::cycle::CycleFault;
use pt_tags::List;
use pt_types::Edge;
use std::alloc::{AllocError, Global};

/// The actors along the trail from its top, up to the one that the edge leaves.
fn front_actors(alloc: Global, trail: &[Edge], edge: Edge) -> Result<Vec<u32>, AllocError>
    ensures { IfOk result (λ actors. actors.items
        ≡ map (λ (e : Edge). e.from) (front_of edge (reverse trail.now))) }
{
    trail
        .iter()
        .rev()
        .take_while(|step| step.from != edge.from)
        .map(|step| step.from)
        .collect(alloc)
}

/// These actors, and the one that the edge leaves.
fn actors_around(alloc: Global, trail: &[Edge], edge: Edge) -> Result<Vec<u32>, AllocError>
    ensures { IfOk result (λ actors. actors.items
        ≡ map (λ (e : Edge). e.from) (front_of edge (reverse trail.now)) ++ edge.from ∷ []) }
{
    let mut actors = front_actors(alloc, trail, edge)?;
    actors.push(edge.from)?;
    Ok(actors)
}

/// The index of the least number.
fn least_place(numbers: &[u32]) -> usize
    requires { 0 < length numbers.now }
    ensures { IsFirstBest nat_lt numbers.now (length numbers.now) result }
{
    let mut best = 0;
    for place in 1..numbers.len() {
        if numbers[place] < numbers[best] {
            best = place;
        }
    }
    best
}

/// Rotates a ring of numbers, at least one, so that the least number is the first: 5, 2, 7 become 2, 7, 5.
pub fn rotate_to_least(numbers: &mut Vec<u32>)
    requires { 0 < length numbers.old.items }
    ensures { IsRotated numbers.old.items numbers.new.items }
{
    let place = least_place(numbers.as_slice());
    numbers.as_mut_slice().rotate_left(place);
}

/// The cycle that an edge closes: it leads from an actor on the trail to the top of the trail.
pub fn ring_at(alloc: Global, trail: &[Edge], edge: Edge) -> CycleFault
    ensures { (incoming : List (List Edge)) → IsClosedBy incoming (reverse trail.now) edge →
        MeetsRing incoming result }
{
    let Ok(mut actors) = actors_around(alloc, trail, edge) else {
        return CycleFault::Memory;
    };
    rotate_to_least(&mut actors);
    CycleFault::Cycle {
        actors: List::new(actors),
    }
}
