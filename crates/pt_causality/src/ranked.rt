//! The ranks and levels of a graph.

ghost use Rattle.std.specs.Prelude.{◌≡◌, IfOk, IfErr, length, map};
ghost use Rattle.pt_types.specs.Lawful.{IsLawful};
ghost use Rattle.pt_semantics.specs.Edges.{edges};
ghost use Rattle.pt_semantics.specs.Ranks.{AreRanks, AreLevels};
ghost use Rattle.pt_causality.specs.declared.places.SearchState.{SearchState};
ghost use Rattle.pt_causality.specs.Incoming.{AreIncoming};
ghost use Rattle.pt_causality.specs.Ranked.{rank_of, level_of, CauseOfCycle};

use crate::all_edges;
use crate::cycle::CycleFault;
use crate::incoming::incoming_edges;
use crate::places::SearchState;
use crate::ranking::visit_all;
use crate::ranks::Ranks;
use pt_tags::List;
use pt_types::{Edge, Graph};
use std::alloc::{AllocError, Global};

/// For each actor of a graph, the edges to it that take no time.
fn incoming_of(alloc: Global, graph: &Graph) -> Result<Vec<List<Edge>>, AllocError>
    requires { IsLawful graph.now }
    ensures { IfOk result (λ lists. AreIncoming (edges graph.now)
        (length graph.now.actors) lists.items) }
{
    let edges = all_edges(alloc, graph)?;
    incoming_edges(alloc, graph.actors.as_slice().len(), edges.as_slice())
}

/// The ranks and levels at the end of the search.
fn ranks_at(alloc: Global, places: &[SearchState]) -> Result<Ranks, AllocError>
    ensures ranks { IfOk result (λ r. r.ranks ≡ map (λ (p : SearchState). p.rank) places.now) }
    ensures levels { IfOk result (λ r. r.levels ≡ map (λ (p : SearchState). p.level) places.now) }
{
    let ranks: Vec<u32> = places.iter().map(|place| place.rank).collect(alloc)?;
    let levels: Vec<u32> = places.iter().map(|place| place.level).collect(alloc)?;
    Ok(Ranks {
        ranks: List::new(ranks),
        levels: List::new(levels),
    })
}

/// The rank and the level of each actor of a graph.
///
/// If a cycle takes no time there are none. The fault is such a cycle, or that memory ran out. With a delay of 0 us between
/// sensor 0 and actuator 2 the levels are 0, 1 and 2, and the ranks 0, 1 and 0: its wire adds a step, so it adds a delay.
pub fn ranks_of(alloc: Global, graph: &Graph) -> Result<Ranks, CycleFault>
    requires lawful { IsLawful graph.now }
    ensures ranks { IfOk result (λ r. AreRanks graph.now (rank_of r)) }
    ensures levels { IfOk result (λ r. AreLevels graph.now (level_of r)) }
    ensures cycle { IfErr result (λ f. CauseOfCycle f graph.now) }
{
    let incoming = incoming_of(alloc, graph)?;
    let places = visit_all(alloc, incoming.as_slice())?;
    Ok(ranks_at(alloc, places.as_slice())?)
}
