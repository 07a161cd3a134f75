//! The wires of each actor.

ghost use Rattle.std.specs.Prelude.{◌≡◌, ◌<◌, ◌≤◌, IfOk};
ghost use Rattle.pt_types.specs.Lawful.{IsLawful};
ghost use Rattle.pt_causality.specs.Branches.{AreBranches};

use pt_tags::Memory;
use pt_types::Graph;
use std::alloc::Global;

/// The wires of each actor, as chains of indices into the graph's wires, so that a result visits its own actor's wires only.
/// The number of wires ends a chain.
#[derive(Drop)]
pub struct Branches {
    /// The index of each actor's first wire.
    pub first: Vec<usize>,
    /// For each wire, the index of the next one from the same actor.
    pub next: Vec<usize>,
}

/// The chains of wires of a graph, built from the last wire to the first. If wires 0 and 2 of three leave actor 1, its chain
/// begins with `first[1] = 0`, goes on with `next[0] = 2` and ends with `next[2] = 3`.
pub fn find_branches(alloc: Global, graph: &Graph) -> Result<Branches, Memory>
    requires lawful { IsLawful graph.now }
    ensures { IfOk result (AreBranches graph.now) }
{
    let wires = graph.wires.as_slice();
    let count = wires.len();
    let mut first = vec![in alloc; count; graph.actors.as_slice().len()]?;
    let mut next = vec![in alloc; count; count]?;
    for behind in 0..count {
        let place = count - 1 - behind;
        let from = wires[place].from as usize;
        next[place] = first[from];
        first[from] = place;
    }
    Ok(Branches { first, next })
}
