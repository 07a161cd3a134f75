//! The edges that take no time, in a list for each actor to which they lead.

ghost use Rattle.std.specs.Prelude.{◌≡◌, IfOk, OnOk};
ghost use Rattle.pt_causality.specs.Incoming.{AreIncoming, with_edge};

use crate::EdgeLists;
use pt_tags::List;
use pt_types::Edge;
use std::alloc::{AllocError, Global};

/// Adds an edge to the list of the actor to which it leads, if it takes no time.
fn add(lists: &mut EdgeLists, edge: Edge) -> Result<(), AllocError>
    ensures { OnOk result (lists.new ≡ with_edge edge lists.old) }
{
    if edge.weight.time == 0 {
        lists.add(edge.to, edge)?;
    }
    Ok(())
}

/// For each of `count` actors, the edges to it that take no time.
pub fn incoming_edges(
    alloc: Global,
    count: usize,
    edges: &[Edge],
) -> Result<Vec<List<Edge>>, AllocError>
    ensures { IfOk result (λ lists. AreIncoming edges.now count lists.items) }
{
    let mut lists = EdgeLists::new(alloc, count)?;
    for edge in edges {
        add(&mut lists, *edge)?;
    }
    lists.into_lists(alloc)
}
