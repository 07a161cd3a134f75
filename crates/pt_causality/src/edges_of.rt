//! The edges of a graph, and those that leave each actor.

ghost use Rattle.std.specs.Prelude.{◌≡◌, ◌<◌, ◌^◌, IfOk, length};
ghost use Rattle.pt_semantics.specs.Edges.{weight, of_wire, of_link, wires, edges};
ghost use Rattle.pt_causality.specs.Wiring.{kind_at, AreEdges, IsWiring};

use crate::lists::EdgeLists;
use pt_tags::{Delay, List};
use pt_types::{Actor, Edge, Graph, Kind, Link, Wire};
use std::alloc::{AllocError, Global};

/// The delay that an output of this kind adds to a tag: that of a delay of 100 us adds 100 us, that of a delay of 0 us one
/// step, and that of a scale nothing.
pub fn weight(kind: &Kind, output: u32) -> Delay
    ensures { result ≡ weight kind.now output }
{
    match kind {
        Kind::Delay { d } => {
            if *d == 0 {
                Delay { time: 0, step: 1 }
            } else {
                Delay { time: *d, step: 0 }
            }
        }
        Kind::Every { period, .. } => {
            if output == 1 {
                Delay {
                    time: *period,
                    step: 0,
                }
            } else {
                Delay { time: 0, step: 0 }
            }
        }
        _ => Delay { time: 0, step: 0 },
    }
}

/// The delay that an output of an actor adds to a tag; zero if there is no such actor.
fn weight_at(actors: &[Actor], actor: u32, output: u32) -> Delay
    ensures { result ≡ weight (kind_at actors.now actor) output }
{
    match actors.get(actor as usize) {
        Some(actor) => weight(&actor.kind, output),
        None => Delay { time: 0, step: 0 },
    }
}

fn edge_of_wire(graph: &Graph, wire: &Wire) -> Edge
    ensures { result ≡ of_wire graph.now wire.now }
{
    let Wire {
        from,
        output,
        to,
        input,
    } = *wire;
    Edge {
        from,
        output,
        to,
        input,
        weight: weight_at(graph.actors.as_slice(), from, output),
    }
}

fn edge_of_link(link: &Link) -> Edge
    ensures { result ≡ of_link link.now }
{
    Edge {
        from: link.from,
        output: 0,
        to: link.to,
        input: 0,
        weight: Delay { time: 0, step: 0 },
    }
}

/// The wires of a graph as edges, with the hidden ones.
pub fn wire_edges(alloc: Global, graph: &Graph) -> Result<Vec<Edge>, AllocError>
    ensures { IfOk result (λ v. v.items ≡ wires graph.now) }
{
    let wires = graph.wires.as_slice();
    wires.iter().map(|w| edge_of_wire(graph, w)).collect(alloc)
}

/// All edges of a graph: the wires, with the hidden ones, and then the links.
pub fn all_edges(alloc: Global, graph: &Graph) -> Result<Vec<Edge>, AllocError>
    ensures { IfOk result (λ v. v.items ≡ edges graph.now) }
{
    let mut all = wire_edges(alloc, graph)?;
    for link in graph.links.as_slice() {
        all.push(edge_of_link(link))?;
    }
    Ok(all)
}

/// The edges that leave each actor; lists are by actor.
pub fn outgoing(alloc: Global, graph: &Graph, edges: &[Edge]) -> Result<Vec<List<Edge>>, AllocError>
    requires few { length graph.now.actors < 2 ^ 32 }
    requires edges { AreEdges graph.now edges.now }
    ensures wiring { IfOk result (λ v. IsWiring graph.now v.items) }
    ensures len { IfOk result (λ v. length v.items ≡ length graph.now.actors) }
{
    let mut outgoing = EdgeLists::new(alloc, graph.actors.as_slice().len())?;
    for edge in edges {
        outgoing.add(edge.from, *edge)?;
    }
    outgoing.into_lists(alloc)
}
