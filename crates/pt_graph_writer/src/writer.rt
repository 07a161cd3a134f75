//! The text of a graph.

ghost use Rattle.std.specs.Prelude.{◌≡◌, ◌++◌, ◌∷◌, [], true, IfOk};
ghost use Rattle.std.specs.List.{filter, list_all};
ghost use Rattle.pt_types.specs.declared.graph.Actor.{Actor as ActorSpec};
ghost use Rattle.pt_graph_writer.specs.Text.{kind_fits, graph_text, graph_data, visible_wires};
ghost use Rattle.pt_graph_writer.specs.RoundTrip.{ReadsBack};
ghost use Rattle.serde_json.specs.View.{view};
ghost use Rattle.pt_types.specs.Ends.{ends_fit};

use crate::encode::entries;
use pt_blocks::{Blocks, Named};
use pt_graph::ends_fit;
use pt_tags::Memory;
use pt_types::{Actor, Graph, Wire};
use serde_json::{Map, Value, put};
use std::alloc::{AllocError, Global};

/// The text of a graph whose actors may name `blocks`: compact JSON, a file of version 2.
///
/// If the graph was read with these blocks, the reader gives the same graph for this text, as long as it has at most
/// 1,048,576 bytes. The same holds for the text with a line feed at its end. (This project's own choice.)
pub fn graph_text(alloc: Global, graph: &Graph, blocks: &Blocks) -> Result<Vec<u8>, Memory>
    ensures text { IfOk result (λ text. text.items ≡ graph_text graph.now blocks.now.listed.items) }
    ensures reads_back { IfOk result (λ text.
        ReadsBack graph.now blocks.now.listed.items text.items) }
    ensures reads_line { IfOk result (λ text.
        ReadsBack graph.now blocks.now.listed.items (text.items ++ 10 ∷ [])) }
{
    let value = graph_value(alloc, graph, blocks.listed())?;
    let text = value.to_vec(alloc)?;
    Ok(text)
}

/// The whole file as a JSON value.
#[tactic(auto, unfolding(crate::specs::Text::graph_data))]
fn graph_value(alloc: Global, graph: &Graph, blocks: &[Named]) -> Result<Value, AllocError>
    ensures value { IfOk result (λ v. view v ≡ graph_data graph.now blocks.now) }
    ensures fits { IfOk result (λ v. list_all (λ (a : ActorSpec). kind_fits a.kind) graph.now.actors
        ≡ true) }
{
    let wires = visible_wires(alloc, graph.actors.as_slice(), graph.wires.as_slice())?;
    let pairs = entries(alloc, graph, blocks, graph.clock_errors.as_slice())?;
    let links = entries(alloc, graph, blocks, graph.links.as_slice())?;
    let wires = entries(alloc, graph, blocks, wires.as_slice())?;
    let actors = entries(alloc, graph, blocks, graph.actors.as_slice())?;
    let platforms = entries(alloc, graph, blocks, graph.platforms.as_slice())?;
    let mut members = Map::new(alloc);
    put(&mut members, alloc, "clock_errors", pairs)?;
    put(&mut members, alloc, "links", links)?;
    put(&mut members, alloc, "wires", wires)?;
    put(&mut members, alloc, "actors", actors)?;
    put(&mut members, alloc, "platforms", platforms)?;
    put(
        &mut members,
        alloc,
        "clock_error",
        Value::from(graph.clock_error),
    )?;
    put(&mut members, alloc, "until", Value::from(graph.until))?;
    put(&mut members, alloc, "ptides", Value::from(2u32))?;
    Ok(Value::Object(members))
}

/// The wires of the file, without the hidden ones.
fn visible_wires(alloc: Global, actors: &[Actor], wires: &[Wire]) -> Result<Vec<Wire>, AllocError>
    ensures { IfOk result (λ v. v.items ≡ filter (ends_fit actors.now) wires.now) }
{
    wires
        .iter()
        .copied()
        .filter(|wire| ends_fit(actors, wire))
        .collect(alloc)
}
