//! Encoding as JSON values, part by part.

ghost use Rattle.std.specs.Prelude.{◌≡◌, true, IfOk};
ghost use Rattle.std.specs.List.{list_all};
ghost use Rattle.serde_json.specs.View.{view};
ghost use Rattle.pt_graph_writer.specs.Text.{entries};

use pt_blocks::Named;
use pt_types::Graph;
use serde_json::Value;
use std::alloc::{AllocError, Global};

/// A part of a graph that can be encoded as JSON. Names of platforms
/// and actors are from the graph, of blocks from the list.
pub trait Encode {
    ghost use Rattle.std.specs.Prelude.{List, Bool, true};
    ghost use Rattle.serde_json.specs.Data.{Data};
    ghost use Rattle.pt_types.specs.declared.graph.Graph.{Graph};
    ghost use Rattle.pt_blocks.specs.declared.blocks.Named.{Named};

    ghost encoded: { Graph → List Named → Self → Data };

    // The numbers in it that have no range of their own fit in an `i64`, as the reader requires.
    ghost fits: { Self → Bool };

    fn encode(&self, alloc: Global, graph: &Graph, blocks: &[Named]) -> Result<Value, AllocError>
        ensures value { IfOk result (λ v. view v ≡ encoded graph.now blocks.now self.now) }
        ensures fits { IfOk result (λ v. fits self.now ≡ true) };
}

/// The array of these entries.
pub fn entries<T: Encode>(
    alloc: Global,
    graph: &Graph,
    blocks: &[Named],
    items: &[T],
) -> Result<Value, AllocError>
    ensures value { IfOk result (λ v. view v ≡ entries (T.encoded graph.now blocks.now) items.now) }
    ensures fits { IfOk result (λ v. list_all T.fits items.now ≡ true) }
{
    let mut list = Vec::new(alloc);
    for item in items {
        list.push(item.encode(alloc, graph, blocks)?)?;
    }
    Ok(Value::Array(list))
}
