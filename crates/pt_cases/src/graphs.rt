//! Graphs, each with `ok` or the line of its first fault.

ghost use Rattle.std.specs.Prelude.{IfSome};
ghost use Rattle.pt_types.specs.Lawful.{IsLawful};

use pt_blocks::Blocks;
use pt_graph::{fault_line, read_graph};
use pt_types::Graph;
use std::alloc::{AllocError, Global};

/// `ok`, or what is wrong with the graph.
pub fn verdict(alloc: Global, text: &str, blocks: &Blocks) -> Result<String, AllocError> {
    let mut line = String::new(alloc);
    write_verdict(alloc, &mut line, text, blocks)?;
    Ok(line)
}

fn write_verdict(
    alloc: Global,
    line: &mut String,
    text: &str,
    blocks: &Blocks,
) -> Result<(), AllocError> {
    match read_graph(alloc, text.as_bytes(), blocks) {
        Ok(_) => line.push_str("ok\n"),
        Err(fault) => fault_line(line, &fault),
    }
}

/// The graph of a text, if it has no fault.
pub fn graph_of(alloc: Global, text: &str, blocks: &Blocks) -> Option<Graph>
    ensures { IfSome result IsLawful }
{
    match read_graph(alloc, text.as_bytes(), blocks) {
        Ok(graph) => Some(graph),
        Err(_) => None,
    }
}
