//! Margins of graphs whose offsets were worked out by hand, or the sender that is infeasible.

ghost use Rattle.pt_types.specs.Lawful.{IsLawful};

use crate::graphs::graph_of;
use pt_blocks::Blocks;
use pt_causality::least_delays;
use pt_offsets::{OffsetFault, offsets};
use pt_tables::margins;
use pt_types::Graph;
use std::alloc::{AllocError, Global};

/// The margins of the graph of a text, or why it has none.
pub fn verdict(alloc: Global, text: &str, blocks: &Blocks) -> Result<String, AllocError> {
    match graph_of(alloc, text, blocks) {
        Some(graph) => margins_of(alloc, &graph),
        None => String::from_str(alloc, "no graph\n"),
    }
}

/// The margins of a graph, or the sender that is infeasible.
fn margins_of(alloc: Global, graph: &Graph) -> Result<String, AllocError>
    requires { IsLawful graph.now }
{
    let Ok(least) = least_delays(alloc, graph) else {
        return Err(AllocError);
    };
    match offsets(alloc, graph, &least) {
        Ok(offsets) => margins(alloc, graph, &offsets),
        Err(fault) => refusal(alloc, fault),
    }
}

/// Why a graph is refused.
fn refusal(alloc: Global, fault: OffsetFault) -> Result<String, AllocError> {
    match fault {
        OffsetFault::Infeasible {
            send,
            offset,
            slack,
        } => format!(in alloc; "infeasible {send}, offset {offset}, slack {slack}\n"),
        OffsetFault::Memory => Err(AllocError),
    }
}
