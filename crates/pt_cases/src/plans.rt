//! Plans of graphs that are given as text, and their platforms.

ghost use Rattle.std.specs.Prelude.{IfOk, IfSome};
ghost use Rattle.pt_turn.specs.All.{IsReady};

use crate::graphs::graph_of;
use pt_blocks::Blocks;
use pt_io::Shelf;
use pt_offsets::Plan;
use pt_sensors::{LateRows, recorded};
use pt_tags::Memory;
use pt_turn::{Platform, open_all};
use std::alloc::{AllocError, Global};
use std::sync::Arc;

/// The plan of a text's graph, if it can run.
pub fn plan_of(alloc: Global, text: &str, blocks: &Blocks) -> Option<Plan> {
    let graph = graph_of(alloc, text, blocks)?;
    match pt_offsets::plan_of(alloc, graph) {
        Ok(plan) => Some(plan),
        Err(_) => None,
    }
}

/// The platforms of a plan, opened with the rows of these files; none if a file is refused.
pub fn opened(
    alloc: Global,
    plan: &Arc<Plan>,
    source: Shelf,
) -> Result<Option<Vec<Platform>>, AllocError>
    ensures { IfOk result (λ found. IfSome found (λ platforms. IsReady platforms.items)) }
{
    let mut source = source;
    let Ok(entries) = recorded(alloc, &mut source, plan.graph(), LateRows::Refused) else {
        return Ok(None);
    };
    match open_all(alloc, plan, entries) {
        Ok(platforms) => Ok(Some(platforms)),
        Err(Memory) => Err(AllocError),
    }
}
