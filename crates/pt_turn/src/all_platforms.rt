//! All platforms of a plan.

ghost use Rattle.std.specs.Prelude.{◌≡◌, IfOk};
ghost use Rattle.std.specs.Arc.{arc_value};
ghost use Rattle.pt_semantics.specs.Rows.{FitRows};
ghost use Rattle.pt_sensors.specs.Listed.{rows_for};
ghost use Rattle.pt_sensors.specs.Places.{StandInPlace, of_run};
ghost use Rattle.pt_turn.specs.All.{AreReady};

use crate::Platform;
use crate::rows_by_platform::{all_cut, parted};
use pt_offsets::Plan;
use pt_sensors::SensorRows;
use pt_tags::Memory;
use std::alloc::Global;
use std::sync::Arc;

/// Opens all platforms of a plan, in the order of its graph, with the rows of their sensors up to the horizon. `entries` has
/// one entry for each actor, without late rows.
pub fn open_all(
    alloc: Global,
    plan: &Arc<Plan>,
    entries: Vec<SensorRows>,
) -> Result<Vec<Platform>, Memory>
    requires places { StandInPlace (arc_value plan.now).graph entries.items }
    requires fit { FitRows (arc_value plan.now).graph
        (of_run (arc_value plan.now).graph (rows_for entries.items)) }
    ensures { IfOk result (λ all. AreReady (arc_value plan.now)
        (of_run (arc_value plan.now).graph (rows_for entries.items)) all.items) }
{
    let graph = plan.graph();
    let mut platforms = Vec::new(alloc);
    let mut rest = entries;
    for number in 0..graph.platforms.as_slice().len() {
        let number = number as u32;
        let (own, others) = parted(alloc, graph, number, rest)?;
        rest = others;
        let rows = all_cut(alloc, graph, own)?;
        let plan = Arc::clone(plan)?;
        let platform = Platform::open(alloc, plan, number, rows)?;
        platforms.push(platform)?;
    }
    Ok(platforms)
}
