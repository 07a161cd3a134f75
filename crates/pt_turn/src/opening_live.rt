//! All platforms of a plan, whose rows arrive later.

ghost use Rattle.std.specs.Prelude.{◌≡◌, [], IfOk};
ghost use Rattle.std.specs.Arc.{arc_value};
ghost use Rattle.pt_turn.specs.All.{AreReady};
ghost use Rattle.pt_turn.specs.Live.{HaveSensors};

use crate::Platform;
use crate::live_entries::empty_entries;
use pt_offsets::Plan;
use pt_tags::Memory;
use std::alloc::Global;
use std::sync::Arc;

/// Opens all platforms of a plan, in the order of its graph, without rows. Each of its sensors has an entry, so that its rows can
/// arrive.
pub fn open_live(alloc: Global, plan: &Arc<Plan>) -> Result<Vec<Platform>, Memory>
    ensures ready { IfOk result (λ all. AreReady (arc_value plan.now) (λ a. []) all.items) }
    ensures sensors { IfOk result (λ all. HaveSensors (arc_value plan.now).graph all.items) }
{
    let graph = plan.graph();
    let mut platforms = Vec::new(alloc);
    for number in 0..graph.platforms.as_slice().len() {
        let number = number as u32;
        let rows = empty_entries(alloc, graph, number)?;
        let plan = Arc::clone(plan)?;
        let platform = Platform::open(alloc, plan, number, rows)?;
        platforms.push(platform)?;
    }
    Ok(platforms)
}
