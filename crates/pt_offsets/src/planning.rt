//! The plan of a graph, or why it has none.

ghost use Rattle.std.specs.Prelude.{◌≡◌, IfOk, IfErr};
ghost use Rattle.pt_types.specs.Lawful.{IsLawful};
ghost use Rattle.pt_offsets.specs.Faults.{CauseOfPlan};
ghost use Rattle.pt_offsets.specs.Plans.{IsAdmitted};

use crate::admission::offsets;
use crate::fault::PlanFault;
use crate::plan::Plan;
use pt_causality::{find_branches, least_delays, ranks_of};
use pt_types::Graph;
use std::alloc::Global;

/// A graph without a plan, and why it has none.
#[derive(Drop)]
pub struct Unplanned {
    pub graph: Graph,
    pub fault: PlanFault,
}

/// The plan of a graph. A graph that can't run is returned with its fault: a cycle that takes no time is reported before a
/// sender that can't send in time.
///
/// A sender of slack 0 us that a sensor of bound 10 us feeds has offset 10, so it can't send in time: the fault is `Infeasible`
/// with offset 10 and slack 0. With a delay of 11 us before it its offset is -1, and the graph has a plan.
pub fn plan_of(alloc: Global, graph: Graph) -> Result<Plan, Unplanned>
    requires { IsLawful graph }
    ensures plan { IfOk result (λ plan. plan.graph ≡ graph) }
    ensures admitted { IfOk result IsAdmitted }
    ensures graph { IfErr result (λ unplanned. unplanned.graph ≡ graph) }
    ensures fault { IfErr result (λ unplanned. CauseOfPlan unplanned.fault graph) }
{
    let ranks = match ranks_of(alloc, &graph) {
        Ok(ranks) => ranks,
        Err(fault) => {
            let fault = PlanFault::Cycle(fault);
            return Err(Unplanned { graph, fault });
        }
    };
    let Ok(least) = least_delays(alloc, &graph) else {
        let fault = PlanFault::Memory;
        return Err(Unplanned { graph, fault });
    };
    let Ok(branches) = find_branches(alloc, &graph) else {
        let fault = PlanFault::Memory;
        return Err(Unplanned { graph, fault });
    };
    match offsets(alloc, &graph, &least) {
        Ok(offsets) => {
            let least = least.with_before(alloc);
            Ok(Plan::new(graph, least, ranks, offsets, branches))
        }
        Err(fault) => {
            let fault = PlanFault::Offset(fault);
            Err(Unplanned { graph, fault })
        }
    }
}
