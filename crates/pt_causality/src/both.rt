//! Least delays, ranks and levels.

ghost use Rattle.std.specs.Prelude.{IfOk, IfErr};
ghost use Rattle.pt_types.specs.Lawful.{IsLawful};
ghost use Rattle.pt_semantics.specs.Ranks.{AreLevels, AreRanks};
ghost use Rattle.pt_causality.specs.Delays.{least_of, AreLeast, AreSmall};
ghost use Rattle.pt_causality.specs.Ranked.{level_of, rank_of, CauseOfCycle};

use crate::{CycleFault, Least, Ranks, least_delays, ranks_of};
use pt_types::Graph;
use std::alloc::Global;

/// The least delay between any two units of a graph, and the rank and the level of each actor; or a cycle that takes no
/// time, from its actor with the least number on.
///
/// Sensor 0, a delay 1 of 100 us and actuator 2, wired in a row: the least delay from 0 to 1 is zero, and from 0 to 2 it is
/// 100 us. The levels are 0, 1 and 0, since the wire that leaves the delay takes time.
pub fn causality(alloc: Global, graph: &Graph) -> Result<(Least, Ranks), CycleFault>
    requires lawful { IsLawful graph.now }
    ensures least { IfOk result (λ both. AreLeast graph.now (least_of both.0)) }
    ensures small { IfOk result (λ both. AreSmall (least_of both.0)) }
    ensures ranks { IfOk result (λ both. AreRanks graph.now (rank_of both.1)) }
    ensures levels { IfOk result (λ both. AreLevels graph.now (level_of both.1)) }
    ensures cycle { IfErr result (λ fault. CauseOfCycle fault graph.now) }
{
    let ranks = ranks_of(alloc, graph)?;
    let least = least_delays(alloc, graph)?;
    Ok((least, ranks))
}
