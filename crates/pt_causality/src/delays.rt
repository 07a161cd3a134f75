//! The least delays of a graph.

ghost use Rattle.std.specs.Prelude.{IfOk};
ghost use Rattle.pt_types.specs.Lawful.{IsLawful};
ghost use Rattle.pt_causality.specs.Delays.{least_of, AreLeast, AreSmall};

use crate::least::Least;
use pt_tags::Memory;
use pt_types::Graph;
use std::alloc::Global;

/// The least delay between any two units of a graph. It fails only if memory runs out.
///
/// The time of each delay is below 2^62 microseconds, and its step below 2^62.
pub fn least_delays(alloc: Global, graph: &Graph) -> Result<Least, Memory>
    requires lawful { IsLawful graph.now }
    ensures least { IfOk result (λ least. AreLeast graph.now (least_of least)) }
    ensures small { IfOk result (λ least. AreSmall (least_of least)) }
{
    Ok(Least::new(alloc, graph)?)
}
