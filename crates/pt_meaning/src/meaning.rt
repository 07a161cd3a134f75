//! The meaning of a graph and its rows.

ghost use Rattle.std.specs.Prelude.{◌≡◌, [], OnOk, IsErrOf, length};
ghost use Rattle.pt_types.specs.Lawful.{IsLawful};
ghost use Rattle.pt_semantics.specs.Lists.{Each};
ghost use Rattle.pt_semantics.specs.Meaning.{IsLonger};
ghost use Rattle.pt_meaning.specs.Waiting.{rank_in};
ghost use Rattle.pt_sensors.specs.Listed.{IsOfActors};
ghost use Rattle.pt_meaning.specs.Opening.{rows_of_run};
ghost use Rattle.pt_meaning.specs.Running.{IsRunnable, Handed};
ghost use Rattle.pt_causality.specs.Wiring.{IsWiring};

use crate::Receiver;
use crate::engine::{begin, fire_next, no_firing};
use pt_causality::{all_edges, outgoing};
use pt_sensors::SensorRows;
use pt_tags::{List, Memory};
use pt_types::{Edge, Graph};
use std::alloc::{AllocError, Global};
use thiserror::Error;

/// Why there is no result.
#[derive(Clone, Copy, Debug, PartialEq, Eq, Error)]
pub enum MeaningFault {
    /// Memory ran out.
    #[error("memory")]
    Memory,
    /// The meaning has more firings than `most`.
    #[error("the meaning has too many firings")]
    Long,
}

impl From<AllocError> for MeaningFault {
    ghost use Rattle.std.specs.Prelude.{◌≡◌};
    ghost use Rattle.pt_meaning.specs.declared.meaning.MeaningFault.TheVariants.{Memory};

    ghost from_gives = { λ _ fault. fault ≡ Memory };

    fn from(_refused: AllocError) -> MeaningFault {
        MeaningFault::Memory
    }
}

impl From<Memory> for MeaningFault {
    ghost use Rattle.std.specs.Prelude.{◌≡◌};
    ghost use Rattle.pt_meaning.specs.declared.meaning.MeaningFault.TheVariants.{Memory};

    ghost from_gives = { λ _ fault. fault ≡ Memory };

    fn from(_memory: Memory) -> MeaningFault {
        MeaningFault::Memory
    }
}

/// Gives a receiver the firings that are the meaning of a graph with these rows, one after another: by tag, then rank, then
/// actor.
///
/// `ranks` has the rank of each actor of the graph. Rows past the horizon are left out. Fails with `Long` if there are more
/// than `most` firings, and with `Memory` if memory runs out, here or in the receiver. It fails with `Long` as soon as more events
/// wait than the firings that are left can take, so the events that wait take memory in proportion to `most`.
///
/// A sensor 0, a scale 1 by 2/1, a delay 2 of 100 us and an actuator 3, wired in a row, with one row, 7 at time 50: actors 0, 1 and
/// 2 fire at 50.0, and actor 3 fires at 150.0 with 14 at its input.
pub fn reference<R: Receiver>(
    alloc: Global,
    graph: &Graph,
    ranks: &[u32],
    sensors: &[SensorRows],
    most: usize,
    receiver: &mut R,
) -> Result<(), MeaningFault>
    requires lawful { IsLawful graph.now }
    requires sensors { Each (IsOfActors (length graph.now.actors)) sensors.now }
    requires nothing { R.took receiver.old receiver.old [] }
    ensures meaning { OnOk result (Handed graph.now (rank_in ranks.now)
        (rows_of_run graph.now sensors.now) most (R.took receiver.old receiver.new)) }
    ensures long { IsErrOf result MeaningFault.Long →
        IsLonger graph.now (rank_in ranks.now) (rows_of_run graph.now sensors.now) most }
{
    let edges = all_edges(alloc, graph)?;
    let outgoing = outgoing(alloc, graph, edges.as_slice())?;
    run(
        alloc,
        graph,
        ranks,
        sensors,
        outgoing.as_slice(),
        most,
        receiver,
    )
}

/// Fires one actor after another until nothing waits.
fn run<R: Receiver>(
    alloc: Global,
    graph: &Graph,
    ranks: &[u32],
    sensors: &[SensorRows],
    outgoing: &[List<Edge>],
    most: usize,
    receiver: &mut R,
) -> Result<(), MeaningFault>
    requires runnable { IsRunnable graph.now }
    requires sensors { Each (IsOfActors (length graph.now.actors)) sensors.now }
    requires wiring { IsWiring graph.now outgoing.now }
    requires len { length outgoing.now ≡ length graph.now.actors }
    requires nothing { R.took receiver.old receiver.old [] }
    ensures meaning { OnOk result (Handed graph.now (rank_in ranks.now)
        (rows_of_run graph.now sensors.now) most (R.took receiver.old receiver.new)) }
    ensures long { IsErrOf result MeaningFault.Long →
        IsLonger graph.now (rank_in ranks.now) (rows_of_run graph.now sensors.now) most }
{
    let mut list = begin(alloc, graph, ranks, sensors)?;
    let mut firing = no_firing();
    let mut count = 0;
    while let Some(next) = list.waiting.first() {
        if count >= most {
            return Err(MeaningFault::Long);
        }
        if list.waiting.late.is_crowded(most - count) {
            return Err(MeaningFault::Long);
        }
        let leaving = outgoing[next.actor as usize].as_slice();
        let (tag, actor) = (next.tag, next.actor);
        fire_next(&mut list, graph, ranks, leaving, tag, actor, &mut firing)?;
        receiver.take(&firing)?;
        count += 1;
    }
    Ok(())
}
