//! The tables of a meaning, filled as its firings happen.

ghost use Rattle.std.specs.Prelude.{◌≡◌, IfOk, IsErrOf, length, string_bytes};
ghost use Rattle.pt_types.specs.declared.firing.ActorFiring.{ActorFiring};
ghost use Rattle.pt_types.specs.Lawful.{IsLawful};
ghost use Rattle.pt_semantics.specs.Lists.{Each};
ghost use Rattle.pt_semantics.specs.Meaning.{IsLonger};
ghost use Rattle.pt_semantics.specs.Tables.{tables_text};
ghost use Rattle.pt_sensors.specs.Listed.{IsOfActors};
ghost use Rattle.pt_meaning.specs.Opening.{rows_of_run};
ghost use Rattle.pt_meaning.specs.Waiting.{rank_in};
ghost use Rattle.pt_meaning.specs.Running.{Handed};
ghost use Rattle.pt_tables.specs.Gathered.{texts_from};

use crate::actor_tables::ActorTables;
use crate::text::input_value;
use pt_meaning::{MeaningFault, Receiver, reference};
use pt_sensors::SensorRows;
use pt_tags::Memory;
use pt_types::{Actor, ActorFiring, Graph};
use std::alloc::Global;

/// The tables of the firings so far.
#[derive(Drop)]
struct Filling<'a> {
    actors: &'a [Actor],
    tables: ActorTables,
}

impl<'a> Receiver for Filling<'a> {
    ghost took = { λ start now xs. (now.actors.now ≡ start.actors.now) × (now.tables ≡ texts_from 0 start.actors.now xs) };

    fn take(&mut self, firing: &ActorFiring) -> Result<(), Memory> {
        let value = input_value(firing);
        self.tables
            .push(self.actors, firing.actor, firing.tag, value)?;
        Ok(())
    }
}

/// The tables of a graph's actuators as text, in graph order, from the firings that are the meaning of the graph with these
/// rows. No list of the firings is made. The text is as that of `tables`.
///
/// `ranks` has the rank of each actor of the graph. Rows past the horizon are left out. Fails with `Long` if there are more
/// than `most` firings.
pub fn tables_of_meaning(
    alloc: Global,
    graph: &Graph,
    ranks: &[u32],
    sensors: &[SensorRows],
    most: usize,
) -> Result<String, MeaningFault>
    requires lawful { IsLawful graph.now }
    requires sensors { Each (IsOfActors (length graph.now.actors)) sensors.now }
    ensures text { IfOk result (λ text.
        Handed graph.now (rank_in ranks.now) (rows_of_run graph.now sensors.now) most
        (λ xs. string_bytes text ≡ tables_text graph.now xs)) }
    ensures long { IsErrOf result MeaningFault.Long →
        IsLonger graph.now (rank_in ranks.now) (rows_of_run graph.now sensors.now) most }
{
    let actors = graph.actors.as_slice();
    let tables = ActorTables::new(alloc, actors)?;
    let mut filling = Filling { actors, tables };
    reference(alloc, graph, ranks, sensors, most, &mut filling)?;
    let text = filling.tables.text(alloc)?;
    Ok(text)
}
