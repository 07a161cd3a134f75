//! The tables of the actuators.

ghost use Rattle.std.specs.Prelude.{◌≡◌, ◌+◌, ◌<◌, IfOk, OnOk, length, take, string_bytes};
ghost use Rattle.pt_semantics.specs.Firing.{or_zero};
ghost use Rattle.pt_types.specs.Ports.{at_port};
ghost use Rattle.pt_tables.specs.Gathered.{texts_from};
ghost use Rattle.pt_semantics.specs.Tables.{tables_text};

use crate::actor_tables::{ActorTables, has_table};
use pt_meaning::Firings;
use pt_types::{Actor, ActorFiring, Graph};
use std::alloc::{AllocError, Global};

/// The tables of a graph's actuators as text, in graph order, from these firings in order.
///
/// The header line is `actuator,time,step,value`; each firing of an actuator is one line, as `out,150,0,14`.
pub fn tables(alloc: Global, graph: &Graph, firings: &Firings) -> Result<String, AllocError>
    ensures { IfOk result (λ text. string_bytes text ≡ tables_text graph.now firings.now) }
{
    let actors = graph.actors.as_slice();
    let mut tables = ActorTables::new(alloc, actors)?;
    for place in 0..firings.len() {
        push_firing(&mut tables, actors, firings, place)?;
    }
    tables.text(alloc)
}

/// Appends the line of firing `place` to its actor's table, if that is an actuator. Other firings are not read from the
/// list.
fn push_firing(
    tables: &mut ActorTables,
    actors: &[Actor],
    firings: &Firings,
    place: usize,
) -> Result<(), AllocError>
    requires place { place < length firings.now }
    requires tables { tables.old ≡ texts_from 0 actors.now (take place firings.now) }
    ensures { OnOk result (tables.new ≡ texts_from 0 actors.now (take (place + 1) firings.now)) }
{
    let actor = match firings.actor(place) {
        Some(actor) => actor,
        None => unreachable!(),
    };
    if !has_table(actors, actor) {
        return Ok(());
    }
    match firings.get(place) {
        Some(firing) => tables.push(actors, firing.actor, firing.tag, input_value(&firing)),
        None => unreachable!(),
    }
}

/// The value at input 0; 0 if there is none.
pub(crate) fn input_value(firing: &ActorFiring) -> i64
    ensures { result ≡ or_zero (at_port firing.now.inputs 0) }
{
    let inputs = &firing.inputs;
    inputs.get(0).unwrap_or(0)
}
