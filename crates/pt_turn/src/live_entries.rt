//! The entries of sensors whose rows are still to come.

ghost use Rattle.std.specs.Prelude.{◌≡◌, ◌<◌, ◌^◌, ◌++◌, IfOk, OnOk, length, option_to_list};
ghost use Rattle.pt_types.specs.Lookups.{kind_of};
ghost use Rattle.pt_turn.specs.Live.{empty_entries, empty_entry, is_sensor};

use pt_sensors::SensorRows;
use pt_tags::List;
use pt_types::{Graph, Kind};
use std::alloc::{AllocError, Global};

/// Whether an actor is a sensor.
fn is_sensor(graph: &Graph, actor: u32) -> bool
    ensures { result ≡ is_sensor (kind_of graph.now actor) }
{
    match graph.actors.as_slice().get(actor as usize) {
        Some(actor) => matches!(&actor.kind, Kind::Sensor { .. }),
        None => false,
    }
}

/// The entry of a sensor of platform `number`, without rows; `None` for other actors.
fn empty_entry(alloc: Global, graph: &Graph, number: u32, actor: u32) -> Option<SensorRows>
    ensures { result ≡ empty_entry graph.now number actor }
{
    if graph.platform_of(actor) != number {
        return None;
    }
    if !is_sensor(graph, actor) {
        return None;
    }
    Some(SensorRows {
        actor,
        rows: List::new(Vec::new(alloc)),
    })
}

/// Appends an entry, if there is one.
fn add(entries: &mut Vec<SensorRows>, entry: Option<SensorRows>) -> Result<(), AllocError>
    ensures { OnOk result (entries.new.items ≡ entries.old.items ++ option_to_list entry) }
{
    if let Some(entry) = entry {
        entries.push(entry)?;
    }
    Ok(())
}

/// The entries of all sensors of platform `number`, without rows, in the order of the graph.
pub fn empty_entries(
    alloc: Global,
    graph: &Graph,
    number: u32,
) -> Result<Vec<SensorRows>, AllocError>
    requires { length graph.now.actors < 2 ^ 32 }
    ensures { IfOk result (λ entries. entries.items ≡ empty_entries graph.now number) }
{
    let mut entries = Vec::new(alloc);
    for actor in 0..graph.actors.as_slice().len() {
        add(
            &mut entries,
            empty_entry(alloc, graph, number, actor as u32),
        )?;
    }
    Ok(entries)
}
