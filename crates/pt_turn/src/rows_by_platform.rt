//! The rows of each platform.

ghost use Rattle.std.specs.Prelude.{◌≡◌, ◌==◌, IfOk, filter, filter_map, not};
ghost use Rattle.pt_types.specs.Lookups.{platform_of};
ghost use Rattle.pt_sensors.specs.declared.sensor_rows.SensorRows.{SensorRows as Entry};
ghost use Rattle.pt_turn.specs.Sharing.{cut_of, is_entry_on};

use pt_sensors::SensorRows;
use pt_tags::List;
use pt_types::Graph;
use std::alloc::{AllocError, Global};

/// The entries whose actors are on platform `number`, and the others.
pub fn parted(
    alloc: Global,
    graph: &Graph,
    number: u32,
    entries: Vec<SensorRows>,
) -> Result<(Vec<SensorRows>, Vec<SensorRows>), AllocError>
    ensures { IfOk result (λ both. (both.0.items
        ≡ filter (is_entry_on graph.now number) entries.items)
        × (both.1.items ≡ filter (λ (s : Entry). not
        (is_entry_on graph.now number s)) entries.items)) }
{
    let mut own = Vec::new(alloc);
    let mut others = Vec::new(alloc);
    for entry in entries {
        if graph.platform_of(entry.actor) == number {
            own.push(entry)?;
        } else {
            others.push(entry)?;
        }
    }
    Ok((own, others))
}

/// An entry without the rows past the horizon; `None` if no row is left.
fn cut(graph: &Graph, entry: SensorRows) -> Option<SensorRows>
    ensures { result ≡ cut_of graph.now entry }
{
    let SensorRows { actor, rows } = entry;
    let mut rows = rows.into_vec();
    rows.retain(|row| row.time <= graph.until);
    if rows.is_empty() {
        return None;
    }
    Some(SensorRows {
        actor,
        rows: List::new(rows),
    })
}

/// These entries without the rows past the horizon; entries left without rows are dropped.
pub fn all_cut(
    alloc: Global,
    graph: &Graph,
    entries: Vec<SensorRows>,
) -> Result<Vec<SensorRows>, AllocError>
    ensures { IfOk result (λ left. left.items ≡ filter_map (cut_of graph.now) entries.items) }
{
    entries
        .into_iter()
        .filter_map(|entry| cut(graph, entry))
        .collect(alloc)
}
