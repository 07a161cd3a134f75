//! The rows of all sensors of a graph.

ghost use Rattle.std.specs.Prelude.{◌≡◌, ◌<◌, ◌≤◌, ◌^◌, [], IfOk, IfErr, OnOk, length};
ghost use Rattle.pt_io.specs.Calls.{reading};
ghost use Rattle.pt_semantics.specs.Lists.{Each};
ghost use Rattle.pt_types.specs.Limits.{greatest_claims};
ghost use Rattle.pt_types.specs.Lookups.{kind_of};
ghost use Rattle.pt_semantics.specs.Rows.{FitRows};
ghost use Rattle.pt_sensors.specs.Order.{RowsAreInOrder};
ghost use Rattle.pt_sensors.specs.Listed.{rows_for, IsOfActors};
ghost use Rattle.pt_sensor_files.specs.Asked.{Asks, AsksBy, AsksFiles, AsksUpTo, file_of, sensor_files};
ghost use Rattle.pt_sensor_files.specs.Recorded.{AllPass, AreRows, CauseOfRows, RowsPass, RowsOfKind};
ghost use Rattle.pt_sensor_files.specs.declared.recorded_fault.LateRows.TheVariants.{Refused};
ghost use Rattle.pt_sensor_files.specs.Counts.{LeavesCount};
ghost use Rattle.pt_sensor_files.specs.Files.{CauseOfActor};
ghost use Rattle.pt_sensors.specs.Limits.{file_limits};
ghost use Rattle.pt_sensors.specs.Places.{StandInPlace, of_run};

use crate::file::{judged, rows_of_file};
use crate::recorded_fault::{LateRows, RecordedFault};
use pt_io::Source;
use pt_sensors::{SensorRows, file_limits};
use pt_tags::List;
use pt_types::{Graph, Kind, Row};
use std::alloc::Global;

/// The rows of one actor: from its file if it is a sensor, and else none.
fn rows_of_actor<S: Source>(
    alloc: Global,
    source: &mut S,
    graph: &Graph,
    actor: u32,
    late: LateRows,
) -> Result<List<Row>, RecordedFault>
    requires actor { actor < length graph.now.actors }
    requires claims { graph.now.claims ≤ greatest_claims }
    ensures rows { IfOk result (λ rows.
        RowsOfKind (file_limits graph.now.claims) (S.contents source.old)
        (kind_of graph.now actor) rows) }
    ensures passes { IfOk result (λ rows.
        RowsPass late graph.now.until (kind_of graph.now actor) rows) }
    ensures order { IfOk result (RowsAreInOrder (file_limits graph.now.claims)) }
    ensures fault { IfErr result (λ f. CauseOfActor late f (S.contents source.old) graph.now actor
        (reading S.Source source.old source.new)) }
    ensures keeps { S.contents source.new ≡ S.contents source.old }
    ensures grows { S.faults source.old ≤ S.faults source.new }
    ensures quiet { OnOk result (S.faults source.new ≡ S.faults source.old) }
    ensures counted { IfErr result (λ f.
        LeavesCount f (S.faults source.old) (S.faults source.new)) }
    ensures asks { IfOk result (λ rows.
        Asks (S.asked source.old) (S.asked source.new) (file_of (kind_of graph.now actor))) }
    ensures asks_by { IfErr result (λ f.
        AsksBy f (S.asked source.old) (S.asked source.new) (file_of (kind_of graph.now actor))) }
{
    let Kind::Sensor { file, bound } = &graph.actors.as_slice()[actor as usize].kind else {
        return Ok(List::new(Vec::new(alloc)));
    };
    let limits = file_limits(graph.claims);
    let rows = rows_of_file(alloc, source, limits, actor, file.as_str())?;
    judged(late, actor, rows.as_slice(), *bound, graph.until)?;
    Ok(rows)
}

/// The rows of all sensors of a graph, read in graph order: one entry for each actor, empty if it is not a sensor.
///
/// The limits of each file follow from the most claims of a platform. If late rows are refused, the rows of each sensor are
/// checked before the next file is fetched.
///
/// If actors 0 and 2 of three are sensors with files `s.csv` and `u.csv`, `s.csv` is fetched first, and entry 1 has no rows. If
/// its first row is 7 at time 50, seen at reading 61, and its bound is 10, the fault is `Late` with actor 0, row 1, seen 61
/// and limit 60, and `u.csv` is not fetched.
pub fn recorded<S: Source>(
    alloc: Global,
    source: &mut S,
    graph: &Graph,
    late: LateRows,
) -> Result<Vec<SensorRows>, RecordedFault>
    requires actors { length graph.now.actors < 2 ^ 32 }
    requires claims { graph.now.claims ≤ greatest_claims }
    ensures rows { IfOk result (λ all.
        AreRows (S.contents source.old) graph.now (rows_for all.items)) }
    ensures passes { IfOk result (λ all. AllPass late graph.now (rows_for all.items)) }
    ensures actors { IfOk result (λ all. Each (IsOfActors (length graph.now.actors)) all.items) }
    ensures places { IfOk result (λ all. StandInPlace graph.now all.items) }
    ensures fit { IfOk result (λ all. late ≡ Refused →
        FitRows graph.now (of_run graph.now (rows_for all.items))) }
    ensures fault { IfErr result (λ f. CauseOfRows late f (S.contents source.old) graph.now []
        (reading S.Source source.old source.new)) }
    ensures asks { AsksFiles graph.now (S.asked source.old) (S.asked source.new) }
    ensures asks_up_to { IfErr result
        (λ f. AsksUpTo f graph.now (S.asked source.old) (S.asked source.new)) }
    ensures asks_all { IfOk result (λ all.
        Asks (S.asked source.old) (S.asked source.new) (sensor_files graph.now.actors)) }
    ensures keeps { S.contents source.new ≡ S.contents source.old }
    ensures grows { S.faults source.old ≤ S.faults source.new }
    ensures quiet { OnOk result (S.faults source.new ≡ S.faults source.old) }
    ensures counted { IfErr result (λ f.
        LeavesCount f (S.faults source.old) (S.faults source.new)) }
{
    let count = graph.actors.as_slice().len();
    let mut all = Vec::new(alloc);
    for number in 0..count {
        let actor = number as u32;
        let rows = rows_of_actor(alloc, source, graph, actor, late)?;
        if all.push(SensorRows { actor, rows }).is_err() {
            return Err(RecordedFault::Memory);
        }
    }
    Ok(all)
}
