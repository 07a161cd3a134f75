//! Reads an air file.

ghost use Rattle.std.specs.Prelude.{◌≡◌, ◌<◌, ◌≤◌, ◌^◌, ◌↔◌, [], None, Some, IfOk, length};
ghost use Rattle.std.specs.List.{All};
ghost use Rattle.csv.specs.Reading.{reader_state};
ghost use Rattle.csv.specs.Records.{fields_of};
ghost use Rattle.pt_types.specs.Limits.{greatest_claims};
ghost use Rattle.pt_sensors.specs.Limits.{file_limits};
ghost use Rattle.pt_sensors.specs.Rows.{IsPlain, bytes_left};
ghost use Rattle.pt_air.specs.AirOf.{GivesAir, air_of, air_with, air_rows_from, air_rows_of};
ghost use Rattle.pt_semantics.specs.RecordedTimes.{KeepsBounds};

use crate::breach::breach_of;
use crate::fault::AirFault;
use crate::record::{is_header, row};
use crate::row::AirRow;
use crate::times::{lags_of, transits_of};
use csv::{ByteRecord, Reader};
use pt_sensors::{advance, file_limits, reader_of};
use pt_tags::{List, Memory};
use pt_types::{Air, Graph};
use std::alloc::Global;

/// What an air file says of a graph, or the file's first fault. The limits of the file are those of a sensor's file.
///
/// Faults are looked for in the order in which `AirFault` lists them: first those of the file and its header,
/// then row by row. (The format is this project's own choice.)
///
/// After the header `what,name,value` the rows `lag,q,35`, `transit,w,312` and `transit,w,298` say that the clock of platform q is
/// 35 us behind, and that the first two messages of sender w take 312 us and 298 us. A row `transit,q,5` is `Unknown`: q is no
/// sender.
pub fn read_air(alloc: Global, bytes: &[u8], graph: &Graph) -> Result<Air, AirFault>
    requires { graph.now.claims ≤ greatest_claims }
    ensures air { GivesAir (air_of graph.now bytes.now) result }
    ensures lengths { IfOk result (λ air. (length air.lags ≡ length graph.now.platforms)
        × (length air.transits ≡ length graph.now.links)) }
    ensures numbers { IfOk result (λ air. All (λ n. n ≤ 1000000000000000) air.lags
        × All (All (λ n. n ≤ 1000000000000000)) air.transits) }
    ensures bounds { IfOk result (λ air. (air.breach ≡ None) ↔ KeepsBounds graph.now air) }
{
    let rows = rows_of(alloc, bytes, graph)?;
    let air = air_with(alloc, graph, rows.as_slice())?;
    Ok(air)
}

/// What the rows of a file say.
fn air_with(alloc: Global, graph: &Graph, rows: &[AirRow]) -> Result<Air, Memory>
    requires { length rows.now < 2 ^ 32 }
    ensures { IfOk result (λ air. air ≡ air_with graph.now rows.now) }
{
    let lags = lags_of(alloc, graph, rows)?;
    let transits = transits_of(alloc, graph, rows)?;
    let breach = breach_of(graph, lags.as_slice(), rows);
    Ok(Air {
        lags: List::new(lags),
        transits: List::new(transits),
        breach,
    })
}

/// The rows of an air file, or its first fault, from the records that csv reads.
#[tactic(auto, unfolding(crate::specs::AirOf::air_rows_of))]
fn rows_of(alloc: Global, bytes: &[u8], graph: &Graph) -> Result<List<AirRow>, AirFault>
    requires { graph.now.claims ≤ greatest_claims }
    ensures { GivesAir (air_rows_of graph.now bytes.now) result }
{
    let limits = file_limits(graph.claims);
    if bytes.len() > limits.bytes {
        return Err(AirFault::TooLong);
    }
    let mut reader = reader_of(alloc, bytes);
    let mut line = ByteRecord::new(alloc);
    let found = advance(&mut reader, &mut line)?;
    if found && is_header(&line) {
        rows(alloc, graph, limits.rows, &mut reader, &mut line)
    } else {
        Err(AirFault::Header)
    }
}

/// The rows that follow, at most `most`; the header was read.
fn rows(
    alloc: Global,
    graph: &Graph,
    most: u32,
    reader: &mut Reader<&[u8]>,
    line: &mut ByteRecord,
) -> Result<List<AirRow>, AirFault>
    requires { IsPlain (λ r. Some r.now) reader.old }
    ensures { GivesAir (air_rows_from graph.now most [] (reader_state reader.old)
        (bytes_left (λ r. Some r.now) reader.old)) result }
{
    let mut rows = Vec::new(alloc);
    for index in 0..most {
        let found = advance(reader, line)?;
        if !found {
            return Ok(List::new(rows));
        }
        let row = row(graph, index + 1, rows.as_slice(), line)?;
        if rows.push(row).is_err() {
            return Err(AirFault::Memory);
        }
    }
    let found = advance(reader, line)?;
    if found {
        Err(AirFault::TooManyRows)
    } else {
        Ok(List::new(rows))
    }
}
