//! The row of a record.

ghost use Rattle.std.specs.Prelude.{◌≡◌, is_some, option_and_then, option_map};
ghost use Rattle.std.specs.List.{list_any};
ghost use Rattle.csv.specs.Records.{fields_of};
ghost use Rattle.pt_types.specs.Lawful.{IsLawful};
ghost use Rattle.pt_sensors.specs.Rows.{cells};
ghost use Rattle.pt_air.specs.Rows.{are_air_titles, formed, is_air_header, is_lag, is_lag_of, is_repeated, is_sender_named, is_transit, link_named, platform_named, air_row_of, subject_of};

use crate::fault::AirFault;
use crate::row::{AirRow, Subject};
use csv::ByteRecord;
use pt_sensors::{cells, limited};
use pt_types::{Graph, MOST_TIME};

/// The three fields of a record.
type Cells<'a> = (&'a [u8], &'a [u8], &'a [u8]);

/// Whether a record is the header.
pub fn is_header(line: &ByteRecord) -> bool
    ensures { result ≡ is_air_header (fields_of line.now) }
{
    match cells(line) {
        Some(cells) => are_titles(cells),
        None => false,
    }
}

fn are_titles(cells: Cells) -> bool
    ensures { result ≡ are_air_titles (cells.entry.0.now, cells.entry.1.now, cells.entry.2.now) }
{
    cells.0 == b"what".as_slice() && cells.1 == b"name".as_slice() && cells.2 == b"value".as_slice()
}

/// The row of a record, or its first fault.
#[tactic(auto, unfolding(crate::specs::Rows::air_row_of))]
pub fn row(
    graph: &Graph,
    number: u32,
    before: &[AirRow],
    line: &ByteRecord,
) -> Result<AirRow, AirFault>
    ensures { result ≡ air_row_of graph.now number before.now (fields_of line.now) }
{
    let Some(three) = three(line) else {
        return Err(AirFault::Form(number));
    };
    let Some(subject) = subject_of(graph, three) else {
        return Err(AirFault::Unknown(number));
    };
    let Some(time) = limited(MOST_TIME, three.2) else {
        return Err(AirFault::Number(number));
    };
    if is_repeated(before, subject) {
        Err(AirFault::Repeated(number))
    } else {
        Ok(AirRow { subject, time })
    }
}

/// The three fields of a record, if it has three and is a lag or a transit.
fn three(line: &ByteRecord) -> Option<Cells<'_>>
    ensures { option_map (λ c. (c.0.now, c.1.now, c.2.now)) result
        ≡ option_and_then formed (cells (fields_of line.now)) }
{
    match cells(line) {
        Some(cells) if is_lag(cells) || is_transit(cells) => Some(cells),
        _ => None,
    }
}

fn is_lag(cells: Cells) -> bool
    ensures { result ≡ is_lag (cells.entry.0.now, cells.entry.1.now, cells.entry.2.now) }
{
    cells.0 == b"lag".as_slice()
}

fn is_transit(cells: Cells) -> bool
    ensures { result ≡ is_transit (cells.entry.0.now, cells.entry.1.now, cells.entry.2.now) }
{
    cells.0 == b"transit".as_slice()
}

/// The platform or the link that a record names.
fn subject_of(graph: &Graph, cells: Cells) -> Option<Subject>
    ensures { result ≡ subject_of graph.now
        (cells.entry.0.now, cells.entry.1.now, cells.entry.2.now) }
{
    if is_lag(cells) {
        Some(Subject::Platform(platform_named(graph, cells.1)?))
    } else {
        Some(Subject::Link(link_named(graph, cells.1)?))
    }
}

/// The number of the platform with this name.
fn platform_named(graph: &Graph, name: &[u8]) -> Option<usize>
    ensures { result ≡ platform_named graph.now name.now }
{
    let platforms = graph.platforms.as_slice();
    platforms
        .iter()
        .position(|platform| platform.as_str().as_bytes() == name)
}

/// The number of the link whose sender has this name.
fn link_named(graph: &Graph, name: &[u8]) -> Option<usize>
    ensures link { result ≡ link_named graph.now name.now }
    ensures sender { IsLawful graph.now →
        is_some result ≡ list_any (is_sender_named name.now) graph.now.actors }
{
    link_index(graph, name)
}

/// The number of the first link whose sender has this name.
fn link_index(graph: &Graph, name: &[u8]) -> Option<usize>
    ensures { result ≡ link_named graph.now name.now }
{
    let links = graph.links.as_slice();
    links
        .iter()
        .position(|link| graph.actor_name(link.from).as_bytes() == name)
}

/// Whether an earlier row is a lag of the same platform.
fn is_repeated(before: &[AirRow], subject: Subject) -> bool
    ensures { result ≡ is_repeated before.now subject }
{
    match subject {
        Subject::Platform(platform) => has_lag_of(before, platform),
        Subject::Link(_) => false,
    }
}

/// Whether a row is a lag of this platform.
///
/// At most 17 rows of a file ask this, since there are at most 16 platforms.
fn has_lag_of(rows: &[AirRow], platform: usize) -> bool
    ensures { result ≡ list_any (is_lag_of platform) rows.now }
{
    rows.iter().any(|row| row.is_lag_of(platform))
}
