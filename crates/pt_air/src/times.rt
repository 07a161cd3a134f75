//! The lags of platforms and the transits of links, from the rows of a file.

ghost use Rattle.std.specs.Prelude.{◌≡◌, IfOk, length, map};
ghost use Rattle.std.specs.List.{range_with_len};
ghost use Rattle.pt_air.specs.AirOf.{lag_in, lags_of, row_transits};

use crate::row::AirRow;
use pt_tags::List;
use pt_types::Graph;
use std::alloc::{AllocError, Global};

/// The lags of all platforms, by the number of the platform.
pub fn lags_of(alloc: Global, graph: &Graph, rows: &[AirRow]) -> Result<Vec<u64>, AllocError>
    ensures { IfOk result (λ lags. lags.items ≡ lags_of graph.now rows.now) }
{
    let platforms = graph.platforms.as_slice().len();
    (0..platforms)
        .map(|platform| lag_in(rows, platform))
        .collect(alloc)
}

/// The lag of a platform; 0 if no row states it.
fn lag_in(rows: &[AirRow], platform: usize) -> u64
    ensures { result ≡ lag_in rows.now platform }
{
    rows.iter()
        .find(|row| row.is_lag_of(platform))
        .map(|row| row.time)
        .unwrap_or(0)
}

/// The transits of all links, by the number of the link.
pub fn transits_of(
    alloc: Global,
    graph: &Graph,
    rows: &[AirRow],
) -> Result<Vec<List<u64>>, AllocError>
    ensures { IfOk result (λ all. all.items
        ≡ map (row_transits rows.now) (range_with_len 0 (length graph.now.links))) }
{
    let mut all = Vec::new(alloc);
    for link in 0..graph.links.as_slice().len() {
        let transits = transits_on(alloc, rows, link)?;
        all.push(List::new(transits))?;
    }
    Ok(all)
}

/// The transits on a link, in file order.
fn transits_on(alloc: Global, rows: &[AirRow], link: usize) -> Result<Vec<u64>, AllocError>
    ensures { IfOk result (λ transits. transits.items ≡ row_transits rows.now link) }
{
    rows.iter()
        .filter(|row| row.is_transit_on(link))
        .map(|row| row.time)
        .collect(alloc)
}
