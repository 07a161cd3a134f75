//! The first row that breaks a stated bound.

ghost use Rattle.std.specs.Prelude.{◌≡◌, ◌<◌, ◌≤◌, ◌^◌, false, length, nat_lt, option_map, position, slice_get, slice_index, unwrap_or};
ghost use Rattle.std.specs.List.{list_any};
ghost use Rattle.pt_types.specs.declared.graph.Link.{Link};
ghost use Rattle.pt_air.specs.Bounds.{breach_of, breaks, breaks_error, is_link_of};
ghost use Rattle.pt_semantics.specs.RecordedTimes.{apart_on, error_on};

use crate::row::{AirRow, Subject};
use pt_tags::Time;
use pt_types::{Graph, Link};

/// The number, from 1, of the first row that breaks a stated bound, by the lags of all platforms.
pub fn breach_of(graph: &Graph, lags: &[u64], rows: &[AirRow]) -> Option<u32>
    requires { length rows.now < 2 ^ 32 }
    ensures { result ≡ breach_of graph.now lags.now rows.now }
{
    let index = breach_index(graph, lags, rows)?;
    Some(index as u32 + 1)
}

/// The index of that row, from 0.
fn breach_index(graph: &Graph, lags: &[u64], rows: &[AirRow]) -> Option<usize>
    ensures { result ≡ position (breaks graph.now lags.now) rows.now }
{
    rows.iter().position(|row| breaks(graph, lags, row))
}

fn breaks(graph: &Graph, lags: &[u64], row: &AirRow) -> bool
    ensures { result ≡ breaks graph.now lags.now row.now }
{
    match row.subject {
        Subject::Platform(platform) => lag_breaks(graph, lags, platform),
        Subject::Link(link) => transit_breaks(graph, link, row.time),
    }
}

/// Whether a link of the platform joins clocks that are too far apart.
fn lag_breaks(graph: &Graph, lags: &[u64], platform: usize) -> bool
    ensures { result ≡ list_any (breaks_error graph.now lags.now platform) graph.now.links }
{
    let links = graph.links.as_slice();
    links
        .iter()
        .any(|link| breaks_error(graph, lags, platform, link))
}

fn breaks_error(graph: &Graph, lags: &[u64], platform: usize, link: &Link) -> bool
    ensures { result ≡ breaks_error graph.now lags.now platform link.now }
{
    has_end(graph, platform, link) && error_on(graph, link) < apart_on(graph, lags, link)
}

fn has_end(graph: &Graph, platform: usize, link: &Link) -> bool
    ensures { result ≡ is_link_of graph.now platform link.now }
{
    graph.platform_of(link.from) as usize == platform
        || graph.platform_of(link.to) as usize == platform
}

fn error_on(graph: &Graph, link: &Link) -> u64
    ensures { result ≡ error_on graph.now link.now }
{
    graph.error(graph.platform_of(link.from), graph.platform_of(link.to))
}

/// How far apart the clocks of a link's two platforms are.
fn apart_on(graph: &Graph, lags: &[u64], link: &Link) -> u64
    ensures { result ≡ apart_on graph.now lags.now link.now }
{
    let sender = lag_at(lags, graph.platform_of(link.from));
    let receiver = lag_at(lags, graph.platform_of(link.to));
    sender.abs_diff(receiver)
}

fn lag_at(lags: &[u64], platform: u32) -> u64
    ensures { result ≡ slice_index lags.now platform }
{
    lags.get(platform as usize).copied().unwrap_or(0)
}

/// Whether a message took longer than the delay of its link.
fn transit_breaks(graph: &Graph, link: usize, time: Time) -> bool
    ensures { result ≡ unwrap_or (option_map (λ (l : Link). nat_lt l.delay time)
        (slice_get graph.now.links link)) false }
{
    match graph.links.as_slice().get(link) {
        Some(link) => link.delay < time,
        None => false,
    }
}
