//! Rounds in which the slacks of senders are raised until they are enough.

ghost use Rattle.std.specs.Prelude.{◌≡◌, ◌<◌, ◌≤◌, ◌^◌, ◌+◌, ℕ, IfOk, MatchOption, length, map, slice_index};
ghost use Rattle.pt_types.specs.Lawful.{IsLawful};
ghost use Rattle.pt_causality.specs.Delays.{least_of};
ghost use Rattle.pt_slacks.specs.Hops.{hop_at, hop_of};
ghost use Rattle.pt_slacks.specs.Rows.{AreBases, HasRisen, IsNextRow, SettlesAs};

use crate::hop::Hop;
use crate::needs::{base, raised};
use crate::settled::RoundsOutcome;
use pt_causality::Least;
use pt_tags::List;
use pt_types::Graph;
use std::alloc::{AllocError, Global};

/// Raises the slacks of the links' senders until they are enough, or for one round more than there are links.
pub fn settle(
    alloc: Global,
    graph: &Graph,
    least: &Least,
    hops: &[Hop],
) -> Result<RoundsOutcome, AllocError>
    requires lawful { IsLawful graph.now }
    requires hops { hops.now ≡ map (hop_of graph.now) graph.now.links }
    ensures { IfOk result (SettlesAs graph.now (least_of least.now) hops.now) }
{
    let mut rows = Vec::new(alloc);
    rows.push(first_row(alloc, graph, least, hops)?)?;
    let mut link = 0;
    for round in 0..hops.len() + 1 {
        let row = rows[round].as_slice();
        let next = next_row(alloc, hops, least, row)?;
        let Some(risen) = first_risen(row, next.as_slice()) else {
            return Ok(RoundsOutcome::Row(next));
        };
        link = risen;
        rows.push(next)?;
    }
    Ok(RoundsOutcome::Rising { rows, link })
}

/// For each link, the slack that its sender needs by the sensors alone.
fn first_row(
    alloc: Global,
    graph: &Graph,
    least: &Least,
    hops: &[Hop],
) -> Result<List<u64>, AllocError>
    requires { IsLawful graph.now }
    ensures { IfOk result (λ row. AreBases graph.now (least_of least.now) hops.now row) }
{
    let mut row = Vec::new(alloc);
    for hop in hops {
        row.push(base(graph, least, hop.from))?;
    }
    Ok(List::new(row))
}

/// For each link, the slack that its sender needs by these slacks, or the one that it has if that is enough.
fn next_row(
    alloc: Global,
    hops: &[Hop],
    least: &Least,
    row: &[u64],
) -> Result<List<u64>, AllocError>
    requires len { length row.now ≡ length hops.now }
    requires row { (w : ℕ) → w < length hops.now → slice_index row.now w < 2 ^ 62 }
    requires cost { (w : ℕ) → w < length hops.now → (hop_at hops.now w).cost < 2 ^ 52 }
    ensures { IfOk result (λ next. IsNextRow hops.now (least_of least.now) row.now next) }
{
    let mut next = Vec::new(alloc);
    for (number, hop) in hops.iter().enumerate() {
        next.push(raised(hops, least, row, row[number], hop.from))?;
    }
    Ok(List::new(next))
}

/// The first link whose sender has a greater slack in the second row.
fn first_risen(row: &[u64], next: &[u64]) -> Option<u32>
    requires len { length row.now ≡ length next.now }
    requires few { length row.now < 2 ^ 32 }
    ensures { MatchOption result ((v : ℕ) → v < length row.now →
        slice_index next.now v ≤ slice_index row.now v)
        (HasRisen (length row.now) row.now next.now) }
{
    for number in 0..row.len() {
        if row[number] < next[number] {
            return Some(number as u32);
        }
    }
    None
}
