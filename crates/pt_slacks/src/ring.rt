//! The ring of senders that raises itself.

ghost use Rattle.std.specs.Prelude.{◌≡◌, ◌≢◌, ◌<◌, ◌≤◌, ◌^◌, ◌+◌, ◌++◌, ◌∷◌, ◌==◌, [], ℕ, IfOk, MatchOption, length, map, nat_lt, not, reverse, slice_index};
ghost use Rattle.std.specs.List.{IsFirstBest, list_any, take_while};
ghost use Rattle.pt_types.specs.Lawful.{IsLawful};
ghost use Rattle.pt_causality.specs.Delays.{AreLeast, least_of};
ghost use Rattle.pt_causality.specs.Rings.{IsRotated};
ghost use Rattle.pt_slacks.specs.Hops.{hop_at, hop_of};
ghost use Rattle.pt_slacks.specs.Needs.{by_hop};
ghost use Rattle.pt_slacks.specs.Rings.{CauseOfSlacks};
ghost use Rattle.pt_slacks.specs.Rows.{AreRising, AreSlackRows, slack_row_at};
ghost use Rattle.pt_slacks.specs.Trails.{IsRaisedByTrail};

use crate::hop::Hop;
use crate::needs::by_source;
use crate::slack::SlackFault;
use pt_causality::{Least, rotate_to_least};
use pt_tags::List;
use pt_types::Graph;
use std::alloc::{AllocError, Global};

/// The ring among the senders that raised one another, found by a walk back from a link whose sender rose in the last
/// round.
///
/// `rows` has the slacks of the links' senders by round. The walk meets a link again before it comes to the first round,
/// since there are more rounds than links.
pub fn ring_of(
    alloc: Global,
    graph: &Graph,
    least: &Least,
    hops: &[Hop],
    rows: &[List<u64>],
    link: u32,
) -> Result<SlackFault, AllocError>
    requires lawful { IsLawful graph.now }
    requires least { AreLeast graph.now (least_of least.now) }
    requires hops { hops.now ≡ map (hop_of graph.now) graph.now.links }
    requires rising { AreRising graph.now (least_of least.now) hops.now rows.now link }
    ensures { IfOk result (λ f. CauseOfSlacks f graph.now) }
{
    let mut trail = Vec::new(alloc);
    trail.push(link)?;
    let mut at = link;
    for step in 0..hops.len() {
        let round = hops.len() - step;
        let slack = slack_at(rows, round + 1, at);
        let Some(from) = raiser(hops, least, rows[round].as_slice(), at, slack) else {
            return Ok(no_ring(alloc));
        };
        if is_on(trail.as_slice(), from) {
            return closed(
                alloc,
                graph,
                least,
                hops,
                rows,
                trail.as_slice(),
                round,
                from,
            );
        }
        trail.push(from)?;
        at = from;
    }
    Ok(no_ring(alloc))
}

/// What no walk comes to.
fn no_ring(alloc: Global) -> SlackFault {
    SlackFault::Ring {
        sends: List::new(Vec::new(alloc)),
        gain: 0,
    }
}

/// The first link that asks the sender of another link for this slack.
fn raiser(hops: &[Hop], least: &Least, row: &[u64], at: u32, slack: u64) -> Option<u32>
    requires at { at < length hops.now }
    requires few { length hops.now < 2 ^ 32 }
    requires len { length row.now ≡ length hops.now }
    requires row { (w : ℕ) → w < length hops.now → slice_index row.now w < 2 ^ 62 }
    requires cost { (w : ℕ) → w < length hops.now → (hop_at hops.now w).cost < 2 ^ 52 }
    ensures { MatchOption result ((w : ℕ) → w < length hops.now →
        by_hop hops.now (least_of least.now) (slice_index row.now) (hop_at hops.now at).from w
        ≢ slack) (λ w. (w < length hops.now)
        × (by_hop hops.now (least_of least.now) (slice_index row.now) (hop_at hops.now at).from w
        ≡ slack)) }
{
    let actor = hops[at as usize].from;
    for (number, hop) in hops.iter().enumerate() {
        if by_source(least, row[number] + hop.cost, hop.to, actor) == slack {
            return Some(number as u32);
        }
    }
    None
}

/// The slack of a link's sender in a round; 0 if there is none.
fn slack_at(rows: &[List<u64>], round: usize, link: u32) -> u64
    ensures { result ≡ slice_index (slack_row_at rows.now round) link }
{
    match rows.get(round) {
        Some(row) => number_at(row.as_slice(), link),
        None => 0,
    }
}

/// A number of a list; 0 past its end.
fn number_at(numbers: &[u64], place: u32) -> u64
    ensures { result ≡ slice_index numbers.now place }
{
    match numbers.get(place as usize) {
        Some(number) => *number,
        None => 0,
    }
}

/// Whether a link is on the trail.
fn is_on(trail: &[u32], link: u32) -> bool
    ensures { result ≡ list_any (λ x. x == link) (reverse trail.now) }
{
    trail.iter().rev().any(|x| *x == link)
}

/// The ring from this link along the trail back to it.
fn closed(
    alloc: Global,
    graph: &Graph,
    least: &Least,
    hops: &[Hop],
    rows: &[List<u64>],
    trail: &[u32],
    round: usize,
    from: u32,
) -> Result<SlackFault, AllocError>
    requires lawful { IsLawful graph.now }
    requires least { AreLeast graph.now (least_of least.now) }
    requires hops { hops.now ≡ map (hop_of graph.now) graph.now.links }
    requires rows { AreSlackRows graph.now (least_of least.now) hops.now rows.now
        (length hops.now + 1) }
    requires closing { IsRaisedByTrail hops.now (least_of least.now) rows.now trail.now round from }
    ensures { IfOk result (λ f. CauseOfSlacks f graph.now) }
{
    let mut sends = senders(alloc, hops, trail, from)?;
    let before = slack_at(rows, round, from);
    let after = slack_at(rows, round + sends.len(), from);
    rotate_to_least(&mut sends);
    Ok(SlackFault::Ring {
        sends: List::new(sends),
        gain: after - before,
    })
}

/// The senders of the links along the trail from its end back to this link.
fn senders(alloc: Global, hops: &[Hop], trail: &[u32], from: u32) -> Result<Vec<u32>, AllocError>
    ensures { IfOk result (λ v. v.items
        ≡ map (λ l. (hop_at hops.now l).from)
        (take_while (λ l. not (l == from)) (reverse trail.now))
        ++ (hop_at hops.now from).from ∷ []) }
{
    let mut sends = front(alloc, hops, trail, from)?;
    sends.push(sender(hops, from))?;
    Ok(sends)
}

/// The senders of the links along the trail from its end, up to this link.
fn front(alloc: Global, hops: &[Hop], trail: &[u32], from: u32) -> Result<Vec<u32>, AllocError>
    ensures { IfOk result (λ v. v.items
        ≡ map (λ l. (hop_at hops.now l).from)
        (take_while (λ l. not (l == from)) (reverse trail.now))) }
{
    trail
        .iter()
        .rev()
        .take_while(|link| **link != from)
        .map(|link| sender(hops, *link))
        .collect(alloc)
}

/// The sender of a link; 0 if there is no such link.
fn sender(hops: &[Hop], link: u32) -> u32
    ensures { result ≡ (hop_at hops.now link).from }
{
    match hops.get(link as usize) {
        Some(hop) => hop.from,
        None => 0,
    }
}
