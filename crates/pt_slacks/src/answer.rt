//! The least slacks of a graph.

ghost use Rattle.std.specs.Prelude.{◌≡◌, ◌<◌, ◌^◌, ◌++◌, [], ℕ, IfOk, IfErr, OnOk, length, map, slice_index};
ghost use Rattle.pt_types.specs.Lawful.{IsLawful};
ghost use Rattle.pt_causality.specs.Delays.{AreLeast, least_of};
ghost use Rattle.pt_slacks.specs.Hops.{hop_at, hop_of};
ghost use Rattle.pt_slacks.specs.Listed.{AreListed, listed, with_entry};
ghost use Rattle.pt_slacks.specs.Needs.{AreNeeds, HasSlack, IsNeed};
ghost use Rattle.pt_slacks.specs.Rings.{CauseOfSlacks};
ghost use Rattle.pt_slacks.specs.Rows.{IsLeastRow, SettlesAs};

use crate::hop::{Hop, hops_of};
use crate::needs::{base, raised};
use crate::ring::ring_of;
use crate::rows::settle;
use crate::settled::RoundsOutcome;
use crate::slack::{Slack, SlackFault};
use pt_causality::Least;
use pt_types::{Graph, Kind};
use std::alloc::{AllocError, Global};

/// The least slacks with which each sender can send in time, and the slack that each actuator then needs, in the order of
/// the graph; or a ring of senders for which no slacks are enough.
///
/// The slacks in the graph are not used. A slack can be above 10^15 microseconds; then no file can state it.
///
/// A sender that a sensor of bound 10 us feeds needs slack 11 us: its events are safe from 11 us past their tags on. If a delay of
/// 5 us is between them, 6 us are enough.
pub fn slacks(alloc: Global, graph: &Graph, least: &Least) -> Result<Vec<Slack>, SlackFault>
    requires lawful { IsLawful graph.now }
    requires least { AreLeast graph.now (least_of least.now) }
    ensures slacks { IfOk result (λ v. AreListed graph.now v.items) }
    ensures ring { IfErr result (λ f. CauseOfSlacks f graph.now) }
{
    let hops = hops_of(alloc, graph)?;
    let settled = settle(alloc, graph, least, hops.as_slice())?;
    slacks_or_ring(alloc, graph, least, hops.as_slice(), settled)
}

/// The least slacks, or the ring, from what the rounds come to.
fn slacks_or_ring(
    alloc: Global,
    graph: &Graph,
    least: &Least,
    hops: &[Hop],
    settled: RoundsOutcome,
) -> Result<Vec<Slack>, SlackFault>
    requires lawful { IsLawful graph.now }
    requires least { AreLeast graph.now (least_of least.now) }
    requires hops { hops.now ≡ map (hop_of graph.now) graph.now.links }
    requires settled { SettlesAs graph.now (least_of least.now) hops.now settled }
    ensures slacks { IfOk result (λ v. AreListed graph.now v.items) }
    ensures ring { IfErr result (λ f. CauseOfSlacks f graph.now) }
{
    match settled {
        RoundsOutcome::Row(row) => {
            let slacks = least_slacks(alloc, graph, least, hops, row.as_slice())?;
            Ok(slacks)
        }
        RoundsOutcome::Rising { rows, link } => {
            let ring = ring_of(alloc, graph, least, hops, rows.as_slice(), link)?;
            Err(ring)
        }
    }
}

/// The least slacks, from those of the links' senders.
fn least_slacks(
    alloc: Global,
    graph: &Graph,
    least: &Least,
    hops: &[Hop],
    row: &[u64],
) -> Result<Vec<Slack>, AllocError>
    requires lawful { IsLawful graph.now }
    requires least { AreLeast graph.now (least_of least.now) }
    requires hops { hops.now ≡ map (hop_of graph.now) graph.now.links }
    requires row { IsLeastRow graph.now (least_of least.now) hops.now row.now }
    ensures { IfOk result (λ v. AreListed graph.now v.items) }
{
    let needs = all_needs(alloc, graph, least, hops, row)?;
    let slacks = list(alloc, graph, needs.as_slice())?;
    Ok(slacks)
}

/// The slack that each actor needs; `row` has the slacks of the links' senders.
fn all_needs(
    alloc: Global,
    graph: &Graph,
    least: &Least,
    hops: &[Hop],
    row: &[u64],
) -> Result<Vec<u64>, AllocError>
    requires lawful { IsLawful graph.now }
    requires len { length row.now ≡ length hops.now }
    requires row { (w : ℕ) → w < length hops.now → slice_index row.now w < 2 ^ 62 }
    requires cost { (w : ℕ) → w < length hops.now → (hop_at hops.now w).cost < 2 ^ 52 }
    ensures { IfOk result (λ needs. AreNeeds graph.now hops.now (least_of least.now)
        (slice_index row.now) needs.items) }
{
    let mut needs = Vec::new(alloc);
    for (number, actor) in graph.actors.as_slice().iter().enumerate() {
        needs.push(need(graph, least, hops, row, number as u32, &actor.kind))?;
    }
    Ok(needs)
}

/// The slack that an actor of this number and kind needs; 0 if it is neither a sender nor an actuator.
fn need(graph: &Graph, least: &Least, hops: &[Hop], row: &[u64], number: u32, kind: &Kind) -> u64
    requires lawful { IsLawful graph.now }
    requires len { length row.now ≡ length hops.now }
    requires row { (w : ℕ) → w < length hops.now → slice_index row.now w < 2 ^ 62 }
    requires cost { (w : ℕ) → w < length hops.now → (hop_at hops.now w).cost < 2 ^ 52 }
    ensures { HasSlack kind.now → IsNeed graph.now hops.now (least_of least.now)
        (slice_index row.now) number result }
{
    match kind {
        Kind::Send { .. } | Kind::Actuator { .. } => needed(graph, least, hops, row, number),
        _ => 0,
    }
}

/// The slack that an actor of this number needs, if it is a sender or an actuator.
fn needed(graph: &Graph, least: &Least, hops: &[Hop], row: &[u64], number: u32) -> u64
    requires lawful { IsLawful graph.now }
    requires len { length row.now ≡ length hops.now }
    requires row { (w : ℕ) → w < length hops.now → slice_index row.now w < 2 ^ 62 }
    requires cost { (w : ℕ) → w < length hops.now → (hop_at hops.now w).cost < 2 ^ 52 }
    ensures { IsNeed graph.now hops.now (least_of least.now) (slice_index row.now) number result }
{
    let start = base(graph, least, number);
    raised(hops, least, row, start, number)
}

/// The slacks of the senders and actuators.
fn list(alloc: Global, graph: &Graph, needs: &[u64]) -> Result<Vec<Slack>, AllocError>
    requires lawful { IsLawful graph.now }
    requires len { length needs.now ≡ length graph.now.actors }
    ensures { IfOk result (λ v. v.items ≡ listed graph.now (slice_index needs.now)) }
{
    let mut slacks = Vec::new(alloc);
    for (number, actor) in graph.actors.as_slice().iter().enumerate() {
        add(&mut slacks, number as u32, needs[number], &actor.kind)?;
    }
    Ok(slacks)
}

/// Adds an entry for a sender or an actuator; does nothing for other kinds.
fn add(slacks: &mut Vec<Slack>, actor: u32, slack: u64, kind: &Kind) -> Result<(), AllocError>
    ensures { OnOk result (slacks.new.items
        ≡ slacks.old.items ++ with_entry kind.now (record { actor = actor; slack = slack }) []) }
{
    match kind {
        Kind::Send { .. } | Kind::Actuator { .. } => slacks.push(Slack { actor, slack })?,
        _ => (),
    }
    Ok(())
}
