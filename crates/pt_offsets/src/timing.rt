//! The bounds, offsets and margins of each actor.

ghost use Rattle.std.specs.Prelude.{◌≡◌, ◌<◌, ◌^◌, ◌≤ℤ◌, ℕ, ℤ, IfOk, length, pos, neg_ℤ, true, ◌-ℤ◌, ◌+ℤ◌};
ghost use Rattle.std.specs.Option.{ForSome};
ghost use Rattle.pt_types.specs.Kinds.{kind_is_lawful};
ghost use Rattle.pt_types.specs.Lawful.{IsLawful};
ghost use Rattle.pt_causality.specs.Delays.{AreLeast, AreSmall, least_of};
ghost use Rattle.pt_types.specs.Lookups.{kind_of};
ghost use Rattle.pt_offsets.specs.Bounded.{AreBounds};
ghost use Rattle.pt_offsets.specs.Margins.{margin_of};
ghost use Rattle.pt_offsets.specs.Sources.{AreSources};
ghost use Rattle.pt_offsets.specs.Timings.{AreTimings, IsTiming};

use crate::bounds::{bound_at, bounds_of, sources_of};
use crate::greatest::greatest;
use crate::table::Timing;
use crate::unit_offsets::unit_offsets;
use pt_causality::Least;
use pt_tags::List;
use pt_types::{Graph, Kind};
use std::alloc::{AllocError, Global};

/// The bounds, offsets and margins of all actors of a graph, from its least delays.
pub fn timings(alloc: Global, graph: &Graph, least: &Least) -> Result<Vec<Timing>, AllocError>
    requires lawful { IsLawful graph.now }
    requires least { AreLeast graph.now (least_of least.now) }
    requires small { AreSmall (least_of least.now) }
    ensures { IfOk result (λ v. AreTimings graph.now v.items) }
{
    let bounds = bounds_of(alloc, graph)?;
    let sources = sources_of(alloc, bounds.as_slice())?;
    let mut timings = Vec::new(alloc);
    for (number, actor) in graph.actors.as_slice().iter().enumerate() {
        let timing = timing(
            alloc,
            graph,
            bounds.as_slice(),
            sources.as_slice(),
            least,
            number as u32,
            &actor.kind,
        )?;
        timings.push(timing)?;
    }
    Ok(timings)
}

/// The bound, offsets and margin of one actor.
fn timing(
    alloc: Global,
    graph: &Graph,
    bounds: &[Option<u64>],
    sources: &[u32],
    least: &Least,
    number: u32,
    kind: &Kind,
) -> Result<Timing, AllocError>
    requires lawful { IsLawful graph.now }
    requires bounds { AreBounds graph.now bounds.now }
    requires sources { AreSources bounds.now sources.now }
    requires least { AreLeast graph.now (least_of least.now) }
    requires small { AreSmall (least_of least.now) }
    requires there { number < length graph.now.actors }
    requires kind { kind.now ≡ kind_of graph.now number }
    ensures { IfOk result (IsTiming graph.now number) }
{
    let groups = graph.groups(number);
    let offsets = unit_offsets(alloc, bounds, sources, least, number, groups)?;
    let offset = greatest(offsets.as_slice());
    Ok(Timing {
        bound: bound_at(bounds, number),
        offsets: List::new(offsets),
        offset,
        margin: margin(kind, offset),
    })
}

/// The margin of a sender or an actuator; `None` for other kinds.
fn margin(kind: &Kind, offset: Option<i64>) -> Option<i64>
    requires kind { kind_is_lawful kind.now ≡ true }
    requires offset { ForSome offset (λ o. (neg_ℤ (pos (2 ^ 62)) ≤ℤ o) × (o ≤ℤ pos (2 ^ 62))) }
    ensures { result ≡ margin_of kind.now offset }
{
    match kind {
        Kind::Send { slack } | Kind::Actuator { slack } => Some(left(*slack, offset?)),
        _ => None,
    }
}

/// The part of a slack that is left after an offset and one microsecond.
fn left(slack: u64, offset: i64) -> i64
    requires slack { slack < 2 ^ 62 }
    requires offset { (neg_ℤ (pos (2 ^ 62)) ≤ℤ offset) × (offset ≤ℤ pos (2 ^ 62)) }
    ensures { result ≡ pos slack -ℤ (offset +ℤ pos 1) }
{
    slack as i64 - (offset + 1)
}
