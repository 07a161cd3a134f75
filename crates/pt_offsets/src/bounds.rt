//! The bounds of sensors and receivers.

ghost use Rattle.std.specs.Prelude.{◌≡◌, ◌+◌, ◌<◌, ◌≤◌, ◌^◌, ℕ, IfOk, Some, None, length};
ghost use Rattle.pt_types.specs.Lawful.{IsLawful};
ghost use Rattle.pt_semantics.specs.Bounds.{error_of, link_bound, bound_by};
ghost use Rattle.pt_types.specs.Lookups.{slack_of};
ghost use Rattle.pt_types.specs.Lookups.{platform_of};
ghost use Rattle.pt_offsets.specs.Bounded.{AreBounds, bound_at, received};
ghost use Rattle.pt_offsets.specs.Sources.{AreSources};

use pt_types::{Actor, Graph, Kind, Link};
use std::alloc::{AllocError, Global};

/// The bound of each actor in microseconds; `None` if it is neither a sensor nor a receiver.
pub fn bounds_of(alloc: Global, graph: &Graph) -> Result<Vec<Option<u64>>, AllocError>
    requires { IsLawful graph.now }
    ensures { IfOk result (λ v. AreBounds graph.now v.items) }
{
    let mut bounds = Vec::new(alloc);
    for (number, actor) in graph.actors.as_slice().iter().enumerate() {
        bounds.push(bound(graph, number as u32, &actor.kind))?;
    }
    Ok(bounds)
}

/// The numbers of the actors that have a bound, rising.
pub fn sources_of(alloc: Global, bounds: &[Option<u64>]) -> Result<Vec<u32>, AllocError>
    requires few { length bounds.now < 2 ^ 32 }
    ensures { IfOk result (λ v. AreSources bounds.now v.items) }
{
    let mut sources = Vec::new(alloc);
    for (number, bound) in bounds.iter().enumerate() {
        if bound.is_some() {
            sources.push(number as u32)?;
        }
    }
    Ok(sources)
}

/// The bound of an actor; `None` past the last actor.
pub fn bound_at(bounds: &[Option<u64>], number: u32) -> Option<u64>
    ensures { result ≡ bound_at bounds.now number }
{
    *bounds.get(number as usize)?
}

/// The bound of an actor with this number and kind.
fn bound(graph: &Graph, number: u32, kind: &Kind) -> Option<u64>
    requires { IsLawful graph.now }
    ensures { result ≡ bound_by graph.now number kind.now }
{
    match kind {
        Kind::Sensor { bound, .. } => Some(*bound),
        Kind::Receive => received(graph, number),
        _ => None,
    }
}

/// The bound of a receiver, from its link.
fn received(graph: &Graph, number: u32) -> Option<u64>
    requires { IsLawful graph.now }
    ensures { result ≡ received graph.now number }
{
    for link in graph.links.as_slice() {
        if link.to == number {
            return Some(link_bound(graph, link));
        }
    }
    None
}

/// The slack of the sender, plus the link's delay, plus the clock error of the two platforms, in microseconds.
fn link_bound(graph: &Graph, link: &Link) -> u64
    requires { link_bound graph.now link.now < 2 ^ 64 }
    ensures { result ≡ link_bound graph.now link.now }
{
    let sender = graph.platform_of(link.from);
    let receiver = graph.platform_of(link.to);
    graph.slack_of(link.from) + link.delay + error(graph, sender, receiver)
}

/// The clock error of two platforms, in microseconds.
fn error(graph: &Graph, a: u32, b: u32) -> u64
    ensures { result ≡ error_of graph.now a b }
{
    graph.error(a, b)
}
