//! Links, with what each adds to the slack of its sender.

ghost use Rattle.std.specs.Prelude.{◌≡◌, ◌+◌, ◌<◌, ◌≤◌, ◌^◌, ℕ, IfOk, length, map};
ghost use Rattle.pt_types.specs.Lawful.{IsLawful};
ghost use Rattle.pt_types.specs.Lookups.{platform_of};
ghost use Rattle.pt_semantics.specs.Bounds.{error_of};
ghost use Rattle.pt_slacks.specs.Hops.{cost_of, hop_of};

use pt_types::{Graph, Link};
use std::alloc::{AllocError, Global};

/// A link, with what the slack of its sender is raised by on the way to the receiver.
#[derive(Clone, Copy, Debug, PartialEq, Eq)]
pub struct Hop {
    /// The number of the sender in the graph.
    pub from: u32,
    /// The number of the receiver in the graph.
    pub to: u32,
    /// The delay, the clock error of the two platforms and one microsecond.
    pub cost: u64,
}

/// The hops of a graph, in the order of its links.
pub fn hops_of(alloc: Global, graph: &Graph) -> Result<Vec<Hop>, AllocError>
    requires lawful { IsLawful graph.now }
    ensures { IfOk result (λ hops. hops.items ≡ map (hop_of graph.now) graph.now.links) }
{
    let mut hops = Vec::new(alloc);
    for link in graph.links.as_slice() {
        hops.push(hop_of(graph, link))?;
    }
    Ok(hops)
}

/// The hop of a link.
fn hop_of(graph: &Graph, link: &Link) -> Hop
    requires small { cost_of graph.now link.now < 2 ^ 64 }
    ensures { result ≡ hop_of graph.now link.now }
{
    Hop {
        from: link.from,
        to: link.to,
        cost: link.delay + error(graph, link) + 1,
    }
}

/// The clock error of a link's two platforms, in microseconds.
fn error(graph: &Graph, link: &Link) -> u64
    ensures { result ≡ error_of graph.now (platform_of graph.now link.now.from)
        (platform_of graph.now link.now.to) }
{
    let sender = graph.platform_of(link.from);
    let receiver = graph.platform_of(link.to);
    graph.error(sender, receiver)
}
