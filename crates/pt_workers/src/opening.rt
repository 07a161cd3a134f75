//! New links for all links of a plan.

ghost use Rattle.std.specs.Prelude.{◌≡◌, IfOk, length};
ghost use Rattle.pt_pool.specs.Ends.{leaves, limits_of, receiving_platform};
ghost use Rattle.pt_workers.specs.Opened.{AreOpenEnds, AreOwners};

use pt_links::{Bounds, Inlet, Outlet, link};
use pt_offsets::Plan;
use pt_tags::Memory;
use pt_types::{Graph, Link};
use std::alloc::Global;

/// The ends of all links, each in the place of its link's number.
#[derive(Drop)]
pub(crate) struct Ends {
    pub(crate) outlets: Vec<Option<Outlet>>,
    pub(crate) inlets: Vec<Option<Inlet>>,
}

/// For each link the number of the platform that it leaves, and of the one that it reaches.
#[derive(Drop)]
pub(crate) struct Owners {
    pub(crate) senders: Vec<u32>,
    pub(crate) receivers: Vec<u32>,
}

/// What bounds the messages of a link.
fn bounds(plan: &Plan, link: &Link) -> Bounds
    ensures { result ≡ limits_of plan.now link.now }
{
    let graph = plan.graph();
    Bounds {
        until: graph.until,
        actors: graph.actors.as_slice().len() as u64,
        level: plan.ranks().level(link.to) as u64,
    }
}

/// Opens a new link for each link of a plan's graph.
pub(crate) fn open_links(alloc: Global, plan: &Plan) -> Result<Ends, Memory>
    ensures { IfOk result (λ e. AreOpenEnds plan.now
        (length plan.now.graph.links) e.outlets.items e.inlets.items) }
{
    let links = plan.graph().links.as_slice();
    let mut outlets = Vec::with_capacity(alloc, links.len())?;
    let mut inlets = Vec::with_capacity(alloc, links.len())?;
    for l in 0..links.len() {
        let bounds = bounds(plan, &links[l]);
        let (outlet, inlet) = link(alloc, bounds)?;
        outlets.push_reserved(Some(outlet));
        inlets.push_reserved(Some(inlet));
    }
    Ok(Ends { outlets, inlets })
}

/// The platforms at the two ends of each link of a graph.
pub(crate) fn owners_of(alloc: Global, graph: &Graph) -> Result<Owners, Memory>
    ensures senders { IfOk result (λ o.
        AreOwners graph.now leaves (length graph.now.links) o.senders.items) }
    ensures receivers { IfOk result (λ o.
        AreOwners graph.now receiving_platform (length graph.now.links) o.receivers.items) }
{
    let links = graph.links.as_slice();
    let mut senders = Vec::with_capacity(alloc, links.len())?;
    let mut receivers = Vec::with_capacity(alloc, links.len())?;
    for l in 0..links.len() {
        senders.push_reserved(graph.platform_of(links[l].from));
        receivers.push_reserved(graph.platform_of(links[l].to));
    }
    Ok(Owners { senders, receivers })
}
