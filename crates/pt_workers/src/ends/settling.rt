//! Takes the linked platforms of a run apart, and settles their links.

ghost use Rattle.std.specs.Prelude.{◌≡◌, ◌≤◌, IfOk, IfSome, Some, length, map, vec_len};
ghost use Rattle.pt_pool.specs.LinkedPlatform.{plan_graph};
ghost use Rattle.pt_semantics.specs.Linked.{AreMatched};
ghost use Rattle.pt_turn.specs.All.{histories_of};
ghost use Rattle.pt_pool.specs.Ends.{leaves, receiving_platform};
ghost use Rattle.pt_workers.specs.LinkEnds.Settled.{AreByNumber, AreOfOneLink, AreReturned, AreSettled, AreLinkedPlatforms, IsSentBy, LinkIsSettled, IsTakenBy, platform_in, readings_in};

use crate::ends::places::lay;
use crate::work::empty_places;
use pt_io::Clock;
use pt_links::{Inlet, Outlet, settle};
use pt_offsets::Plan;
use pt_pool::{LinkedPlatform, Parts, Run};
use pt_tags::Memory;
use pt_turn::Platform;
use std::alloc::Global;
use std::sync::Wait;

/// Platforms and clocks in the order of their linked platforms, and the ends of each link in the place of its number.
#[derive(Drop)]
struct Pieces<C: Clock> {
    platforms: Vec<Platform>,
    clocks: Vec<C>,
    outlets: Vec<Option<Outlet>>,
    inlets: Vec<Option<Inlet>>,
}

/// The platforms of a run and their clocks, in the order of their linked platforms.
#[derive(Drop)]
pub struct Settled<C: Clock> {
    pub platforms: Vec<Platform>,
    pub clocks: Vec<C>,
}

/// Takes the linked platforms of a run apart and settles their links. On each link the receiver's turns took the first of the messages
/// that the sender's turns sent, perhaps all.
pub fn settle_run<J: Run, C: Clock, R: Wait>(
    rt: &R,
    alloc: Global,
    linked_platforms: Vec<LinkedPlatform<J, C>>,
    plan: &Plan,
) -> Result<Settled<C>, Memory>
    requires plan { J.plan ≡ Some plan.now }
    requires order { AreByNumber linked_platforms.items }
    requires count { length linked_platforms.items ≡ length plan.now.graph.platforms }
    ensures platforms { IfOk result (λ r.
        r.platforms.items ≡ map platform_in linked_platforms.items) }
    ensures clocks { IfOk result (λ r.
        map C.readings r.clocks.items ≡ map readings_in linked_platforms.items) }
    ensures of_run { IfOk result (λ r.
        AreLinkedPlatforms J.plan J.rows J.link J.began J.fixed 0 linked_platforms.items) }
    ensures matched { IfOk result (λ r.
        AreMatched plan.now.graph (histories_of r.platforms.items)) }
{
    let links = plan.graph().links.as_slice().len();
    let Pieces {
        platforms,
        clocks,
        outlets,
        inlets,
    } = take_apart(alloc, linked_platforms, links)?;
    settle_all(rt, outlets, inlets);
    Ok(Settled { platforms, clocks })
}

/// Takes all linked platforms apart.
fn take_apart<J: Run, C: Clock>(
    alloc: Global,
    mut linked_platforms: Vec<LinkedPlatform<J, C>>,
    links: usize,
) -> Result<Pieces<C>, Memory>
    requires order { AreByNumber linked_platforms.items }
    requires links { length (plan_graph J.plan).links ≤ links }
    ensures platforms { IfOk result (λ p.
        p.platforms.items ≡ map platform_in linked_platforms.items) }
    ensures clocks { IfOk result (λ p.
        map C.readings p.clocks.items ≡ map readings_in linked_platforms.items) }
    ensures outlets { IfOk result (λ p.
        AreReturned (plan_graph J.plan) leaves
        (IsSentBy J.link) 0 linked_platforms.items p.outlets.items) }
    ensures inlets { IfOk result (λ p.
        AreReturned (plan_graph J.plan) receiving_platform
        (IsTakenBy J.link) 0 linked_platforms.items p.inlets.items) }
    ensures count { IfOk result (λ p. (vec_len p.outlets ≡ links) × (vec_len p.inlets ≡ links)) }
    ensures of_run { IfOk result (λ p.
        AreLinkedPlatforms J.plan J.rows J.link J.began J.fixed 0 linked_platforms.items) }
{
    let mut outlets = empty_places(alloc, links)?;
    let mut inlets = empty_places(alloc, links)?;
    let mut platforms = Vec::with_capacity(alloc, linked_platforms.len())?;
    let mut clocks = Vec::with_capacity(alloc, linked_platforms.len())?;
    while let Some(linked) = linked_platforms.pop() {
        let parts = linked.into_parts();
        let Parts {
            platform,
            clock,
            outlets: sending,
            inlets: taking,
        } = parts;
        lay(sending, &mut outlets);
        lay(taking, &mut inlets);
        platforms.push_reserved(platform);
        clocks.push_reserved(clock);
    }
    platforms.as_mut_slice().reverse();
    clocks.as_mut_slice().reverse();
    Ok(Pieces {
        platforms,
        clocks,
        outlets,
        inlets,
    })
}

/// Settles each link of which both ends are there.
fn settle_all<R: Wait>(rt: &R, mut outlets: Vec<Option<Outlet>>, mut inlets: Vec<Option<Inlet>>)
    requires count { vec_len inlets ≡ vec_len outlets }
    requires ends { AreOfOneLink outlets.items inlets.items }
    ensures { AreSettled 0 outlets.items inlets.items }
{
    while let Some(outlet) = outlets.pop() {
        let Some(inlet) = inlets.pop() else {
            unreachable!()
        };
        settle_one(rt, outlet, inlet);
    }
}

/// Settles a link if both of its ends are there.
fn settle_one<R: Wait>(rt: &R, outlet: Option<Outlet>, inlet: Option<Inlet>)
    requires { IfSome outlet (λ o. IfSome inlet (λ i. i.link ≡ o.link)) }
    ensures { IfSome outlet (λ o. IfSome inlet (λ i. LinkIsSettled o i)) }
{
    if let (Some(outlet), Some(inlet)) = (outlet, inlet) {
        let _settled = settle(rt, outlet, inlet);
    }
}
