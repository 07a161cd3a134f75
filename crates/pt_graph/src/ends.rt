//! The ends of wires and links.

ghost use Rattle.std.specs.Prelude.{◌≡◌, ◌++◌, ℕ, [], position, not, option_map, IfOk};
ghost use Rattle.std.specs.List.{count_by};
ghost use Rattle.pt_types.specs.Groups.{actor_at};
ghost use Rattle.pt_types.specs.Ends.{ends_fit, stays_home, unfed_from, first_unfed, is_send, is_receive, link_fits, has_end, links_fit, misfit_from, hidden_wire, hidden_wires};
ghost use Rattle.pt_graph_text.specs.declared.fault.GraphFault.TheVariants as fault;
ghost use Rattle.pt_graph_text.specs.declared.fault.Part.TheVariants as part;
ghost use Rattle.pt_graph.specs.Chains.{found, refused};
ghost use Rattle.pt_graph.specs.EndFaults.{bad_wire, unfed_at, link_place, feeding, checked_ends};
ghost use Rattle.pt_graph.specs.Index.{has_input};
ghost use Rattle.pt_graph_text.specs.Faults.{Gives};

use crate::index::{Twice, fed_inputs};
use crate::ranges::found;
use pt_graph_text::{GraphFault, Part, place};
use pt_types::{Actor, Kind, Link, Wire};
use std::alloc::{AllocError, Global};
use std::collections::HashSet;

/// Checks the wires and links.
#[tactic(auto, unfolding(crate::specs::EndFaults::checked_ends))]
pub fn check_ends(
    alloc: Global,
    actors: &[Actor],
    wires: &[Wire],
    links: &[Link],
) -> Result<(), GraphFault>
    ensures { Gives (checked_ends actors.now wires.now links.now) result }
{
    refuse(wire_end(actors, wires))?;
    refuse(cross_wire(actors, wires))?;
    check_feeding(alloc, actors, wires)?;
    refuse(link_end(actors, links))
}

/// The fault as an error, if there is one.
pub fn refuse(fault: Option<GraphFault>) -> Result<(), GraphFault>
    ensures { result ≡ refused fault }
{
    match fault {
        Some(fault) => Err(fault),
        None => Ok(()),
    }
}

/// Checks that each input is fed by exactly one wire.
#[tactic(auto, unfolding(crate::specs::EndFaults::feeding))]
fn check_feeding(alloc: Global, actors: &[Actor], wires: &[Wire]) -> Result<(), GraphFault>
    ensures { Gives (feeding actors.now wires.now) result }
{
    match fed_inputs(alloc, wires) {
        Ok(fed) => refuse(unfed_fault(&fed, actors)),
        Err(Twice::At(index)) => Err(GraphFault::FedTwice(place(Part::Wire, index))),
        Err(Twice::Memory) => Err(GraphFault::Memory),
    }
}

fn wire_end(actors: &[Actor], wires: &[Wire]) -> Option<GraphFault>
    ensures { result ≡ option_map fault.WireEnd (bad_wire (ends_fit actors.now) wires.now) }
{
    found(Part::Wire, loose(actors, wires)).map(GraphFault::WireEnd)
}

fn loose(actors: &[Actor], wires: &[Wire]) -> Option<usize>
    ensures { result ≡ position (λ w. not (ends_fit actors.now w)) wires.now }
{
    wires.iter().position(|w| !ends_fit(actors, w))
}

/// Whether both ends of a wire are visible ports; those of a hidden wire are not. An add has inputs 0 and 1: a wire to its input
/// 2 does not fit.
pub fn ends_fit(actors: &[Actor], wire: &Wire) -> bool
    ensures { result ≡ ends_fit actors.now wire.now }
{
    wire.output < outputs_at(actors, wire.from) && wire.input < inputs_at(actors, wire.to)
}

fn outputs_at(actors: &[Actor], actor: u32) -> u32
    ensures { result ≡ (actor_at actors.now actor).outputs }
{
    match actors.get(actor as usize) {
        Some(actor) => actor.outputs,
        None => 0,
    }
}

fn inputs_at(actors: &[Actor], actor: u32) -> u32
    ensures { result ≡ (actor_at actors.now actor).inputs }
{
    match actors.get(actor as usize) {
        Some(actor) => actor.inputs,
        None => 0,
    }
}

fn platform_at(actors: &[Actor], actor: u32) -> u32
    ensures { result ≡ (actor_at actors.now actor).platform }
{
    match actors.get(actor as usize) {
        Some(actor) => actor.platform,
        None => 0,
    }
}

fn cross_wire(actors: &[Actor], wires: &[Wire]) -> Option<GraphFault>
    ensures { result ≡ option_map fault.CrossWire (bad_wire (stays_home actors.now) wires.now) }
{
    found(Part::Wire, crossing(actors, wires)).map(GraphFault::CrossWire)
}

fn crossing(actors: &[Actor], wires: &[Wire]) -> Option<usize>
    ensures { result ≡ position (λ w. not (stays_home actors.now w)) wires.now }
{
    wires.iter().position(|w| !stays_home(actors, w))
}

fn stays_home(actors: &[Actor], wire: &Wire) -> bool
    ensures { result ≡ stays_home actors.now wire.now }
{
    platform_at(actors, wire.from) == platform_at(actors, wire.to)
}

/// The first of an actor's `inputs` inputs that is not in the set.
fn unfed_port(fed: &HashSet<(usize, u32)>, actor: usize, inputs: u32) -> Option<u32>
    ensures { result ≡ unfed_from (has_input fed.now actor) 0 inputs }
{
    for port in 0..inputs {
        if !fed.contains(&(actor, port)) {
            return Some(port);
        }
    }
    None
}

fn unfed_fault(fed: &HashSet<(usize, u32)>, actors: &[Actor]) -> Option<GraphFault>
    ensures { result ≡ option_map unfed_at (first_unfed (has_input fed.now) 0 actors.now) }
{
    match unfed(fed, actors) {
        Some((actor, port)) => Some(unfed_at(actor, port)),
        None => None,
    }
}

fn unfed_at(actor: usize, port: u32) -> GraphFault
    ensures { result ≡ unfed_at (actor, port) }
{
    GraphFault::Unfed {
        actor: actor.min(u32::MAX as usize) as u32,
        port,
    }
}

/// The first actor with an unfed input, and that input.
fn unfed(fed: &HashSet<(usize, u32)>, actors: &[Actor]) -> Option<(usize, u32)>
    ensures { result ≡ first_unfed (has_input fed.now) 0 actors.now }
{
    for (i, actor) in actors.iter().enumerate() {
        if let Some(port) = unfed_port(fed, i, actor.inputs) {
            return Some((i, port));
        }
    }
    None
}

fn link_end(actors: &[Actor], links: &[Link]) -> Option<GraphFault>
    ensures { result ≡ option_map fault.LinkEnd (link_place actors.now links.now) }
{
    found(Part::Link, stray(actors, links))
        .or(found(Part::Actor, misfit(actors, links)))
        .map(GraphFault::LinkEnd)
}

fn stray(actors: &[Actor], links: &[Link]) -> Option<usize>
    ensures { result ≡ position (λ l. not (link_fits actors.now l)) links.now }
{
    links.iter().position(|l| !link_fits(actors, l))
}

fn link_fits(actors: &[Actor], link: &Link) -> bool
    ensures { result ≡ link_fits actors.now link.now }
{
    is_send_at(actors, link.from)
        && is_receive_at(actors, link.to)
        && platform_at(actors, link.from) != platform_at(actors, link.to)
}

fn is_send_at(actors: &[Actor], actor: u32) -> bool
    ensures { result ≡ is_send (actor_at actors.now actor).kind }
{
    match actors.get(actor as usize) {
        Some(actor) => is_send(&actor.kind),
        None => false,
    }
}

fn is_receive_at(actors: &[Actor], actor: u32) -> bool
    ensures { result ≡ is_receive (actor_at actors.now actor).kind }
{
    match actors.get(actor as usize) {
        Some(actor) => is_receive(&actor.kind),
        None => true,
    }
}

fn is_send(kind: &Kind) -> bool
    ensures { result ≡ is_send kind.now }
{
    match kind {
        Kind::Send { .. } => true,
        _ => false,
    }
}

fn is_receive(kind: &Kind) -> bool
    ensures { result ≡ is_receive kind.now }
{
    match kind {
        Kind::Receive => true,
        _ => false,
    }
}

/// The first sender or receiver that does not have exactly one link.
fn misfit(actors: &[Actor], links: &[Link]) -> Option<usize>
    ensures { result ≡ misfit_from links.now 0 actors.now }
{
    for (i, actor) in actors.iter().enumerate() {
        if !links_fit(links, i, &actor.kind) {
            return Some(i);
        }
    }
    None
}

fn links_fit(links: &[Link], actor: usize, kind: &Kind) -> bool
    ensures { result ≡ links_fit links.now actor kind.now }
{
    !(is_send(kind) || is_receive(kind)) || links_of(links, actor) == 1
}

/// The number of links that begin or end at this actor.
fn links_of(links: &[Link], actor: usize) -> usize
    ensures { result ≡ count_by (has_end actor) links.now }
{
    links.iter().filter(|l| has_end(actor, l)).count()
}

fn has_end(actor: usize, link: &Link) -> bool
    ensures { result ≡ has_end actor link.now }
{
    link.from as usize == actor || link.to as usize == actor
}

/// The wires of the file, and then the hidden ones.
pub fn with_hidden(wires: Vec<Wire>, actors: &[Actor]) -> Result<Vec<Wire>, AllocError>
    ensures { IfOk result (λ v. v.items ≡ wires.items ++ hidden_wires 0 actors.now) }
{
    let mut all = wires;
    for (i, actor) in actors.iter().enumerate() {
        if let Some(wire) = hidden_wire(i, &actor.kind) {
            all.push(wire)?;
        }
    }
    Ok(all)
}

/// The hidden wire of an actor with this number and kind, if it has one.
fn hidden_wire(i: usize, kind: &Kind) -> Option<Wire>
    ensures { result ≡ hidden_wire i kind.now }
{
    let number = i.min(u32::MAX as usize) as u32;
    match kind {
        Kind::Every { .. } => Some(Wire {
            from: number,
            output: 1,
            to: number,
            input: 0,
        }),
        _ => None,
    }
}
