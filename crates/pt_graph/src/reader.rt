//! The graph of a text.

ghost use Rattle.std.specs.Prelude.{◌≡◌, ◌++◌, IfOk, option_map};
ghost use Rattle.pt_types.specs.Lawful.{IsLawful};
ghost use Rattle.pt_graph_text.specs.Faults.{Gives};
ghost use Rattle.pt_graph_text.specs.declared.fault.GraphFault.TheVariants as fault;
ghost use Rattle.pt_graph.specs.Chains.{refused};
ghost use Rattle.pt_graph.specs.Ranges.{range_place};
ghost use Rattle.pt_graph.specs.Naming.{name_place};
ghost use Rattle.pt_graph.specs.Known.{repeated_place, unknown_by};
ghost use Rattle.pt_graph.specs.Index.{at_name};
ghost use Rattle.pt_graph.specs.Checking.{document_of_bytes, GivesNumbers, GivesWiring};
ghost use Rattle.pt_graph.specs.EndFaults.{block_place};
ghost use Rattle.pt_graph.specs.Graphs.{actors_of, wires_of, links_of, graph_with, whole_graph};
ghost use Rattle.pt_graph.specs.GraphOf.{built, graph_in, graph_of};

use crate::blocks::block_place;
use crate::convert::{actors_of, links_of, pairs_of, platforms_of, wires_of};
use crate::ends::{check_ends, refuse, with_hidden};
use crate::index::numbers;
use crate::known::{repeated_place, unknown_place};
use crate::limits::too_many;
use crate::naming::name_place;
use crate::ranges::range_place;
use pt_blocks::{Blocks, Named};
use pt_graph_text::{Document, GraphFault, TopNumbers, read_document};
use pt_tags::{List, Name};
use pt_types::{Actor, Graph, Link, MOST_GRAPH_BYTES, PairError, USUAL_CLAIMS, Wire};
use std::alloc::{AllocError, Global};
use std::collections::BTreeMap;

/// The graph of a text, or its first fault in the order of the checks.
///
/// Actors may name the blocks in `blocks`. If actor 2 is a block named `mean`, it has the law of that block; if `blocks` has none
/// of that name, and nothing else is wrong, the fault is `Block` at actor 2.
#[tactic(auto, unfolding(crate::specs::GraphOf::graph_of), using(crate::proofs::Lawful::lawful_result))]
pub fn read_graph(alloc: Global, bytes: &[u8], blocks: &Blocks) -> Result<Graph, GraphFault>
    ensures graph { Gives (graph_of blocks.now.listed.items bytes.now) result }
    ensures lawful { IfOk result IsLawful }
{
    if bytes.len() > MOST_GRAPH_BYTES {
        return Err(GraphFault::TooLong);
    }
    graph_in(alloc, bytes, blocks.listed())
}

fn graph_in(alloc: Global, bytes: &[u8], listed: &[Named]) -> Result<Graph, GraphFault>
    ensures { Gives (graph_in listed.now bytes.now) result }
{
    let document = document(alloc, bytes)?;
    let wiring = wired(alloc, &document)?;
    build(alloc, document, wiring, listed)
}

/// The document of the bytes, which must be UTF-8.
fn document(alloc: Global, bytes: &[u8]) -> Result<Document, GraphFault>
    ensures { Gives (document_of_bytes bytes.now) result }
{
    match str::from_utf8(bytes) {
        Ok(text) => read_document(alloc, text),
        Err(_) => Err(GraphFault::NotJson),
    }
}

/// The wires and links of a document, with numbers of actors.
struct Wiring {
    wires: Vec<Wire>,
    links: Vec<Link>,
}

/// The wires and links of a document, if it passes its checks.
fn wired(alloc: Global, document: &Document) -> Result<Wiring, GraphFault>
    ensures { GivesWiring document.now result }
{
    let numbers = check(alloc, document)?;
    let wires = wires_of(alloc, &numbers, document.wires.as_slice())?;
    let links = links_of(alloc, &numbers, document.links.as_slice())?;
    Ok(Wiring { wires, links })
}

/// Checks a document, from its limits to its unknown names. Gives the numbers of its actors if it passes.
#[tactic(auto, unfolding(crate::specs::GraphOf::checked))]
fn check<'a>(alloc: Global, document: &'a Document) -> Result<BTreeMap<&'a str, usize>, GraphFault>
    ensures { GivesNumbers document.now result }
{
    refuse(too_many(document))?;
    refuse(range_fault(document))?;
    refuse(name_fault(document))?;
    check_repeated(alloc, document)?;
    let numbers = numbers(alloc, document.actors.as_slice())?;
    refuse(unknown_fault(document, &numbers))?;
    Ok(numbers)
}

fn range_fault(document: &Document) -> Option<GraphFault>
    ensures { result ≡ option_map fault.Range (range_place document.now) }
{
    range_place(document).map(GraphFault::Range)
}

fn name_fault(document: &Document) -> Option<GraphFault>
    ensures { result ≡ option_map fault.Name (name_place document.now) }
{
    name_place(document).map(GraphFault::Name)
}

fn check_repeated(alloc: Global, document: &Document) -> Result<(), GraphFault>
    ensures { Gives (refused (option_map fault.Repeated (repeated_place document.now))) result }
{
    match repeated_place(alloc, document)? {
        Some(place) => Err(GraphFault::Repeated(place)),
        None => Ok(()),
    }
}

fn unknown_fault<'a>(
    document: &'a Document,
    numbers: &BTreeMap<&'a str, usize>,
) -> Option<GraphFault>
    ensures { result ≡ option_map fault.Unknown (unknown_by (at_name numbers.now) document.now) }
{
    unknown_place(document, numbers).map(GraphFault::Unknown)
}

fn block_fault(document: &Document, listed: &[Named]) -> Option<GraphFault>
    ensures { result ≡ option_map fault.Block (block_place listed.now document.now) }
{
    block_place(listed, document).map(GraphFault::Block)
}

/// The graph of a document that passed these checks.
#[tactic(auto, unfolding(crate::specs::GraphOf::built))]
fn build(
    alloc: Global,
    document: Document,
    wiring: Wiring,
    listed: &[Named],
) -> Result<Graph, GraphFault>
    requires wires { wiring.wires.items ≡ wires_of document }
    requires links { wiring.links.items ≡ links_of document }
    ensures { Gives (built listed.now document) result }
{
    let Wiring { wires, links } = wiring;
    let actors = actors_of(alloc, listed, &document)?;
    check_ends(alloc, actors.as_slice(), wires.as_slice(), links.as_slice())?;
    refuse(block_fault(&document, listed))?;
    Ok(graph(alloc, document, actors, wires, links)?)
}

/// The graph of these parts, with the hidden wires added.
fn graph(
    alloc: Global,
    document: Document,
    actors: Vec<Actor>,
    wires: Vec<Wire>,
    links: Vec<Link>,
) -> Result<Graph, AllocError>
    ensures { IfOk result (λ g. g ≡ graph_with document actors.items wires.items links.items) }
{
    let clock_errors = pairs_of(alloc, &document)?;
    let wires = with_hidden(wires, actors.as_slice())?;
    let platforms = platforms_of(alloc, document.platforms.as_slice())?;
    Ok(whole(
        document.head,
        List::new(platforms),
        actors,
        wires,
        links,
        clock_errors,
    ))
}

#[tactic(auto, unfolding(crate::specs::Graphs::whole_graph))]
fn whole(
    head: TopNumbers,
    platforms: List<Name>,
    actors: Vec<Actor>,
    wires: Vec<Wire>,
    links: Vec<Link>,
    clock_errors: Vec<PairError>,
) -> Graph
    ensures { result ≡ whole_graph head platforms actors.items wires.items links.items
        clock_errors.items }
{
    Graph {
        until: head.until.unsigned_abs(),
        clock_error: head.clock_error.unsigned_abs(),
        claims: USUAL_CLAIMS,
        platforms,
        actors: List::new(actors),
        wires: List::new(wires),
        links: List::new(links),
        clock_errors: List::new(clock_errors),
    }
}
