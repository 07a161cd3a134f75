//! The wires that leave each unit.

ghost use Rattle.std.specs.Prelude.{◌≡◌, ◌<◌, ◌≤◌, ◌^◌, ◌++◌, ◌∷◌, [], ℕ, IfOk, OnOk, filter, length, map};
ghost use Rattle.pt_types.specs.declared.graph.Graph.{Graph};
ghost use Rattle.pt_semantics.specs.Edges.{Edge};
ghost use Rattle.pt_types.specs.Lookups.{kind_of};
ghost use Rattle.pt_semantics.specs.Lists.{IsIn};
ghost use Rattle.pt_semantics.specs.Units.{groups, source, target};
ghost use Rattle.pt_types.specs.Groups.{cell_of, input_group, output_group};
ghost use Rattle.pt_causality.specs.Cells.{number_in};
ghost use Rattle.pt_causality.specs.Arcs.{arcs_from, arc_of, leaves_place};

use crate::units::Numbers;
use pt_tags::Delay;
use pt_types::{Edge, Graph, Kind, Unit};
use std::alloc::{AllocError, Global};
use std::marker::Model;

/// A wire to the unit with number `to`.
#[derive(Clone, Copy)]
pub struct Arc {
    pub to: u32,
    pub weight: Delay,
}

/// The wires that leave one unit. Contracts see the list of them.
#[derive(Drop)]
pub struct Leaving {
    arcs: Vec<Arc>,
}

impl Model for Leaving {
    ghost use Rattle.std.specs.Prelude.{List as Items};
    ghost use Rattle.pt_causality.specs.declared.arcs.Arc.{Arc as Item};

    ghost Value = { Items Item };

    ghost view = { λ l. l.arcs.items };
}

impl Leaving {
    pub fn new(alloc: Global) -> Leaving
        ensures { result ≡ [] }
    {
        Leaving {
            arcs: Vec::new(alloc),
        }
    }

    pub fn as_slice(&self) -> &[Arc]
        ensures { result.now ≡ self.now }
    {
        self.arcs.as_slice()
    }

    fn push(&mut self, arc: Arc) -> Result<(), AllocError>
        ensures { OnOk result (self.new ≡ self.old ++ arc ∷ []) }
    {
        self.arcs.push(arc)?;
        Ok(())
    }
}

/// The cell of lanes with this input, or the number of cells if the input is past all of them.
fn cell_of(cells: &[u32], input: u32) -> u32
    requires { length cells.now < 2 ^ 32 }
    ensures { result ≡ cell_of cells.now input }
{
    let mut left = input;
    for (cell, inputs) in cells.iter().enumerate() {
        if left < *inputs {
            return cell as u32;
        }
        left -= *inputs;
    }
    cells.len() as u32
}

fn input_group(kind: &Kind, input: u32) -> u32
    requires { groups kind.now < 2 ^ 32 }
    ensures { result ≡ input_group kind.now input }
{
    match kind {
        Kind::Lanes { cells } => cell_of(cells.as_slice(), input),
        _ => 0,
    }
}

/// The unit that an edge leaves.
fn source(graph: &Graph, edge: &Edge) -> Unit
    ensures { result ≡ source graph.now edge.now }
{
    let group = match graph.actors.as_slice().get(edge.from as usize) {
        Some(actor) => actor.kind.output_group(edge.output),
        None => 0,
    };
    Unit {
        actor: edge.from,
        group,
    }
}

/// The unit that an edge enters.
fn target(graph: &Graph, edge: &Edge) -> Unit
    requires { groups (kind_of graph.now edge.now.to) < 2 ^ 32 }
    ensures { result ≡ target graph.now edge.now }
{
    let group = match graph.actors.as_slice().get(edge.to as usize) {
        Some(actor) => input_group(&actor.kind, edge.input),
        None => 0,
    };
    Unit {
        actor: edge.to,
        group,
    }
}

/// A list for each of `count` units, with no wires.
fn none_leaving(alloc: Global, count: u32) -> Result<Vec<Leaving>, AllocError>
    ensures len { IfOk result (λ v. length v.items ≡ count) }
    ensures none { IfOk result (λ v. (j : ℕ) → arcs_from v.items j ≡ []) }
{
    let mut all = Vec::new(alloc);
    for _ in 0..count {
        all.push(Leaving::new(alloc))?;
    }
    Ok(all)
}

/// The wires that leave each unit, in order; lists are by the numbers of the units.
pub fn arcs_by_unit(
    alloc: Global,
    graph: &Graph,
    numbers: &Numbers,
    wires: &[Edge],
) -> Result<Vec<Leaving>, AllocError>
    requires groups { (a : ℕ) → groups (kind_of graph.now a) < 2 ^ 32 }
    requires count { numbers.now.count < 2 ^ 32 }
    requires sources { (e : Edge) → IsIn e wires.now →
        number_in numbers.now.firsts.items (source graph.now e) < numbers.now.count }
    requires targets { (e : Edge) → IsIn e wires.now →
        number_in numbers.now.firsts.items (target graph.now e) < numbers.now.count }
    ensures len { IfOk result (λ v. length v.items ≡ numbers.now.count) }
    ensures arcs { IfOk result (λ v. (j : ℕ) → j < numbers.now.count →
        arcs_from v.items j ≡ map (arc_of graph.now numbers.now.firsts.items)
        (filter (leaves_place graph.now numbers.now.firsts.items j) wires.now)) }
{
    let mut all = none_leaving(alloc, numbers.count)?;
    for wire in wires {
        let from = numbers.of(source(graph, wire));
        let to = numbers.of(target(graph, wire));
        let leaving = &mut all[from];
        leaving.push(Arc {
            to: to as u32,
            weight: wire.weight,
        })?;
    }
    Ok(all)
}
